// Why a file is refused, and where.
ghost use Rattle.std.specs.Prelude.{◌≡◌};
ghost use Rattle.ops.specs.Refusals.{number_of, fault};

#[derive(Clone, Copy, PartialEq, Eq, Debug)]
pub enum Refusal {
    CutShort,
    WrongLength,
    UnknownKind,
    LeftOut,
    TooManyLanes,
    WrongNumber,
    TooManyOps,
    TooManyMarks,
    FileTooLong,
}

// A refusal, and the first byte of what is refused.
#[derive(Clone, Copy, PartialEq, Eq, Debug)]
pub struct Fault {
    pub refusal: Refusal,
    pub place: usize,
}

impl Refusal {
    // The number that is given back for it.
    #[tactic(auto, unfolding(crate::specs::Refusals::number_of))]
    pub fn number(self) -> usize
        ensures { result ≡ number_of self }
    {
        match self {
            Refusal::CutShort => 1,
            Refusal::WrongLength => 2,
            Refusal::UnknownKind => 3,
            Refusal::LeftOut => 4,
            Refusal::TooManyLanes => 5,
            Refusal::WrongNumber => 6,
            Refusal::TooManyOps => 7,
            Refusal::TooManyMarks => 8,
            Refusal::FileTooLong => 9,
        }
    }

    // The fault that it is at a byte.
    pub fn at(self, place: usize) -> Fault
        ensures { result ≡ fault self place }
    {
        Fault {
            refusal: self,
            place,
        }
    }
}
