// What the check answers.
ghost use Rattle.std.specs.Prelude.{◌≡◌};
ghost use Rattle.answers.specs.Check.{bad_file, number_of, place_of};

use crate::numbered::Numbered;
use patch_reader::reader::Unread;

// Why a patch does not pass: the refusal of a bad file, its number and its byte; or the op that breaks a rule: an End or an Else with no open
// bracket, too few known lanes, a bracket that is never closed.
#[derive(Clone, Copy, Debug, PartialEq, Eq)]
pub enum CheckError {
    BadFile { number: usize, place: usize },
    NoOpenEnd { op: usize },
    NoOpenElse { op: usize },
    FewLanes { op: usize },
    NeverClosed { op: usize },
}

// Each call that reads a file has an error of its own, and so its own way from the reader's.
impl From<Unread> for CheckError {
    ghost from_gives = { λ unread error. error ≡ bad_file unread };

    fn from(unread: Unread) -> CheckError {
        CheckError::BadFile {
            number: unread.number,
            place: unread.place,
        }
    }
}

// Of a patch that passed, how many ops it has.
pub type Verdict = Result<usize, CheckError>;

impl Numbered for Verdict {
    ghost number = { number_of };

    ghost place = { place_of };

    fn number(self) -> usize {
        match self {
            Ok(_) => 0,
            Err(CheckError::BadFile { number, place: _ }) => number,
            Err(CheckError::NoOpenEnd { op: _ }) => 10,
            Err(CheckError::NoOpenElse { op: _ }) => 11,
            Err(CheckError::FewLanes { op: _ }) => 12,
            Err(CheckError::NeverClosed { op: _ }) => 13,
        }
    }

    fn place(self) -> usize {
        match self {
            Ok(ops) => ops,
            Err(CheckError::BadFile { number: _, place }) => place,
            Err(
                CheckError::NoOpenEnd { op }
                | CheckError::NoOpenElse { op }
                | CheckError::FewLanes { op }
                | CheckError::NeverClosed { op },
            ) => op,
        }
    }
}
