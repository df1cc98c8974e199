// What a step, a run and a fresh run answer.
ghost use Rattle.std.specs.Prelude.{◌≡◌};
ghost use Rattle.answers.specs.Run.{number_of, place_of, lane_of};

// What a call answers; specs/Run has 01's number and place for each, and the lane of 02's ask 3. No Result: each answer goes with the steps made and the
// machine (`Ran`), and a spent run can be taken up again. A refused step has its number, 01's, by which the model names it, and its lane.
#[derive(Clone, Copy, Debug, PartialEq, Eq)]
pub enum Answer {
    BadFile(usize, usize),
    NotAState,
    Went,
    Finished,
    Spent,
    Refused(u32, u32),
}

impl Answer {
    // The number that is given back.
    pub fn number(self) -> usize
        ensures { result ≡ number_of self }
    {
        match self {
            Answer::BadFile(number, _) => number,
            Answer::NotAState => 37,
            Answer::Went | Answer::Finished => 0,
            Answer::Spent => 50,
            Answer::Refused(number, _) => number as usize,
        }
    }

    // The place that goes with it, where the machine is at op `at`.
    pub fn place(self, at: usize) -> usize
        ensures { result ≡ place_of self at }
    {
        match self {
            Answer::BadFile(_, place) => place,
            Answer::NotAState => 0,
            Answer::Went | Answer::Finished | Answer::Spent | Answer::Refused(_, _) => at,
        }
    }

    // The first lane that could not be had, where 21, 22 or 23 is answered.
    pub fn lane(self) -> usize
        ensures { result ≡ lane_of self }
    {
        match self {
            Answer::Refused(_, lane) => lane as usize,
            _ => 0,
        }
    }
}
