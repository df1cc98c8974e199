// What joining answers.
ghost use Rattle.std.specs.Prelude.{◌≡◌};
ghost use Rattle.answers.specs.Join.{bad_file, number_of, place_of, length_of};

use crate::numbered::Numbered;
use patch_reader::reader::Unread;

// What was written: its op count and its byte length.
#[derive(Clone, Copy, Debug, PartialEq, Eq)]
pub struct Joined {
    pub ops: usize,
    pub bytes: usize,
}

// Why nothing was: the file's own refusal, its number and its byte; or lent room too short.
#[derive(Clone, Copy, Debug, PartialEq, Eq)]
pub enum JoinError {
    BadFile { number: usize, place: usize },
    NoRoom,
}

impl From<Unread> for JoinError {
    ghost from_gives = { λ unread error. error ≡ bad_file unread };

    fn from(unread: Unread) -> JoinError {
        JoinError::BadFile {
            number: unread.number,
            place: unread.place,
        }
    }
}

impl Numbered for Result<Joined, JoinError> {
    ghost number = { number_of };

    ghost place = { place_of };

    fn number(self) -> usize {
        match self {
            Ok(_) => 0,
            Err(JoinError::BadFile { number, place: _ }) => number,
            Err(JoinError::NoRoom) => 40,
        }
    }

    fn place(self) -> usize {
        match self {
            Ok(joined) => joined.ops,
            Err(JoinError::BadFile { number: _, place }) => place,
            Err(JoinError::NoRoom) => 0,
        }
    }
}

// The bytes that were written; none where joining is refused.
pub fn length_of(answer: Result<Joined, JoinError>) -> usize
    ensures { result ≡ length_of answer }
{
    match answer {
        Ok(joined) => joined.bytes,
        Err(_) => 0,
    }
}
