// What flattening answers.
ghost use Rattle.std.specs.Prelude.{◌≡◌};
ghost use Rattle.answers.specs.Flatten.{bad_file, number_of, place_of, bytes_of, bodies_of};

use crate::numbered::Numbered;
use patch_reader::reader::Unread;

// What was written: ops, bytes, and entries of function bodies.
#[derive(Clone, Copy, Debug, PartialEq, Eq)]
pub struct Flattened {
    pub ops: usize,
    pub bytes: usize,
    pub bodies: usize,
}

// Why nothing was: the refusal of a bad file, its number and its byte; an End with no open bracket, its op; or lent room too short.
#[derive(Clone, Copy, Debug, PartialEq, Eq)]
pub enum FlattenError {
    BadFile { number: usize, place: usize },
    NoOpenEnd { op: usize },
    NoRoom,
}

impl From<Unread> for FlattenError {
    ghost from_gives = { λ unread error. error ≡ bad_file unread };

    fn from(unread: Unread) -> FlattenError {
        FlattenError::BadFile {
            number: unread.number,
            place: unread.place,
        }
    }
}

impl Numbered for Result<Flattened, FlattenError> {
    ghost number = { number_of };

    ghost place = { place_of };

    fn number(self) -> usize {
        match self {
            Ok(_) => 0,
            Err(FlattenError::BadFile { number, place: _ }) => number,
            Err(FlattenError::NoOpenEnd { op: _ }) => 10,
            Err(FlattenError::NoRoom) => 40,
        }
    }

    fn place(self) -> usize {
        match self {
            Ok(flattened) => flattened.ops,
            Err(FlattenError::BadFile { number: _, place }) => place,
            Err(FlattenError::NoOpenEnd { op }) => op,
            Err(FlattenError::NoRoom) => 0,
        }
    }
}

// The bytes and the entries that were written; none where flattening is refused. A field each, by a match of its own.
pub fn bytes_of(answer: Result<Flattened, FlattenError>) -> usize
    ensures { result ≡ bytes_of answer }
{
    match answer {
        Ok(flattened) => flattened.bytes,
        Err(_) => 0,
    }
}

pub fn bodies_of(answer: Result<Flattened, FlattenError>) -> usize
    ensures { result ≡ bodies_of answer }
{
    match answer {
        Ok(flattened) => flattened.bodies,
        Err(_) => 0,
    }
}
