// What a case of a list says, read from its front (docs/REPLAY.md).
ghost use Rattle.std.specs.Prelude.{◌<◌};

use machine::machine::Machine;

// The bounds that a list keeps: the bytes of a patch, which may be one more than the longest file has, and of a case beside it; what a run is
// lent; the entries of a stack that are given; and the room for a joining or a flattening.
pub const PATCH: usize = Machine::FILE + 1;

pub const CASE: usize = 327680;

pub const INPUTS: usize = 256;

pub const CELLS: usize = 32768;

pub const LANES: usize = 1026;

pub const ENTRIES: usize = 258;

pub const PLACES: usize = 258;

pub const OUTPUTS: usize = 4096;

pub const COUNTS: usize = Machine::OPS + 2;

pub const SAVED: usize = 256;

pub const ROOM: usize = 65552;

pub const BODIES: usize = 264;

// A case that is cut short, too long or not in the form of a list.
#[derive(Clone, Copy)]
pub struct Damaged;

// The bytes of a case that are still to be read.
#[derive(Drop)]
pub struct Reader<'a> {
    rest: &'a [u8],
}

impl<'a> Reader<'a> {
    pub fn new(case: &'a [u8]) -> Reader<'a> {
        Reader { rest: case }
    }

    // The next n bytes.
    fn bytes(&mut self, n: usize) -> Result<&'a [u8], Damaged> {
        let (front, rest) = self.rest.split_at_checked(n).ok_or(Damaged)?;
        self.rest = rest;
        Ok(front)
    }

    fn array<const N: usize>(&mut self) -> Result<[u8; N], Damaged> {
        let (front, rest) = self.rest.split_first_chunk::<N>().ok_or(Damaged)?;
        self.rest = rest;
        Ok(*front)
    }

    // A byte, a number and a value: each is a line, as the library has from_le_bytes in each type and in no trait.
    pub fn byte(&mut self) -> Result<u8, Damaged> {
        Ok(u8::from_le_bytes(self.array()?))
    }

    pub fn number(&mut self) -> Result<u32, Damaged> {
        Ok(u32::from_le_bytes(self.array()?))
    }

    // The same as a length or a place.
    pub fn word(&mut self) -> Result<usize, Damaged> {
        Ok(self.number()? as usize)
    }

    pub fn value(&mut self) -> Result<u64, Damaged> {
        Ok(u64::from_le_bytes(self.array()?))
    }

    // n records of N bytes each.
    pub fn records<const N: usize>(&mut self, n: usize) -> Result<&'a [[u8; N]], Damaged>
        requires { 0 < N }
    {
        let bytes = self.bytes(n.checked_mul(N).ok_or(Damaged)?)?;
        Ok(bytes.as_chunks().0)
    }

    // A count, then so many records.
    pub fn counted<const N: usize>(&mut self) -> Result<&'a [[u8; N]], Damaged>
        requires { 0 < N }
    {
        let n = self.word()?;
        self.records(n)
    }

    // A count, then so many bytes.
    pub fn text(&mut self) -> Result<&'a [u8], Damaged> {
        let n = self.word()?;
        self.bytes(n)
    }

    // There is nothing more.
    pub fn end(&self) -> Result<(), Damaged> {
        if self.rest.is_empty() {
            Ok(())
        } else {
            Err(Damaged)
        }
    }
}
