// The six slices of a run as a case has them: laid down as they are given, and compared with what is expected of them.
use crate::list::{Damaged, Reader};
use crate::tell::Tell;
use byte_fields::read::{u32_at, u64_at};

// What a case has of a slice.
pub trait Part<'a>: Sized {
    fn read(reader: &mut Reader<'a>) -> Result<Self, Damaged>;
}

// The contents of a slice: those of its entries that are not zero, the index and the value of each.
#[derive(Clone, Copy)]
pub struct Contents<'a> {
    entries: &'a [[u8; 12]],
}

impl<'a> Part<'a> for Contents<'a> {
    fn read(reader: &mut Reader<'a>) -> Result<Contents<'a>, Damaged> {
        Ok(Contents {
            entries: reader.counted()?,
        })
    }
}

impl Contents<'_> {
    // Whether a slice has these contents, and is zero elsewhere.
    pub fn same(self, tell: Tell, what: &[u8], came: &[u64]) -> bool {
        let mut left = self.entries;
        for (i, &came) in came.iter().enumerate() {
            let mut expected = 0;
            if let Some((entry, rest)) = left.split_first() {
                if u32_at(entry, 0) == i {
                    expected = u64_at(entry, 4);
                    left = rest;
                }
            }
            if !tell.same_at(what, i, expected, came) {
                return false;
            }
        }
        tell.same(b"entries beyond the slice", left.len(), 0)
    }
}

// A slice as it is given: its length and its contents.
#[derive(Clone, Copy)]
pub struct Slice<'a> {
    length: usize,
    contents: Contents<'a>,
}

impl<'a> Part<'a> for Slice<'a> {
    fn read(reader: &mut Reader<'a>) -> Result<Slice<'a>, Damaged> {
        Ok(Slice {
            length: reader.word()?,
            contents: Contents::read(reader)?,
        })
    }
}

impl Slice<'_> {
    // Lays it down, each value as an element of the storage, and lends as much of the storage as it has elements.
    pub fn lay<T: Copy, F: Fn(u64) -> T>(
        self,
        storage: &mut [T],
        element: F,
    ) -> Result<&mut [T], Damaged>
        requires { F.IsAlwaysCallable element }
    {
        for entry in self.contents.entries {
            if let Some(place) = storage.get_mut(u32_at(entry, 0)) {
                *place = element(u64_at(entry, 4));
            }
        }
        storage.get_mut(..self.length).ok_or(Damaged)
    }
}

// One of each of the six.
#[derive(Clone, Copy)]
pub struct Six<T> {
    pub tape: T,
    pub register: T,
    pub table: T,
    pub channel: T,
    pub output: T,
    pub tally: T,
}

impl<T> Six<T> {
    pub fn read<'a>(reader: &mut Reader<'a>) -> Result<Six<T>, Damaged>
    where
        T: Part<'a> + Copy,
    {
        Ok(Six {
            tape: T::read(reader)?,
            register: T::read(reader)?,
            table: T::read(reader)?,
            channel: T::read(reader)?,
            output: T::read(reader)?,
            tally: T::read(reader)?,
        })
    }
}
