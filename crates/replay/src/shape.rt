// A case that is a join or a flattening: the lent room holds one byte throughout before the call.
ghost use Rattle.std.specs.Prelude.{◌≤◌};

use crate::list::{BODIES, Damaged, ROOM, Reader};
use crate::tell::Tell;
use answers::flatten::{bodies_of, bytes_of};
use answers::join::length_of;
use answers::numbered::Numbered;
use byte_fields::read::u32_at;
use flattening::numbers::flatten_numbers;
use joining::join::join;

// What is expected: the numbers of the answer, and the bytes that are written. What is not written keeps the fill.
#[derive(Clone, Copy)]
struct Expected<'a> {
    number: usize,
    place: usize,
    bytes: &'a [u8],
}

impl<'a> Expected<'a> {
    fn read(reader: &mut Reader<'a>) -> Result<Expected<'a>, Damaged> {
        Ok(Expected {
            number: reader.word()?,
            place: reader.word()?,
            bytes: reader.text()?,
        })
    }

    fn same<A: Numbered + Copy>(self, tell: Tell, answer: A, length: usize) -> bool {
        tell.same(b"number", self.number, answer.number())
            && tell.same(b"place", self.place, answer.place())
            && tell.same(b"byte length", self.bytes.len(), length)
    }

    fn same_bytes(self, tell: Tell, fill: u8, came: &[u8]) -> bool {
        came.iter().enumerate().all(|(i, came)| {
            let expected = self.bytes.get(i).copied().unwrap_or(fill);
            tell.same_at(b"byte", i, u64::from(expected), u64::from(*came))
        })
    }
}

// Joins into storage of its own, and compares. Here and in `flat` the storage comes first: what is made behind a question mark is zeroed once more when
// the function begins.
fn joined(
    tell: Tell,
    file: &[u8],
    room: usize,
    fill: u8,
    expected: Expected<'_>,
) -> Result<bool, Damaged> {
    let mut storage = [fill; ROOM];
    let out = storage.get_mut(..room).ok_or(Damaged)?;
    let answer = join(file, out);
    Ok(expected.same(tell, answer, length_of(answer)) && expected.same_bytes(tell, fill, out))
}

// Joining: room, fill and what is expected.
pub fn replay_join(tell: Tell, file: &[u8], case: &[u8]) -> Result<bool, Damaged> {
    let mut reader = Reader::new(case);
    let room = reader.word()?;
    let fill = reader.byte()?;
    let expected = Expected::read(&mut reader)?;
    reader.end()?;
    joined(tell, file, room, fill, expected)
}

// One number of each body, which stands so many bytes on in it.
fn same_bodies(
    tell: Tell,
    what: &[u8],
    bodies: &[[u8; 12]],
    on: usize,
    fill: u8,
    came: &[u32],
) -> bool
    requires { on ≤ 8 }
{
    for (i, &came) in came.iter().enumerate() {
        let expected = match bodies.get(i) {
            Some(body) => u32_at(body, on) as u64,
            None => u64::from(fill),
        };
        if !tell.same_at(what, i, expected, u64::from(came)) {
            return false;
        }
    }
    true
}

// Flattens into storage of its own, and compares.
fn flat(
    tell: Tell,
    file: &[u8],
    room: usize,
    fill: u8,
    body_room: usize,
    expected: Expected<'_>,
    bodies: &[[u8; 12]],
) -> Result<bool, Damaged> {
    let each = u32::from(fill);
    let mut storage = [fill; ROOM];
    let mut all_numbers = [each; BODIES];
    let mut all_firsts = [each; BODIES];
    let mut all_counts = [each; BODIES];
    let out = storage.get_mut(..room).ok_or(Damaged)?;
    let numbers = all_numbers.get_mut(..body_room).ok_or(Damaged)?;
    let firsts = all_firsts.get_mut(..body_room).ok_or(Damaged)?;
    let counts = all_counts.get_mut(..body_room).ok_or(Damaged)?;
    let answer = flatten_numbers(file, out, numbers, firsts, counts);
    Ok(
        expected.same(tell, answer, bytes_of(answer))
            && expected.same_bytes(tell, fill, out)
            && tell.same(b"bodies", bodies.len(), bodies_of(answer))
            && same_bodies(tell, b"number of body", bodies, 0, fill, numbers)
            && same_bodies(tell, b"first op of body", bodies, 4, fill, firsts)
            && same_bodies(tell, b"op count of body", bodies, 8, fill, counts),
    )
}

// Flattening: room, fill, body room and what is expected, the bodies last.
pub fn replay_flatten(tell: Tell, file: &[u8], case: &[u8]) -> Result<bool, Damaged> {
    let mut reader = Reader::new(case);
    let room = reader.word()?;
    let fill = reader.byte()?;
    let body_room = reader.word()?;
    let expected = Expected::read(&mut reader)?;
    let bodies = reader.counted::<12>()?;
    reader.end()?;
    flat(tell, file, room, fill, body_room, expected, bodies)
}
