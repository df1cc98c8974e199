// The record at a place of a patch file, tested in the order of the refusals.
ghost use Rattle.std.specs.Prelude.{◌≡◌, true, ◌+◌, ◌≤◌, length};
ghost use Rattle.basics.specs.Limits.{most_bytes};
ghost use Rattle.ops.specs.Record.{length_ok, count_of, named_of, last_of, body_at, record_at, record_from};

use crate::refusals::{Fault, Refusal};
use byte_fields::read::{u16_at, u32_at};
use kind_table::kinds::{index_of, kind_at};
use kind_table::shape::Shape;

// The last mode, the one that is left out, and the last binding, by the file's numbers, which are tested before they name any.
const MODES: usize = 3;

const FLOAT: usize = 2;

const BINDINGS: usize = 1;

// A whole record: the row of its kind, the first byte and the length of its payload, the lanes, values or bytes
// that the payload counts, and the byte after it.
#[derive(Clone, Copy, PartialEq, Eq, Debug)]
pub struct Record {
    pub row: usize,
    pub body: usize,
    pub len: usize,
    pub count: usize,
    pub next: usize,
}

// The limits of a record and of the bytes that it stands in, each the last accepted.
impl Record {
    pub const FILE: usize = 65536;

    pub const LANES: usize = 1024;

    pub const COMMENT: usize = 255;
}

// Whether a payload of `len` bytes has a length that its shape may have.
#[tactic(auto, unfolding(crate::specs::Record::length_ok))]
fn length_ok(form: Shape, len: usize) -> bool
    ensures { result ≡ length_ok form len }
{
    match form {
        Shape::Text => len <= Record::COMMENT,
        Shape::Values => len % 8 == 0,
        Shape::LaneCount => len == 4,
        Shape::Amount => len == 8,
        Shape::AmountAndLanes => len == 12,
        Shape::Mode | Shape::Binding => len == 2,
        Shape::Empty | Shape::LeftOut => len == 0,
    }
}

// What a payload counts: bytes of text, values, or lanes.
#[tactic(auto, unfolding(crate::specs::Record::length_ok, crate::specs::Record::count_of))]
fn count_of(bytes: &[u8], form: Shape, at: usize, len: usize) -> usize
    requires { (at + len ≤ length bytes.now) × (length_ok form len ≡ true) }
    ensures { result ≡ count_of bytes.now form at len }
{
    match form {
        Shape::Text => len,
        Shape::Values => len / 8,
        Shape::LaneCount => u32_at(bytes, at),
        Shape::AmountAndLanes => u32_at(bytes, at + 8),
        _ => 0,
    }
}

// The mode or the binding that a payload names; 0, which no test below refuses, where it names none.
#[tactic(auto, unfolding(crate::specs::Record::length_ok, crate::specs::Record::named_of))]
fn named_of(bytes: &[u8], form: Shape, at: usize, len: usize) -> usize
    requires { (at + len ≤ length bytes.now) × (length_ok form len ≡ true) }
    ensures { result ≡ named_of bytes.now form at }
{
    match form {
        Shape::Mode | Shape::Binding => u16_at(bytes, at),
        _ => 0,
    }
}

// The last number that a payload may name.
#[tactic(auto, unfolding(crate::specs::Record::last_of))]
fn last_of(form: Shape) -> usize
    ensures { result ≡ last_of form }
{
    match form {
        Shape::Binding => BINDINGS,
        _ => MODES,
    }
}

// The record at byte `at` whose kind is row k and whose payload has `len` bytes.
#[tactic(auto, unfolding(crate::specs::Record::body_at))]
fn body_at(bytes: &[u8], at: usize, k: usize, len: usize) -> Result<Record, Fault>
    requires { (at + 6 + len ≤ length bytes.now) × (length bytes.now ≤ most_bytes) }
    ensures { result ≡ body_at bytes.now at k len }
{
    let form = kind_at(k).shape;
    let body = at + 6;
    if form == Shape::LeftOut {
        return Err(Refusal::LeftOut.at(at));
    }
    if !length_ok(form, len) {
        return Err(Refusal::WrongLength.at(at));
    }
    let count = count_of(bytes, form, body, len);
    if Record::LANES < count {
        return Err(Refusal::TooManyLanes.at(at));
    }
    let named = named_of(bytes, form, body, len);
    let last = last_of(form);
    if last < named {
        return Err(Refusal::WrongNumber.at(at));
    }
    if named == FLOAT {
        return Err(Refusal::LeftOut.at(at));
    }
    Ok(Record {
        row: k,
        body,
        len,
        count,
        next: body + len,
    })
}

// What stands at byte `at` of a patch.
#[tactic(auto, unfolding(crate::specs::Record::record_at))]
fn record_at(bytes: &[u8], at: usize) -> Result<Record, Fault>
    requires { (at ≤ length bytes.now) × (length bytes.now ≤ most_bytes) }
    ensures { result ≡ record_at bytes.now at }
{
    if bytes.len() < at + 4 {
        return Err(Refusal::CutShort.at(at));
    }
    let size = u32_at(bytes, at);
    if size < 2 {
        return Err(Refusal::WrongLength.at(at));
    }
    if bytes.len() < at + 4 + size {
        return Err(Refusal::CutShort.at(at));
    }
    let Some(k) = index_of(u16_at(bytes, at + 4)) else {
        return Err(Refusal::UnknownKind.at(at));
    };
    body_at(bytes, at, k, size - 2)
}

// The same for any file and any place: no record of a file that is too long is read, and none begins beyond the bytes.
#[tactic(auto, using(crate::proofs::AnyFile::from_long, crate::proofs::AnyFile::from_short, crate::proofs::AnyFile::at_beyond))]
pub fn record_from(bytes: &[u8], at: usize) -> Result<Record, Fault>
    ensures { result ≡ record_from bytes.now at }
{
    if Record::FILE < bytes.len() {
        return Err(Refusal::FileTooLong.at(0));
    }
    if bytes.len() < at {
        return Err(Refusal::CutShort.at(at));
    }
    record_at(bytes, at)
}
