// The ops that are left, as a file: each has its record copied, with the value that it has by now.
ghost use Rattle.std.specs.Prelude.{◌≡◌, ◌+◌, ◌<◌, ◌≤◌, length};
ghost use Rattle.byte_fields.specs.Storage.{fill, placed};
ghost use Rattle.byte_fields.specs.Bytes.{le64};
ghost use Rattle.ops.specs.Write.{encode, Below};
ghost use Rattle.joining.specs.Stack.{Within, stack, op_of, file};

use crate::entry::Entry;
use crate::source::Source;
use crate::stack::Stack;
use byte_fields::read::u32_at;
use byte_fields::write::copy_bytes;

// The 8 bytes of v, to byte `at`.
fn put_u64(out: &mut [u8], at: usize, v: u64)
    requires { at + 8 ≤ length out.old }
    ensures { out.new ≡ placed out.old at (le64 v) }
{
    out[at..at + 8].copy_from_slice(&v.to_le_bytes());
}

// The record of an entry, at byte `at`; the byte after it.
pub fn write_op(source: &Source, entry: Entry, out: &mut [u8], at: usize) -> usize
    requires bytes { Below 256 source.now.bytes.now }
    requires within { entry.op < source.now.ops }
    requires room { at + length (encode (op_of source.now.bytes.now entry)) ≤ length out.old }
    ensures after { result ≡ at + length (encode (op_of source.now.bytes.now entry)) }
    ensures value { out.new ≡ placed out.old at (encode (op_of source.now.bytes.now entry)) }
{
    let from = source.payload(entry.op) - 6;
    if entry.seen(source.rows, source.counts).has_value() {
        copy_bytes(out, at, source.bytes, from, 6);
        put_u64(out, at + 6, entry.value);
        return at + 14;
    }
    let size = u32_at(source.bytes, from) + 4;
    copy_bytes(out, at, source.bytes, from, size);
    at + size
}

// The records of the entries, the first one first; the byte after the last.
pub fn write_all(source: &Source, left: &Stack, out: &mut [u8]) -> usize
    requires bytes { Below 256 source.now.bytes.now }
    requires within { Within source.now.ops (stack left.now) }
    requires room { length (file source.now.bytes.now (stack left.now)) ≤ length out.old }
    ensures after { result ≡ length (file source.now.bytes.now (stack left.now)) }
    ensures value { out.new ≡ fill (file source.now.bytes.now (stack left.now)) out.old }
{
    let mut at = 0;
    for i in 0..left.n {
        at = write_op(source, left.entry(i), out, at);
    }
    at
}
