// The records of the bodies, one body after another.
ghost use Rattle.std.specs.Prelude.{◌≡◌, map, ◌+◌, ◌≤◌, length};
ghost use Rattle.ops.specs.Patch.{patch_of};
ghost use Rattle.byte_fields.specs.Storage.{fill, placed};
ghost use Rattle.ops.specs.Write.{encode_all};
ghost use Rattle.flattening.specs.Flatten.{body};
ghost use Rattle.flattening.specs.Flattened.{ops_in, number_in, first_in, count_in, functions, ops_by, entries_by, CanWrite};

use crate::numbering::Numbering;
use byte_fields::read::u32_at;
use byte_fields::write::copy_bytes;

// The byte after the records that were copied, and how many they are.
#[derive(Drop)]
pub struct Copied {
    pub next: usize,
    pub ops: usize,
}

// The records of one body's ops, to byte `at` of `out`.
pub fn copy_body(bytes: &[u8], owner: &[u16], number: usize, out: &mut [u8], at: usize) -> Copied
    requires good { (patch_of bytes.now).number ≡ 0 }
    requires owned { length owner.now ≡ length (ops_in bytes.now) }
    requires room { at + length (encode_all (body number owner.now (ops_in bytes.now))) ≤ length out.old }
    ensures next_value { result.next ≡ at + length (encode_all (body number owner.now (ops_in bytes.now))) }
    ensures ops_value { result.ops ≡ length (body number owner.now (ops_in bytes.now)) }
    ensures out_after { out.new ≡ placed out.old at (encode_all (body number owner.now (ops_in bytes.now))) }
{
    let mut from: usize = 0;
    let mut next: usize = at;
    let mut ops: usize = 0;
    for &mine in owner {
        let record = from;
        let size = u32_at(bytes, record) + 4;
        from += size;
        if usize::from(mine) != number {
            continue;
        }
        copy_bytes(out, next, bytes, record, size);
        next += size;
        ops += 1;
    }
    Copied { next, ops }
}

// The functions' bodies in rising number, each with its entry, then main; how many entries there are. The lists are lent one by one, as callers lend
// them to `flatten_numbers`.
pub fn write_bodies(
    bytes: &[u8],
    owner: &[u16],
    seen: &[bool; Numbering::BODIES],
    out: &mut [u8],
    numbers: &mut [u32],
    firsts: &mut [u32],
    counts: &mut [u32],
) -> usize
    requires { CanWrite bytes.now owner.now seen.now out.old numbers.old firsts.old counts.old }
    ensures value { result ≡ length (functions seen.now) }
    ensures out_after { out.new ≡ fill (encode_all (ops_by seen.now owner.now (ops_in bytes.now))) out.old }
    ensures numbers_after { numbers.new ≡ fill (map number_in (entries_by seen.now owner.now (ops_in bytes.now))) numbers.old }
    ensures firsts_after { firsts.new ≡ fill (map first_in (entries_by seen.now owner.now (ops_in bytes.now))) firsts.old }
    ensures counts_after { counts.new ≡ fill (map count_in (entries_by seen.now owner.now (ops_in bytes.now))) counts.old }
{
    let mut at: usize = 0;
    let mut first: usize = 0;
    let mut n: usize = 0;
    for b in 1..Numbering::BODIES {
        if !seen[b] {
            continue;
        }
        let copied = copy_body(bytes, owner, b, out, at);
        numbers[n] = (b - 1) as u32;
        firsts[n] = first as u32;
        counts[n] = copied.ops as u32;
        n += 1;
        first += copied.ops;
        at = copied.next;
    }
    copy_body(bytes, owner, 0, out, at);
    n
}
