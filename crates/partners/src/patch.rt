// The patch as it is read: one thing that can be handed on and run without being read again.
ghost use Rattle.std.specs.Prelude.{◌≡◌};
ghost use Rattle.partners.specs.Read.{told_of, patch_read};

use crate::scan::{NOWHERE, find_partners};
use patch_reader::reader::{Read, Unread, load};

// Of each op the row of its kind, its count, the lanes that a run of it needs, its payload's first byte, its partner, and of an If its Else. The places
// of the marks, in file order, from `first` on. And what reading answered: number, place and ops. The memory is fixed and a run reads one column at a time,
// so the columns are arrays side by side; `patch_read` names each field.
#[derive(Drop)]
pub struct Patch {
    pub rows: [u8; Read::OPS],
    pub counts: [u16; Read::OPS],
    pub needs: [u16; Read::OPS],
    pub payloads: [u32; Read::OPS],
    pub partners: [u16; Read::OPS],
    pub turns: [u16; Read::OPS],
    pub marks: [u16; Read::MARKS],
    pub first: usize,
    pub number: usize,
    pub place: usize,
    pub ops: usize,
}

// Number, place and ops of what reading answered: of a good file 0 and the op count.
fn told(answer: Result<usize, Unread>) -> Unread
    ensures { result ≡ told_of answer }
{
    match answer {
        Ok(ops) => Unread {
            number: 0,
            place: ops,
            ops,
        },
        Err(unread) => unread,
    }
}

// Reads a whole patch file. Of a bad one the columns have the ops before the fault.
pub fn read(bytes: &[u8]) -> Patch
    ensures { result ≡ patch_read bytes.now }
{
    let mut read = Read::blank();
    let mut partners = [NOWHERE; Read::OPS];
    let mut turns = [NOWHERE; Read::OPS];
    let mut marks = [NOWHERE; Read::MARKS];
    let answer = load(bytes, &mut read);
    let r = told(answer);
    let first = find_partners(&read.rows[..r.ops], &mut partners, &mut turns, &mut marks);
    Patch {
        rows: read.rows,
        counts: read.counts,
        needs: read.needs,
        payloads: read.payloads,
        partners,
        turns,
        marks,
        first,
        number: r.number,
        place: r.place,
        ops: r.ops,
    }
}
