// The whole file: which refusal is first, or which ops it holds.
ghost use Rattle.std.specs.Prelude.{◌≡◌, map, ◌≤◌};
ghost use Rattle.byte_fields.specs.Storage.{fill};
ghost use Rattle.ops.specs.Patch.{row_in, count_in, need_in, payload_in, mark_of, patch_of};
ghost use Rattle.patch_reader.specs.Answer.{blank, unread, read_of};

use crate::record_reader::read_record;
use kind_table::bracket;
use kind_table::kinds::run_need;
use ops::records::Record;
use ops::refusals::{Fault, Refusal};

// The ops that were read, each with its entry in the four columns: the row of its kind, its count, the lanes that a run of
// it needs, and its payload's first byte. Columns and no array of ops: a check reads two of them alone, and a machine holds them so.
#[derive(Drop)]
pub struct Read {
    pub rows: [u8; Read::OPS],
    pub counts: [u16; Read::OPS],
    pub needs: [u16; Read::OPS],
    pub payloads: [u32; Read::OPS],
}

// Why a file is not good: the first refusal's number and place, and how many ops stand before it. The number is what `patch_of` has of the refusal, and
// theorems on files speak of (`Loaded`); so the errors of the calls have it too.
#[derive(Clone, Copy, PartialEq, Eq, Debug)]
pub struct Unread {
    pub number: usize,
    pub place: usize,
    pub ops: usize,
}

impl Read {
    // The limits of what is read, each the last accepted.
    pub const OPS: usize = 4096;

    pub const MARKS: usize = 256;

    #[tactic(auto, unfolding(crate::specs::Answer::blank))]
    pub fn blank() -> Read
        ensures { result ≡ blank }
    {
        Read {
            rows: [0; Read::OPS],
            counts: [0; Read::OPS],
            needs: [0; Read::OPS],
            payloads: [0; Read::OPS],
        }
    }
}

impl Unread {
    #[tactic(auto, unfolding(crate::specs::Answer::unread))]
    fn new(fault: Fault, ops: usize) -> Unread
        ensures { result ≡ unread fault ops }
    {
        Unread {
            number: fault.refusal.number(),
            place: fault.place,
            ops,
        }
    }
}

// How many Function marks a row is: 1 for Function, else 0. A number, since marks are counted.
#[tactic(auto, unfolding(ops::specs::Patch::mark_of))]
pub fn mark_of(row: usize) -> usize
    ensures { (result ≡ mark_of row) × (result ≤ 1) }
{
    usize::from(row == bracket::FUNCTION)
}

// Reads a whole patch file: how many ops it holds. Each op read has its entry in the columns, and the entries beyond keep
// their values.
pub fn load(bytes: &[u8], read: &mut Read) -> Result<usize, Unread>
    ensures value { result ≡ read_of (patch_of bytes.now) }
    ensures rows_after { read.new.rows ≡ fill (map row_in (patch_of bytes.now).items) read.old.rows }
    ensures counts_after { read.new.counts ≡ fill (map count_in (patch_of bytes.now).items) read.old.counts }
    ensures needs_after { read.new.needs ≡ fill (map need_in (patch_of bytes.now).items) read.old.needs }
    ensures payloads_after { read.new.payloads ≡ fill (map payload_in (patch_of bytes.now).items) read.old.payloads }
{
    load_columns(
        bytes,
        &mut read.rows,
        &mut read.counts,
        &mut read.needs,
        &mut read.payloads,
    )
}

// The same with the columns lent one by one: of those that a caller looks at no more nothing is left in the compiled code, where of a `Read` all four are
// made and written.
pub fn load_columns(
    bytes: &[u8],
    rows: &mut [u8; Read::OPS],
    counts: &mut [u16; Read::OPS],
    needs: &mut [u16; Read::OPS],
    payloads: &mut [u32; Read::OPS],
) -> Result<usize, Unread>
    ensures value { result ≡ read_of (patch_of bytes.now) }
    ensures rows_after { rows.new ≡ fill (map row_in (patch_of bytes.now).items) rows.old }
    ensures counts_after { counts.new ≡ fill (map count_in (patch_of bytes.now).items) counts.old }
    ensures needs_after { needs.new ≡ fill (map need_in (patch_of bytes.now).items) needs.old }
    ensures payloads_after { payloads.new ≡ fill (map payload_in (patch_of bytes.now).items) payloads.old }
{
    if Record::FILE < bytes.len() {
        return Err(Unread::new(Refusal::FileTooLong.at(0), 0));
    }
    // The place goes on by each record's own length, and the ops and the marks are counted beside it.
    let mut at: usize = 0;
    let mut n: usize = 0;
    let mut marks: usize = 0;
    while at < bytes.len() {
        let record = read_record(bytes, at).map_err(
            |fault: Fault|
                ensures { result ≡ unread fault n }
            { Unread::new(fault, n) },
        )?;
        if Read::OPS <= n {
            return Err(Unread::new(Refusal::TooManyOps.at(at), n));
        }
        let more = marks + mark_of(record.row);
        if Read::MARKS < more {
            return Err(Unread::new(Refusal::TooManyMarks.at(at), n));
        }
        let need = run_need(record.row, record.count);
        rows[n] = record.row as u8;
        counts[n] = record.count as u16;
        needs[n] = need as u16;
        payloads[n] = record.body as u32;
        n += 1;
        marks = more;
        at = record.next;
    }
    Ok(n)
}

// Whether a file is good: its op count, or the first refusal's number and place and the ops before it.
pub fn read_patch(bytes: &[u8]) -> Result<usize, Unread>
    ensures { result ≡ read_of (patch_of bytes.now) }
{
    load(bytes, &mut Read::blank())
}
