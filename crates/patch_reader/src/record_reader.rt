// The record reader: it holds the patch bytes and its place. What a record is, `ops::records` decides; its methods take
// the reader apart and hand it on.
ghost use Rattle.std.specs.Prelude.{◌≡◌};
ghost use Rattle.ops.specs.Record.{record_from};

use ops::records::{Record, record_from};
use ops::refusals::Fault;

#[derive(Clone, Copy)]
pub struct Reader<'a> {
    pub bytes: &'a [u8],
    pub at: usize,
}

impl<'a> Reader<'a> {
    // A reader at the first byte.
    pub fn new(bytes: &'a [u8]) -> Reader<'a>
        ensures { (result.bytes ≡ bytes.entry) × (result.at ≡ 0) }
    {
        Reader { bytes, at: 0 }
    }

    // What stands at the reader's place.
    pub fn next_record(self) -> Result<Record, Fault>
        ensures { result ≡ record_from self.entry.bytes.now self.entry.at }
    {
        record_from(self.bytes, self.at)
    }

    // The reader moved on: the same bytes, another place.
    pub fn advanced(self, to: usize) -> Reader<'a>
        ensures { (result.bytes ≡ self.entry.bytes) × (result.at ≡ to) }
    {
        Reader {
            bytes: self.bytes,
            at: to,
        }
    }
}

// What callers use: the record at any place of any bytes.
pub fn read_record(bytes: &[u8], at: usize) -> Result<Record, Fault>
    ensures { result ≡ record_from bytes.now at }
{
    Reader::new(bytes).advanced(at).next_record()
}
