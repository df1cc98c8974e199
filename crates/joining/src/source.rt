// A patch file that was read.
ghost use Rattle.std.specs.Prelude.{◌≡◌, ◌<◌, ◌≤◌, get_or};
ghost use Rattle.basics.specs.Limits.{most_ops};
ghost use Rattle.joining.specs.Source.{Holds};

use crate::entry::Entry;
use byte_fields::read::u64_at;
use patch_reader::reader::Read;

// Its bytes, and its ops: the first entries of the columns, whose memory is fixed. Three of the four: joining asks for no need.
#[derive(Clone, Copy)]
pub struct Source<'a> {
    pub bytes: &'a [u8],
    pub rows: &'a [u8; Read::OPS],
    pub counts: &'a [u16; Read::OPS],
    pub payloads: &'a [u32; Read::OPS],
    pub ops: usize,
    ghost few: { ops ≤ most_ops },
    ghost holds: { Holds bytes.now rows.now counts.now payloads.now ops },
}

impl Source<'_> {
    ghost use Rattle.joining.specs.Stack.{entry_at};

    // The first byte of op i's payload; 0 beyond the last.
    pub fn payload(&self, i: u16) -> usize
        ensures { result ≡ get_or self.now.payloads.now i 0 }
    {
        // the reference is copied first, since the check doesn't cover a slice lent from the field
        let payloads = self.payloads;
        payloads.get(usize::from(i)).copied().unwrap_or(0) as usize
    }

    // Op i with the value that it has in the file; 0 where it has none.
    pub fn entry(&self, i: u16) -> Entry
        requires { i < self.now.ops }
        ensures { result ≡ entry_at self.now.bytes.now i }
    {
        let none = Entry { op: i, value: 0 };
        if !none.seen(self.rows, self.counts).has_value() {
            return none;
        }
        Entry {
            op: i,
            value: u64_at(self.bytes, self.payload(i)),
        }
    }
}
