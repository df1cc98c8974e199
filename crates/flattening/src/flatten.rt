// A whole file, with the entries of the bodies in the caller's list. The work is done in columns, and then goes to the list.
ghost use Rattle.std.specs.Prelude.{◌≡◌, ◌<◌, ◌≤◌, length};
ghost use Rattle.basics.specs.Limits.{most_marks};
ghost use Rattle.flattening.specs.Entries.{listing, flatten_to, entry_at, entries_in, over};

use crate::body::Body;
use crate::numbers::flatten_numbers;
use answers::flatten::{FlattenError, Flattened, bodies_of};
use patch_reader::reader::Read;

// The numbers, first ops and op counts of entries, side by side as `flatten_numbers` fills them.
#[derive(Clone, Copy)]
pub struct Columns {
    pub numbers: [u32; Read::MARKS],
    pub firsts: [u32; Read::MARKS],
    pub counts: [u32; Read::MARKS],
}

impl Columns {
    fn body_at(&self, i: usize) -> Body
        requires { i < most_marks }
        ensures { result ≡ entry_at self.now i }
    {
        Body {
            number: self.numbers[i],
            first: self.firsts[i],
            count: self.counts[i],
        }
    }
}

// The first n entries, to the list.
fn write_entries(bodies: &mut [Body], columns: &Columns, n: usize)
    requires { (n ≤ length bodies.old) × (n ≤ most_marks) }
    ensures { bodies.new ≡ over (entries_in columns.now n) bodies.old }
{
    for i in 0..n {
        bodies[i] = columns.body_at(i);
    }
}

// Flattens a patch. Each function's own ops, then main, go to `out`, and an entry of each function's body to `bodies`.
pub fn flatten(bytes: &[u8], out: &mut [u8], bodies: &mut [Body]) -> Result<Flattened, FlattenError>
    ensures { listing result out.new bodies.new ≡ flatten_to bytes.now out.old bodies.old }
{
    // a patch has at most `Read::MARKS` marks, so no more room counts
    let n = usize::min(bodies.len(), Read::MARKS);
    let mut numbers = [0u32; Read::MARKS];
    let mut firsts = [0u32; Read::MARKS];
    let mut counts = [0u32; Read::MARKS];
    let answer = flatten_numbers(
        bytes,
        out,
        &mut numbers[..n],
        &mut firsts[..n],
        &mut counts[..n],
    );
    let columns = Columns {
        numbers,
        firsts,
        counts,
    };
    write_entries(bodies, &columns, bodies_of(answer));
    answer
}
