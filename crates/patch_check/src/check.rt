// The check: one pass over the ops, with no stack.
ghost use Rattle.std.specs.Prelude.{◌≡◌, ℕ, ◌≤◌, length};
ghost use Rattle.basics.specs.Limits.{most_ops, lanes};
ghost use Rattle.patch_check.specs.Rows.{outermost_of, row_scan};
ghost use Rattle.patch_check.specs.File.{check_of};

use crate::rows::{after_of, elses_of, ends_of, need_of, opens_of};
use answers::check::{CheckError, Verdict};
use ops::records::Record;
use patch_reader::reader::{Read, load_columns};

// Where the outermost open bracket stands: at op i if no bracket is open before it, else where it stood.
#[tactic(auto, unfolding(crate::specs::Rows::outermost_of))]
fn outermost_of(depth: usize, outermost: usize, i: usize) -> usize
    ensures { result ≡ outermost_of depth i outermost }
{
    if depth == 0 { i } else { outermost }
}

// The ops of a patch, by the rows of their kinds and what they count.
fn check_ops(rows: &[u8], counts: &[u16]) -> Verdict
    requires { (length rows.now ≤ most_ops) × (length counts.now ≡ length rows.now) }
    ensures { result ≡ row_scan 0 0 lanes 0 rows.now counts.now }
{
    let mut known = Record::LANES;
    let mut depth = 0;
    let mut outermost = 0;
    for op in 0..rows.len() {
        let k = usize::from(rows[op]);
        let n = usize::from(counts[op]);
        let ends = ends_of(k);
        if depth < ends {
            return Err(CheckError::NoOpenEnd { op });
        }
        if depth < elses_of(k) {
            return Err(CheckError::NoOpenElse { op });
        }
        if known < need_of(k, n) {
            return Err(CheckError::FewLanes { op });
        }
        outermost = outermost_of(depth, outermost, op);
        depth = depth + opens_of(k) - ends;
        known = after_of(k, n, known);
    }
    if depth == 0 {
        return Ok(rows.len());
    }
    Err(CheckError::NeverClosed { op: outermost })
}

// Reads a patch, then checks it.
pub fn check(bytes: &[u8]) -> Verdict
    ensures { result ≡ check_of bytes.now }
{
    // column by column, since it looks at two of them alone
    let mut rows = [0; Read::OPS];
    let mut counts = [0; Read::OPS];
    let mut needs = [0; Read::OPS];
    let mut payloads = [0; Read::OPS];
    let count = load_columns(bytes, &mut rows, &mut counts, &mut needs, &mut payloads)?;
    check_ops(&rows[..count], &counts[..count])
}
