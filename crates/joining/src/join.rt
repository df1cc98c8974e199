// A whole file, joined.
ghost use Rattle.std.specs.Prelude.{◌≡◌, ◌≤◌};
ghost use Rattle.joining.specs.Stack.{stack, after};
ghost use Rattle.joining.specs.Joined.{outcome, join_of};

use crate::source::Source;
use crate::stack::Stack;
use crate::write::write_all;
use answers::join::{JoinError, Joined};
use patch_reader::reader::{Read, load_columns};

// Each of the file's ops pushed in turn, on no entry.
fn push_all(source: &Source, left: &mut Stack)
    ensures few { left.new.n ≤ source.now.ops }
    ensures value { stack left.new ≡ after source.now.bytes.now source.now.rows.now source.now.counts.now source.now.ops }
{
    left.n = 0;
    for i in 0..source.ops {
        left.push(source.rows, source.counts, source.entry(i as u16));
    }
}

// Joins a patch file into the lent bytes.
pub fn join(bytes: &[u8], out: &mut [u8]) -> Result<Joined, JoinError>
    ensures { outcome result out.new ≡ join_of bytes.now out.old }
{
    let mut rows = [0u8; Read::OPS];
    let mut counts = [0u16; Read::OPS];
    let mut needs = [0u16; Read::OPS];
    let mut payloads = [0u32; Read::OPS];
    let ops = load_columns(bytes, &mut rows, &mut counts, &mut needs, &mut payloads)?;
    if out.len() < bytes.len() {
        return Err(JoinError::NoRoom);
    }
    let source = Source {
        bytes,
        rows: &rows,
        counts: &counts,
        payloads: &payloads,
        ops,
    };
    let mut left = Stack::empty();
    push_all(&source, &mut left);
    let bytes = write_all(&source, &left, out);
    Ok(Joined { ops: left.n, bytes })
}
