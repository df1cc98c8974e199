// A whole file: read, numbered, and written body by body where it has room. The entries of the bodies go to three lists of numbers.
ghost use Rattle.std.specs.Prelude.{◌≡◌, map};
ghost use Rattle.byte_fields.specs.Storage.{fill};
ghost use Rattle.ops.specs.Patch.{row_in, patch_of};
ghost use Rattle.patch_reader.specs.Answer.{read_of};
ghost use Rattle.flattening.specs.Scope.{row_marks};
ghost use Rattle.flattening.specs.Flattened.{outcome, flatten_of};

use crate::bodies::write_bodies;
use crate::numbering::{Numbering, number_ops};
use answers::flatten::{FlattenError, Flattened};
use kind_table::row;
use patch_reader::reader::{Read, Unread, load_columns};

// How many Function marks there are among ops of these rows.
pub fn count_marks(rows: &[u8]) -> usize
    ensures { result ≡ row_marks rows.now }
{
    rows.iter().filter(|&&row| row == row::FUNCTION).count()
}

// Reads a file, of which the rows alone are looked at. A function of its own, so that the other columns are left out of the compiled code.
fn load_rows(bytes: &[u8], rows: &mut [u8; Read::OPS]) -> Result<usize, Unread>
    ensures value { result ≡ read_of (patch_of bytes.now) }
    ensures rows_after { rows.new ≡ fill (map row_in (patch_of bytes.now).items) rows.old }
{
    let mut counts = [0; Read::OPS];
    let mut needs = [0; Read::OPS];
    let mut payloads = [0; Read::OPS];
    load_columns(bytes, rows, &mut counts, &mut needs, &mut payloads)
}

// Flattens a patch: each function's own ops, then main. An entry of each function's body goes to the three lists: its number, its first op
// and its op count. They are three slices as C lends them, to `feltcairn_flatten_numbers`.
pub fn flatten_numbers(
    bytes: &[u8],
    out: &mut [u8],
    numbers: &mut [u32],
    firsts: &mut [u32],
    counts: &mut [u32],
) -> Result<Flattened, FlattenError>
    ensures { outcome result out.new numbers.new firsts.new counts.new ≡ flatten_of bytes.now out.old numbers.old firsts.old counts.old }
{
    let mut kinds = [0; Read::OPS];
    let ops = load_rows(bytes, &mut kinds)?;
    let rows = &kinds[..ops];
    let mut numbering = Numbering::blank();
    number_ops(rows, &mut numbering)?;
    let marks = count_marks(rows);
    if out.len() < bytes.len()
        || numbers.len() < marks
        || firsts.len() < marks
        || counts.len() < marks
    {
        return Err(FlattenError::NoRoom);
    }
    let bodies = write_bodies(
        bytes,
        &numbering.owner[..ops],
        &numbering.seen,
        out,
        numbers,
        firsts,
        counts,
    );
    Ok(Flattened {
        ops,
        bytes: bytes.len(),
        bodies,
    })
}
