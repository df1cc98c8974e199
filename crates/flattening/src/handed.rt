// Flattening, with the patch that was written handed on as it is read.
ghost use Rattle.std.specs.Prelude.{◌≡◌};
ghost use Rattle.flattening.specs.Handed.{handed, flatten_patch_of};

use crate::numbers::flatten_numbers;
use answers::flatten::{FlattenError, Flattened, bytes_of};
use partners::patch::{Patch, read};

// A type of its own, as the definition names it (`handed`): what flattening answers, and the patch as it is read of the written bytes; of no bytes where it was refused.
#[derive(Drop)]
pub struct FlattenedPatch {
    pub answer: Result<Flattened, FlattenError>,
    pub patch: Patch,
}

// Flattens a patch into the lent bytes and lists, and hands on what was written.
pub fn flatten_patch(
    bytes: &[u8],
    out: &mut [u8],
    numbers: &mut [u32],
    firsts: &mut [u32],
    counts: &mut [u32],
) -> FlattenedPatch
    ensures { handed result out.new numbers.new firsts.new counts.new ≡ flatten_patch_of bytes.now out.old numbers.old firsts.old counts.old }
{
    let answer = flatten_numbers(bytes, out, numbers, firsts, counts);
    let patch = read(&out[..bytes_of(answer)]);
    FlattenedPatch { answer, patch }
}
