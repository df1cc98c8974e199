// Joining, with the patch that was written handed on as it is read.
ghost use Rattle.std.specs.Prelude.{◌≡◌};
ghost use Rattle.joining.specs.Handed.{handed, join_patch_of};

use crate::join::join;
use answers::join::{JoinError, Joined, length_of};
use partners::patch::{Patch, read};

// A type of its own, as the definition names it (`handed`): what joining answers, and the patch as it is read of the written bytes; of no bytes where it was refused.
#[derive(Drop)]
pub struct JoinedPatch {
    pub answer: Result<Joined, JoinError>,
    pub patch: Patch,
}

// Joins a patch file into the lent bytes, and hands on what was written.
pub fn join_patch(bytes: &[u8], out: &mut [u8]) -> JoinedPatch
    ensures { handed result out.new ≡ join_patch_of bytes.now out.old }
{
    let answer = join(bytes, out);
    let length = length_of(answer);
    let patch = read(&out[..length]);
    JoinedPatch { answer, patch }
}
