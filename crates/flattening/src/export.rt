// Flattening for callers in C and Rust.
ghost use Rattle.std.specs.Prelude.{◌≡◌};
ghost use Rattle.flattening.specs.Entries.{report_of, flatten_to};

use crate::body::Body;
use crate::flatten::flatten;
use answers::flatten::{FlattenError, Flattened, bodies_of, bytes_of};
use answers::numbered::Numbered;

// The number given back with its place; the bytes and the entries that were written.
#[repr(C)]
#[derive(Clone, Copy)]
pub struct Report {
    pub number: usize,
    pub place: usize,
    pub bytes: usize,
    pub bodies: usize,
}

impl From<Result<Flattened, FlattenError>> for Report {
    ghost from_gives = { λ answer report. report ≡ report_of answer };

    fn from(answer: Result<Flattened, FlattenError>) -> Report {
        Report {
            number: answer.number(),
            place: answer.place(),
            bytes: bytes_of(answer),
            bodies: bodies_of(answer),
        }
    }
}

// `flatten`, with a report as its answer. The archive's call of this name, in `linked`, hands it on: an archive has the exports of its own crate alone.
#[unsafe(no_mangle)]
pub extern "C" fn feltcairn_flatten(bytes: &[u8], out: &mut [u8], bodies: &mut [Body]) -> Report
    ensures { (result ≡ report_of (flatten_to bytes.now out.old bodies.old).answer)
        × ((out.new ≡ (flatten_to bytes.now out.old bodies.old).out)
        × (bodies.new ≡ (flatten_to bytes.now out.old bodies.old).bodies)) }
{
    Report::from(flatten(bytes, out, bodies))
}
