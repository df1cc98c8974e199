// The body that each op is in: main is 0, and a function's body is one more than the Rust's number for it.
ghost use Rattle.std.specs.Prelude.{◌≡◌, [], false, ℕ, ◌+◌, ◌≤◌, ◌<◌, length, take, replicate};
ghost use Rattle.basics.specs.Limits.{most_ops};
ghost use Rattle.answers.specs.declared.flatten.FlattenError.TheVariants.{NoOpenEnd as no_open_end};
ghost use Rattle.flattening.specs.Flatten.{number};
ghost use Rattle.flattening.specs.Scope.{here_of, row_note, leads_to, place, stack_of, place_in, passed, Low, row_notes, most_bodies, blank, told};

use answers::flatten::FlattenError;
use kind_table::bracket;
use patch_reader::reader::Read;

// An End with no open bracket: its op.
#[derive(Clone, Copy, Debug, PartialEq, Eq)]
pub struct NoOpenEnd {
    pub op: usize,
}

impl From<NoOpenEnd> for FlattenError {
    ghost from_gives = { λ end error. error ≡ no_open_end end.op };

    fn from(end: NoOpenEnd) -> FlattenError {
        FlattenError::NoOpenEnd { op: end.op }
    }
}

// The body of each op, and for each body whether it has an op.
#[derive(Drop)]
pub struct Numbering {
    pub owner: [u16; Read::OPS],
    pub seen: [bool; Numbering::BODIES],
}

// A body that was left where one in it was entered, and how many of its own brackets are open.
#[derive(Clone, Copy)]
struct Left {
    body: u16,
    brackets: u16,
}

// The open body and its open brackets, and the bodies around it, the innermost last: the first `depth` of an array, since memory is fixed.
#[derive(Drop)]
struct Scope {
    body: usize,
    brackets: usize,
    depth: usize,
    around: [Left; Numbering::BODIES],
}

// The body that an op of row k is in. A Function mark starts one: one after the enclosing number, or, if that is taken, the count of bodies so far.
#[tactic(auto, unfolding(crate::specs::Scope::here_of))]
fn here_of(k: usize, body: usize, taken: bool, count: usize) -> usize
    requires { (body < most_ops) × (count < most_ops) }
    ensures { (result ≡ here_of k body taken count) × (result ≤ most_ops) }
{
    if k != bracket::FUNCTION {
        return body;
    }
    if taken { count + 1 } else { body + 1 }
}

impl Scope {
    // Main, with nothing open.
    fn main() -> Scope
        ensures { (place_in result ≡ place 0 0 []) × Low 0 result }
    {
        Scope {
            body: 0,
            brackets: 0,
            depth: 0,
            around: [Left {
                body: 0,
                brackets: 0,
            }; Numbering::BODIES],
        }
    }

    // Past an op of row k in the body `here`; nowhere at an End with no open bracket.
    #[tactic(auto, unfolding(crate::specs::Scope::row_note, crate::specs::Scope::leads_to))]
    fn pass(&mut self, k: usize, here: usize) -> Option<()>
        requires { Low most_ops self.old }
        ensures value { passed result self.new ≡ leads_to (row_note k) here self.old.body self.old.brackets (stack_of self.old.depth self.old.around) }
        ensures low { (i : ℕ) → Low i self.old → here ≤ i + 1 → Low (i + 1) self.new }
    {
        match k {
            bracket::FUNCTION => {
                self.around[self.depth] = Left {
                    body: self.body as u16,
                    brackets: self.brackets as u16,
                };
                self.depth += 1;
                self.body = here;
                self.brackets = 0;
            }
            bracket::WHILE | bracket::IF => {
                self.brackets += 1;
            }
            bracket::END => {
                if 0 < self.brackets {
                    self.brackets -= 1;
                } else {
                    self.depth = self.depth.checked_sub(1)?;
                    let outer = self.around[self.depth];
                    self.body = usize::from(outer.body);
                    self.brackets = usize::from(outer.brackets);
                }
            }
            _ => {}
        }
        Some(())
    }
}

impl Numbering {
    // Main's body, and one for each op at most.
    pub const BODIES: usize = Read::OPS + 1;

    #[tactic(auto, unfolding(crate::specs::Scope::blank))]
    pub fn blank() -> Numbering
        ensures { result ≡ blank }
    {
        Numbering {
            owner: [0; Read::OPS],
            seen: [false; Numbering::BODIES],
        }
    }
}

// The body of each op, and a flag for each body that has an op. An op makes at most one body, so no number is above the op count. The numbering is lent, as
// `Read` is, since by value it would be copied.
pub fn number_ops(rows: &[u8], numbering: &mut Numbering) -> Result<(), NoOpenEnd>
    requires few { length rows.now ≤ most_ops }
    requires unseen { numbering.old.seen ≡ replicate most_bodies false }
    ensures { told result numbering.new (length rows.now) ≡ number 0 0 0 [] [] (row_notes rows.now) }
{
    let mut scope = Scope::main();
    let mut count: usize = 0;
    for (i, &row) in rows.iter().enumerate() {
        let k = usize::from(row);
        let here = here_of(k, scope.body, numbering.seen[scope.body + 1], count);
        scope.pass(k, here).ok_or(NoOpenEnd { op: i })?;
        count += usize::from(!numbering.seen[here]);
        numbering.owner[i] = here as u16;
        numbering.seen[here] = true;
    }
    Ok(())
}
