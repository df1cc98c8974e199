// The search for every partner at once: a labelled scan back over the ops, left at the first of them, that yields by break the place from which on the
// marks stand. It keeps a stack of the frames that are open behind the place; the lowest frame has no End.
ghost use Rattle.std.specs.Prelude.{◌≡◌, ℕ, ◌+◌, ◌≤◌, ◌<◌, length, replicate};
ghost use Rattle.basics.specs.Limits.{most_ops, most_marks};
ghost use Rattle.byte_fields.specs.Storage.{fill};
ghost use Rattle.partners.specs.Columns.{nowhere, partners_of, turns_of, functions_of, fill_end, first_of, nth_of};
ghost use Rattle.partners.specs.Pass.{passed, left, pair_of, left_of, pass_of, entered, entered_of};

use kind_table::row;
use patch_reader::reader::Read;

// The one value that stands for no place. The columns keep it and no Option, which would double their fixed memory; `patch_read` and `nowhere` name it.
pub const NOWHERE: u16 = 65535;

// The frames: the lowest, and one for each op.
const FRAMES: usize = Read::OPS + 1;

// The frames that are open behind the place, counted from 0, each with its End and its nearest Else; the lowest has no End. Two
// arrays, as the definition of the pass has two lists (`pass_of`).
#[derive(Drop)]
struct Frames {
    ends: [u16; FRAMES],
    elses: [u16; FRAMES],
    top: usize,
}

impl Frames {
    // The op at i, which opens, leaves the top frame; the lowest stays and forgets its Else.
    #[tactic(auto, unfolding(crate::specs::Pass::left_of))]
    fn leave(&mut self, i: usize, partners: &mut [u16; Read::OPS])
        requires { (i < most_ops) × (self.old.top < 4096) }
        ensures ends { self.new.ends ≡ self.old.ends }
        ensures left { left self.new.top self.new.elses partners.new ≡ left_of i self.old.top self.old.ends self.old.elses partners.old }
    {
        if self.top == 0 {
            self.elses[0] = NOWHERE;
            return;
        }
        pair(i, self.ends[self.top], partners);
        self.top -= 1;
    }

    // The op of row k at i, met on the way back.
    #[tactic(auto, unfolding(crate::specs::Pass::pass_of))]
    fn pass(
        &mut self,
        k: u8,
        i: usize,
        partners: &mut [u16; Read::OPS],
        turns: &mut [u16; Read::OPS],
    )
        requires { (i < most_ops) × (self.old.top < 4096) }
        ensures { passed self.new.top self.new.ends self.new.elses partners.new turns.new ≡ pass_of k i self.old.top self.old.ends self.old.elses partners.old turns.old }
    {
        match k {
            row::END => {
                self.top += 1;
                self.ends[self.top] = i as u16;
                self.elses[self.top] = NOWHERE;
            }
            row::ELSE => {
                partners[i] = self.ends[self.top];
                self.elses[self.top] = i as u16;
            }
            row::IF => {
                turns[i] = self.elses[self.top];
                self.leave(i, partners);
            }
            row::WHILE | row::FUNCTION => self.leave(i, partners),
            _ => {}
        }
    }
}

// The op at i and the End at e hold each other; where e is no place, the op holds that alone.
#[tactic(auto, unfolding(crate::specs::Pass::pair_of))]
fn pair(i: usize, e: u16, partners: &mut [u16; Read::OPS])
    requires { i < most_ops }
    ensures { partners.new ≡ pair_of i e partners.old }
{
    let at = usize::from(e);
    partners[i] = e;
    if Read::OPS <= at {
        return;
    }
    partners[at] = i as u16;
}

// Enters place i before the marks, which stand from m on, where the op of row k is a Function; where they begin then.
#[tactic(auto, unfolding(crate::specs::Pass::entered_of))]
fn enter_mark(k: u8, i: usize, m: usize, marks: &mut [u16; Read::MARKS]) -> usize
    requires { (i < 65536) × (m ≤ most_marks) × (k ≡ 2 → 0 < m) }
    ensures { entered result marks.new ≡ entered_of k i m marks.old }
{
    if k == row::FUNCTION {
        let b = m - 1;
        marks[b] = i as u16;
        return b;
    }
    m
}

// Fills the blank columns of the ops of these rows: the partner of each, and each If's Else. The places of the Function marks go to the end of `marks`,
// in file order; the answer is where they begin.
pub fn find_partners(
    rows: &[u8],
    partners: &mut [u16; Read::OPS],
    turns: &mut [u16; Read::OPS],
    marks: &mut [u16; Read::MARKS],
) -> usize
    requires { (length rows.now ≤ most_ops) × (partners.old ≡ replicate most_ops nowhere) × (turns.old ≡ replicate most_ops nowhere) × (length (functions_of rows.now) ≤ most_marks) }
    ensures partners_after { partners.new ≡ fill (partners_of rows.now) partners.old }
    ensures turns_after { turns.new ≡ fill (turns_of rows.now) turns.old }
    ensures rows_value { (result + length (functions_of rows.now) ≡ most_marks) × (marks.new ≡ fill_end (functions_of rows.now) marks.old) }
{
    // no op, no frames to make
    if rows.is_empty() {
        return Read::MARKS;
    }
    let mut frames = Frames {
        ends: [NOWHERE; FRAMES],
        elses: [NOWHERE; FRAMES],
        top: 0,
    };
    let mut m: usize = Read::MARKS;
    let mut i = rows.len();
    // the form is 01's: a labelled scan over the ops, left by break
    let first = 'scan: loop {
        if i == 0 {
            break 'scan m;
        }
        i -= 1;
        let k = rows[i];
        frames.pass(k, i, partners, turns);
        m = enter_mark(k, i, m, marks);
    };
    first
}

// The first of two stored places that is one.
#[tactic(auto, unfolding(crate::specs::Columns::first_of))]
pub fn first_of(turn: u16, end: usize) -> usize
    ensures { result ≡ first_of turn end }
{
    if turn == NOWHERE {
        end
    } else {
        usize::from(turn)
    }
}

// The n-th Function mark, counted from 0, of marks in file order. The one value for no place where there is none, as `nth_of` has it: a jump refuses it
// with every other place that is no op's.
#[tactic(auto, unfolding(crate::specs::Columns::nth_of))]
pub fn nth_function(marks: &[u16], n: u64) -> usize
    ensures { result ≡ nth_of n marks.now }
{
    usize::from(marks.get(n as usize).copied().unwrap_or(NOWHERE))
}
