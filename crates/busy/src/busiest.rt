// The ten busiest ops by their counts.
ghost use Rattle.std.specs.Prelude.{◌≡◌, ◌≤◌, ◌-◌, take};
ghost use Rattle.std.proofs.Common.{rules};
ghost use Rattle.std.specs.Cmp.{partial_order_from_own_ties};
ghost use Rattle.std.specs.Cmp.Rules.{comparing};
ghost use Rattle.std.specs.Ordering.{as_partial_cmp};
ghost use Rattle.busy.specs.Busiest.{busy_order, insert, with_op, blanks, listed, unlisted, busy_of};

use std::cmp::Ordering;

// How many ops are listed.
pub const BUSIEST: usize = 10;

// An op: its place, and its count.
#[derive(Clone, Copy, PartialEq, Eq)]
pub struct Op {
    pub place: usize,
    pub count: u64,
}

// The busier op stands first: the higher count, and the lower place on a tie.
impl Ord for Op {
    ghost cmp = { busy_order };

    ghost total = { Prim.search (comparing, rules) };

    ghost matches_partial_cmp = { Prim.search (comparing, rules) };

    ghost matches_eq = { Prim.search (comparing, rules) };

    fn cmp(&self, other: &Op) -> Ordering {
        other
            .count
            .cmp(&self.count)
            .then(self.place.cmp(&other.place))
    }
}

impl PartialOrd for Op {
    ghost partial_cmp = { as_partial_cmp busy_order };

    ghost laws = { partial_order_from_own_ties (Prim.search (comparing, rules)) (Prim.search (comparing, rules)) };

    fn partial_cmp(&self, other: &Op) -> Option<Ordering> {
        Some(self.cmp(other))
    }
}

// The first n of these, the busiest first; the others are blank, so that equal lists are equal answers. Theorems (`busy_of`, `listed`) name the two
// fields, and the memory is fixed.
#[derive(Drop)]
pub struct Busy {
    pub ops: [Op; BUSIEST],
    pub n: usize,
}

// One more op, put in its place; of eleven the last is dropped.
fn put(b: Busy, op: Op) -> Busy
    requires { (b.n ≤ 10) × (unlisted b ≡ blanks (10 - b.n)) }
    ensures { (result.n ≤ 10) × (listed result ≡ take 10 (insert op (listed b))) × (unlisted result ≡ blanks (10 - result.n)) }
{
    let mut ops = b.ops;
    let n = b.n;
    let mut x = op;
    for i in 0..n {
        let y = ops[i];
        ops[i] = y.min(x);
        x = y.max(x);
    }
    if BUSIEST <= n {
        return Busy { ops, n };
    }
    ops[n] = x;
    Busy { ops, n: n + 1 }
}

// One more op, if its count is not zero.
fn put_op(b: Busy, place: usize, count: u64) -> Busy
    requires { (b.n ≤ 10) × (unlisted b ≡ blanks (10 - b.n)) }
    ensures { (result.n ≤ 10) × (listed result ≡ take 10 (with_op place count (listed b))) × (unlisted result ≡ blanks (10 - result.n)) }
{
    if count == 0 {
        return b;
    }
    put(b, Op { place, count })
}

// The ten busiest: the higher count first, the lower place on ties, and no count of zero.
pub fn busiest(counts: &[u64]) -> Busy
    ensures { result ≡ busy_of counts.now }
{
    let none = Op { place: 0, count: 0 };
    let mut b = Busy {
        ops: [none; BUSIEST],
        n: 0,
    };
    for i in (0..counts.len()).rev() {
        b = put_op(b, i, counts[i]);
    }
    b
}
