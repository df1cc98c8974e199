// The push of an op on the ops before it.
ghost use Rattle.std.specs.Prelude.{◌≡◌, ◌∷◌, ◌+◌, ◌<◌, ◌≤◌};
ghost use Rattle.basics.specs.Limits.{most_ops};

use crate::entry::Entry;
use crate::met::{Met, meets, total};
use kind_table::row;
use patch_reader::reader::Read;

// The ops that are left: the first n entries, the last one on top. Memory is fixed, so the arrays have their count beside them; they are two, ops and
// values, since an entry with both takes 16 bytes where these take 10.
#[derive(Drop)]
pub struct Stack {
    pub ops: [u16; Read::OPS],
    pub values: [u64; Read::OPS],
    pub n: usize,
    ghost few: { n ≤ most_ops },
}

impl Stack {
    ghost use Rattle.joining.specs.Stack.{entry_in, stack, moved_on, push_on};

    // No entry.
    pub fn empty() -> Stack
        ensures { result.n ≡ 0 }
    {
        Stack {
            ops: [0; Read::OPS],
            values: [0; Read::OPS],
            n: 0,
        }
    }

    // The entry at a place.
    pub fn entry(&self, at: usize) -> Entry
        requires { at < most_ops }
        ensures { result ≡ entry_in self.now at }
    {
        Entry {
            op: self.ops[at],
            value: self.values[at],
        }
    }

    // One more entry.
    pub fn put(&mut self, next: Entry)
        requires { self.old.n < most_ops }
        ensures count { self.new.n ≡ self.old.n + 1 }
        ensures value { stack self.new ≡ next ∷ stack self.old }
    {
        self.ops[self.n] = next.op;
        self.values[self.n] = next.value;
        self.n += 1;
    }

    // The push of a move.
    pub fn put_move(&mut self, rows: &[u8; Read::OPS], counts: &[u16; Read::OPS], next: Entry)
        requires { self.old.n < most_ops }
        ensures few { self.new.n ≤ self.old.n + 1 }
        ensures value { stack self.new ≡ moved_on rows.now (stack self.old) next }
    {
        if self.n == 0 {
            return self.put(next);
        }
        let last = Entry {
            op: self.ops[self.n - 1],
            value: self.values[self.n - 1],
        };
        if last.seen(rows, counts).row != row::MOVE {
            return self.put(next);
        }
        let sum = total(last.value, next.value);
        if sum == 0 {
            self.n -= 1;
        } else {
            self.values[self.n - 1] = sum;
        }
    }

    // The push of an op.
    pub fn push(&mut self, rows: &[u8; Read::OPS], counts: &[u16; Read::OPS], next: Entry)
        requires { self.old.n < most_ops }
        ensures few { self.new.n ≤ self.old.n + 1 }
        ensures value { stack self.new ≡ push_on rows.now counts.now (stack self.old) next }
    {
        if self.n == 0 {
            return self.put(next);
        }
        let last = Entry {
            op: self.ops[self.n - 1],
            value: self.values[self.n - 1],
        };
        match meets(last.seen(rows, counts), next.seen(rows, counts)) {
            Met::Push => self.put(next),
            Met::Skip => {}
            Met::Pop => self.n -= 1,
            Met::Again => {
                self.n -= 1;
                self.push(rows, counts, next);
            }
            Met::Test(value) => {
                self.n -= 1;
                self.push(rows, counts, Entry { op: last.op, value });
            }
            Met::Under => {
                self.n -= 1;
                self.push(rows, counts, next);
                self.put_move(rows, counts, last);
            }
            Met::Sum(sum) => self.values[self.n - 1] = sum,
        }
    }
}
