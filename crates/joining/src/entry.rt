// An op of the file on its way through the stack.
ghost use Rattle.std.specs.Prelude.{◌≡◌};
ghost use Rattle.joining.specs.Stack.{seen_of, valued};

use kind_table::row;
use patch_reader::reader::Read;

// Its place among the file's ops, and the value that it has by now if it is a Move or a Set of one value.
#[derive(Clone, Copy)]
pub struct Entry {
    pub op: u16,
    pub value: u64,
}

// What is looked at of it.
#[derive(Clone, Copy)]
pub struct Seen {
    pub row: u8,
    pub count: u16,
    pub value: u64,
}

impl Entry {
    // Its row and its count are 0 beyond the last op.
    pub fn seen(self, rows: &[u8; Read::OPS], counts: &[u16; Read::OPS]) -> Seen
        ensures { result ≡ seen_of rows.now counts.now self }
    {
        let at = usize::from(self.op);
        Seen {
            row: rows.get(at).copied().unwrap_or(0),
            count: counts.get(at).copied().unwrap_or(0),
            value: self.value,
        }
    }
}

impl Seen {
    // Whether it has a value of its own: a Move, or a Set of one value.
    #[tactic(auto, unfolding(crate::specs::Stack::valued))]
    pub fn has_value(self) -> bool
        ensures { result ≡ valued self.row self.count }
    {
        match self.row {
            row::MOVE => true,
            row::SET => self.count == 1,
            _ => false,
        }
    }
}
