// What is said of a case that differs: its number, what differs, what was expected and what came.
use streams::print::{end_line, lane, number};

// A case's number, and whether anything is to be said of it.
#[derive(Clone, Copy)]
pub struct Tell {
    pub case: u32,
    pub loud: bool,
}

impl Tell {
    // Says what differs, of several which, and the two values as `show` prints them.
    fn differ<T, F: Fn(T)>(self, what: &[u8], i: Option<usize>, expected: T, came: T, show: F)
        requires { F.IsAlwaysCallable show }
    {
        io::write_all(1, b"differ");
        number(self.case as usize);
        io::write_all(1, b": ");
        io::write_all(1, what);
        if let Some(i) = i {
            number(i);
        }
        io::write_all(1, b", expected");
        show(expected);
        io::write_all(1, b", came");
        show(came);
        end_line();
    }

    // Whether a number is the one expected.
    pub fn same(self, what: &[u8], expected: usize, came: usize) -> bool {
        if expected != came && self.loud {
            self.differ(what, None, expected, came, number);
        }
        expected == came
    }

    // Whether an element is the one expected.
    pub fn same_at(self, what: &[u8], i: usize, expected: u64, came: u64) -> bool {
        if expected != came && self.loud {
            self.differ(what, Some(i), expected, came, lane);
        }
        expected == came
    }
}
