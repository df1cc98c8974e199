// The function table: the places of the Function marks that have run or were called, rising, each once.
ghost use Rattle.std.specs.Prelude.{◌≡◌, ◌+◌, ◌≤◌, ◌<◌, Err, length, take};
ghost use Rattle.searches.specs.Found.{above, sought_in, entered_in, counted_in};
ghost use Rattle.machine_model.specs.Formed.{Rising};

// Looks for the place v among the first n, which rise: Ok has the number of its entry, Err that of the entry before which it belongs. Routines are mostly
// opened in order, so the last is asked first.
fn seek(table: &[u16], n: usize, v: u16) -> Result<usize, usize>
    requires { (n ≤ length table.now) × Rising (take n table.now) }
    ensures { result ≡ sought_in v (take n table.now) }
{
    if n == 0 || table[n - 1] < v {
        return Err(n);
    }
    table[..n].binary_search(&v)
}

// Makes room for the place v, which belongs at `at` among the first n, and writes it: those above it move up by one, the last of them first, each
// written once, where the library's rotate_right writes each twice. Answers how many moved.
fn insert(table: &mut [u16], n: usize, at: usize, v: u16) -> usize
    requires { (n < length table.old) × Rising (take n table.old) × (Err at ≡ sought_in v (take n table.old)) }
    ensures { (result ≡ above v (take n table.old)) × (table.new ≡ entered_in v n table.old) }
{
    let mut moved = 0;
    for i in (at..n).rev() {
        table[i + 1] = table[i];
        moved += 1;
    }
    table[at] = v;
    moved
}

// Enters the place v among the first n of the table, straight where it belongs, or not at all where it is there. The Rust sorts the table anew.
pub fn enter(table: &mut [u16], n: usize, v: u16) -> usize
    requires { (n ≤ length table.old) × Rising (take n table.old) }
    ensures { (result ≡ counted_in v n table.old) × (table.new ≡ entered_in v n table.old) }
{
    match seek(table, n, v) {
        Ok(_) => n,
        Err(at) => {
            if table.len() <= n {
                return n;
            }
            insert(table, n, at, v);
            n + 1
        }
    }
}
