// Reads a list of patch files on standard input, and prints for each the number, the place and the op count that the reader
// answers. The list and the stored output were made apart from this code, by crates/test_files/make.py.
//
// A file of the list is four lengths of two bytes, start, back, more and tail; then start bytes and tail bytes. It stands for
// the start bytes, then more bytes, each the same as the one back bytes before it, then the tail bytes.
#![tactic(auto)]

ghost use Rattle.std.specs.Prelude.{◌≡◌, ◌+◌, ◌<◌, ◌≤◌, length};

use patch_reader::reader::read_patch;

// Two bytes as a length.
fn size(low: u8, high: u8) -> usize
    ensures { result < 65536 }
{
    usize::from(u16::from_le_bytes([low, high]))
}

// Reads n bytes to the place `at`, and answers the place after them.
fn take(file: &mut [u8], at: usize, n: usize) -> usize
    requires { at + n ≤ length file.old }
    ensures { result ≡ at + n }
{
    let to = at + n;
    io::read_full(0, &mut file[at..to]);
    to
}

// Repeats what stands before the place `at`, the last `back` bytes over and over, for n bytes, and answers the place after them.
fn again(file: &mut [u8], at: usize, back: usize, n: usize) -> usize
    requires { at + n ≤ length file.old }
    ensures { result ≤ at + n }
{
    if at < back {
        return at;
    }
    let to = at + n;
    for i in at..to {
        file[i] = file[i - back];
    }
    to
}

// Prints the answer of the file of the first n bytes.
fn show(file: &[u8], n: usize)
    requires { n ≤ length file.now }
{
    let (number, place, ops) = match read_patch(&file[..n]) {
        Ok(ops) => (0, ops, ops),
        Err(unread) => (unread.number, unread.place, unread.ops),
    };
    io::print_decimal(1, number as u64);
    io::write_all(1, b" ");
    io::print_decimal(1, place as u64);
    io::write_all(1, b" ");
    io::print_decimal(1, ops as u64);
    io::write_all(1, b"\n");
}

// Room for a file of the list, of which three lengths make at most 196,605 bytes.
const ROOM: usize = 196608;

// Replays one file of the list, and answers whether there was one.
fn replay(file: &mut [u8; ROOM]) -> bool {
    let mut head = [0u8; 8];
    if io::read_full(0, &mut head) < 8 {
        return false;
    }
    let start = take(file, 0, size(head[0], head[1]));
    let full = again(file, start, size(head[2], head[3]), size(head[4], head[5]));
    let end = take(file, full, size(head[6], head[7]));
    show(file, end);
    true
}

// A proved loop has to end, and nothing says that the list does: so there is a bound on the turns.
fn main() {
    let mut file = [0u8; ROOM];
    for _ in 0..100000 {
        if !replay(&mut file) {
            return;
        }
    }
}
