// What the programs print: a number after a space, as it is or as a lane's integer, and a list of these. They go on where nothing can be written:
// `io::write_all` answers that, and `print!` would hand each caller an error that it has to let go.
pub fn number(n: usize) {
    io::write_all(1, b" ");
    io::print_decimal(1, n as u64);
}

// A lane's integer: its digits, after a minus where it is below zero.
pub fn lane(v: u64) {
    let lane = v.cast_signed();
    if lane < 0 {
        io::write_all(1, b" -");
    } else {
        io::write_all(1, b" ");
    }
    io::print_decimal(1, lane.unsigned_abs());
}

// The values from one place to another, or to their end.
pub fn lanes(values: &[u64], from: usize, to: usize) {
    for &v in values.iter().take(to).skip(from) {
        lane(v);
    }
}

pub fn end_line() {
    io::write_all(1, b"\n");
}
