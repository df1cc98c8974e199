// Put: a value, or the decimal characters of an integer, into the output from its count on, all or none.
ghost use Rattle.std.specs.Prelude.{◌≡◌, ◌+◌, ◌^◌, ◌<◌, ◌≤◌, [], ◌∷◌, length, drop};
ghost use Rattle.testing_device.specs.Device.{decimal, written, put_of};
ghost use Rattle.testing_device.specs.Room.{left, placed, put_in};

use ops::op::Mode;

// Characters that end at the array's end: those from place `from` on. The memory is fixed, so that no list of their own length is made.
#[derive(Drop)]
struct Text {
    chars: [u64; 20],
    from: usize,
}

// One place stays free for a sign. The last digit comes first, and how many there are is known only at the end: there is no range to go through.
// The text is changed in its place, as below: made of its parts at the end it is copied.
fn digits_of(n: u64) -> Text
    requires { n < 10 ^ 19 }
    ensures { (drop result.from result.chars ≡ decimal 20 n) × (0 < result.from) × (result.from < 20) }
{
    let mut text = Text {
        chars: [0; 20],
        from: 20,
    };
    let mut rest = n;
    while 10 <= rest {
        text.from -= 1;
        text.chars[text.from] = 48 + rest % 10;
        rest /= 10;
    }
    text.from -= 1;
    text.chars[text.from] = 48 + rest;
    text
}

fn text_of(value: u64) -> Text
    ensures { (drop result.from result.chars ≡ written value) × (result.from < 20) }
{
    if value < 0x8000000000000000 {
        return digits_of(value);
    }
    let mut text = digits_of((u64::MAX - value) + 1);
    text.from -= 1;
    text.chars[text.from] = 45;
    text
}

// The values, from place `count` on. By index: `copy_from_slice` would have an archive ask for `memmove` from outside.
fn copy(values: &[u64], output: &mut [u64], count: usize)
    requires { count + length values.now ≤ length output.old }
    ensures { output.new ≡ placed values.now output.old count }
{
    for i in 0..values.len() {
        output[count + i] = values[i];
    }
}

// The values from place `count` on, if there is room for all of them; no values need no room. The output count after them.
fn place(values: &[u64], output: &mut [u64], count: usize) -> Option<usize>
    ensures { left result output.new ≡ put_in values.now output.old count }
{
    if values.is_empty() {
        return Some(count);
    }
    if output.len().saturating_sub(count) < values.len() {
        return None;
    }
    let end = count + values.len();
    copy(values, output, count);
    Some(end)
}

fn put_int(value: u64, output: &mut [u64], count: usize) -> Option<usize>
    ensures { left result output.new ≡ put_in (written value) output.old count }
{
    let text = text_of(value);
    place(&text.chars[text.from..], output, count)
}

fn put_char(value: u64, output: &mut [u64], count: usize) -> Option<usize>
    ensures { left result output.new ≡ put_in (value ∷ []) output.old count }
{
    place(&[value], output, count)
}

#[tactic(auto, unfolding(crate::specs::Device::put_of, crate::specs::Room::put_in))]
pub fn put(mode: Mode, value: u64, output: &mut [u64], count: usize) -> Option<usize>
    ensures { left result output.new ≡ put_in (put_of mode value) output.old count }
{
    match mode {
        Mode::Char => put_char(value, output, count),
        Mode::Int => put_int(value, output, count),
        Mode::Other => Some(count),
    }
}
