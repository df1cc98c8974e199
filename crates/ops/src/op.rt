// How Get reads and how Put writes, and what FFI Call calls.
ghost use Rattle.std.specs.Prelude.{◌≡◌, ◌+◌, ◌≤◌, length};
ghost use Rattle.byte_fields.specs.Bytes.{u16_at};
ghost use Rattle.ops.specs.Decode.{mode_in, binding_in};

use byte_fields::read::u16_at;

#[derive(Clone, Copy, PartialEq, Eq, Debug)]
pub enum Mode {
    Char,
    Int,
    Other,
}

// 0 char, 1 int, any other another.
impl From<usize> for Mode {
    ghost from_gives = { λ number mode. mode ≡ mode_in number };

    fn from(number: usize) -> Mode {
        match number {
            0 => Mode::Char,
            1 => Mode::Int,
            _ => Mode::Other,
        }
    }
}

// The mode at byte `at`.
pub fn mode_at(bytes: &[u8], at: usize) -> Mode
    requires { at + 2 ≤ length bytes.now }
    ensures { result ≡ mode_in (u16_at bytes.now at) }
{
    Mode::from(u16_at(bytes, at))
}

// The functions that FFI Call can name.
#[derive(Clone, Copy, PartialEq, Eq, Debug)]
pub enum Binding {
    SquareRoot,
    Add,
}

// 0 the square root; of another number the reader lets only Add's pass.
impl From<usize> for Binding {
    ghost from_gives = { λ number binding. binding ≡ binding_in number };

    fn from(number: usize) -> Binding {
        match number {
            0 => Binding::SquareRoot,
            _ => Binding::Add,
        }
    }
}

// The binding at byte `at`.
pub fn binding_at(bytes: &[u8], at: usize) -> Binding
    requires { at + 2 ≤ length bytes.now }
    ensures { result ≡ binding_in (u16_at bytes.now at) }
{
    Binding::from(u16_at(bytes, at))
}
