// Little-endian numbers of a byte slice, and a Set's values.
ghost use Rattle.std.specs.Prelude.{◌≡◌, ◌+◌, ◌*◌, ◌<◌, ◌≤◌, length};
ghost use Rattle.byte_fields.specs.Bytes.{u16_at, u32_at, u64_at, values_at};
ghost use Rattle.byte_fields.specs.Storage.{fill};

// A function a width: each names the library's method of its width in a line. One over a const width would be a loop in its place, and no plainer.
pub fn u16_at(bytes: &[u8], at: usize) -> usize
    requires { at + 2 ≤ length bytes.now }
    ensures { (result ≡ u16_at bytes.now at) × (result < 65536) }
{
    let b = &bytes[at..at + 2];
    usize::from(u16::from_le_bytes([b[0], b[1]]))
}

pub fn u32_at(bytes: &[u8], at: usize) -> usize
    requires { at + 4 ≤ length bytes.now }
    ensures { (result ≡ u32_at bytes.now at) × (result < 4294967296) }
{
    let b = &bytes[at..at + 4];
    u32::from_le_bytes([b[0], b[1], b[2], b[3]]) as usize
}

pub fn u64_at(bytes: &[u8], at: usize) -> u64
    requires { at + 8 ≤ length bytes.now }
    ensures { result ≡ u64_at bytes.now at }
{
    let b = &bytes[at..at + 8];
    u64::from_le_bytes([b[0], b[1], b[2], b[3], b[4], b[5], b[6], b[7]])
}

// The n values from byte `at` on, to the start of the register.
pub fn read_values(register: &mut [u64], bytes: &[u8], at: usize, n: usize)
    requires { (n ≤ length register.old) × (at + 8 * n ≤ length bytes.now) }
    ensures { register.new ≡ fill (values_at bytes.now at n) register.old }
{
    for i in 0..n {
        register[i] = u64_at(bytes, at + 8 * i);
    }
}
