// Bytes, and little-endian numbers, to a place of lent bytes.
ghost use Rattle.std.specs.Prelude.{◌≡◌, ◌+◌, ◌≤◌, length};
ghost use Rattle.byte_fields.specs.Bytes.{text_at, le16, le32};
ghost use Rattle.byte_fields.specs.Storage.{placed};

// The n bytes from byte `from` of `bytes`, to byte `at` of `out`. By index: `copy_from_slice` would have an archive ask for `memmove` from outside.
pub fn copy_bytes(out: &mut [u8], at: usize, bytes: &[u8], from: usize, n: usize)
    requires { (at + n ≤ length out.old) × (from + n ≤ length bytes.now) }
    ensures { out.new ≡ placed out.old at (text_at bytes.now from n) }
{
    for i in 0..n {
        out[at + i] = bytes[from + i];
    }
}

// A function a width, since the library's `to_le_bytes` is one for each type.
pub fn put_u16(out: &mut [u8], at: usize, n: usize)
    requires { at + 2 ≤ length out.old }
    ensures { out.new ≡ placed out.old at (le16 n) }
{
    let low = (n % 65536) as u16;
    out[at..at + 2].copy_from_slice(&low.to_le_bytes());
}

pub fn put_u32(out: &mut [u8], at: usize, n: usize)
    requires { at + 4 ≤ length out.old }
    ensures { out.new ≡ placed out.old at (le32 n) }
{
    let low = (n % 4294967296) as u32;
    out[at..at + 4].copy_from_slice(&low.to_le_bytes());
}
