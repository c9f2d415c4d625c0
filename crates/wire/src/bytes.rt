// Numbers in bytes, big-endian. By index: the frame's layout is a table of places, and a pattern of its 33
// bytes is no plainer.
ghost use Rattle.std.specs.Prelude.{◌≡◌, ◌+◌, ◌≤◌, length};
ghost use Rattle.wire.specs.Bytes.{four_at, eight_at, put_over};

pub(crate) fn number4(b: &[u8], i: usize) -> u32
    requires { i + 4 ≤ length b.now }
    ensures { result ≡ four_at b.now i }
{
    u32::from_be_bytes([b[i], b[i + 1], b[i + 2], b[i + 3]])
}

pub(crate) fn number8(b: &[u8], i: usize) -> u64
    requires { i + 8 ≤ length b.now }
    ensures { result ≡ eight_at b.now i }
{
    u64::from_be_bytes([
        b[i],
        b[i + 1],
        b[i + 2],
        b[i + 3],
        b[i + 4],
        b[i + 5],
        b[i + 6],
        b[i + 7],
    ])
}

// Writes `bytes` over what stands in `dest` from `at` on.
pub(crate) fn put(dest: &mut [u8], at: usize, bytes: &[u8])
    requires { at + length bytes.now ≤ length dest.old }
    ensures { dest.new ≡ put_over dest.old at bytes.now }
{
    dest[at..at + bytes.len()].copy_from_slice(bytes);
}
