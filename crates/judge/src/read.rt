// Numbers in the bytes of an area. The register has functions that ask nothing for this; in the loops over entries these, which ask that the bytes
// are there, take three instructions less an entry.
ghost use Rattle.std.specs.Prelude.{◌≡◌, ◌+◌, ◌≤◌, length};
ghost use Rattle.register.specs.Bytes.{word_at, long_at};

pub(crate) fn word_at(bytes: &[u8], i: usize) -> u16
    requires { i + 2 ≤ length bytes.now }
    ensures { result ≡ word_at bytes.now i }
{
    let low = bytes[i] as u16;
    let high = bytes[i + 1] as u16;
    low + 256 * high
}

pub(crate) fn long_at(bytes: &[u8], i: usize) -> u32
    requires { i + 4 ≤ length bytes.now }
    ensures { result ≡ long_at bytes.now i }
{
    let low = word_at(bytes, i) as u32;
    let high = word_at(bytes, i + 2) as u32;
    low + 65536 * high
}
