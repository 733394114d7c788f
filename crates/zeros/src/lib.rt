// Bytes that are zero to the end, as an area with no meter is, and an area after its journal.
#![tactic(auto)]

ghost use Rattle.std.specs.Prelude.{◌≡◌, ◌+◌, ◌≤◌, ◌<◌, ◌%◌, length, drop, eqb};
ghost use Rattle.register.specs.Area.{all_zero};

// The bits of whole fours of bytes, which are taken sixteen at a time while there are as many.
fn bits_of(bytes: &[u8]) -> u128
    requires { length bytes.now % 4 ≡ 0 }
    ensures { eqb result 0 ≡ all_zero bytes.now }
{
    let (wide, rest) = bytes.as_chunks::<16>();
    let (narrow, _) = rest.as_chunks::<4>();
    let bits = wide
        .iter()
        .fold(0, |bits, word| bits | u128::from_le_bytes(*word));
    narrow.iter().fold(
        bits,
        |bits, word| bits | u128::from(u32::from_le_bytes(*word)),
    )
}

// Every byte from one on is zero: N of them at a time up to the last N, which come first, since those before may overlap them.
#[inline]
fn is_zero_by<const N: usize>(bytes: &[u8], from: usize) -> bool
    requires fours { N % 4 ≡ 0 }
    requires some { 0 < N }
    requires room { from + N ≤ length bytes.now }
    ensures { result ≡ all_zero (drop from bytes.now) }
{
    let last = bytes.len() - N;
    let mut bits = bits_of(&bytes[last..]);
    for i in (from..last).step_by(N) {
        bits |= bits_of(&bytes[i..i + N]);
    }
    bits == 0
}

// Every byte from a place on is zero.
pub fn is_zero_from(bytes: &[u8], from: usize) -> bool
    ensures { result ≡ all_zero (drop from bytes.now) }
{
    if bytes.len() < from {
        return true;
    }
    let left = bytes.len() - from;
    if left >= 256 {
        is_zero_by::<256>(bytes, from)
    } else if left >= 64 {
        is_zero_by::<64>(bytes, from)
    } else if left >= 16 {
        is_zero_by::<16>(bytes, from)
    } else if left >= 4 {
        is_zero_by::<4>(bytes, from)
    } else {
        is_zero(&bytes[from..])
    }
}

// Every byte is zero. One by one, since the compiler takes sixteen at a time by itself where it knows how many there are, as of an area.
pub fn is_zero(bytes: &[u8]) -> bool
    ensures { result ≡ all_zero bytes.now }
{
    bytes.iter().fold(0, |bits, b| bits | *b) == 0
}
