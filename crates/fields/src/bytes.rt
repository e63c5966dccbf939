// The numbers in a run of bytes, big-endian.
ghost use Rattle.std.specs.Prelude.{◌≡◌, ◌+◌, ◌<◌, length};
ghost use Rattle.fields.specs.Bytes.{byte, two, four};

// The byte at i.
pub fn byte_at(s: &[u8], i: usize) -> u32
    requires { i < length s.now }
    ensures { result ≡ byte s.now i }
{
    u32::from(s[i])
}

// The number in two bytes from i on.
#[tactic(auto, unfolding(crate::specs::Bytes::two))]
pub fn two_at(s: &[u8], i: usize) -> u32
    requires { i + 1 < length s.now }
    ensures { result ≡ two s.now i }
{
    u32::from(u16::from_be_bytes([s[i], s[i + 1]]))
}

// The number in four bytes from i on.
#[tactic(auto, unfolding(crate::specs::Bytes::two, crate::specs::Bytes::four))]
pub fn four_at(s: &[u8], i: usize) -> u32
    requires { i + 3 < length s.now }
    ensures { result ≡ four s.now i }
{
    u32::from_be_bytes([s[i], s[i + 1], s[i + 2], s[i + 3]])
}
