//! Numbers and lists of symbols in the body of a frame.
ghost use Rattle.std.specs.Prelude.{◌≡◌, ◌≤◌, ◌+◌, length};
ghost use Rattle.linear_spec.specs.Symbols.{AreBytes};
ghost use Rattle.packet_wire.specs.Judgements.{number16_at as number16_of, number32_at as number32_of, number64_at as number64_of};

/// The 32 bytes of a key or a digest.
pub(crate) fn array32(bytes: &[u8]) -> [u8; 32]
    requires { length bytes.now ≡ 32 }
    ensures value { result ≡ bytes.now }
    ensures bytes { AreBytes result }
{
    let mut array = [0; 32];
    array.copy_from_slice(bytes);
    array
}

/// The number that two bytes from a place on spell.
pub(crate) fn number16_at(bytes: &[u8], at: usize) -> u16
    requires { at + 2 ≤ length bytes.now }
    ensures { result ≡ number16_of bytes.now at }
{
    u16::from(bytes[at]) * 256 + u16::from(bytes[at + 1])
}

/// The number that four bytes from a place on spell.
pub(crate) fn number32_at(bytes: &[u8], at: usize) -> u32
    requires { at + 4 ≤ length bytes.now }
    ensures { result ≡ number32_of bytes.now at }
{
    u32::from(number16_at(bytes, at)) * 65536 + u32::from(number16_at(bytes, at + 2))
}

/// The number that eight bytes from a place on spell.
pub(crate) fn number64_at(bytes: &[u8], at: usize) -> u64
    requires { at + 8 ≤ length bytes.now }
    ensures { result ≡ number64_of bytes.now at }
{
    u64::from(number32_at(bytes, at)) * 4_294_967_296 + u64::from(number32_at(bytes, at + 4))
}

/// A law: each number of a slice of bytes is a byte, by its type.
pub(crate) fn are_bytes(bytes: &[u8])
    ensures { AreBytes bytes.now }
{
    let _len = bytes.len();
}
