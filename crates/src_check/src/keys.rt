//! The keys of weights: of a server by its number, and of its ticket for a peer.
ghost use Rattle.std.specs.Prelude.{◌≡◌};
ghost use Rattle.src_check.specs.Keys.{key_of_number, key_of_ticket};

/// The key of a number: its bytes, the high one first, and 24 zero bytes. Takes no memory.
pub fn number_key(number: u64) -> [u8; 32]
    ensures { result ≡ key_of_number number }
{
    let mut key = [0; 32];
    key[..8].copy_from_slice(&number.to_be_bytes());
    key
}

/// The key of the ticket that a server with this number gives this peer: the bytes of both, the high one first, and 16 zero
/// bytes. Takes no memory.
pub fn ticket_key(number: u64, peer: u64) -> [u8; 32]
    ensures { result ≡ key_of_ticket number peer }
{
    let mut key = number_key(number);
    key[8..16].copy_from_slice(&peer.to_be_bytes());
    key
}
