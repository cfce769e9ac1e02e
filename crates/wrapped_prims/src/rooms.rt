//! Room in front of a plaintext that is sealed in place.

ghost use Rattle.std.specs.Prelude.{◌≡◌, ◌+◌, ◌++◌, ◌^◌, ◌≤◌, ℕ, drop, length, take, IfOk};

use std::alloc::Global;
use tink_base::NoMemory;

/// The size of the longest tag, a digest of SHA-512, in bytes.
const LONGEST_TAG: usize = 64;

/// `room` bytes and the plaintext, with capacity for any tag after it.
pub(crate) fn behind_room(alloc: Global, room: usize, plain: &[u8]) -> Result<Vec<u8>, NoMemory>
    requires room_bound { room ≤ 2 ^ 10 }
    requires plain_bound { length plain.now ≤ 2 ^ 30 }
    ensures size { IfOk result (λ bytes. length bytes.items ≡ room + length plain.now) }
    ensures plain { IfOk result (λ bytes. drop room bytes.items ≡ plain.now) }
{
    let mut bytes = Vec::with_capacity(alloc, room + plain.len() + LONGEST_TAG)?;
    bytes.resize(room, 0)?;
    bytes.extend_from_slice(plain)?;
    Ok(bytes)
}

/// The list with `front` written over its first bytes.
pub(crate) fn with_front(front: &[u8], mut bytes: Vec<u8>) -> Vec<u8>
    requires room { length front.now ≤ length bytes.items }
    ensures size { length result.items ≡ length bytes.items }
    ensures front { take (length front.now) result.items ≡ front.now }
    ensures behind { (n : ℕ) → length front.now ≤ n → drop n result.items ≡ drop n bytes.items }
{
    put_front(front, &mut bytes);
    bytes
}

// Writes `front` over the first bytes.
fn put_front(front: &[u8], bytes: &mut [u8])
    requires room { length front.now ≤ length bytes.old }
    ensures { bytes.new ≡ front.now ++ drop (length front.now) bytes.old }
{
    bytes[..front.len()].copy_from_slice(front);
}
