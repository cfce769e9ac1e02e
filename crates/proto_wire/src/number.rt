//! Varints.

ghost use Rattle.std.specs.Prelude.{◌≡◌, ◌<◌, ◌≤◌, ◌%◌, ◌^◌, List, ℕ, length, take, drop, position, nat_lt, option_map, IfSome};
ghost use Rattle.tink_spec.specs.Varint.{groups, number_front};

/// The most bytes that a varint has.
const LONGEST: usize = 10;

/// The number of the varint at the front, and how many bytes it takes. Bytes may follow.
pub fn front_number(bytes: &[u8]) -> Option<(u64, usize)>
    ensures some { IfSome result (λ found. 0 < found.1) }
    ensures within { IfSome result (λ found. found.1 ≤ length bytes.now) }
    ensures read { number_front bytes.now ≡
        option_map (λ found. (found.0, drop found.1 bytes.now)) result }
{
    let last = last_place(bytes)?;
    Some((low_groups(&bytes[..=last]), last + 1))
}

/// The place of the last byte of the varint at the front.
fn last_place(bytes: &[u8]) -> Option<usize>
    ensures { result ≡ position (λ b. nat_lt b 128) (take 10 bytes.now) }
{
    bytes.iter().take(LONGEST).position(|b| *b < 128)
}

/// The low 64 bits of the groups of seven bits, the lowest group first.
fn low_groups(bytes: &[u8]) -> u64
    ensures { result ≡ groups bytes.now % 2 ^ 64 }
{
    bytes.iter().rev().fold(0u64, |value, b| {
        value.wrapping_mul(128).wrapping_add(u64::from(*b % 128))
    })
}
