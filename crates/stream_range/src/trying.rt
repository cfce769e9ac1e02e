//! The key under which a stream's first segment opens.

ghost use Rattle.std.specs.Prelude.{◌≡◌, ◌+◌, ◌<◌, ◌≤◌, ◌^◌, min, length, MatchOption, IfNone, false};
ghost use Rattle.std.specs.List.{AllByRecursion};
ghost use Rattle.segment_stream.specs.Opening.{has_header};
ghost use Rattle.segment_stream.specs.Segments.{IsSound, cipher_of};
ghost use Rattle.stream_range.specs.Reading.{Begins, Chosen, Fit, NoneChosen, Unfit};

use crate::sizes::{Begun, Sizes};
use segment_stream::{Stream, StreamKey};

/// The stream with the header at the front, if it has the key's length.
fn begin(key: &StreamKey, ad: &[u8], front: &[u8]) -> Option<Begun>
    requires { IsSound key.now }
    ensures { MatchOption result (has_header (cipher_of ad.now key.now) front.now ≡ false)
        (λ begun. Begins begun (cipher_of ad.now key.now) front.now) }
{
    let header = key.header_size();
    if front.len() < header || front[0] as usize != header {
        return None;
    }
    let stream = Stream::new(key, ad, &front[..header]);
    let sizes = Sizes {
        segment: key.segment_size() as u64,
        header: header as u64,
        tag: stream.tag_size() as u64,
    };
    Some(Begun { stream, sizes })
}

/// The stream begun under the key, if its first segment opens in its place. `front` holds the first
/// bytes of a stream of `size` bytes, including the whole first segment. It is unchanged if the
/// segment doesn't open.
fn try_key(key: &StreamKey, ad: &[u8], size: u64, front: &mut [u8]) -> Option<Begun>
    requires sound { IsSound key.now }
    requires front { min key.now.segment size ≤ length front.old }
    requires within { length front.old ≤ size }
    ensures tried { MatchOption result (Unfit key.now ad.now front.old size)
        (Fit key.now ad.now front.old size) }
    ensures kept { IfNone result (front.new ≡ front.old) }
{
    let segment = key.segment_size();
    let end = segment.min(front.len());
    let mut begun = match begin(key, ad, &front[..end]) {
        Some(begun) => begun,
        None => return None,
    };
    let from = begun.sizes.header as usize;
    match begun
        .stream
        .open(0, size <= segment as u64, &mut front[from..end])
    {
        Some(_) => Some(begun),
        None => None,
    }
}

/// The stream begun under the first of the keys that opens its first segment in its place. `front`
/// holds the first bytes of a stream of `size` bytes, including each key's first segment.
pub(crate) fn choose_key(
    keys: &[StreamKey],
    ad: &[u8],
    size: u64,
    front: &mut [u8],
) -> Option<Begun>
    requires sound { AllByRecursion IsSound keys.now }
    requires front { AllByRecursion (λ key. min key.segment size ≤ length front.old) keys.now }
    requires within { length front.old ≤ size }
    ensures { MatchOption result (NoneChosen keys.now ad.now front.old size)
        (Chosen keys.now ad.now front.old size) }
{
    for key in keys {
        match try_key(key, ad, size, front) {
            Some(begun) => return Some(begun),
            None => {}
        }
    }
    None
}
