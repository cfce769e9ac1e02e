//! Which of several keys opens a stream, by the bytes in front of it. No plaintext is given out.

ghost use Rattle.std.specs.Prelude.{◌≡◌, ◌≤◌, false, length, take};
ghost use Rattle.std.specs.List.{AllByRecursion};
ghost use Rattle.segment_stream.specs.Choosing.{place_of};
ghost use Rattle.segment_stream.specs.Opening.{fits};
ghost use Rattle.segment_stream.specs.Segments.{IsSound, cipher_of, ciphers_of};

use crate::key::StreamKey;
use crate::segments::Stream;
use crate::trying::begins;

/// Whether the first segment, in the bytes that the buffer holds, opens under the key. If it
/// doesn't, the buffer is unchanged.
fn fits(key: &StreamKey, ad: &[u8], buffer: &mut [u8], len: usize) -> bool
    requires sound { IsSound key.now }
    requires within { len ≤ length buffer.old }
    ensures fits { result ≡ fits (cipher_of ad.now key.now) (take len buffer.old) }
    ensures kept { result ≡ false → buffer.new ≡ buffer.old }
{
    if !begins(key, &buffer[..len]) {
        return false;
    }
    let from = key.header_size();
    let mut stream = Stream::new(key, ad, &buffer[..from]);
    let size = stream.size();
    let end = len.min(size);
    match stream.open(0, len <= size, &mut buffer[from..end]) {
        Some(_) => true,
        None => false,
    }
}

/// The place of the first of the keys whose first segment opens, of those bytes that the buffer holds.
pub(crate) fn place_of(
    keys: &[StreamKey],
    ad: &[u8],
    buffer: &mut [u8],
    len: usize,
) -> Option<usize>
    requires sound { AllByRecursion IsSound keys.now }
    requires within { len ≤ length buffer.old }
    ensures { result ≡ place_of (ciphers_of ad.now keys.now) (take len buffer.old) }
{
    let mut place = 0;
    for key in keys {
        if fits(key, ad, buffer, len) {
            return Some(place);
        }
        place += 1;
    }
    None
}
