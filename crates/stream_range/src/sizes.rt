//! The positions of a stream's pieces and of its plaintext.

ghost use Rattle.std.specs.Prelude.{◌≡◌, ◌+◌, ◌-◌, ◌*◌, ◌/◌, ◌<◌, ◌≤◌, ◌^◌, ◌==◌, if◌then◌else◌};
ghost use Rattle.stream_range.specs.Skipped.{skipped};

use segment_stream::Stream;

/// The sizes of a stream, in bytes.
#[derive(Clone, Copy)]
pub(crate) struct Sizes {
    /// A full segment with its tag, the first one including the header.
    pub(crate) segment: u64,
    pub(crate) header: u64,
    pub(crate) tag: u64,
    ghost room: { header + tag < segment },
    ghost most: { segment < 2 ^ 31 },
}

/// A stream whose header was read.
#[derive(Drop)]
pub(crate) struct Begun {
    pub(crate) stream: Stream,
    pub(crate) sizes: Sizes,
}

impl Sizes {
    /// The number of the final piece of a stream of `size` bytes.
    pub(crate) fn final_piece(&self, size: u64) -> u64
        ensures number { result ≡ (size - 1) / self.now.segment }
        ensures within { result * self.now.segment ≤ size }
    {
        size.saturating_sub(1) / self.segment
    }

    /// How many bytes of a stream of `size` bytes are plaintext.
    pub(crate) fn plain_length(&self, size: u64) -> u64
        requires { size < 2 ^ 63 }
        ensures { result ≡
            size - self.now.header - ((size - 1) / self.now.segment + 1) * self.now.tag }
    {
        let tags = (self.final_piece(size) + 1) * self.tag;
        size.saturating_sub(self.header).saturating_sub(tags)
    }

    /// The number of the piece that holds the plaintext's byte at this offset.
    pub(crate) fn piece_of(&self, at: u64) -> u64
        requires { at < 2 ^ 63 }
        ensures { result ≡ (at + self.now.header) / (self.now.segment - self.now.tag) }
    {
        (at + self.header) / (self.segment - self.tag)
    }

    /// How many pieces cover a range of the plaintext.
    pub(crate) fn covering(&self, from: u64, to: u64) -> u64
        requires order { from ≤ to }
        requires bound { to < 2 ^ 63 }
        ensures { result ≡ (if from == to then 0 else
            (to - 1 + self.now.header) / (self.now.segment - self.now.tag) + 1
            - (from + self.now.header) / (self.now.segment - self.now.tag)) }
    {
        if from == to {
            return 0;
        }
        let last = self.piece_of(to - 1);
        last + 1 - self.piece_of(from)
    }

    /// How many plaintext bytes of the first covering piece are before the range.
    pub(crate) fn before(&self, from: u64) -> u64
        requires { from < 2 ^ 63 }
        ensures { result ≡ from - ((from + self.now.header) / (self.now.segment - self.now.tag)
            * (self.now.segment - self.now.tag) - self.now.header) }
    {
        let start = self.piece_of(from) * (self.segment - self.tag);
        from.saturating_sub(start.saturating_sub(self.header))
    }

    /// How many bytes of a piece precede its segment.
    pub(crate) fn skipped(&self, number: u64) -> u64
        ensures is { result ≡ skipped self.now.header number }
        ensures bound { result ≤ self.now.header }
    {
        if number == 0 { self.header } else { 0 }
    }
}
