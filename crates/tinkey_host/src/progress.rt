//! A source that shows how much of it has been read.

ghost use Rattle.std.specs.Prelude.{◌≡◌};

use tink_base::{Failed, Sink, Source, write_all};
use tinkey_session::ShortText;

/// So many bytes are read before anything is shown: 64 MiB.
const FIRST: u64 = 67_108_864;

/// So many bytes lie between two reports at least: 16 MiB.
const STEP: u64 = 16_777_216;

/// How many bits a count of bytes has more than one of MiB.
const MIB_BITS: u32 = 20;

/// A source that shows on a sink beside it, such as a terminal, how much of it has been read: from
/// 64 MiB on, at most once in 16 MiB, as a number of MiB and a carriage return, so that each report
/// overwrites the last one, and any later line overwrites them. What it gives, and when it fails, is
/// as with the source itself. A fault of that sink isn't reported.
#[derive(Drop)]
pub struct Watched<S, G> {
    source: S,
    shown_on: Option<G>,
    read: u64,
    next: u64,
}

impl<S: Source, G: Sink> Watched<S, G> {
    ghost use Rattle.tinkey_host.specs.Progress.{watched};

    /// The same source, of which no byte counts as read yet. Nothing is shown if there is no sink.
    pub fn over(source: S, shown_on: Option<G>) -> Watched<S, G>
        ensures same { watched result ≡ source }
    {
        Watched {
            source,
            shown_on,
            read: 0,
            next: FIRST,
        }
    }

    /// Counts bytes that were read, and shows the count if that is due.
    fn count(&mut self, read: usize)
        ensures same { watched self.new ≡ watched self.old }
    {
        self.read = self.read.saturating_add(read as u64);
        if self.read >= self.next {
            self.next = self.read.saturating_add(STEP);
            self.show();
        }
    }

    /// Shows the count.
    fn show(&mut self)
        ensures same { watched self.new ≡ watched self.old }
    {
        let mut text = ShortText::new();
        text.push_number((self.read >> MIB_BITS) as usize);
        text.push(" MiB\r");
        match &mut self.shown_on {
            Some(sink) => match write_all(sink, text.as_slice()) {
                Ok(()) => {}
                Err(Failed) => {}
            },
            None => {}
        }
    }
}

impl<S: Source, G: Sink> Source for Watched<S, G> {
    ghost use Rattle.tinkey_host.specs.Progress.{watched};

    ghost state = { λ s. S.state (watched s) };

    fn read(&mut self, out: &mut [u8]) -> Result<usize, Failed> {
        let n = self.source.read(out)?;
        self.count(n);
        Ok(n)
    }
}
