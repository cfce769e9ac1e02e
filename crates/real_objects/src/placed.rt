//! The length of a file, and reading it at an offset.

ghost use Rattle.std.specs.Prelude.{◌≡◌, ◌≢◌, ◌<◌, ◌≤◌, ◌^◌, ℕ, List, Option, None, Err, length, take, drop, IfOk, IfErr, IfSome, OnErr};
ghost use Rattle.std.specs.Fs.{IsFile, file_type, metadata_len};
ghost use Rattle.std.specs.IoError.{error_kind};
ghost use Rattle.real_objects.specs.Cause.{cause_of};
ghost use Rattle.real_objects.specs.Placed.{IsMissing, IsPieceAt, IsSize};

use crate::cause::{Cause, cause_of};
use std::fs::{File, Metadata};
use std::io::{self, ErrorKind};
use std::os::unix::fs::FileExt;

/// The most bytes of one read. They are read into a buffer and copied, since the system may have
/// written past what it says it read.
const PIECE: usize = 8192;

/// The greatest length of a file, in bytes: offsets have 63 bits.
const GREATEST: u64 = (1 << 63) - 1;

/// A file that is read at offsets.
pub trait PlacedFile {
    /// Its bytes, if it reports them.
    ghost bytes: { Self → Option (List ℕ) };

    /// Reads bytes from offset `at` on, at most as many as `out` has. The rest of `out` is
    /// unchanged.
    fn read_placed(&self, at: u64, out: &mut [u8]) -> io::Result<usize>
        ensures bound { IfOk result (λ n. n ≤ length out.new) }
        ensures reads { IfOk result (λ n. IfSome (bytes self.now) (λ all.
            take n out.new ≡ take n (drop at all))) }
        ensures rest { IfOk result (λ n. drop n out.new ≡ drop n out.old) }
        ensures kept { OnErr result (out.new ≡ out.old) };
}

impl PlacedFile for File {
    ghost bytes = { λ _. None };

    fn read_placed(&self, at: u64, out: &mut [u8]) -> io::Result<usize> {
        let mut piece = [0; PIECE];
        let most = out.len().min(PIECE);
        let n = self.read_at(&mut piece[..most], at)?;
        out[..n].copy_from_slice(&piece[..n]);
        Ok(n)
    }
}

/// The length of a file, from looking it up. A path that leads through a file, or through a folder
/// that doesn't exist, has no file. What isn't a file has no length.
pub fn size_of(found: io::Result<Metadata>) -> Result<Option<u64>, Cause>
    ensures size { IfOk found (λ file. IfOk result (λ size. IsSize file size)) }
    ensures absent { IfErr found (λ error. IfOk result
        (λ size. (size ≡ None) × IsMissing (error_kind error))) }
    ensures answers { IfOk found (λ file. IsFile (file_type file) → metadata_len file < 2 ^ 63 →
        result ≡ Ok (Some (metadata_len file))) }
    ensures missing { IfErr found (λ error. IsMissing (error_kind error) → result ≡ Ok None) }
    ensures bound { IfOk result (λ size. IfSome size (λ n. n < 2 ^ 63)) }
    ensures failed { IfErr found (λ error. IfErr result (λ cause. cause ≡ cause_of error)) }
{
    match found {
        Ok(file) if file.is_file() && file.len() <= GREATEST => Ok(Some(file.len())),
        Ok(file) if file.is_dir() => Err(Cause::IsFolder),
        Ok(_) => Err(Cause::NoLength),
        Err(error) => match error.kind() {
            ErrorKind::NotFound | ErrorKind::NotADirectory => Ok(None),
            _ => Err(cause_of(&error)),
        },
    }
}

/// Reads bytes of the opened file from offset `at` on: at least one. The rest of `out` is
/// unchanged. A read interrupted by a signal is tried again. A file that is no longer there, or no
/// longer has a byte there, has changed.
pub fn read_opened<F: PlacedFile>(
    opened: &io::Result<F>,
    at: u64,
    out: &mut [u8],
) -> Result<usize, Cause>
    ensures read { IfOk opened.now (λ file. IfOk result (IsPieceAt (F.bytes file) at out.new)) }
    ensures bound { IfOk result (λ n. (1 ≤ n) × (n ≤ length out.new)) }
    ensures rest { IfOk result (λ n. drop n out.new ≡ drop n out.old) }
    ensures gone { IfErr opened.now (λ error. IsMissing (error_kind error) →
        result ≡ Err Cause.Changed) }
    ensures unopened { IfErr opened.now (λ error. ¬ (IsMissing (error_kind error)) →
        result ≡ Err (cause_of error)) }
{
    match opened {
        Ok(file) => match placed_through_signals(file, at, out) {
            Ok(n) if n > 0 => Ok(n),
            Ok(_) => Err(Cause::Changed),
            Err(error) => Err(cause_of(&error)),
        },
        Err(error) => match error.kind() {
            ErrorKind::NotFound | ErrorKind::NotADirectory => Err(Cause::Changed),
            _ => Err(cause_of(error)),
        },
    }
}

/// One read at an offset, tried again if a signal interrupted it.
pub(crate) fn placed_through_signals<F: PlacedFile>(
    file: &F,
    at: u64,
    out: &mut [u8],
) -> io::Result<usize>
    ensures bound { IfOk result (λ n. n ≤ length out.new) }
    ensures reads { IfOk result (λ n. IfSome (F.bytes file.now) (λ all.
        take n out.new ≡ take n (drop at all))) }
    ensures rest { IfOk result (λ n. drop n out.new ≡ drop n out.old) }
    ensures uninterrupted { IfErr result (λ error. error_kind error ≢ ErrorKind.Interrupted) }
{
    for _ in 0..u64::MAX {
        match file.read_placed(at, out) {
            Ok(n) => return Ok(n),
            Err(error) if error.kind() == ErrorKind::Interrupted => {}
            Err(error) => return Err(error),
        }
    }
    Err(io::Error::from(ErrorKind::TimedOut))
}
