//! A new file that is filled: its owner may read and write it, and what was written is waited for
//! until it lasts.

ghost use Rattle.std.specs.Prelude.{◌≡◌, ◌≢◌, ◌<◌, ◌≤◌, Bool, Option, None, length, take, drop, IfOk, IfErr, IsOk, IsOkAnd, IsErrOf, IfSome, OnOk};
ghost use Rattle.std.specs.Io.KnownBytes.{Appends, Keeps};
ghost use Rattle.std.specs.IoError.{error_kind};
ghost use Rattle.real_objects.specs.Cause.{cause_of, stored_error};
ghost use Rattle.real_objects.specs.Naming.{Lasts};

use crate::cause::{Cause, FileError, cause_of};
use crate::placed::placed_through_signals;
use std::fs::{File, Permissions};
use std::io::{self, ErrorKind, Write};
use std::os::unix::fs::{MetadataExt, PermissionsExt};
use tink_base::{Created, StoreError};

/// The permissions of a new file: its owner may read and write it, and nobody else.
pub const OWNER_ALONE: u32 = 0o600;

/// What a failed call is reported as: `NoMemory` if and only if the system says so.
pub fn fault_of(error: &io::Error) -> FileError
    ensures memory { error_kind error.now ≡ ErrorKind.OutOfMemory → result ≡ FileError.NoMemory }
    ensures fault { error_kind error.now ≢ ErrorKind.OutOfMemory →
        result ≡ FileError.Failed (cause_of error.now) }
{
    match error.kind() {
        ErrorKind::OutOfMemory => FileError::NoMemory,
        _ => FileError::Failed(cause_of(error)),
    }
}

/// A new file.
pub trait NewFile: Write {
    /// Whether what was written lasts, if that is known.
    ghost lasts: { Self → Option Bool };

    /// Lets its owner read and write it, if the process's umask has removed that right.
    fn admit_owner(&mut self) -> io::Result<()>
        ensures kept { Keeps (Self.contents self.old) (Self.contents self.new) };

    /// Waits until the system has stored what was written.
    fn put_away(&mut self) -> io::Result<()>
        ensures lasts { OnOk result (Lasts (lasts self.new)) }
        ensures kept { Keeps (Self.contents self.old) (Self.contents self.new) };

    /// Reads bytes that were written, from offset `at` on, at most as many as `out` has: none only
    /// at the end.
    fn read_back(&self, at: u64, out: &mut [u8]) -> io::Result<usize>
        ensures bound { IfOk result (λ n. n ≤ length out.new) }
        ensures reads { IfOk result (λ n. IfSome (Self.contents self.now) (λ all.
            take n out.new ≡ take n (drop at all))) }
        ensures end { IfOk result (λ n. n ≡ 0 → 0 < length out.old →
            IfSome (Self.contents self.now) (λ all. length all ≤ at)) };
}

impl NewFile for File {
    ghost lasts = { λ _. None };

    /// A file system without such rights reports its own, and isn't asked for any.
    fn admit_owner(&mut self) -> io::Result<()> {
        if self.metadata()?.mode() & OWNER_ALONE == OWNER_ALONE {
            return Ok(());
        }
        self.set_permissions(Permissions::from_mode(OWNER_ALONE))
    }

    fn put_away(&mut self) -> io::Result<()> {
        self.sync_all()
    }

    fn read_back(&self, at: u64, out: &mut [u8]) -> io::Result<usize> {
        placed_through_signals(self, at, out)
    }
}

/// Fills the opened new file with all the bytes, and waits until they last.
pub fn fill_opened<F: NewFile>(
    opened: &mut io::Result<F>,
    bytes: &[u8],
) -> Result<Created, FileError>
    ensures made { IfOk opened.old (λ file. IfOk result (λ made. (made ≡ Created.Made) ×
        IsOkAnd opened.new (λ filled. Lasts (F.lasts filled) ×
        Appends (F.contents file) (F.contents filled) bytes.now))) }
    ensures exists { IfErr opened.old (λ error. IfOk result (λ made. (made ≡ Created.Exists) ×
        (error_kind error ≡ ErrorKind.AlreadyExists))) }
    ensures taken { IfErr opened.old (λ error. error_kind error ≡ ErrorKind.AlreadyExists →
        result ≡ Ok Created.Exists) }
    ensures no_memory { IfErr opened.old (λ error. IsErrOf result FileError.NoMemory →
        error_kind error ≡ ErrorKind.OutOfMemory) }
    ensures starved { IfErr opened.old (λ error. error_kind error ≡ ErrorKind.OutOfMemory →
        result ≡ Err FileError.NoMemory) }
    ensures failed { IfErr opened.old (λ error. (cause : Cause) →
        IsErrOf result (FileError.Failed cause) → cause ≡ cause_of error) }
    ensures unfilled { IsOk opened.old →
        IfErr result (λ error. stored_error error ≡ StoreError.Failed) }
    ensures unopened { IfErr opened.old (λ error. opened.new ≡ Err error) }
{
    match opened {
        Ok(file) => match fill_file(file, bytes) {
            Ok(()) => Ok(Created::Made),
            Err(error) => Err(FileError::Failed(cause_of(&error))),
        },
        Err(error) => unmade(error),
    }
}

/// What a file that couldn't be made is reported as, by the error.
pub fn unmade(error: &io::Error) -> Result<Created, FileError>
    ensures taken { error_kind error.now ≡ ErrorKind.AlreadyExists → result ≡ Ok Created.Exists }
    ensures no_memory { error_kind error.now ≡ ErrorKind.OutOfMemory →
        result ≡ Err FileError.NoMemory }
    ensures failed { error_kind error.now ≢ ErrorKind.AlreadyExists →
        error_kind error.now ≢ ErrorKind.OutOfMemory →
        result ≡ Err (FileError.Failed (cause_of error.now)) }
{
    match error.kind() {
        ErrorKind::AlreadyExists => Ok(Created::Exists),
        _ => Err(fault_of(error)),
    }
}

/// Lets the owner read and write the file, writes all the bytes, flushes them, and waits until they
/// last.
pub(crate) fn fill_file<F: NewFile>(file: &mut F, bytes: &[u8]) -> io::Result<()>
    ensures { OnOk result (Lasts (F.lasts file.new) ×
        Appends (F.contents file.old) (F.contents file.new) bytes.now) }
{
    file.admit_owner()?;
    file.write_all(bytes)?;
    file.flush()?;
    file.put_away()
}
