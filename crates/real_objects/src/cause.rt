//! Why a call on files failed, as far as the system's error tells it.

ghost use Rattle.std.specs.Prelude.{◌≡◌};
ghost use Rattle.real_objects.specs.Cause.{cause_of, listed_cause, numbered_cause};

use std::io::{Error, ErrorKind};

/// The system's errors without a kind of their own (Linux, errno(3)): a device failed, and too many
/// files are open, in the whole system or in this process.
const EIO: u32 = 5;

const ENFILE: u32 = 23;

const EMFILE: u32 = 24;

/// Why a call on files failed.
#[derive(Clone, Copy, Debug, PartialEq, Eq)]
pub enum Cause {
    /// A folder of the path doesn't exist, or isn't a folder.
    NoFolder,
    /// Permission is missing.
    NoPermission,
    /// The path is a folder's.
    IsFolder,
    /// The path is that of a pipe or a device, which has no length.
    NoLength,
    /// The device, or what its user may have of it, is full.
    NoSpace,
    /// The file would be larger than its file system allows.
    TooLarge,
    /// The name or the path is too long.
    NameTooLong,
    /// The file system can't be written.
    ReadOnly,
    /// Too many symbolic links follow one another.
    TooManyLinks,
    /// Too many files are open.
    TooManyFiles,
    /// The device failed.
    BadDevice,
    /// The file has changed since it was looked up.
    Changed,
    /// The file system has no such call.
    Unsupported,
    /// Memory couldn't be allocated, after a file was made.
    NoMemory,
    /// There are no random bytes for a temporary name.
    NoRandom,
    /// Anything else.
    Other,
}

/// Why a file can't be read or made.
#[derive(Clone, Copy, Debug, PartialEq, Eq)]
pub enum FileError {
    /// A call failed.
    Failed(Cause),
    /// Memory couldn't be allocated.
    NoMemory,
}

impl FileError {
    /// Why a file can't be made, if one was made before.
    pub(crate) fn cause(self) -> Cause {
        match self {
            FileError::Failed(cause) => cause,
            FileError::NoMemory => Cause::NoMemory,
        }
    }
}

/// Why a call failed with this error.
#[tactic(auto, unfolding(crate::specs::Cause::kind_cause))]
pub fn cause_of(error: &Error) -> Cause
    ensures { result ≡ cause_of error.now }
{
    match error.kind() {
        ErrorKind::NotFound | ErrorKind::NotADirectory => Cause::NoFolder,
        ErrorKind::PermissionDenied => Cause::NoPermission,
        ErrorKind::IsADirectory => Cause::IsFolder,
        ErrorKind::StorageFull | ErrorKind::QuotaExceeded => Cause::NoSpace,
        ErrorKind::FileTooLarge => Cause::TooLarge,
        ErrorKind::InvalidFilename => Cause::NameTooLong,
        ErrorKind::ReadOnlyFilesystem => Cause::ReadOnly,
        ErrorKind::FilesystemLoop => Cause::TooManyLinks,
        ErrorKind::StaleNetworkFileHandle => Cause::Changed,
        ErrorKind::Unsupported => Cause::Unsupported,
        ErrorKind::OutOfMemory => Cause::NoMemory,
        ErrorKind::Other => Cause::NoRandom,
        ErrorKind::Uncategorized => numbered_cause(error.raw_os_error()),
        _ => Cause::Other,
    }
}

/// Why a call failed with an error that has this number and no kind of its own.
fn numbered_cause(number: Option<i32>) -> Cause
    ensures { result ≡ numbered_cause number }
{
    match number {
        Some(number) => {
            if number < 0 {
                Cause::Other
            } else {
                listed_cause(number.unsigned_abs())
            }
        }
        None => Cause::Other,
    }
}

/// Why a call failed with an error of this number.
fn listed_cause(number: u32) -> Cause
    ensures { result ≡ listed_cause number }
{
    if number == EIO {
        Cause::BadDevice
    } else if number == ENFILE || number == EMFILE {
        Cause::TooManyFiles
    } else {
        Cause::Other
    }
}
