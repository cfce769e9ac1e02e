//! How a new file that is written in pieces gets its name: it is begun under a temporary name, and
//! written there piece by piece. Once it is whole and lasts, a link gives it the name, so the name
//! has all of the file or none. If links aren't supported, it is copied to a file under the name
//! itself.

ghost use Rattle.std.specs.Prelude.{◌≡◌, ◌≢◌, ◌<◌, ◌≤◌, ℕ, List, [], length, take, IfOk, IfErr, IfSome, OnOk, OnErr};
ghost use Rattle.std.specs.Io.KnownBytes.{Appends, Keeps};
ghost use Rattle.std.specs.IoError.{error_kind};
ghost use Rattle.real_objects.specs.Cause.{cause_of, stored_answer};
ghost use Rattle.real_objects.specs.Naming.{Free, Starved, Begun, Taken, Linkless, Place, There, IsAt, IsWhole, Lasts, BeginsAs, CopiesTo, EndsAs};

use real_objects::{
    Cause, FileError, NewFile, NewName, cause_of, keep_name, link_file, open_temporary, unmade,
    write_through_signals,
};
use std::io::{self, ErrorKind, Write};
use tink_base::Created;

/// The most bytes that are copied at once.
const PIECE: usize = 8192;

/// Begins a new file of this name: an empty one, under a temporary name.
///
/// Returns `None` if and only if a call on the name said that something else has it, and `NoMemory`
/// if and only if a call said so before a file was made. After an error, removal of the temporary
/// name is tried.
pub fn begin_file<N: NewName>(name: &mut N) -> Result<Option<N::File>, FileError>
    requires free { IsAt (N.stage name.old) Free }
    ensures begun { IfSome (N.stage name.new) (λ s. BeginsAs (stored_answer result) s) }
    ensures at { IfOk result (λ begun. IfSome begun (λ file. IsAt (N.stage name.new) Begun)) }
    ensures there { IfOk result (λ begun. IfSome begun (λ file. N.temporary name.new ≡ There)) }
    ensures fresh { IfOk result (λ begun.
        IfSome begun (λ file. Keeps N.fresh (N.File.contents file))) }
    ensures cleared { OnErr result (N.temporary name.old ≢ There → N.temporary name.new ≢ There) }
{
    if let Err(error) = name.look_up() {
        return unbegun(&error);
    }
    match open_temporary(name) {
        Ok(mut file) => match file.admit_owner() {
            Ok(()) => Ok(Some(file)),
            Err(error) => {
                let _ = name.clear();
                Err(FileError::Failed(cause_of(&error)))
            }
        },
        Err(error) => unbegun(&error),
    }
}

/// What a file that couldn't be begun is reported as, by the error.
fn unbegun<F: Drop>(error: &io::Error) -> Result<Option<F>, FileError>
    ensures taken { error_kind error.now ≡ ErrorKind.AlreadyExists → result ≡ Ok None }
    ensures no_memory { error_kind error.now ≡ ErrorKind.OutOfMemory →
        result ≡ Err FileError.NoMemory }
    ensures failed { error_kind error.now ≢ ErrorKind.AlreadyExists →
        error_kind error.now ≢ ErrorKind.OutOfMemory →
        result ≡ Err (FileError.Failed (cause_of error.now)) }
{
    match unmade(error) {
        Ok(_) => Ok(None),
        Err(error) => Err(error),
    }
}

/// Writes the first bytes of a piece to the file, and returns how many: at least one, unless the
/// piece is empty. A write interrupted by a signal is tried again. After an error the file is
/// unchanged.
pub fn append_piece<F: NewFile>(file: &mut F, piece: &[u8]) -> Result<usize, Cause>
    ensures bound { IfOk result (λ n. n ≤ length piece.now) }
    ensures some { IfOk result (λ n. 0 < length piece.now → 0 < n) }
    ensures wrote { IfOk result (λ n.
        Appends (F.contents file.old) (F.contents file.new) (take n piece.now)) }
    ensures unwritten { OnErr result (Keeps (F.contents file.old) (F.contents file.new)) }
{
    match write_through_signals(file, piece) {
        Ok(n) if n > 0 => Ok(n),
        Ok(n) if piece.is_empty() => Ok(n),
        Ok(_) => Err(Cause::Other),
        Err(error) => Err(cause_of(&error)),
    }
}

/// Gives the name to a file that was begun and written in pieces: to these bytes.
///
/// Returns `Exists` if and only if a call on the name said that something else has it, and `Made`
/// if and only if the file is whole and its name was stored. A link gives the name only to a file
/// that is whole and lasts. If and only if linking was refused because links aren't supported, the
/// file is copied to a new one under the name itself; then that may exist after `Failed` with a
/// prefix of the bytes. Removal of the temporary name is tried.
pub fn finish_file<N: NewName>(name: &mut N, file: &mut N::File) -> Result<Created, FileError>
    ghost bytes: { List ℕ }
    requires begun { IsAt (N.stage name.old) Begun }
    requires there { N.temporary name.old ≡ There }
    requires empty { IfSome N.fresh (λ first. first ≡ []) }
    requires written { Appends N.fresh (N.File.contents file.old) bytes }
    ensures named { IfSome (N.stage name.new)
        (λ s. EndsAs N.fresh bytes (stored_answer result) s) }
    ensures cleared { N.temporary name.new ≢ There }
{
    match store_file(file) {
        Ok(()) => name_file(name, file),
        Err(error) => {
            let _ = name.clear();
            Err(FileError::Failed(cause_of(&error)))
        }
    }
}

/// Gives up a file that was begun: its name stays free, and removal of the temporary name is tried.
pub fn give_up_file<N: NewName>(name: &mut N)
    requires there { N.temporary name.old ≡ There }
    ensures unnamed { N.stage name.new ≡ N.stage name.old }
    ensures cleared { N.temporary name.new ≢ There }
{
    let _left = name.clear();
}

/// Flushes the file, and waits until it lasts.
fn store_file<F: NewFile>(file: &mut F) -> io::Result<()>
    ensures lasts { OnOk result (Lasts (F.lasts file.new)) }
    ensures kept { OnOk result (Keeps (F.contents file.old) (F.contents file.new)) }
{
    file.flush()?;
    file.put_away()
}

/// Gives the name to a file that is whole and lasts, and removes the temporary name.
fn name_file<N: NewName>(name: &mut N, file: &N::File) -> Result<Created, FileError>
    ghost bytes: { List ℕ }
    requires begun { IsAt (N.stage name.old) Begun }
    requires there { N.temporary name.old ≡ There }
    requires empty { IfSome N.fresh (λ first. first ≡ []) }
    requires whole { IsWhole N.fresh bytes (N.File.contents file.now) (N.File.lasts file.now) }
    ensures named { IfSome (N.stage name.new)
        (λ s. EndsAs N.fresh bytes (stored_answer result) s) }
    ensures cleared { N.temporary name.new ≢ There }
{
    let linked = link_file(name, file);
    let _ = name.clear();
    match linked {
        Ok(()) => keep_name(name, file),
        Err(error) => match error.kind() {
            ErrorKind::AlreadyExists => Ok(Created::Exists),
            ErrorKind::PermissionDenied | ErrorKind::Unsupported | ErrorKind::TooManyLinks => {
                copy_named(name, file)
            }
            _ => Err(FileError::Failed(cause_of(&error))),
        },
    }
}

/// Copies a whole file to a new one under the name itself, if links aren't supported.
fn copy_named<N: NewName>(name: &mut N, from: &N::File) -> Result<Created, FileError>
    ghost bytes: { List ℕ }
    requires linkless { IsAt (N.stage name.old) Linkless }
    requires empty { IfSome N.fresh (λ first. first ≡ []) }
    requires written { Appends N.fresh (N.File.contents from.now) bytes }
    ensures named { IfSome (N.stage name.new)
        (λ s. EndsAs N.fresh bytes (stored_answer result) s) }
    ensures kept { N.temporary name.new ≡ N.temporary name.old }
{
    match name.open() {
        Ok(mut file) => match copy_file(from, &mut file) {
            Ok(()) => keep_name(name, &file),
            Err(error) => Err(FileError::Failed(cause_of(&error))),
        },
        Err(error) if error.kind() == ErrorKind::AlreadyExists => Ok(Created::Exists),
        Err(error) => Err(FileError::Failed(cause_of(&error))),
    }
}

/// Lets the owner read and write a new file, copies all bytes of another to it, and waits until
/// they last.
fn copy_file<F: NewFile>(from: &F, to: &mut F) -> io::Result<()>
    ensures lasts { OnOk result (Lasts (F.lasts to.new)) }
    ensures copied { OnOk result
        (CopiesTo (F.contents from.now) (F.contents to.old) (F.contents to.new)) }
{
    to.admit_owner()?;
    copy_bytes(from, to)?;
    store_file(to)
}

/// Adds all bytes of a file to another.
fn copy_bytes<F: NewFile>(from: &F, to: &mut F) -> io::Result<()>
    ensures { OnOk result
        (CopiesTo (F.contents from.now) (F.contents to.old) (F.contents to.new)) }
{
    let mut piece = [0; PIECE];
    let mut at = 0u64;
    for _ in 0..u64::MAX {
        let n = from.read_back(at, &mut piece)?;
        if n == 0 {
            return Ok(());
        }
        to.write_all(&piece[..n])?;
        match at.checked_add(n as u64) {
            Some(next) => at = next,
            None => return Err(io::Error::from(ErrorKind::FileTooLarge)),
        }
    }
    Err(io::Error::from(ErrorKind::FileTooLarge))
}
