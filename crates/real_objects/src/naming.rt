//! How a new file gets its name: it is filled under a temporary name until it lasts, and then a
//! link gives it the name, so the name has all of the file or none. If links aren't supported, it
//! is filled under the name itself.

ghost use Rattle.std.specs.Prelude.{◌≡◌, ◌≢◌, ℕ, List, Bool, Option, true, false, IfOk, IfErr, IfSome, OnOk, OnErr, option_map};
ghost use Rattle.std.specs.Io.KnownBytes.{Keeps};
ghost use Rattle.std.specs.IoError.{error_kind};
ghost use Rattle.real_objects.specs.Cause.{stored_answer};
ghost use Rattle.real_objects.specs.Naming.{Stage, Free, Starved, Begun, Taken, Linkless, Linked, Opened, Place, Gone, There, Left, IsAt, HasNoLinks, IsWhole, kept_as, EndsAs};

use crate::cause::{FileError, cause_of};
use crate::filling::{NewFile, fill_file, fill_opened, unmade};
use std::io::{self, ErrorKind};
use tink_base::{Created, StoreError};

/// The most temporary names that are drawn, if each one before was taken.
const DRAWS: u32 = 100;

/// A name in a folder for a new file.
pub trait NewName {
    /// A new file.
    type File: NewFile + Drop;

    /// What a newly made file holds, if that is known.
    ghost fresh: { Option (List ℕ) };

    /// The name's stage, if that is known.
    ghost stage: { Self → Option Stage };

    /// The state of the last file made under a temporary name.
    ghost temporary: { Self → Place };

    /// Checks whether the name is free. The error is `AlreadyExists` if something has it.
    fn look_up(&mut self) -> io::Result<()>
        ensures free { OnOk result (stage self.new ≡ stage self.old) }
        ensures taken { IfErr result (λ error. error_kind error ≡ ErrorKind.AlreadyExists →
            IsAt (stage self.new) Taken) }
        ensures starved { IfErr result (λ error. error_kind error ≡ ErrorKind.OutOfMemory →
            IsAt (stage self.new) Starved) }
        ensures unknown { IfErr result (λ error. error_kind error ≢ ErrorKind.AlreadyExists →
            error_kind error ≢ ErrorKind.OutOfMemory → stage self.new ≡ stage self.old) }
        ensures kept { temporary self.new ≡ temporary self.old };

    /// Makes a new file under a temporary name that no other call draws. The error is
    /// `AlreadyExists` if something has that name anyway.
    fn open_temporary(&mut self) -> io::Result<Self::File>
        requires free { IsAt (stage self.old) Free }
        ensures fresh { IfOk result (λ file. Keeps fresh (Self.File.contents file)) }
        ensures begun { OnOk result (IsAt (stage self.new) Begun) }
        ensures there { OnOk result (temporary self.new ≡ There) }
        ensures unopened { OnErr result (temporary self.new ≡ temporary self.old) }
        ensures starved { IfErr result (λ error. error_kind error ≡ ErrorKind.OutOfMemory →
            IsAt (stage self.new) Starved) }
        ensures kept { IfErr result (λ error. error_kind error ≢ ErrorKind.OutOfMemory →
            stage self.new ≡ stage self.old) };

    /// Gives the name to the last file opened under a temporary name. The error is `AlreadyExists`
    /// if something has the name.
    fn link(&mut self, file: &Self::File) -> io::Result<()>
        requires begun { IsAt (stage self.old) Begun }
        requires there { temporary self.old ≡ There }
        ensures linked { OnOk result (IsAt (stage self.new)
            (Linked (Self.File.contents file.now) (Self.File.lasts file.now))) }
        ensures taken { IfErr result (λ error. error_kind error ≡ ErrorKind.AlreadyExists →
            IsAt (stage self.new) Taken) }
        ensures linkless { IfErr result (λ error. HasNoLinks (error_kind error) →
            IsAt (stage self.new) Linkless) }
        ensures unlinked { IfErr result (λ error. error_kind error ≢ ErrorKind.AlreadyExists →
            ¬ (HasNoLinks (error_kind error)) → stage self.new ≡ stage self.old) }
        ensures kept { temporary self.new ≡ temporary self.old };

    /// Whether the file has the name although linking failed.
    fn is_linked(&mut self, file: &Self::File) -> bool
        ensures linked { result ≡ true → IsAt (stage self.new)
            (Linked (Self.File.contents file.now) (Self.File.lasts file.now)) }
        ensures others { result ≡ false → stage self.new ≡ stage self.old }
        ensures kept { temporary self.new ≡ temporary self.old };

    /// Removes the temporary name of the last file opened under one. If that fails, it is left.
    fn clear(&mut self) -> io::Result<()>
        requires there { temporary self.old ≡ There }
        ensures gone { OnOk result (temporary self.new ≡ Gone) }
        ensures left { OnErr result (temporary self.new ≡ Left) }
        ensures kept { stage self.new ≡ stage self.old };

    /// Makes a new file under the name itself. The error is `AlreadyExists` if something has it.
    fn open(&mut self) -> io::Result<Self::File>
        requires linkless { IsAt (stage self.old) Linkless }
        ensures fresh { IfOk result (λ file. Keeps fresh (Self.File.contents file)) }
        ensures opened { OnOk result (IsAt (stage self.new) Opened) }
        ensures taken { IfErr result (λ error. error_kind error ≡ ErrorKind.AlreadyExists →
            IsAt (stage self.new) Taken) }
        ensures unopened { IfErr result (λ error. error_kind error ≢ ErrorKind.AlreadyExists →
            IsAt (stage self.new) Begun) }
        ensures kept { temporary self.new ≡ temporary self.old };

    /// Waits until the system has stored that the file has the name, as far as it allows asking for
    /// that.
    fn put_away(&mut self, file: &Self::File) -> io::Result<()>
        ensures lasts { OnOk result (stage self.new ≡ option_map
            (kept_as (Self.File.contents file.now) (Self.File.lasts file.now)) (stage self.old)) }
        ensures unknown { OnErr result (stage self.new ≡ stage self.old) }
        ensures kept { temporary self.new ≡ temporary self.old };
}

/// Makes a new file of this name with all the bytes.
///
/// Returns `Exists` if and only if a call on the name said that something else has it, and `Made`
/// if and only if the file is whole and its name was stored. `NoMemory` comes if and only if a call
/// said so before a file was made. A link gives the name only to a file that is whole and lasts. If
/// and only if linking was refused because links aren't supported, a file is filled under the name
/// itself; then it may exist after `Failed` with a prefix of the bytes. Removal of each temporary
/// name is tried.
pub fn make_file<N: NewName>(name: &mut N, bytes: &[u8]) -> Result<Created, FileError>
    requires free { IsAt (N.stage name.old) Free }
    ensures named { IfSome (N.stage name.new)
        (λ s. EndsAs N.fresh bytes.now (stored_answer result) s) }
    ensures cleared { N.temporary name.old ≢ There → N.temporary name.new ≢ There }
{
    if let Err(error) = name.look_up() {
        return unmade(&error);
    }
    match open_temporary(name) {
        Ok(mut file) => match fill_file(&mut file, bytes) {
            Ok(()) => give_name(name, &file, bytes),
            Err(error) => {
                let _ = name.clear();
                Err(FileError::Failed(cause_of(&error)))
            }
        },
        Err(error) => unmade(&error),
    }
}

/// Makes a new file under a temporary name that is free.
pub fn open_temporary<N: NewName>(name: &mut N) -> io::Result<N::File>
    requires free { IsAt (N.stage name.old) Free }
    ensures fresh { IfOk result (λ file. Keeps N.fresh (N.File.contents file)) }
    ensures begun { OnOk result (IsAt (N.stage name.new) Begun) }
    ensures there { OnOk result (N.temporary name.new ≡ There) }
    ensures untaken { IfErr result (λ error. error_kind error ≢ ErrorKind.AlreadyExists) }
    ensures unopened { OnErr result (N.temporary name.new ≡ N.temporary name.old) }
    ensures starved { IfErr result (λ error. error_kind error ≡ ErrorKind.OutOfMemory →
        IsAt (N.stage name.new) Starved) }
    ensures kept { IfErr result (λ error. error_kind error ≢ ErrorKind.OutOfMemory →
        N.stage name.new ≡ N.stage name.old) }
{
    for _ in 0..DRAWS {
        match name.open_temporary() {
            Err(error) if error.kind() == ErrorKind::AlreadyExists => {}
            opened => return opened,
        }
    }
    Err(io::Error::from(ErrorKind::ResourceBusy))
}

/// Gives the name to a file that is whole and lasts, and removes the temporary name.
fn give_name<N: NewName>(name: &mut N, file: &N::File, bytes: &[u8]) -> Result<Created, FileError>
    requires begun { IsAt (N.stage name.old) Begun }
    requires there { N.temporary name.old ≡ There }
    requires whole { IsWhole N.fresh bytes.now (N.File.contents file.now) (N.File.lasts file.now) }
    ensures named { IfSome (N.stage name.new)
        (λ s. EndsAs N.fresh bytes.now (stored_answer result) s) }
    ensures cleared { N.temporary name.new ≢ There }
{
    let linked = link_file(name, file);
    let _ = name.clear();
    match linked {
        Ok(()) => keep_name(name, file),
        Err(error) => match error.kind() {
            ErrorKind::AlreadyExists => Ok(Created::Exists),
            ErrorKind::PermissionDenied | ErrorKind::Unsupported | ErrorKind::TooManyLinks => {
                fill_named(name, bytes)
            }
            _ => Err(FileError::Failed(cause_of(&error))),
        },
    }
}

/// Gives the name to a file. If linking fails but the file has the name, for instance because a
/// server got the call twice, it counts as linked.
pub fn link_file<N: NewName>(name: &mut N, file: &N::File) -> io::Result<()>
    requires begun { IsAt (N.stage name.old) Begun }
    requires there { N.temporary name.old ≡ There }
    ensures linked { OnOk result (IsAt (N.stage name.new)
        (Linked (N.File.contents file.now) (N.File.lasts file.now))) }
    ensures taken { IfErr result (λ error. error_kind error ≡ ErrorKind.AlreadyExists →
        IsAt (N.stage name.new) Taken) }
    ensures linkless { IfErr result (λ error. HasNoLinks (error_kind error) →
        IsAt (N.stage name.new) Linkless) }
    ensures unlinked { IfErr result (λ error. error_kind error ≢ ErrorKind.AlreadyExists →
        ¬ (HasNoLinks (error_kind error)) → N.stage name.new ≡ N.stage name.old) }
    ensures kept { N.temporary name.new ≡ N.temporary name.old }
{
    match name.link(file) {
        Ok(()) => Ok(()),
        Err(error) => {
            if name.is_linked(file) {
                Ok(())
            } else {
                Err(error)
            }
        }
    }
}

/// Fills a new file under the name itself, if links aren't supported.
fn fill_named<N: NewName>(name: &mut N, bytes: &[u8]) -> Result<Created, FileError>
    requires linkless { IsAt (N.stage name.old) Linkless }
    ensures named { IfSome (N.stage name.new)
        (λ s. EndsAs N.fresh bytes.now (stored_answer result) s) }
    ensures kept { N.temporary name.new ≡ N.temporary name.old }
{
    let mut opened = name.open();
    match fill_opened(&mut opened, bytes) {
        Ok(made) => match opened {
            Ok(file) => keep_name(name, &file),
            Err(_) => Ok(made),
        },
        Err(error) => Err(FileError::Failed(error.cause())),
    }
}

/// Waits until the file's name is stored.
pub fn keep_name<N: NewName>(name: &mut N, file: &N::File) -> Result<Created, FileError>
    ensures made { IfOk (stored_answer result) (λ made. (made ≡ Created.Made) × (N.stage name.new ≡ option_map
        (kept_as (N.File.contents file.now) (N.File.lasts file.now)) (N.stage name.old))) }
    ensures failed { IfErr (stored_answer result) (λ error. (error ≡ StoreError.Failed) ×
        (N.stage name.new ≡ N.stage name.old)) }
    ensures kept { N.temporary name.new ≡ N.temporary name.old }
{
    match name.put_away(file) {
        Ok(()) => Ok(Created::Made),
        Err(error) => Err(FileError::Failed(cause_of(&error))),
    }
}
