//! The path of a new file, and the temporary paths in its folder. Each call looks the path up
//! again: there are no calls relative to an open folder.

ghost use Rattle.std.specs.Prelude.{◌≡◌, ◌≢◌, Option, Some, None, IfOk, IfErr, IsOk, IsErr, OnOk, OnErr, option_map, string_bytes};
ghost use Rattle.std.specs.IoError.{error_kind};
ghost use Rattle.dir_store.specs.Folder.{IsFolder};
ghost use Rattle.dir_store.specs.Named.{left_path, place_of, there_path};
ghost use Rattle.real_objects.specs.Naming.{Stage, There, Gone, Left};

use real_objects::{NewName, OWNER_ALONE, Opens, RandomDevice};
use std::alloc::Global;
use std::fs::{self, File, Metadata, OpenFile, OpenOptions};
use std::io::{self, ErrorKind, Read};
use std::mem;
use std::os::unix::fs::{MetadataExt, OpenOptionsExt};
use tink_base::TEMPORARY;

/// A file made under a temporary name, by its path.
#[derive(Drop)]
pub enum Temporary {
    /// There is none, or its name was removed.
    Gone,
    /// It has its temporary name.
    There(String),
    /// Its name couldn't be removed.
    Left(String),
}

/// The path of a new file. Temporary names are in the same folder.
#[derive(Drop)]
pub struct DirName<'a> {
    rt: &'a HostRuntime,
    alloc: Global,
    name: &'a str,
    // the folder, after the name was looked up, if it may be read
    folder: Option<File>,
    temporary: Temporary,
}

impl<'a> DirName<'a> {
    /// The path, before it is looked up. The allocator is for the path of a temporary name.
    pub fn new(alloc: Global, rt: &'a HostRuntime, name: &'a str) -> DirName<'a>
        ensures { place_of result.temporary ≡ Gone }
    {
        DirName {
            rt,
            alloc,
            name,
            folder: None,
            temporary: Temporary::Gone,
        }
    }

    /// The path of a file that was begun under a temporary path, with its folder, if that may be
    /// read.
    pub(crate) fn begun(
        alloc: Global,
        rt: &'a HostRuntime,
        name: &'a str,
        folder: Option<File>,
        temporary: String,
    ) -> DirName<'a>
        ensures there { place_of result.temporary ≡ There }
        ensures path { there_path result.temporary ≡ Some (string_bytes temporary) }
    {
        DirName {
            rt,
            alloc,
            name,
            folder,
            temporary: Temporary::There(temporary),
        }
    }

    /// The folder, if it may be read, and the temporary path of the file that was begun.
    pub(crate) fn into_begun(self) -> (Option<File>, String)
        requires there { place_of self.temporary ≡ There }
        ensures path { there_path self.entry.temporary ≡ Some (string_bytes result.1) }
    {
        let DirName {
            folder,
            temporary,
            ..
        } = self;
        match temporary {
            Temporary::There(path) => (folder, path),
            Temporary::Gone | Temporary::Left(_) => unreachable!(),
        }
    }

    /// The path of the file that couldn't be removed, if there is one.
    pub fn into_left(self) -> Option<String>
        ensures { option_map string_bytes result ≡ left_path self.entry.temporary }
    {
        let DirName { temporary, .. } = self;
        match temporary {
            Temporary::Left(path) => Some(path),
            Temporary::Gone | Temporary::There(_) => None,
        }
    }

    /// The path of a temporary name: 16 hexadecimal digits of random bytes, so that no other run
    /// takes the same one, and nobody can predict it. The bytes are drawn only for this, and aren't
    /// the run's.
    fn draw_temporary(&self) -> io::Result<String> {
        let (folder, number) = (folder_of(self.name), drawn(self.draw())?);
        Ok(format!(in self.alloc; "{folder}/{TEMPORARY}{number:016x}")?)
    }

    /// A number of eight random bytes.
    fn draw(&self) -> io::Result<u64> {
        let mut bytes = [0; 8];
        RandomDevice::new(self.rt).open()?.read_exact(&mut bytes)?;
        Ok(u64::from_be_bytes(bytes))
    }
}

impl NewName for DirName<'_> {
    ghost use Rattle.dir_store.specs.Named.{place_of};

    type File = File;

    ghost fresh = { None };

    ghost stage = { λ _. None };

    ghost temporary = { λ s. place_of s.temporary };

    /// Checks whether anything has the path, even a link that leads nowhere, and opens the folder
    /// if it may be read. A path without a last component is refused.
    #[inline(never)]
    fn look_up(&mut self) -> io::Result<()> {
        free_place(self.rt, self.name)?;
        self.folder = readable(fs::open(self.rt, folder_of(self.name)))?;
        Ok(())
    }

    #[inline(never)]
    fn open_temporary(&mut self) -> io::Result<File> {
        let path = self.draw_temporary()?;
        let file = open_new(self.rt, &path)?;
        self.temporary = Temporary::There(path);
        Ok(file)
    }

    #[inline(never)]
    fn link(&mut self, _file: &File) -> io::Result<()> {
        match &self.temporary {
            Temporary::There(path) => fs::hard_link(self.rt, path.as_str(), self.name),
            Temporary::Gone | Temporary::Left(_) => Err(io::Error::from(ErrorKind::NotFound)),
        }
    }

    #[inline(never)]
    fn is_linked(&mut self, file: &File) -> bool {
        match (file.metadata(), fs::symlink_metadata(self.rt, self.name)) {
            (Ok(ours), Ok(found)) => is_same(&ours, &found),
            _ => false,
        }
    }

    /// A name that somebody else removed counts as gone, too.
    fn clear(&mut self) -> io::Result<()>
        requires there { place_of self.old.temporary ≡ There }
        ensures gone { OnOk result (place_of self.new.temporary ≡ Gone) }
        ensures left { OnErr result (place_of self.new.temporary ≡ Left) }
        ensures kept { ◌≡◌ {A = Option Stage} None None }

        // The file left is the one under the temporary name.
        ensures path { OnErr result (left_path self.new.temporary ≡ there_path self.old.temporary) }
    {
        let Temporary::There(path) = mem::replace(&mut self.temporary, Temporary::Gone) else {
            return Ok(());
        };
        match fs::remove_file(self.rt, path.as_str()) {
            Err(error) if error.kind() != ErrorKind::NotFound => {
                self.temporary = Temporary::Left(path);
                Err(error)
            }
            _ => Ok(()),
        }
    }

    #[inline(never)]
    fn open(&mut self) -> io::Result<File> {
        open_new(self.rt, self.name)
    }

    /// If the folder may not be read, its file system can be asked only through the file.
    #[inline(never)]
    fn put_away(&mut self, file: &File) -> io::Result<()> {
        match &self.folder {
            Some(folder) => folder_kept(folder.sync_all()),
            None => file.sync_all(),
        }
    }
}

/// The number drawn. Unless memory couldn't be allocated, an error is `Other`, which no call of the
/// system gives, so that a missing device isn't reported as a missing folder.
fn drawn(number: io::Result<u64>) -> io::Result<u64>
    ensures drawn { IfOk number (λ n. result ≡ Ok n) }
    ensures starved { IfErr number (λ error. error_kind error ≡ ErrorKind.OutOfMemory →
        result ≡ Err error) }
    ensures failed { IfErr number (λ error. error_kind error ≢ ErrorKind.OutOfMemory →
        IfErr result (λ other. error_kind other ≡ ErrorKind.Other)) }
    ensures never { IsErr number → IsErr result }
{
    match number {
        Err(error) if error.kind() != ErrorKind::OutOfMemory => {
            Err(io::Error::from(ErrorKind::Other))
        }
        number => number,
    }
}

/// Whether two lookups found the same file.
fn is_same(first: &Metadata, second: &Metadata) -> bool {
    first.dev() == second.dev() && first.ino() == second.ino()
}

/// Checks that nothing has a path, and that its folder exists. The error is `AlreadyExists` if
/// something has the path, even a link that leads nowhere. A path without a last component is
/// refused.
#[inline(never)]
pub(crate) fn free_place(rt: &HostRuntime, name: &str) -> io::Result<()> {
    if name.is_empty() || name.ends_with('/') {
        return Err(io::Error::from(ErrorKind::IsADirectory));
    }
    match fs::symlink_metadata(rt, name) {
        Ok(_) => Err(io::Error::from(ErrorKind::AlreadyExists)),
        Err(error) if error.kind() == ErrorKind::NotFound => {
            fs::metadata(rt, folder_of(name))?;
            Ok(())
        }
        Err(error) => Err(error),
    }
}

/// The opened folder, if it may be read; `None` for one that may be written but not read.
fn readable<F: Drop>(opened: io::Result<F>) -> io::Result<Option<F>>
    ensures readable { IfOk opened (λ folder. result ≡ Ok (Some folder)) }
    ensures denied { IfErr opened (λ error. error_kind error ≡ ErrorKind.PermissionDenied →
        result ≡ Ok None) }
    ensures failed { IfErr opened (λ error. error_kind error ≢ ErrorKind.PermissionDenied →
        result ≡ Err error) }
{
    match opened {
        Ok(folder) => Ok(Some(folder)),
        Err(error) if error.kind() == ErrorKind::PermissionDenied => Ok(None),
        Err(error) => Err(error),
    }
}

/// Whether a folder counts as stored, by the system's answer. A file system without that call
/// (EINVAL) has nothing to store; no other error is ignored.
fn folder_kept(synced: io::Result<()>) -> io::Result<()>
    ensures kept { IsOk synced → IsOk result }
    ensures unasked { IfErr synced (λ error. error_kind error ≡ ErrorKind.InvalidInput → IsOk result) }
    ensures failed { IfErr synced (λ error. error_kind error ≢ ErrorKind.InvalidInput →
        result ≡ Err error) }
{
    match synced {
        Err(error) if error.kind() == ErrorKind::InvalidInput => Ok(()),
        synced => synced,
    }
}

/// The path of a path's folder: what precedes its last slash; for a path without a slash the
/// working folder, and for one with nothing before it the root.
pub fn folder_of(name: &str) -> &str
    ensures { IsFolder name.now result.now }
{
    match name.rsplit_once('/') {
        Some((folder, _)) if folder.is_empty() => "/",
        Some((folder, _)) => folder,
        None => ".",
    }
}

/// Opens a new file of this path, which may be read back. An existing one isn't replaced.
fn open_new(rt: &HostRuntime, name: &str) -> io::Result<File> {
    let mut options = OpenOptions::new();
    options
        .read(true)
        .write(true)
        .create_new(true)
        .mode(OWNER_ALONE);
    options.open(rt, name)
}
