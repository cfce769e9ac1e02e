//! The files of the file system as a store, which doesn't report its files; the contracts of the
//! functions that read one file are about the file's bytes, if it reports them. How a new file is
//! filled and gets its name is in `filling` and `naming` of real_objects, and reading at an offset
//! in its `placed`.

ghost use Rattle.std.specs.Prelude.{◌≡◌, ◌≢◌, ◌^◌, ◌<◌, ◌≤◌, Bool, Option, Some, true, false, None, [], length, take, drop, min, IfOk, IfErr, IsOk, IsErr, IsOkAnd, IsErrOf, IsSome, IfSome, OnOk, option_map};
ghost use Rattle.std.specs.Io.KnownBytes.{Appends, Keeps};
ghost use Rattle.std.specs.IoError.{error_kind};
ghost use Rattle.tink_base.specs.Store.{GivenByLoad, Loads};
ghost use Rattle.tink_spec.specs.Outside.{Rose, RoseOnce, Stood};
ghost use Rattle.tink_spec.specs.Files.{KeptFiles};
ghost use Rattle.real_objects.specs.Cause.{cause_of, stored_answer, stored_error};
ghost use Rattle.dir_store.specs.Folder.{IsLoaded, drafted, fault_count, kept_cause, kept_path, last_cause, last_path, told_files, untold_store};
ghost use Rattle.real_objects.specs.Placed.{IsMissing};

use crate::drafting::{append_piece, begin_file, finish_file, give_up_file};
use crate::named::{DirName, free_place};
use real_objects::{Cause, FileError, cause_of, fault_of, make_file, read_opened, size_of};
use std::alloc::Global;
use std::fs::{self, File, OpenFile};
use std::io::{self, ErrorKind, Read};
use tink_base::{Begun, Bytes, Created, Failed, Loaded, PieceStore, Store, StoreError};

/// The most bytes that a load returns; longer files count as too long under any limit.
const MOST: usize = 1 << 30;

/// The files that the program can reach, by their paths.
#[derive(Drop)]
pub struct DirStore<'a> {
    rt: &'a HostRuntime,
    faults: Option<Faults>,
    given: u64,
    left: Option<String>,
    draft: Option<DirDraft>,
    opened: Option<OpenFileOf>,
}

/// The calls that failed, of which there is at least one.
#[derive(Clone, Copy)]
struct Faults {
    count: u64,
    // why the last one did
    last: Cause,
}

/// The file that was read at an offset last, which stays open.
#[derive(Drop)]
struct OpenFileOf {
    // the name by which it was opened
    name: String,
    file: File,
}

/// A new file that is written in pieces, under a temporary name.
#[derive(Drop)]
struct DirDraft {
    // for the call that goes on with the name
    alloc: Global,
    name: String,
    // the folder, if it may be read
    folder: Option<File>,
    temporary: String,
    file: File,
}

impl<'a> DirStore<'a> {
    /// The files, before the first call.
    pub fn new(rt: &'a HostRuntime) -> DirStore<'a>
        ensures none_left { kept_path result ≡ None }
        ensures no_cause { kept_cause result ≡ None }
        ensures no_draft { drafted result ≡ None }
        ensures new { told_files result ≡ untold_store 0 0 }
    {
        DirStore {
            rt,
            faults: None,
            given: 0,
            left: None,
            draft: None,
            opened: None,
        }
    }

    /// The path of the last file made under a temporary name that couldn't be removed.
    pub fn left(&self) -> Option<&str>
        ensures { option_map (λ path. path.now) result ≡ kept_path self.now }
    {
        match &self.left {
            Some(path) => Some(path.as_str()),
            None => None,
        }
    }

    /// Why the last call that failed did so. There is a cause if any has failed.
    pub fn cause(&self) -> Option<Cause>
        ensures kept { result ≡ kept_cause self.now }
        ensures some { 0 < (told_files self.now).faults → IsSome result }
    {
        match &self.faults {
            Some(faults) => Some(faults.last),
            None => None,
        }
    }

    /// Keeps the path of a file whose temporary name couldn't be removed, if there is one.
    fn keep_left(&mut self, place: DirName<'_>)
        ensures left { kept_path self.new ≡ last_path (kept_path self.old) place.entry.temporary }
        ensures drafted { drafted self.new ≡ drafted self.old }
        ensures cause { kept_cause self.new ≡ kept_cause self.old }
        ensures told { told_files self.new ≡ told_files self.old }
    {
        if let Some(path) = place.into_left() {
            self.left = Some(path);
        }
    }

    /// The file that is open under this name, which then isn't kept any longer.
    fn take_open(&mut self, name: &str) -> Option<File>
        ensures left { kept_path self.new ≡ kept_path self.old }
        ensures drafted { drafted self.new ≡ drafted self.old }
        ensures cause { kept_cause self.new ≡ kept_cause self.old }
        ensures told { told_files self.new ≡ told_files self.old }
    {
        match self.opened.take() {
            Some(kept) if kept.name.as_str() == name => Some(kept.file),
            _ => None,
        }
    }

    /// Keeps a file open under this name for the next read. If memory for the name can't be
    /// allocated, the file is closed.
    fn keep_open(&mut self, name: &str, file: File)
        ensures left { kept_path self.new ≡ kept_path self.old }
        ensures drafted { drafted self.new ≡ drafted self.old }
        ensures cause { kept_cause self.new ≡ kept_cause self.old }
        ensures told { told_files self.new ≡ told_files self.old }
    {
        if let Ok(name) = String::from_str(self.rt.alloc(), name) {
            self.opened = Some(OpenFileOf { name, file });
        }
    }

    /// Counts a call that failed, and keeps why it did.
    fn fail(&mut self, cause: Cause) -> Failed
        ensures kept { kept_cause self.new ≡ Some cause }
        ensures rose { Rose (fault_count self.old) (fault_count self.new) }
        ensures once { RoseOnce (fault_count self.old) (fault_count self.new) }
        ensures files { KeptFiles (told_files self.old) (told_files self.new) }
        ensures left { kept_path self.new ≡ kept_path self.old }
        ensures drafted { drafted self.new ≡ drafted self.old }
        ensures given { self.new.given ≡ self.old.given }
    {
        self.faults = Some(Faults {
            count: self.count().saturating_add(1),
            last: cause,
        });
        Failed
    }

    /// How many calls have failed.
    fn count(&self) -> u64
        ensures { result ≡ fault_count self.now }
    {
        match &self.faults {
            Some(faults) => faults.count,
            None => 0,
        }
    }

    /// The error as the store reports it. If a call failed, that is counted, and its cause is kept.
    fn refuse(&mut self, error: FileError) -> StoreError
        ensures told { result ≡ stored_error error }
        ensures kept { kept_cause self.new ≡ last_cause (kept_cause self.old) error }
        ensures rose { result ≡ StoreError.Failed →
            Rose (fault_count self.old) (fault_count self.new) }
        ensures once { result ≡ StoreError.Failed →
            RoseOnce (fault_count self.old) (fault_count self.new) }
        ensures stood { (result ≡ StoreError.Failed → ⊥) →
            Stood (fault_count self.old) (fault_count self.new) }
        ensures files { KeptFiles (told_files self.old) (told_files self.new) }
        ensures left { kept_path self.new ≡ kept_path self.old }
        ensures drafted { drafted self.new ≡ drafted self.old }
        ensures given { self.new.given ≡ self.old.given }
    {
        match error {
            FileError::Failed(cause) => {
                self.fail(cause);
                StoreError::Failed
            }
            FileError::NoMemory => StoreError::NoMemory,
        }
    }
}

impl Store for DirStore<'_> {
    ghost state = { λ s. told_files s };

    fn load(&mut self, alloc: Global, name: &str, limit: usize) -> Result<Loaded, StoreError> {
        match load_opened(alloc, fs::open(self.rt, name), limit, &mut self.given) {
            Ok(found) => Ok(found),
            Err(error) => Err(self.refuse(error)),
        }
    }

    /// A link that leads nowhere takes the name, and so does a folder. `Failed` comes also if the
    /// name's folder doesn't exist.
    fn is_taken(&mut self, name: &str) -> Result<bool, Failed> {
        match taken_of(free_place(self.rt, name)) {
            Ok(taken) => Ok(taken),
            Err(cause) => Err(self.fail(cause)),
        }
    }

    /// A folder, a pipe and a device have no length.
    fn size(&mut self, name: &str) -> Result<Option<u64>, Failed> {
        match size_of(fs::metadata(self.rt, name)) {
            Ok(size) => Ok(size),
            Err(cause) => Err(self.fail(cause)),
        }
    }

    /// The file stays open for the next read of the same name, so a range is read from one file
    /// even if its name passes to another file meanwhile. A read of another name, or one that
    /// fails, closes it. Memory is taken for the name.
    fn read_at(&mut self, name: &str, at: u64, out: &mut [u8]) -> Result<usize, Failed> {
        let opened = match self.take_open(name) {
            Some(file) => Ok(file),
            None => fs::open(self.rt, name),
        };
        match read_opened(&opened, at, out) {
            Ok(n) => {
                self.given = self.given.saturating_add(n as u64);
                if let Ok(file) = opened {
                    self.keep_open(name, file);
                }
                Ok(n)
            }
            Err(cause) => Err(self.fail(cause)),
        }
    }

    fn create(&mut self, alloc: Global, name: &str, bytes: &[u8]) -> Result<Created, StoreError> {
        let mut place = DirName::new(alloc, self.rt, name);
        let made = make_file(&mut place, bytes);
        self.keep_left(place);
        match made {
            Ok(created) => Ok(created),
            Err(error) => Err(self.refuse(error)),
        }
    }
}

impl PieceStore for DirStore<'_> {
    ghost draft = { λ s. drafted s };

    /// Memory is taken for the paths. The file is made under a temporary name in the name's folder,
    /// and stays there if the program is killed.
    fn begin(&mut self, alloc: Global, name: &str) -> Result<Begun, StoreError> {
        let Ok(copy) = String::from_str(alloc, name) else {
            return Err(StoreError::NoMemory);
        };
        let mut place = DirName::new(alloc, self.rt, name);
        match begin_file(&mut place) {
            Ok(Some(file)) => {
                let (folder, temporary) = place.into_begun();
                self.draft = Some(DirDraft {
                    alloc,
                    name: copy,
                    folder,
                    temporary,
                    file,
                });
                Ok(Begun::Empty)
            }
            Ok(None) => Ok(Begun::Exists),
            Err(error) => {
                self.keep_left(place);
                Err(self.refuse(error))
            }
        }
    }

    fn append(&mut self, piece: &[u8]) -> Result<usize, Failed> {
        let Some(mut draft) = self.draft.take() else {
            unreachable!()
        };
        let appended = append_piece(&mut draft.file, piece);
        self.draft = Some(draft);
        match appended {
            Ok(n) => Ok(n),
            Err(cause) => Err(self.fail(cause)),
        }
    }

    fn finish(&mut self) -> Result<Created, StoreError> {
        let Some(draft) = self.draft.take() else {
            unreachable!()
        };
        let DirDraft {
            alloc,
            name,
            folder,
            temporary,
            mut file,
        } = draft;
        let mut place = DirName::begun(alloc, self.rt, &name, folder, temporary);
        let made = finish_file(&mut place, &mut file);
        self.keep_left(place);
        match made {
            Ok(created) => Ok(created),
            Err(error) => Err(self.refuse(error)),
        }
    }

    fn give_up(&mut self) {
        let Some(draft) = self.draft.take() else {
            return;
        };
        let DirDraft {
            alloc,
            name,
            folder,
            temporary,
            ..
        } = draft;
        let mut place = DirName::begun(alloc, self.rt, &name, folder, temporary);
        give_up_file(&mut place);
        self.keep_left(place);
    }
}

/// Whether a name is taken, from looking up its place.
fn taken_of(place: io::Result<()>) -> Result<bool, Cause>
    ensures free { IfOk result (λ taken. taken ≡ false → IsOk place) }
    ensures taken { IfErr place (λ error. error_kind error ≡ ErrorKind.AlreadyExists →
        result ≡ Ok true) }
    ensures there { IfOk result (λ taken. taken ≡ true →
        IfErr place (λ error. error_kind error ≡ ErrorKind.AlreadyExists)) }
    ensures failed { IfErr place (λ error. IfErr result (λ cause. cause ≡ cause_of error)) }
{
    match place {
        Ok(_) => Ok(false),
        Err(error) if error.kind() == ErrorKind::AlreadyExists => Ok(true),
        Err(error) => Err(cause_of(&error)),
    }
}

/// What opening this file found: all its bytes, if there are at most `limit`. A path that leads
/// through a file, or through a folder that doesn't exist, has no file. The number of bytes read is
/// added to `given`, saturating at the type's maximum.
pub fn load_opened<R: Read + Drop>(
    alloc: Global,
    opened: io::Result<R>,
    limit: usize,
    given: &mut u64,
) -> Result<Loaded, FileError>
    ensures whole { IfOk opened (λ file. IfSome (R.remaining file)
        (λ bytes. IfOk result (λ found. IsLoaded bytes (min limit (2 ^ 30)) found))) }
    ensures absent { IfErr opened (λ error. IfOk result
        (λ found. (found ≡ Loaded.Absent) × IsMissing (error_kind error))) }
    ensures missing { IfErr opened (λ error. IsMissing (error_kind error) →
        result ≡ Ok Loaded.Absent) }
    ensures no_memory { IfErr opened (λ error. IsErrOf result FileError.NoMemory →
        error_kind error ≡ ErrorKind.OutOfMemory) }
    ensures starved { IfErr opened (λ error. error_kind error ≡ ErrorKind.OutOfMemory →
        result ≡ Err FileError.NoMemory) }
    ensures failed { IfErr opened (λ error. (cause : Cause) →
        IsErrOf result (FileError.Failed cause) → cause ≡ cause_of error) }
    ensures loads { IfOk result (λ found. Loads (untold_store 0 0) [] limit found) }
    ensures given { GivenByLoad limit (stored_answer result) given.old given.new }
{
    match opened {
        Ok(file) => read_file(alloc, file, limit.min(MOST), given),
        Err(error) => match error.kind() {
            ErrorKind::NotFound | ErrorKind::NotADirectory => Ok(Loaded::Absent),
            _ => Err(fault_of(&error)),
        },
    }
}

/// All bytes of a file, if there are at most `limit`. The number of bytes read is added to `given`:
/// at most one more than the limit.
fn read_file<R: Read + Drop>(
    alloc: Global,
    file: R,
    limit: usize,
    given: &mut u64,
) -> Result<Loaded, FileError>
    requires limit_bound { limit ≤ 2 ^ 30 }
    ensures whole { IfSome (R.remaining file)
        (λ bytes. IfOk result (λ found. IsLoaded bytes limit found)) }
    ensures loads { IfOk result (λ found. Loads (untold_store 0 0) [] limit found) }
    ensures given { GivenByLoad limit (stored_answer result) given.old given.new }
{
    let mut bytes = Vec::new(alloc);
    let mut front = file.take(limit as u64 + 1);
    let read = front.read_to_end(&mut bytes);
    *given = given.saturating_add(bytes.len().min(limit + 1) as u64);
    loaded_of(read, bytes, limit)
}

/// What was found of a file of which these bytes were read, at most one more than the limit. A
/// failed read is reported as `NoMemory` if and only if its error says so.
fn loaded_of(read: io::Result<usize>, bytes: Vec<u8>, limit: usize) -> Result<Loaded, FileError>
    ensures loaded { IfOk result (λ found. IsLoaded bytes.items limit found) }
    ensures done { IsOk read → IsOk result }
    ensures failed { IsErr read → IsErr result }
    ensures memory { IfErr read (λ error. error_kind error ≡ ErrorKind.OutOfMemory →
        result ≡ Err FileError.NoMemory) }
    ensures fault { IfErr read (λ error. error_kind error ≢ ErrorKind.OutOfMemory →
        result ≡ Err (FileError.Failed (cause_of error))) }
{
    match read {
        Ok(_) if bytes.len() > limit => Ok(Loaded::TooLong),
        Ok(_) => Ok(Loaded::Bytes(Bytes::own(bytes))),
        Err(error) => Err(fault_of(&error)),
    }
}
