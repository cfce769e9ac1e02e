//! Files of the file system, in the folder where the test runs.

ghost use Rattle.std.specs.Prelude.{◌≡◌, ◌≢◌, None, IsSome, OnOk};
ghost use Rattle.dir_store.specs.Folder.{drafted};

use dir_store::{DirName, DirStore};
use real_objects::NewName;
use std::alloc::Global;
use std::fs::{self, DirEntry, File};
use std::io::{self, ErrorKind, Write};
use std::os::unix::fs::{MetadataExt, symlink};
use std::test::Fail;
use test_words::{cell, counting, create_word, load_word, number_in, same_bytes, same_text};
use tink_base::{Begun, PieceStore, Store, StoreError, append_all};

/// Loads a file under this limit, which is to have these bytes.
fn loads(
    store: &mut DirStore<'_>,
    alloc: Global,
    name: &str,
    limit: usize,
    bytes: &[u8],
    want: &str,
) -> Result<(), Fail> {
    let answer = store.load(alloc, name, limit);
    let found = load_word(&answer, bytes);
    if found != want {
        let size = bytes.len();
        return Err(Fail::new(format_args!(
            "{name} up to {limit}, of {size} bytes: {found}, and not {want}"
        )));
    }
    Ok(())
}

/// Creates a file with these bytes.
fn creates(
    store: &mut DirStore<'_>,
    alloc: Global,
    name: &str,
    bytes: &[u8],
    want: &str,
) -> Result<(), Fail> {
    let answer = store.create(alloc, name, bytes);
    same_text(name, "the create", want, create_word(&answer))
}

/// Makes an empty folder.
fn make_empty(rt: &HostRuntime, folder: &str) -> Result<(), Fail> {
    let _ = fs::remove_dir_all(rt, folder);
    Ok(fs::create_dir(rt, folder)?)
}

/// Holds a file to this text, as std reads it.
fn holds(rt: &HostRuntime, name: &str, text: &str) -> Result<(), Fail> {
    let found = fs::read(rt, name)?;
    same_bytes(rt.alloc(), name, "the file", text.as_bytes(), &found)
}

/// Holds a file to being its owner's alone.
fn is_private(rt: &HostRuntime, name: &str) -> Result<(), Fail> {
    let mode = fs::metadata(rt, name)?.mode() & 0o777;
    if mode != 0o600 {
        return Err(Fail::new(format_args!("{name}: the mode is {mode}")));
    }
    Ok(())
}

/// Nothing may have this name.
fn is_absent(rt: &HostRuntime, name: &str) -> Result<(), Fail> {
    if fs::exists(rt, name)? {
        return Err(Fail::new(format_args!("{name} is there")));
    }
    Ok(())
}

/// Whether an entry of a folder has a temporary name.
fn is_temporary(entry: io::Result<DirEntry>) -> Result<bool, Fail> {
    Ok(entry?.file_name().starts_with(".tinkey-new-"))
}

/// Holds a folder to so many temporary names.
fn has_temporary(rt: &HostRuntime, folder: &str, want: usize) -> Result<(), Fail> {
    let mut count = 0usize;
    for entry in fs::read_dir(rt, folder)? {
        if is_temporary(entry)? {
            count = count.wrapping_add(1);
        }
    }
    if count != want {
        return Err(Fail::new(format_args!("{folder}: {count} temporary names, and not {want}")));
    }
    Ok(())
}

/// A step over real files.
enum Step {
    /// A folder is made.
    Folder(&'static str),
    /// A file is written with this text.
    Write(&'static str, &'static str),
    /// A symbolic link leads to the first from the second.
    Link(&'static str, &'static str),
    /// A file is created with this text, which is answered so.
    Create(&'static str, &'static str, &'static str),
    /// A file that is to have the bytes `bytes` is loaded up to a limit, which is answered so.
    Load(&'static str, usize, &'static str),
    /// A file has this text.
    Holds(&'static str, &'static str),
    /// A file is its owner's alone.
    Private(&'static str),
    /// A file has three bytes and one name, and is its owner's alone.
    New(&'static str),
    /// Nothing has this name.
    Absent(&'static str),
    /// A folder has so many temporary names.
    Temporary(&'static str, usize),
}

/// Takes a step.
fn take(rt: &HostRuntime, store: &mut DirStore<'_>, step: &Step) -> Result<(), Fail> {
    match step {
        Step::Folder(name) => Ok(fs::create_dir(rt, *name)?),
        Step::Write(name, text) => Ok(fs::write(rt, *name, *text)?),
        Step::Link(to, name) => Ok(symlink(rt, *to, *name)?),
        Step::Create(name, text, want) => creates(store, rt.alloc(), name, text.as_bytes(), want),
        Step::Load(name, limit, want) => loads(store, rt.alloc(), name, *limit, b"bytes", want),
        Step::Holds(name, text) => holds(rt, name, text),
        Step::Private(name) => is_private(rt, name),
        Step::New(name) => is_new(rt, name),
        Step::Absent(name) => is_absent(rt, name),
        Step::Temporary(folder, want) => has_temporary(rt, folder, *want),
    }
}

/// Takes steps one after another.
fn take_all(rt: &HostRuntime, store: &mut DirStore<'_>, steps: &[Step]) -> Result<(), Fail> {
    for step in steps {
        take(rt, store, step)?;
    }
    Ok(())
}

// A file of the bytes `bytes`, by its name and by others.
const KEEPS: [Step; 11] = [
    Step::Create("a-new-file", "bytes", "made"),
    Step::Private("a-new-file"),
    Step::Create("a-new-file", "other", "exists"),
    Step::Load("a-new-file", 5, "bytes"),
    Step::Load("a-new-file", 4, "too long"),
    Step::Load("no-file", 5, "absent"),
    Step::Load("no-folder/file", 5, "absent"),
    Step::Load("a-new-file/file", 5, "absent"),
    Step::Load(".", 5, "failed"),
    Step::Create("no-folder/file", "", "failed"),
    Step::Create("a-new-file/file", "", "failed"),
];

#[test]
fn keeps_and_reads_real_files(rt: HostRuntime) -> Result<(), Fail> {
    let _ = fs::remove_file(&rt, "a-new-file");
    take_all(&rt, &mut DirStore::new(&rt), &KEEPS)?;
    Ok(fs::remove_file(&rt, "a-new-file")?)
}

/// Writes a file of these bytes, which std reads too.
fn assert_written(rt: &HostRuntime, store: &mut DirStore<'_>, bytes: &[u8]) -> Result<(), Fail> {
    let _ = fs::remove_file(rt, "sized-file");
    creates(store, rt.alloc(), "sized-file", bytes, "made")?;
    let kept = fs::read(rt, "sized-file")?;
    same_bytes(rt.alloc(), "sized-file", "what std reads", bytes, &kept)
}

/// Loads it under limits on both sides of its size.
fn assert_loaded(store: &mut DirStore<'_>, alloc: Global, bytes: &[u8]) -> Result<(), Fail> {
    let size = bytes.len();
    loads(store, alloc, "sized-file", size, bytes, "bytes")?;
    loads(store, alloc, "sized-file", size + 1, bytes, "bytes")?;
    loads(store, alloc, "sized-file", usize::MAX, bytes, "bytes")?;
    if size > 0 {
        loads(store, alloc, "sized-file", size - 1, bytes, "too long")?;
    }
    Ok(())
}

// Around the size of a page, and far above it.
const SIZES: [usize; 6] = [0, 1, 4_095, 4_096, 4_097, 100_000];

/// Writes and loads a file of so many bytes.
fn assert_size(rt: &HostRuntime, store: &mut DirStore<'_>, size: usize) -> Result<(), Fail> {
    let bytes = counting(rt.alloc(), size)?;
    assert_written(rt, store, &bytes)?;
    assert_loaded(store, rt.alloc(), &bytes)
}

/// Writes and loads files of all sizes.
fn assert_sizes(rt: &HostRuntime, store: &mut DirStore<'_>) -> Result<(), Fail> {
    for size in &SIZES {
        assert_size(rt, store, *size)?;
    }
    Ok(())
}

#[test]
fn writes_and_loads_files_of_any_size(rt: HostRuntime) -> Result<(), Fail> {
    assert_sizes(&rt, &mut DirStore::new(&rt))?;
    Ok(fs::remove_file(&rt, "sized-file")?)
}

// In a folder with a file, a folder, and a symbolic link that leads nowhere. Nothing can be made in
// /proc, whoever asks.
const PLACES: [&str; 15] = [
    "a new file | places/k | made",
    "the same name again | places/k | exists",
    "a path with two slashes | places//two | made",
    "a path with a dot | ./places/./dot | made",
    "the folder of a path with a dot | places/. | exists",
    "a file | places/file | exists",
    "a folder | places/sub | exists",
    "a link that leads nowhere | places/link | exists",
    "a folder by its slash | places/sub/ | failed",
    "no folder by its slash | places/none/ | failed",
    "a file by a slash | places/file/ | failed",
    "a path through a file | places/file/k | failed",
    "a path through no folder | places/none/k | failed",
    "a folder that takes no file | /proc/tinkey-k | failed",
    "no name | | failed",
];

const BEFORE: [Step; 3] = [
    Step::Folder("places/sub"),
    Step::Write("places/file", "old"),
    Step::Link("nowhere", "places/link"),
];

const AFTER: [Step; 8] = [
    Step::New("places/k"),
    Step::New("places/two"),
    Step::New("places/dot"),
    Step::Holds("places/file", "old"),
    Step::Absent("places/nowhere"),
    Step::Temporary("places", 0),
    Step::Temporary("places/sub", 0),
    Step::Temporary(".", 0),
];

/// Creates the file of a row.
fn assert_place(store: &mut DirStore<'_>, alloc: Global, row: &str) -> Result<(), Fail> {
    let answer = store.create(alloc, cell(row, 1)?, b"new");
    same_text(row, "the answer", cell(row, 2)?, create_word(&answer))
}

/// Holds a file to three bytes, to being its owner's alone, and to one name.
fn is_new(rt: &HostRuntime, name: &str) -> Result<(), Fail> {
    let made = fs::metadata(rt, name)?;
    let (size, links) = (made.len(), made.nlink());
    if size != 3 || links != 1 {
        return Err(Fail::new(format_args!("{name}: {size} bytes and {links} names")));
    }
    is_private(rt, name)
}

/// Creates the files of all rows.
fn assert_places(rt: &HostRuntime, store: &mut DirStore<'_>) -> Result<(), Fail> {
    take_all(rt, store, &BEFORE)?;
    for row in &PLACES {
        assert_place(store, rt.alloc(), row)?;
    }
    take_all(rt, store, &AFTER)
}

#[test]
fn makes_a_file_where_the_path_is_free(rt: HostRuntime) -> Result<(), Fail> {
    make_empty(&rt, "places")?;
    assert_places(&rt, &mut DirStore::new(&rt))?;
    Ok(fs::remove_dir_all(&rt, "places")?)
}

// A name may have 255 bytes, and no temporary name is longer for it.
const LONG: [&str; 4] = [
    "a byte less | 254 | made",
    "the most | 255 | made",
    "the same again | 255 | exists",
    "a byte more | 256 | failed",
];

/// Creates the file of a row, whose name has so many bytes.
fn assert_long(store: &mut DirStore<'_>, alloc: Global, row: &str) -> Result<(), Fail> {
    let letters = "n".repeat(alloc, number_in(row, 1)?)?;
    let name = format!(in alloc; "long/{letters}")?;
    let answer = store.create(alloc, name.as_str(), b"new");
    same_text(row, "the answer", cell(row, 2)?, create_word(&answer))
}

/// Creates the files of all rows.
fn assert_all_long(store: &mut DirStore<'_>, alloc: Global) -> Result<(), Fail> {
    for row in &LONG {
        assert_long(store, alloc, row)?;
    }
    Ok(())
}

#[test]
fn makes_files_of_the_longest_names(rt: HostRuntime) -> Result<(), Fail> {
    make_empty(&rt, "long")?;
    assert_all_long(&mut DirStore::new(&rt), rt.alloc())?;
    has_temporary(&rt, "long", 0)?;
    Ok(fs::remove_dir_all(&rt, "long")?)
}

// What killed runs left, and a link of such a name, are neither followed, filled nor removed.
const LEFT: [Step; 12] = [
    Step::Write("left/.tinkey-new-0", "part"),
    Step::Write("left/.tinkey-new-0123456789abcdef", "part"),
    Step::Link("nowhere", "left/.tinkey-new-00000000000000ff"),
    Step::Create("left/a", "new", "made"),
    Step::Create("left/a", "new", "exists"),
    Step::Holds("left/a", "new"),
    Step::Create("left/b", "new", "made"),
    Step::Holds("left/b", "new"),
    Step::Holds("left/.tinkey-new-0", "part"),
    Step::Holds("left/.tinkey-new-0123456789abcdef", "part"),
    Step::Absent("left/nowhere"),
    Step::Temporary("left", 3),
];

#[test]
fn goes_on_beside_what_killed_runs_left(rt: HostRuntime) -> Result<(), Fail> {
    make_empty(&rt, "left")?;
    take_all(&rt, &mut DirStore::new(&rt), &LEFT)?;
    Ok(fs::remove_dir_all(&rt, "left")?)
}

/// The kind of the error, where there is one.
fn kind_of<T: Drop>(answer: io::Result<T>) -> Option<ErrorKind> {
    match answer {
        Ok(_) => None,
        Err(error) => Some(error.kind()),
    }
}

/// Holds what a call answers to the error of this kind.
fn refuses<T: Drop>(call: &str, kind: ErrorKind, answer: io::Result<T>) -> Result<(), Fail> {
    let found = kind_of(answer);
    if found != Some(kind) {
        return Err(Fail::new(format_args!("{call}: {found:?}, and not {kind:?}")));
    }
    Ok(())
}

/// The path of `k` in a folder, from the top.
fn path_of_k(rt: &HostRuntime, folder: &str) -> Result<String, Fail> {
    let here = fs::canonicalize(rt, folder)?;
    let here = here.to_str().ok_or("a path of UTF-8")?;
    Ok(format!(in rt.alloc(); "{here}/k")?)
}

/// The path of the temporary name in a folder that has one.
fn temporary_path(rt: &HostRuntime, folder: &str) -> Result<String, Fail> {
    for entry in fs::read_dir(rt, folder)? {
        let entry = entry?;
        let name = entry.file_name();
        if name.starts_with(".tinkey-new-") {
            let name = name.to_str().ok_or("a name of UTF-8")?;
            return Ok(format!(in rt.alloc(); "{folder}/{name}")?);
        }
    }
    Err("a temporary name".into())
}

/// Holds the path of a temporary name to 16 digits.
fn has_digits(path: &str) -> Result<(), Fail> {
    let (_, digits) = path.rsplit_once('-').ok_or("a dash")?;
    if digits.len() != 16 || !digits.bytes().all(|digit| digit.is_ascii_hexdigit()) {
        return Err(Fail::new(format_args!("{path}: no 16 digits")));
    }
    Ok(())
}

/// Holds the temporary file in a folder to being its owner's alone, and its name to 16 digits.
fn has_own_name(rt: &HostRuntime, folder: &str) -> Result<(), Fail> {
    let path = temporary_path(rt, folder)?;
    is_private(rt, &path)?;
    has_digits(&path)
}

/// Gives the name to our file, where another one had it meanwhile.
fn assert_since(rt: &HostRuntime, name: &mut DirName<'_>) -> Result<(), Fail> {
    name.look_up()?;
    let mut file = name.open_temporary()?;
    file.write_all(b"ours")?;
    has_own_name(rt, "since")?;
    fs::write(rt, "since/k", "theirs")?;
    refuses("a look", ErrorKind::AlreadyExists, name.look_up())?;
    refuses("a link", ErrorKind::AlreadyExists, name.link(&file))?;
    same_word("theirs", false, name.is_linked(&file))?;
    refuses("an open", ErrorKind::AlreadyExists, name.open())?;
    holds(rt, "since/k", "theirs")?;
    fs::remove_file(rt, "since/k")?;
    same_word("nobody's", false, name.is_linked(&file))?;
    name.link(&file)?;
    refuses("a link again", ErrorKind::AlreadyExists, name.link(&file))?;
    same_word("ours", true, name.is_linked(&file))?;
    name.clear()?;
    name.put_away(&file)?;
    holds(rt, "since/k", "ours")?;
    has_temporary(rt, "since", 0)
}

/// Holds what is told of a file's name.
fn same_word(whose: &str, want: bool, found: bool) -> Result<(), Fail> {
    if found != want {
        return Err(Fail::new(format_args!("the name is {whose}: {found}")));
    }
    Ok(())
}

// By an absolute path, of which each call is made alone: the name is taken once it was looked up.
#[test]
fn never_replaces_a_file_that_came_since(rt: HostRuntime) -> Result<(), Fail> {
    make_empty(&rt, "since")?;
    let path = path_of_k(&rt, "since")?;
    assert_since(&rt, &mut DirName::new(rt.alloc(), &rt, &path))?;
    Ok(fs::remove_dir_all(&rt, "since")?)
}

/// Makes a temporary file whose name a folder then has, so that it can't be removed.
fn temporary_left(rt: &HostRuntime, name: &mut DirName<'_>) -> Result<String, Fail> {
    let _file = name.open_temporary()?;
    let path = temporary_path(rt, "stays")?;
    fs::remove_file(rt, path.as_str())?;
    fs::create_dir(rt, path.as_str())?;
    refuses("a removal", ErrorKind::IsADirectory, name.clear())?;
    Ok(path)
}

/// Makes a temporary file whose name somebody else removes.
fn temporary_removed(rt: &HostRuntime, name: &mut DirName<'_>) -> Result<(), Fail> {
    let _file = name.open_temporary()?;
    fs::remove_file(rt, &temporary_path(rt, "stays")?)?;
    Ok(name.clear()?)
}

/// Holds what is told of names that were removed, and that stays, to the one that stays.
fn assert_stays(rt: &HostRuntime, mut name: DirName<'_>) -> Result<(), Fail> {
    temporary_removed(rt, &mut name)?;
    let path = temporary_left(rt, &mut name)?;
    let left = name.into_left().ok_or("a path")?;
    same_text("stays", "what is left", &path, &left)
}

#[test]
fn tells_a_temporary_name_that_stays(rt: HostRuntime) -> Result<(), Fail> {
    make_empty(&rt, "stays")?;
    assert_stays(&rt, DirName::new(rt.alloc(), &rt, "stays/k"))?;
    Ok(fs::remove_dir_all(&rt, "stays")?)
}

/// Begins a draft, which is answered so.
fn begins(
    store: &mut DirStore<'_>,
    alloc: Global,
    name: &str,
    want: Result<Begun, StoreError>,
) -> Result<(), Fail>
    requires none { drafted store.old ≡ None }
    ensures begun { OnOk result (want ≡ Ok Begun.Empty → IsSome (drafted store.new)) }
    ensures unbegun { OnOk result (want ≢ Ok Begun.Empty → drafted store.new ≡ None) }
{
    let found = store.begin(alloc, name);
    if found != want {
        return Err(Fail::new(format_args!("{name}: {found:?}, and not {want:?}")));
    }
    Ok(())
}

/// Finishes a draft of these two pieces, which is answered so.
fn finishes(store: &mut DirStore<'_>, name: &str, want: &str) -> Result<(), Fail>
    requires begun { IsSome (drafted store.old) }
    ensures none { OnOk result (drafted store.new ≡ None) }
{
    let first = append_all(store, b"by");
    let second = append_all(store, b"tes");
    let answer = store.finish();
    if first.is_err() || second.is_err() {
        return Err("an append failed".into());
    }
    same_text(name, "the finish", want, create_word(&answer))
}

/// Writes a file in pieces, and begins none where there can't be one.
fn assert_pieces(rt: &HostRuntime, store: &mut DirStore<'_>) -> Result<(), Fail>
    requires none { drafted store.old ≡ None }
{
    begins(store, rt.alloc(), "pieces/k", Ok(Begun::Empty))?;
    is_absent(rt, "pieces/k")?;
    has_temporary(rt, "pieces", 1)?;
    finishes(store, "pieces/k", "made")?;
    holds(rt, "pieces/k", "bytes")?;
    is_private(rt, "pieces/k")?;
    has_temporary(rt, "pieces", 0)?;
    begins(store, rt.alloc(), "pieces/k", Ok(Begun::Exists))?;
    has_temporary(rt, "pieces", 0)?;
    begins(store, rt.alloc(), "pieces/none/k", Err(StoreError::Failed))
}

// The name isn't there before the finish, and the file is whole and its owner's alone afterwards.
#[test]
fn writes_a_file_in_pieces(rt: HostRuntime) -> Result<(), Fail> {
    make_empty(&rt, "pieces")?;
    assert_pieces(&rt, &mut DirStore::new(&rt))?;
    Ok(fs::remove_dir_all(&rt, "pieces")?)
}

/// Finishes a draft whose name was taken meanwhile, and one whose folder is gone.
fn assert_gone(rt: &HostRuntime, store: &mut DirStore<'_>) -> Result<(), Fail>
    requires none { drafted store.old ≡ None }
{
    begins(store, rt.alloc(), "meanwhile/k", Ok(Begun::Empty))?;
    fs::write(rt, "meanwhile/k", "theirs")?;
    finishes(store, "meanwhile/k", "exists")?;
    holds(rt, "meanwhile/k", "theirs")?;
    has_temporary(rt, "meanwhile", 0)?;
    begins(store, rt.alloc(), "meanwhile/l", Ok(Begun::Empty))?;
    fs::remove_dir_all(rt, "meanwhile")?;
    finishes(store, "meanwhile/l", "failed")?;
    is_absent(rt, "meanwhile")
}

// A name that is taken meanwhile stays as it is, and a folder that is gone is a fault.
#[test]
fn finishes_no_file_whose_place_is_gone(rt: HostRuntime) -> Result<(), Fail> {
    make_empty(&rt, "meanwhile")?;
    assert_gone(&rt, &mut DirStore::new(&rt))
}

/// Begins a draft and drops its store.
fn drop_draft(rt: &HostRuntime, name: &str) -> Result<(), Fail> {
    let mut store = DirStore::new(rt);
    begins(&mut store, rt.alloc(), name, Ok(Begun::Empty))
}

/// Begins a draft and gives it up.
fn give_up_draft(rt: &HostRuntime, name: &str) -> Result<(), Fail> {
    let mut store = DirStore::new(rt);
    begins(&mut store, rt.alloc(), name, Ok(Begun::Empty))?;
    store.give_up();
    Ok(())
}

// A draft that is given up leaves nothing. One that is dropped leaves its temporary name, as a killed run does.
#[test]
fn a_draft_that_is_not_finished_has_no_name(rt: HostRuntime) -> Result<(), Fail> {
    make_empty(&rt, "unfinished")?;
    give_up_draft(&rt, "unfinished/k")?;
    is_absent(&rt, "unfinished/k")?;
    has_temporary(&rt, "unfinished", 0)?;
    drop_draft(&rt, "unfinished/k")?;
    is_absent(&rt, "unfinished/k")?;
    has_temporary(&rt, "unfinished", 1)?;
    Ok(fs::remove_dir_all(&rt, "unfinished")?)
}
