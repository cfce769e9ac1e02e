//! How a new file gets its name, over names that tell each call and refuse some.

ghost use Rattle.std.specs.Prelude.{◌≡◌, ◌≢◌, Some, None};
ghost use Rattle.real_objects.specs.Naming.{Free, HasNoLinks, kept_as};
ghost use Rattle.host_tests.specs.Names.{stage_of, place_of};

use crate::folder::came::{Came, Stands};
use crate::folder::causes::made_word;
use crate::folder::opened::{NOT_BACK, Page};
use dir_store::{append_piece, begin_file, finish_file, give_up_file};
use real_objects::{Cause, FileError, NewName, make_file};
use std::alloc::Global;
use std::io::{self, ErrorKind};
use std::test::Fail;
use test_words::{cell, same_text};
use tink_base::Created;

/// A name that tells its calls, and refuses those that a text names, each with its error.
#[derive(Drop)]
struct Traced<'a> {
    alloc: Global,
    refused: &'a str,
    calls: String,
    came: Came,
    stands: Stands,
}

const KINDS: [(&str, ErrorKind); 6] = [
    ("exists", ErrorKind::AlreadyExists),
    ("denied", ErrorKind::PermissionDenied),
    ("unsupported", ErrorKind::Unsupported),
    ("links", ErrorKind::TooManyLinks),
    ("missing", ErrorKind::NotFound),
    ("memory", ErrorKind::OutOfMemory),
];

/// The kind of the error of this name.
fn kind_named(name: &str) -> ErrorKind {
    for (known, kind) in &KINDS {
        if *known == name {
            return *kind;
        }
    }
    ErrorKind::StorageFull
}

/// The error with which a text like `link denied, open exists` refuses this call.
fn refusal(refused: &str, call: &str) -> io::Result<()> {
    for part in refused.split(", ") {
        if let Some((of, error)) = part.split_once(' ')
            && of == call
        {
            return Err(io::Error::from(kind_named(error)));
        }
    }
    Ok(())
}

impl Traced<'_> {
    /// Tells the call, and refuses it where the text says so.
    fn call(&mut self, call: &str) -> io::Result<()>
        ensures kept { self.new.came ≡ self.old.came }
        ensures stands { self.new.stands ≡ self.old.stands }
    {
        if !self.calls.is_empty() {
            self.calls.push_str(" ")?;
        }
        self.calls.push_str(call)?;
        refusal(self.refused, call)
    }

    /// A new file, of whose calls the first lets its owner in, and the second writes. It may refuse to be
    /// read back.
    fn page(&self) -> Page {
        let fails = if refusal(self.refused, "admit").is_err() {
            1
        } else if refusal(self.refused, "write").is_err() {
            2
        } else if refusal(self.refused, "back").is_err() {
            NOT_BACK
        } else {
            0
        };
        Page::new(Vec::new(self.alloc), 4, fails)
    }
}

impl NewName for Traced<'_> {
    type File = Page;

    ghost fresh = { None };

    ghost stage = { λ s. Some (stage_of s.came) };

    ghost temporary = { λ s. place_of s.stands };

    fn look_up(&mut self) -> io::Result<()> {
        match self.call("look") {
            Ok(()) => Ok(()),
            Err(error) => {
                self.came = after_look(self.came, error.kind());
                Err(error)
            }
        }
    }

    fn open_temporary(&mut self) -> io::Result<Page> {
        let call = if self.calls.as_str() == "look" {
            "temporary"
        } else {
            "again"
        };
        match self.call(call) {
            Ok(()) => {
                self.came = Came::Begun;
                self.stands = Stands::There;
                Ok(self.page())
            }
            Err(error) => {
                self.came = after_temporary(self.came, error.kind());
                Err(error)
            }
        }
    }

    fn link(&mut self, file: &Page) -> io::Result<()> {
        match self.call("link") {
            Ok(()) => {
                self.came = Came::Linked(file.lasts());
                Ok(())
            }
            Err(error) => {
                self.came = after_link(self.came, error.kind());
                Err(error)
            }
        }
    }

    fn is_linked(&mut self, file: &Page) -> bool {
        match self.call("ours") {
            Ok(()) => false,
            Err(_) => {
                self.came = Came::Linked(file.lasts());
                true
            }
        }
    }

    fn clear(&mut self) -> io::Result<()> {
        match self.call("clear") {
            Ok(()) => {
                self.stands = Stands::Gone;
                Ok(())
            }
            Err(error) => {
                self.stands = Stands::Left;
                Err(error)
            }
        }
    }

    fn open(&mut self) -> io::Result<Page> {
        match self.call("open") {
            Ok(()) => {
                self.came = Came::Opened;
                Ok(self.page())
            }
            Err(error) => {
                self.came = if error.kind() == ErrorKind::AlreadyExists {
                    Came::Taken
                } else {
                    Came::Begun
                };
                Err(error)
            }
        }
    }

    fn put_away(&mut self, file: &Page) -> io::Result<()> {
        self.call("put")?;
        self.came = put(self.came, file.lasts());
        Ok(())
    }
}

/// How far the name has come after a look that was refused so.
fn after_look(came: Came, kind: ErrorKind) -> Came
    ensures taken { kind ≡ ErrorKind.AlreadyExists → result ≡ Came.Taken }
    ensures starved { kind ≡ ErrorKind.OutOfMemory → result ≡ Came.Starved }
    ensures kept { kind ≢ ErrorKind.AlreadyExists → kind ≢ ErrorKind.OutOfMemory → result ≡ came }
{
    match kind {
        ErrorKind::AlreadyExists => Came::Taken,
        ErrorKind::OutOfMemory => Came::Starved,
        _ => came,
    }
}

/// How far the name has come after an open under a temporary name that was refused so.
fn after_temporary(came: Came, kind: ErrorKind) -> Came
    ensures starved { kind ≡ ErrorKind.OutOfMemory → result ≡ Came.Starved }
    ensures kept { kind ≢ ErrorKind.OutOfMemory → result ≡ came }
{
    match kind {
        ErrorKind::OutOfMemory => Came::Starved,
        _ => came,
    }
}

/// How far the name has come after a link that was refused so.
fn after_link(came: Came, kind: ErrorKind) -> Came
    ensures taken { kind ≡ ErrorKind.AlreadyExists → result ≡ Came.Taken }
    ensures linkless { HasNoLinks kind → result ≡ Came.Linkless }
    ensures kept { kind ≢ ErrorKind.AlreadyExists → ¬ (HasNoLinks kind) → result ≡ came }
{
    match kind {
        ErrorKind::AlreadyExists => Came::Taken,
        ErrorKind::PermissionDenied | ErrorKind::Unsupported | ErrorKind::TooManyLinks => {
            Came::Linkless
        }
        _ => came,
    }
}

/// How far the name has come once it was put away, of a file that lasts or doesn't.
fn put(came: Came, lasts: bool) -> Came
    ensures { stage_of result ≡ kept_as None (Some lasts) (stage_of came) }
{
    match came {
        Came::Linked(lasted) | Came::Kept(lasted) => Came::Kept(lasted),
        Came::Free | Came::Starved | Came::Begun | Came::Taken | Came::Linkless | Came::Opened =>
            Came::Kept(lasts),
    }
}

// The calls that are refused, what is told then, with the cause of a failure, the calls in their order, and where the temporary file is in the
// end: `temporary` and `again` make files under temporary names, `ours` is refused where the file has the name though
// its link failed, `clear` removes a temporary name, `open` makes a file under the name, `put` puts it away.
const WAYS: [&str; 25] = [
    "a new file | | made | look temporary link clear put | gone",
    "the name is taken | look exists | exists | look | gone",
    "the name can't be looked up | look denied | no permission | look | gone",
    "there is no folder | look missing | no folder | look | gone",
    "there is no memory | look memory | no memory | look | gone",
    "a temporary name is taken | temporary exists | made | look temporary again link clear put | gone",
    "no file can be made | temporary denied | no permission | look temporary | gone",
    "no memory for a temporary name | temporary memory | no memory | look temporary | gone",
    "the owner isn't let in | admit denied | no space | look temporary clear | gone",
    "a write fails | write full | no space | look temporary clear | gone",
    "no memory for a write | write memory | no space | look temporary clear | gone",
    "the name was taken since | link exists | exists | look temporary link ours clear | gone",
    "another failure of the link | link full | no space | look temporary link ours clear | gone",
    "no memory for the link | link memory | memory | look temporary link ours clear | gone",
    "a link told twice | link exists, ours so | made | look temporary link ours clear put | gone",
    "a link lost on its way | link full, ours so | made | look temporary link ours clear put | gone",
    "a link of ours, denied | link denied, ours so | made | look temporary link ours clear put | gone",
    "a link isn't permitted | link denied | made | look temporary link ours clear open put | gone",
    "links aren't supported | link unsupported | made | look temporary link ours clear open put | gone",
    "no second link | link links | made | look temporary link ours clear open put | gone",
    "taken, and no links | link denied, open exists | exists | look temporary link ours clear open | gone",
    "no memory, and no links | link denied, open memory | memory | look temporary link ours clear open | gone",
    "the name isn't put away | put full | no space | look temporary link clear put | gone",
    "the temporary name stays | clear denied | made | look temporary link clear put | left",
    "it stays behind a failed write | write full, clear denied | no space | look temporary clear | left",
];

/// A name that refuses these calls, and hasn't been looked up.
fn named_by(alloc: Global, refused: &str) -> Traced<'_>
    ensures { stage_of result.came ≡ Free }
{
    Traced {
        alloc,
        refused,
        calls: String::new(alloc),
        came: Came::Free,
        stands: Stands::Gone,
    }
}

/// Where the temporary file is, as a word.
fn stands_word(stands: Stands) -> &'static str {
    match stands {
        Stands::Gone => "gone",
        Stands::There => "there",
        Stands::Left => "left",
    }
}

/// Holds what was answered and called to a row.
fn went(row: &str, answer: &str, name: &Traced<'_>) -> Result<(), Fail> {
    same_text(row, "the answer", cell(row, 2)?, answer)?;
    same_text(row, "the calls", cell(row, 3)?, &name.calls)?;
    let stands = stands_word(name.stands);
    same_text(row, "the temporary name", cell(row, 4)?, stands)
}

/// Makes a new file of ten bytes under the name of a row.
fn assert_way(alloc: Global, row: &str) -> Result<(), Fail> {
    let mut name = named_by(alloc, cell(row, 1)?);
    let answer = make_file(&mut name, b"ten bytes.");
    went(row, made_word(&answer), &name)
}

#[test]
fn links_a_file_once_it_is_whole_and_lasts(rt: HostRuntime) -> Result<(), Fail> {
    for row in &WAYS {
        assert_way(rt.alloc(), row)?;
    }
    Ok(())
}

// Each temporary name that is drawn is taken, a hundred of them, of which only the first is told as `temporary`.
#[test]
fn gives_up_where_each_temporary_name_is_taken(rt: HostRuntime) -> Result<(), Fail> {
    let mut name = named_by(rt.alloc(), "temporary exists, again exists");
    let answer = make_file(&mut name, b"x");
    same_text("all taken", "the answer", "other", made_word(&answer))?;
    assert_eq!(rt;
        name.calls.len(),
        "look temporary".len() + 99 * " again".len()
    );
    Ok(())
}

// The same of a draft: each stage that fails, and where the temporary file is in the end. `back` reads the file
// back, to copy it where there are no links.
const DRAFTS: [&str; 18] = [
    "a new file | | made | look temporary link clear put | gone",
    "the name is taken | look exists | exists | look | gone",
    "there is no folder | look missing | no folder | look | gone",
    "there is no memory | look memory | no memory | look | gone",
    "no file can be made | temporary denied | no permission | look temporary | gone",
    "no memory for a temporary name | temporary memory | no memory | look temporary | gone",
    "the owner isn't let in | admit denied | no space | look temporary clear | gone",
    "a write fails, and it is given up | write full | no space | look temporary clear | gone",
    "the name was taken since | link exists | exists | look temporary link ours clear | gone",
    "another failure of the link | link full | no space | look temporary link ours clear | gone",
    "a link lost on its way | link full, ours so | made | look temporary link ours clear put | gone",
    "links aren't supported | link unsupported | made | look temporary link ours clear open put | gone",
    "taken, and no links | link denied, open exists | exists | look temporary link ours clear open | gone",
    "no memory, and no links | link denied, open memory | memory | look temporary link ours clear open | gone",
    "not read back, and no links | link denied, back so | changed | look temporary link ours clear open | gone",
    "the name isn't put away | put full | no space | look temporary link clear put | gone",
    "the temporary name stays | clear denied | made | look temporary link clear put | left",
    "it stays behind one given up | write full, clear denied | no space | look temporary clear | left",
];

/// Writes ten bytes to a new file, piece by piece.
fn write_pieces(file: &mut Page) -> Result<(), Cause> {
    for piece in [b"ten", b" by", b"tes", b".\n\n"] {
        append_piece(file, piece)?;
    }
    Ok(())
}

/// Writes a draft of ten bytes under a name, and gives it up where a write fails.
fn write_draft(name: &mut Traced<'_>) -> Result<Created, FileError>
    requires { stage_of name.old.came ≡ Free }
{
    let Some(mut file) = begin_file(name)? else {
        return Ok(Created::Exists);
    };
    match write_pieces(&mut file) {
        Ok(()) => finish_file(name, &mut file),
        Err(cause) => {
            give_up_file(name);
            Err(FileError::Failed(cause))
        }
    }
}

/// Writes the draft of a row.
fn assert_draft(alloc: Global, row: &str) -> Result<(), Fail> {
    let mut name = named_by(alloc, cell(row, 1)?);
    let answer = write_draft(&mut name);
    went(row, made_word(&answer), &name)
}

#[test]
fn links_a_draft_once_it_is_whole_and_lasts(rt: HostRuntime) -> Result<(), Fail> {
    for row in &DRAFTS {
        assert_draft(rt.alloc(), row)?;
    }
    Ok(())
}
