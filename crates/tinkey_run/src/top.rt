//! The top call.

ghost use Rattle.std.specs.Prelude.{map, string_bytes, Err};
ghost use Rattle.managers.specs.Table.{Table};
ghost use Rattle.tinkey_plans.specs.Ends.{Ends, World, world};
ghost use Rattle.tinkey_plans.specs.Commands.{asked_plan, plan_of, command_plan};
ghost use Rattle.tinkey_plans.specs.Promises.{Promised};
ghost use Rattle.tinkey_readable.specs.Readable.{IsReadable};
ghost use Rattle.tinkey_plans.specs.Mentions.{mention_of};
ghost use Rattle.tinkey_plans.specs.Status.{Reports};
ghost use Rattle.tinkey_plans.specs.Steps.{Finishes};
ghost use Rattle.tinkey_words.specs.Words.{seen_command};

use crate::finishing::{finish_output, shown};
use managers::{KeyTable, Managers};
use std::alloc::Global;
use tink_base::{Lookahead, PieceStore, Sink, Source};
use tinkey_actions::{
    answer_lines, convert_keyset, create_keyset, edit_keyset, list_keyset, list_templates,
    load_stream_keys, open_file_range, put_stream, tell_keys, tell_self_test, use_envelope,
    use_keyset, write_output,
};
use tinkey_plans::{Status, help_text, mention_of, report, version_text};
use tinkey_readable::laws::sessions_are_readable;
use tinkey_words::{Misuse, Request, parse};

/// Does what the words after the program's name ask for, and reports on `diag` what went wrong.
/// Keys are used through the managers supplied.
///
/// `promised` is over the plan of the words under the table of these managers, in its parts:
/// `answer` is the stated answer, over objects that report their contents; `cause`, `shown` and
/// `leaves` say when a fault comes, that none is hidden, and what was taken and written; `stands`
/// says what sink and files hold after any status; `complete` says that the status is a stated one
/// if nothing fails and memory suffices; `ends`, from which they follow, lists each way in which a run
/// may end. `line` is the diagnostic line. `readable` is about sessions over a keyset, in clear or
/// under a lock, over such objects: the replies to the first lines of the input were written, to
/// all of them at `Done`, and at a write fault the first bytes of these. Under the program's
/// managers a later line opens what a line sealed under a key with an output prefix to its
/// plaintext, with its associated data, while that key is ENABLED and alone under its prefix; while
/// it is there, ENABLED, to some plaintext, whatever its prefix type, and a tag verifies.
///
/// A line of a session may save the keyset, in a new file that is made before the run ends. If the
/// store fails there, the reply says so, and the run goes on. So of a session `answer` holds if no
/// call of the store failed, `shown` doesn't speak of the store, and `stands` doesn't speak of
/// files. `leaves` does: it says for which files lines asked, and what became of each; that no other
/// file has changed, unless the status is Done or StoreFault; and that the store failed only if the
/// status is StoreFault or a reply says so.
pub fn run<S: Source, K: Sink, G: Sink, E: Lookahead, D: PieceStore>(
    alloc: Global,
    words: &[String],
    managers: &Managers,
    source: &mut S,
    sink: &mut K,
    diag: &mut G,
    entropy: &mut E,
    store: &mut D,
) -> Status
    ensures promised { Promised
        (plan_of (⟦<Managers as KeyTable>⟧.table managers.now) (map string_bytes words.now))
        (world (S.state source.old) (K.state sink.old) (D.state store.old) (E.state entropy.old)) result
        (world (S.state source.new) (K.state sink.new) (D.state store.new) (E.state entropy.new)) }
    ensures line { Reports (mention_of (map string_bytes words.now)) result
        (G.state diag.old) (G.state diag.new) }
    ensures readable { IsReadable
        (⟦<Managers as KeyTable>⟧.table managers.now) (map string_bytes words.now)
        (world (S.state source.old) (K.state sink.old) (D.state store.old) (E.state entropy.old)) result
        (world (S.state source.new) (K.state sink.new) (D.state store.new) (E.state entropy.new)) }
{
    sessions_are_readable();
    let status = do_words(alloc, words, managers, source, sink, entropy, store);
    report(diag, mention_of(words), status);
    status
}

/// Does what the words ask for.
fn do_words<S: Source, K: Sink, E: Lookahead, D: PieceStore>(
    alloc: Global,
    words: &[String],
    managers: &Managers,
    source: &mut S,
    sink: &mut K,
    entropy: &mut E,
    store: &mut D,
) -> Status
    ensures { Ends
        (plan_of (⟦<Managers as KeyTable>⟧.table managers.now) (map string_bytes words.now))
        (world (S.state source.old) (K.state sink.old) (D.state store.old) (E.state entropy.old)) result
        (world (S.state source.new) (K.state sink.new) (D.state store.new) (E.state entropy.new)) }
{
    match parse(words) {
        Ok(command) => {
            match dispatch(alloc, command, managers, source, sink, entropy, store) {
                Ok(()) => Status::Done,
                Err(status) => status,
            }
        }
        Err(misuse) => unasked(words, misuse),
    }
}

/// The status of words that ask for nothing, of which one is at fault so, or which are none.
fn unasked(words: &[String], misuse: Misuse) -> Status
    ensures { (table : Table) (w : World) →
        Ends (asked_plan table (Err misuse) (map string_bytes words.now)) w result w }
{
    if words.is_empty() {
        Status::NoWords
    } else {
        Status::Usage(misuse)
    }
}

/// Does the command.
fn dispatch<S: Source, K: Sink, E: Lookahead, D: PieceStore>(
    alloc: Global,
    command: Request<'_>,
    managers: &Managers,
    source: &mut S,
    sink: &mut K,
    entropy: &mut E,
    store: &mut D,
) -> Result<(), Status>
    ensures { Finishes
        (command_plan (⟦<Managers as KeyTable>⟧.table managers.now) (seen_command command.entry))
        (world (S.state source.old) (K.state sink.old) (D.state store.old) (E.state entropy.old)) result
        (world (S.state source.new) (K.state sink.new) (D.state store.new) (E.state entropy.new)) }
{
    match command {
        Request::CreateKeyset {
            lock,
            template,
            output,
        } => create_keyset(
            alloc, managers, lock, template, output, sink, entropy, store,
        ),
        Request::EditKeyset {
            lock,
            edit,
            input,
            output,
        } => edit_keyset(
            alloc, managers, lock, edit, input, output, source, sink, entropy, store,
        ),
        Request::ListKeyset { lock, input } => {
            let listing = list_keyset(alloc, managers, lock, input, source, store);
            finish_output(alloc, None, sink, store, listing)
        }
        Request::KeyOf {
            lock,
            keyset,
            form,
            kind,
            ad,
        } => {
            let told = tell_keys(alloc, managers, lock, keyset, form, kind, ad, source, store);
            finish_output(alloc, None, sink, store, told)
        }
        Request::ConvertKeyset {
            lock,
            new,
            input,
            output,
        } => convert_keyset(
            alloc, managers, lock, new, input, output, source, sink, entropy, store,
        ),
        Request::ListKeyTemplates { primitive } => list_templates(primitive, sink),
        Request::UseKeyset {
            lock,
            keyset,
            form,
            work,
            output,
        } => {
            let done = use_keyset(
                alloc, managers, lock, keyset, form, work, source, entropy, store,
            );
            let done = shown(alloc, output.hex, done);
            finish_output(alloc, output.file, sink, store, done)
        }
        Request::UseEnvelope {
            lock,
            keyset,
            form,
            template,
            work,
            output,
        } => {
            let done = use_envelope(
                alloc, managers, lock, keyset, form, template, work, source, entropy, store,
            );
            finish_output(alloc, output, sink, store, done)
        }
        Request::UseStream {
            lock,
            keyset,
            form,
            work,
            ad,
            output,
        } => {
            let keys = load_stream_keys(alloc, managers, lock, keyset, form, store)?;
            put_stream(alloc, work, &keys, ad, output, source, sink, entropy, store)
        }
        Request::OpenRange {
            lock,
            keyset,
            form,
            ad,
            range,
            output,
        } => {
            let opened = open_file_range(alloc, managers, lock, keyset, form, ad, range, store);
            finish_output(alloc, output, sink, store, opened)
        }
        Request::SelfTest { seed, lines } => {
            let told = tell_self_test(alloc, managers, seed, lines);
            finish_output(alloc, None, sink, store, told)
        }
        Request::Session {
            lock,
            keyset,
            form,
            output,
            saved_only,
        } => answer_lines(
            alloc, managers, lock, keyset, form, output, saved_only, source, sink, entropy, store,
        ),
        Request::Help { topic } => write_output(sink, help_text(topic).as_bytes()),
        Request::Version => write_output(sink, version_text().as_bytes()),
    }
}
