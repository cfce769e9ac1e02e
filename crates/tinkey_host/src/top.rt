//! What `main` does.

ghost use Rattle.std.specs.Prelude.{◌≡◌, true, IfSome, map, string_bytes};
ghost use Rattle.std.specs.Process.{exit_status};
ghost use Rattle.real_objects.specs.Streams.{told_sink, stream_written, has_written};
ghost use Rattle.tinkey_plans.specs.Ends.{world};
ghost use Rattle.tinkey_host.specs.Program.{HasRun, HasMet, HasObeyed, HasEnded, ProgramEnds};
ghost use Rattle.tinkey_host.specs.Terminals.{is_kept_off, waits};

use crate::cause::tell_cause;
use crate::left::tell_left;
use crate::not_text::report_not_text;
use crate::progress::Watched;
use crate::standard::start;
use crate::terminals::{Terminals, is_kept_off, report_kept_off, report_waiting, waits};
use dir_store::DirStore;
use real_objects::{
    Arguments, FileEntropy, NoWords, RandomDevice, StandardOutput, StdSink, StdSource, WriteStream,
    words,
};
use std::alloc::Global;
use std::io::{IsTerminal, Stderr};
use std::process::ExitCode;
use tink_base::{Failed, Lookahead, PieceStore, Sink, Source};
use tinkey_plans::{no_mention, report};
use tinkey_run::{Status, starve};

/// The exit code if a word isn't UTF-8.
const NOT_TEXT: u8 = 8;

/// The exit code of a command that is kept off a terminal.
const KEPT_OFF: u8 = 4;

/// Obeys the words after the program's name, over standard input, output and error, the system's
/// random bytes and the files. Then standard error gets the cause of the last fault of the files, if
/// there was one, and the path of a file that couldn't be removed.
///
/// Before a file is opened, each of the three streams is asked whether it is open, and whether it
/// is a terminal. No contract can say what the system then gives and takes: the exit code is one
/// that `obey_to_the_end` gives for these objects. If memory for reading standard input ahead can't
/// be allocated, that is reported as for a run, before the words are read. If standard error is a
/// terminal, it shows how much of a long input has been read.
pub fn program(rt: &HostRuntime) -> ExitCode
    ensures { ProgramEnds (exit_status result) }
{
    let source = StdSource::probed(rt.alloc(), rt.stdin());
    let mut sink = StdSink::probed(StandardOutput::new(rt));
    let mut diag = StdSink::probed(rt.stderr());
    let Ok(source) = source else {
        return ExitCode::from(starve(&mut diag).code());
    };
    let mut store = DirStore::new(rt);
    let terminals = Terminals {
        input: rt.stdin().is_terminal(),
        output: rt.stdout().is_terminal(),
    };
    let code = obey_to_the_end(
        rt,
        rt.alloc(),
        terminals,
        &mut Watched::over(source, shown_on(rt)),
        &mut sink,
        &mut diag,
        &mut FileEntropy::new(RandomDevice::new(rt)),
        &mut store,
    );
    // A run ends with its first fault of the store, but for a session, whose replies may report some.
    tell_cause(&mut diag, store.cause());
    tell_left(&mut diag, store.left());
    code
}

/// Where progress is shown: standard error, if it is a terminal.
fn shown_on(rt: &HostRuntime) -> Option<StdSink<Stderr>> {
    let error = rt.stderr();
    if error.is_terminal() {
        Some(StdSink::new(error))
    } else {
        None
    }
}

/// Obeys the words of a command line as `obey_listed` does. If that ended well and bytes were
/// written to `sink`, it is asked for a deferred fault: such a fault is a write fault.
pub fn obey_to_the_end<A, S, W, G, E, D>(
    from: &A,
    alloc: Global,
    terminals: Terminals,
    source: &mut S,
    sink: &mut StdSink<W>,
    diag: &mut G,
    entropy: &mut E,
    store: &mut D,
) -> ExitCode
where
    A: Arguments,
    S: Source,
    W: WriteStream,
    G: Sink,
    E: Lookahead,
    D: PieceStore,
    ensures ended { HasEnded terminals (A.told from.now)
        (world (S.state source.old) (told_sink W.contents sink.old) (D.state store.old) (E.state entropy.old))
        (world (S.state source.new) (told_sink W.contents sink.new) (D.state store.new) (E.state entropy.new))
        (G.state diag.old) (G.state diag.new) (exit_status result) }
    ensures settled { exit_status result ≡ 0 → has_written sink.new ≡ true →
        IfSome (W.settles (stream_written sink.new)) (λ well. well ≡ true) }
{
    let code = obey_listed(from, alloc, terminals, source, sink, diag, entropy, store);
    if code != ExitCode::SUCCESS {
        return code;
    }
    match sink.settle() {
        Ok(()) => code,
        Err(Failed) => {
            report(diag, no_mention(), Status::WriteFault);
            ExitCode::from(Status::WriteFault.code())
        }
    }
}

/// Obeys the words of a command line after the first, the program's name, over these objects.
///
/// If one of these words isn't UTF-8, the place of the first is reported on `diag`, and the exit
/// code is 8. If memory for them can't be allocated, that is reported on `diag` as for a run, and
/// the exit code is 7. Then nothing else is done. Otherwise the exit code is the run's.
pub fn obey_listed<A: Arguments, S: Source, K: Sink, G: Sink, E: Lookahead, D: PieceStore>(
    from: &A,
    alloc: Global,
    terminals: Terminals,
    source: &mut S,
    sink: &mut K,
    diag: &mut G,
    entropy: &mut E,
    store: &mut D,
) -> ExitCode
    ensures { HasObeyed terminals (A.told from.now)
        (world (S.state source.old) (K.state sink.old) (D.state store.old) (E.state entropy.old))
        (world (S.state source.new) (K.state sink.new) (D.state store.new) (E.state entropy.new))
        (G.state diag.old) (G.state diag.new) (exit_status result) }
{
    match words(from, alloc) {
        Ok(words) => obey(alloc, &words, terminals, source, sink, diag, entropy, store),
        Err(NoWords::NotText(place)) => {
            report_not_text(diag, place);
            ExitCode::from(NOT_TEXT)
        }
        Err(NoWords::NoMemory) => ExitCode::from(starve(diag).code()),
    }
}

/// Runs the words over these objects: input comes from `source`, the output goes to `sink` and the
/// diagnostic line to `diag`, random bytes come from `entropy`, and files are in `store`. Returns
/// the exit code of the run's status.
///
/// If standard output is a terminal, a command that would write a keyset in clear there, or sealed
/// bytes, tags or derived bytes other than in hexadecimal, isn't run: that is reported on `diag`,
/// and the exit code is 4. If standard input is a terminal, a command that reads it reports that
/// before it runs.
pub fn obey<S: Source, K: Sink, G: Sink, E: Lookahead, D: PieceStore>(
    alloc: Global,
    words: &[String],
    terminals: Terminals,
    source: &mut S,
    sink: &mut K,
    diag: &mut G,
    entropy: &mut E,
    store: &mut D,
) -> ExitCode
    ensures { HasMet (is_kept_off terminals (map string_bytes words.now))
        (waits terminals (map string_bytes words.now)) (map string_bytes words.now)
        (world (S.state source.old) (K.state sink.old) (D.state store.old) (E.state entropy.old))
        (world (S.state source.new) (K.state sink.new) (D.state store.new) (E.state entropy.new))
        (G.state diag.old) (G.state diag.new) (exit_status result) }
{
    if is_kept_off(terminals, words) {
        report_kept_off(diag);
        return ExitCode::from(KEPT_OFF);
    }
    if waits(terminals, words) {
        report_waiting(diag);
    }
    obey_words(alloc, words, source, sink, diag, entropy, store)
}

/// Runs the words over these objects, and returns the exit code of the run's status.
fn obey_words<S: Source, K: Sink, G: Sink, E: Lookahead, D: PieceStore>(
    alloc: Global,
    words: &[String],
    source: &mut S,
    sink: &mut K,
    diag: &mut G,
    entropy: &mut E,
    store: &mut D,
) -> ExitCode
    ensures { HasRun (map string_bytes words.now)
        (world (S.state source.old) (K.state sink.old) (D.state store.old) (E.state entropy.old))
        (world (S.state source.new) (K.state sink.new) (D.state store.new) (E.state entropy.new))
        (G.state diag.old) (G.state diag.new) (exit_status result) }
{
    let status = start(alloc, words, source, sink, diag, entropy, store);
    ExitCode::from(status.code())
}
