//! What a command does if a standard stream is a terminal.

ghost use Rattle.std.specs.Prelude.{◌≡◌, map, not, string_bytes};
ghost use Rattle.tinkey_plans.specs.Status.{Wrote};
ghost use Rattle.tinkey_words.specs.Words.{seen_command, seen_envelope, seen_lock, seen_new_lock, seen_output, seen_place, seen_work};
ghost use Rattle.tinkey_host.specs.Terminals.{gives_plaintext, is_kept_off, is_readable, is_text, kept_off_lines, opens_envelope, opens_stream, reads_input, shows_keyset, stays_encrypted, suits_terminal, waiting_line, waits};

use crate::not_text::write_lines;
use tink_base::Sink;
use tinkey_words::{
    Envelope, Format, KeysetFile, Master, NewLock, Output, Request, StreamWork, Work, parse,
};

/// Which of the standard streams are terminals.
#[derive(Clone, Copy, Debug, PartialEq, Eq)]
pub struct Terminals {
    /// Standard input is one.
    pub input: bool,
    /// Standard output is one.
    pub output: bool,
}

/// The lines on a command that is kept off a terminal.
const KEPT_OFF: &str =
    "tinkey: output is a terminal\ntinkey: this isn't for a screen: give --out FILE, or redirect the output\n";

/// The line on a command that reads from a terminal.
const WAITING: &str = "tinkey: reading from the terminal; Ctrl-D ends the input\n";

/// Whether the command is refused, since standard output is a terminal: it would write a keyset in
/// clear, or sealed bytes, tags or derived bytes as they are. A plaintext, a listing, hexadecimal
/// and an encrypted keyset in JSON may be shown.
pub(crate) fn is_kept_off(terminals: Terminals, words: &[String]) -> bool
    ensures { result ≡ is_kept_off terminals (map string_bytes words.now) }
{
    if !terminals.output {
        return false;
    }
    match parse(words) {
        Ok(request) => !suits_terminal(&request),
        Err(_) => false,
    }
}

/// Whether the command reads standard input, and that is a terminal.
pub(crate) fn waits(terminals: Terminals, words: &[String]) -> bool
    ensures { result ≡ waits terminals (map string_bytes words.now) }
{
    if !terminals.input {
        return false;
    }
    match parse(words) {
        Ok(request) => reads_input(&request),
        Err(_) => false,
    }
}

/// Reports on `diag` that the command is kept off a terminal. A fault of `diag` isn't reported. No
/// memory is taken.
pub(crate) fn report_kept_off<G: Sink>(diag: &mut G)
    ensures { Wrote kept_off_lines (G.state diag.old) (G.state diag.new) }
{
    write_lines(diag, KEPT_OFF.as_bytes());
}

/// Reports on `diag` that the command reads from a terminal. A fault of `diag` isn't reported. No
/// memory is taken.
pub(crate) fn report_waiting<G: Sink>(diag: &mut G)
    ensures { Wrote waiting_line (G.state diag.old) (G.state diag.new) }
{
    write_lines(diag, WAITING.as_bytes());
}

/// Whether a terminal may show what the command writes to standard output.
fn suits_terminal(request: &Request<'_>) -> bool
    ensures { result ≡ suits_terminal (seen_command request.now) }
{
    match *request {
        Request::CreateKeyset { lock, output, .. } | Request::EditKeyset { lock, output, .. } => {
            shows_keyset(lock.is_some(), output)
        }
        Request::ConvertKeyset {
            lock,
            new,
            output,
            ..
        } => shows_keyset(stays_encrypted(lock, new), output),
        Request::UseKeyset { work, output, .. } => is_readable(output) || gives_plaintext(work),
        Request::UseEnvelope { work, output, .. } => output.is_some() || opens_envelope(work),
        Request::UseStream { work, output, .. } => output.is_some() || opens_stream(work),
        _ => true,
    }
}

/// Whether the command reads standard input.
fn reads_input(request: &Request<'_>) -> bool
    ensures { result ≡ reads_input (seen_command request.now) }
{
    match *request {
        Request::EditKeyset { input, .. }
        | Request::ListKeyset { input, .. }
        | Request::ConvertKeyset { input, .. } => input.file.is_none(),
        Request::KeyOf { .. }
        | Request::UseKeyset { .. }
        | Request::UseEnvelope { .. }
        | Request::UseStream { .. }
        | Request::Session { .. } => true,
        _ => false,
    }
}

/// Whether a terminal may show a keyset that is put there.
fn shows_keyset(encrypted: bool, output: KeysetFile<'_>) -> bool
    ensures { result ≡ shows_keyset encrypted (seen_place output.entry) }
{
    output.file.is_some() || (encrypted && is_text(output.form))
}

/// Whether this form of a keyset is text.
fn is_text(form: Format) -> bool
    ensures { result ≡ is_text form }
{
    match form {
        Format::Json => true,
        Format::Binary => false,
    }
}

/// Whether a keyset that is put elsewhere is encrypted there.
fn stays_encrypted(lock: Option<Master<'_>>, new: NewLock<'_>) -> bool
    ensures { result ≡ stays_encrypted (seen_lock lock.entry) (seen_new_lock new.entry) }
{
    match new {
        NewLock::AsTaken => lock.is_some(),
        NewLock::InClear => false,
        NewLock::Under(_) => true,
    }
}

/// Whether bytes go to a file, or are shown in hexadecimal.
fn is_readable(output: Output<'_>) -> bool
    ensures { result ≡ is_readable (seen_output output.entry) }
{
    output.file.is_some() || output.hex
}

/// Whether the work gives a plaintext, or nothing.
fn gives_plaintext(work: Work<'_>) -> bool
    ensures { result ≡ gives_plaintext (seen_work work.entry) }
{
    matches!(work, Work::Open(_) | Work::Dopen(_) | Work::Verify(_))
}

/// Whether an envelope is opened.
fn opens_envelope(work: Envelope<'_>) -> bool
    ensures { result ≡ opens_envelope (seen_envelope work.entry) }
{
    matches!(work, Envelope::Open(_))
}

/// Whether a stream is opened.
fn opens_stream(work: StreamWork) -> bool
    ensures { result ≡ opens_stream work }
{
    matches!(work, StreamWork::Open)
}
