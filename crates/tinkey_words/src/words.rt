//! The command's words, read by the grammar of `specs/Words.antt`. No memory is taken.

ghost use Rattle.std.specs.Prelude.{◌≡◌, map, string_bytes};
ghost use Rattle.tinkey_words.specs.Names.{needs};
ghost use Rattle.tinkey_words.specs.declared.words.names.OptionName.TheVariants.{As};
ghost use Rattle.tinkey_words.specs.Words.{words_of, by_itself, command_words, help_words, with_options, lacking, complete, unmet, unmet_none, idle, idle_of, idle_none, is_stream, first_given, asked_with, seen_command, seen_name, seen_options, Reads, sealed_in, holds_dash, without_dash, meant};

mod given;
mod help;
mod lock;
mod misuse;
mod names;
mod options;
mod range;
mod request;
mod rows;

use given::given_options;
pub use help::Topic;
use help::{First, first_named, is_help_flag, topic_named};
pub use lock::{Master, NewLock};
use misuse::misuse_at;
pub use misuse::{Misfit, Misuse};
use names::NEEDS;
pub use names::{CommandName, OptionName};
use options::{Options, erase, relocked};
pub use range::Range;
pub use request::{Datum, Envelope, KeysetFile, Output, Request, StreamWork, Work};
use rows::is_dash;
pub use rows::{DATUM_LIMIT, Format, SealedForm, ValueForm, command_named, is_value};
use tinkey_cmds::KeysetEdit as Edit;

/// The command that the words ask for, or the first word at fault, as in `Status::Usage`.
#[tactic(auto, unfolding(crate::specs::Words::words_of))]
pub fn parse(words: &[String]) -> Result<Request<'_>, Misuse>
    ensures { Reads seen_command result (words_of (map string_bytes words.now)) }
{
    match words.split_first() {
        None => Err(misuse_at(0, Misfit::NoCommand)),
        Some((name, behind)) => match first_named(name.as_str()) {
            None => Err(misuse_at(0, Misfit::NoCommand)),
            Some(first) => match first {
                First::Help => help_words(behind),
                First::HelpFlag => by_itself(
                    1,
                    Request::Help {
                        topic: Topic::Commands,
                    },
                    behind,
                ),
                First::Version => by_itself(1, Request::Version, behind),
                First::Command(command) => command_words(command, behind),
            },
        },
    }
}

/// The request, if no word follows; a following word would be at this place.
fn by_itself<'a>(place: usize, asked: Request<'a>, words: &[String]) -> Result<Request<'a>, Misuse>
    ensures { Reads seen_command result
        (by_itself place (seen_command asked.entry) (map string_bytes words.now)) }
{
    if words.is_empty() {
        Ok(asked)
    } else {
        Err(misuse_at(place, Misfit::TooMany))
    }
}

/// What the words after `help` ask for.
fn help_words(words: &[String]) -> Result<Request<'_>, Misuse>
    ensures { Reads seen_command result (help_words (map string_bytes words.now)) }
{
    match words.split_first() {
        None => Ok(Request::Help {
            topic: Topic::Commands,
        }),
        Some((name, behind)) => match topic_named(name.as_str()) {
            None => Err(misuse_at(1, Misfit::NoTopic)),
            Some(topic) => by_itself(2, Request::Help { topic }, behind),
        },
    }
}

/// What a command's word and the words after it ask for: help on the command, or the command with
/// its options.
fn command_words(command: CommandName, words: &[String]) -> Result<Request<'_>, Misuse>
    ensures { Reads seen_command result (command_words command (map string_bytes words.now)) }
{
    match words.split_first() {
        None => with_options(command, words),
        Some((word, behind)) => {
            if is_help_flag(word.as_str()) {
                by_itself(
                    2,
                    Request::Help {
                        topic: Topic::Command(command),
                    },
                    behind,
                )
            } else {
                with_options(command, words)
            }
        }
    }
}

/// What a command asks for with the options of these words, which follow its own.
fn with_options(command: CommandName, words: &[String]) -> Result<Request<'_>, Misuse>
    ensures { Reads seen_command result (with_options command (map string_bytes words.now)) }
{
    match given_options(command, words) {
        Ok(given) => complete(command, 1 + words.len(), given),
        Err(misuse) => Err(misuse),
    }
}

/// The command with its options, of `count` words.
fn complete(command: CommandName, count: usize, given: Options<'_>) -> Result<Request<'_>, Misuse>
    ensures { Reads seen_command result (complete command count (seen_options given.entry)) }
{
    match lacking(command.row().required, &given) {
        None => unmet_none(command, count, &given),
        Some(name) => Err(misuse_at(count, Misfit::Lacks(command, name))),
    }
}

/// The command with its options, if each that needs another one has it.
fn unmet_none<'a>(
    command: CommandName,
    count: usize,
    given: &Options<'a>,
) -> Result<Request<'a>, Misuse>
    ensures { Reads seen_command result
        (unmet_none (unmet needs (seen_options given.now)) command count (seen_options given.now)) }
{
    match unmet(&NEEDS, given) {
        None => idle_none(command, count, given),
        Some((name, other)) => Err(misuse_at(count, Misfit::Without(command, name, other))),
    }
}

/// The command with its options, if none of them is for a stream that isn't there.
fn idle_none<'a>(
    command: CommandName,
    count: usize,
    given: &Options<'a>,
) -> Result<Request<'a>, Misuse>
    ensures { Reads seen_command result
        (idle_none (idle_of command (seen_options given.now)) command count (seen_options given.now)) }
{
    match idle(command.for_streams(), given) {
        None => Ok(command_with(command, &meant(given))),
        Some(name) => Err(misuse_at(count, Misfit::NoStream(command, name))),
    }
}

/// The first of these options, which mean something for a stream alone, that is given without one.
fn idle(names: &[OptionName], given: &Options<'_>) -> Option<OptionName>
    ensures { result ≡ idle (is_stream (sealed_in ((seen_options given.now).values As))) names.now
        (seen_options given.now) }
{
    match given.kind() {
        SealedForm::Stream => None,
        SealedForm::Text | SealedForm::Envelope => first_given(names, given),
    }
}

/// The first of these options that is given.
fn first_given(names: &[OptionName], given: &Options<'_>) -> Option<OptionName>
    ensures { result ≡ first_given names.now (seen_options given.now) }
{
    names
        .iter()
        .copied()
        .find(|name| given.value(*name).is_some())
}

/// The first of these options that is given without the one that it needs, and that one.
fn unmet(
    pairs: &[(OptionName, OptionName)],
    given: &Options<'_>,
) -> Option<(OptionName, OptionName)>
    ensures { result ≡ unmet pairs.now (seen_options given.now) }
{
    pairs.iter().copied().find(|need| given.value(need.0).is_some()
        && given.value(need.1).is_none())
}

/// The first of these options that isn't given.
fn lacking(names: &[OptionName], given: &Options<'_>) -> Option<OptionName>
    ensures { result ≡ lacking names.now (seen_options given.now) }
{
    names
        .iter()
        .copied()
        .find(|name| given.value(*name).is_none())
}

/// The options as they are meant: `-` names no file for `--in` and for `--out`.
fn meant<'a>(given: &Options<'a>) -> Options<'a>
    ensures { (seen_options result).values ≡ meant (seen_options given.now).values }
{
    let mut meant = *given;
    leave_dash_out(OptionName::In, &mut meant);
    leave_dash_out(OptionName::Out, &mut meant);
    meant
}

/// Leaves out an option whose value is `-`.
fn leave_dash_out(name: OptionName, given: &mut Options<'_>)
    ensures { (seen_options given.new).values ≡ without_dash name (seen_options given.old).values }
{
    if holds_dash(given.value(name)) {
        erase(&mut given.values, name.place());
    }
}

/// Whether a value is there, and is `-`.
fn holds_dash(value: Option<&str>) -> bool
    ensures { result ≡ holds_dash (seen_name value.entry) }
{
    match value {
        Some(text) => is_dash(text),
        None => false,
    }
}

/// What the command asks for with these options.
fn command_with<'a>(command: CommandName, given: &Options<'a>) -> Request<'a>
    ensures { seen_command result ≡ asked_with command (seen_options given.now).values }
{
    match command {
        CommandName::CreateKeyset => Request::CreateKeyset {
            lock: given.lock(),
            template: given.template(),
            output: given.put_to(),
        },
        CommandName::AddKey => given.edited(Edit::Add(given.template())),
        CommandName::RotateKeyset => given.edited(Edit::Rotate(given.template())),
        CommandName::PromoteKey => given.edited(Edit::Promote(given.id())),
        CommandName::EnableKey => given.edited(Edit::Enable(given.id())),
        CommandName::DisableKey => given.edited(Edit::Disable(given.id())),
        CommandName::DestroyKey => given.edited(Edit::Destroy(given.id())),
        CommandName::DeleteKey => given.edited(Edit::Delete(given.id())),
        CommandName::ListKeyset => Request::ListKeyset {
            lock: given.lock(),
            input: given.taken_from(),
        },
        CommandName::ConvertKeyset => given.converted(given.lock(), given.new_lock()),
        CommandName::ListKeyTemplates => Request::ListKeyTemplates {
            primitive: given.served(),
        },
        CommandName::Seal => given.worked(Work::Seal(given.ad())),
        CommandName::Open => given.worked(Work::Open(given.ad())),
        CommandName::Dseal => given.worked(Work::Dseal(given.ad())),
        CommandName::Dopen => given.worked(Work::Dopen(given.ad())),
        CommandName::Reseal => given.worked(Work::Reseal(given.ad())),
        CommandName::Dreseal => given.worked(Work::Dreseal(given.ad())),
        CommandName::Sseal => given.streamed(StreamWork::Seal),
        CommandName::Sopen => given.streamed(StreamWork::Open),
        CommandName::Sreseal => given.streamed(StreamWork::Reseal),
        CommandName::Tag => given.worked(Work::Tag),
        CommandName::Verify => given.worked(Work::Verify(Datum::Hex(given.text(
            OptionName::TagHex,
        )))),
        CommandName::Derive => given.worked(Work::Derive(given.number(OptionName::Length))),
        CommandName::Session => Request::Session {
            lock: given.lock(),
            keyset: given.text(OptionName::Keyset),
            form: given.form(OptionName::KeysetFormat),
            output: given.put_to(),
            saved_only: given.saved_only(),
        },
        CommandName::Selftest => Request::SelfTest {
            seed: given.number(OptionName::Seed),
            lines: given.lines(),
        },
        CommandName::WrapKeyset => given.converted(None, relocked(given.lock())),
        CommandName::UnwrapKeyset => given.converted(given.lock(), NewLock::InClear),
        CommandName::Eseal => given.enveloped(Envelope::Seal(given.ad())),
        CommandName::Eopen => given.enveloped(Envelope::Open(given.ad())),
        CommandName::Ereseal => given.enveloped(Envelope::Reseal),
        CommandName::Srange => Request::OpenRange {
            lock: given.lock(),
            keyset: given.text(OptionName::Keyset),
            form: given.form(OptionName::KeysetFormat),
            ad: given.ad(),
            range: given.range(),
            output: given.value(OptionName::Out),
        },
        CommandName::KeyOf => Request::KeyOf {
            lock: given.lock(),
            keyset: given.text(OptionName::Keyset),
            form: given.form(OptionName::KeysetFormat),
            kind: given.kind(),
            ad: given.ad(),
        },
    }
}
