//! The options of a command's words, and what their values ask for.

ghost use Rattle.std.specs.Prelude.{◌≡◌, ◌<◌, ◌≤◌, ◌^◌, Some, length, slice_set, None};
ghost use Rattle.tinkey_words.specs.declared.words.names.OptionName.TheVariants.{As, Lines};
ghost use Rattle.tinkey_words.specs.Words.{lines_in, is_barred, bar, no_options, text, number, id, template, ad, edited, enveloped, streamed, worked, saved_only, seen_command, seen_datum, seen_edit, seen_envelope, seen_name, seen_options, seen_range, seen_work, offset, range, range_length, form_in, sealed_in, taken_from, put_to, seen_place, output_in, seen_output, convert_keyset, lock, lock_of, new_lock, relocked, seen_lock, seen_new_lock, served};

use super::names::OPTION_COUNT;
use super::rows::{MOST_RANGE, format_named, offset_in, primitive_named, sealed_form_named};
use super::{
    CommandName, Datum, Envelope, Format, KeysetFile, Master, Misfit, NewLock, OptionName, Output,
    Range, Request, SealedForm, StreamWork, Work,
};
use key_msgs::Primitive;
use tink_base::number_in;
use tinkey_cmds::KeysetEdit as Edit;

/// How many lines a self-test has by default.
const KNOWN_LINES: u32 = 1000;

/// The options of the words so far.
#[derive(Clone, Copy)]
pub struct Options<'a> {
    /// The values, each of its form, at the places of their options.
    pub values: [Option<&'a str>; OPTION_COUNT],
    /// The option whose value is the next word.
    pub waiting: Option<OptionName>,
}

impl<'a> Options<'a> {
    /// The value of the option.
    pub(super) fn value(&self, name: OptionName) -> Option<&'a str>
        ensures { seen_name result ≡ (seen_options self.now).values name }
    {
        self.values[name.place()]
    }

    /// The value of an option that the command requires.
    pub(super) fn text(&self, name: OptionName) -> &'a str
        ensures { result.now ≡ text ((seen_options self.now).values name) }
    {
        match self.value(name) {
            Some(text) => text,
            None => "",
        }
    }

    /// The name of the template of a new key.
    pub(super) fn template(&self) -> &'a str
        ensures { result.now ≡ template (seen_options self.now).values }
    {
        self.text(OptionName::KeyTemplate)
    }

    /// The number of an option that the command requires.
    pub(super) fn number(&self, name: OptionName) -> u32
        ensures { result ≡ number ((seen_options self.now).values name) }
    {
        match number_in(self.text(name)) {
            Some(number) => number,
            None => 0,
        }
    }

    /// The range that is opened.
    pub(super) fn range(&self) -> Range<'a>
        ensures { seen_range result ≡ range (seen_options self.now).values }
    {
        Range {
            file: self.text(OptionName::File),
            from: self.offset(OptionName::From),
            length: range_length(self.number(OptionName::Length)),
        }
    }

    /// The offset of an option that the command requires.
    fn offset(&self, name: OptionName) -> u64
        ensures offset { result ≡ offset ((seen_options self.now).values name) }
        ensures bound { result < 2 ^ 63 }
    {
        match offset_in(self.text(name)) {
            Some(offset) => offset,
            None => 0,
        }
    }

    /// How many lines a self-test has.
    pub(super) fn lines(&self) -> u32
        ensures { result ≡ lines_in ((seen_options self.now).values Lines) }
    {
        match self.value(OptionName::Lines) {
            None => KNOWN_LINES,
            Some(text) => match number_in(text) {
                Some(lines) => lines,
                None => 0,
            },
        }
    }

    /// The id of the key that is changed.
    pub(super) fn id(&self) -> u32
        ensures { result ≡ id (seen_options self.now).values }
    {
        self.number(OptionName::KeyId)
    }

    /// The form of a keyset, JSON if none is given.
    pub(super) fn form(&self, name: OptionName) -> Format
        ensures { result ≡ form_in ((seen_options self.now).values name) }
    {
        match format_named(self.text(name)) {
            Some(form) => form,
            None => Format::Json,
        }
    }

    /// The form of key-of's input, a text by default.
    pub(super) fn kind(&self) -> SealedForm
        ensures { result ≡ sealed_in ((seen_options self.now).values As) }
    {
        match sealed_form_named(self.text(OptionName::As)) {
            Some(kind) => kind,
            None => SealedForm::Text,
        }
    }

    /// The primitive of the keys that the command named for templates asks for, if one is named.
    pub(super) fn served(&self) -> Option<Primitive>
        ensures { result ≡ served (seen_options self.now).values }
    {
        match self.value(OptionName::For) {
            Some(name) => primitive_named(name),
            None => None,
        }
    }

    /// Where a keyset is taken from.
    pub(super) fn taken_from(&self) -> KeysetFile<'a>
        ensures { seen_place result ≡ taken_from (seen_options self.now).values }
    {
        KeysetFile {
            file: self.value(OptionName::In),
            form: self.form(OptionName::InFormat),
        }
    }

    /// Where a keyset is put.
    pub(super) fn put_to(&self) -> KeysetFile<'a>
        ensures { seen_place result ≡ put_to (seen_options self.now).values }
    {
        KeysetFile {
            file: self.value(OptionName::Out),
            form: self.form(OptionName::OutFormat),
        }
    }

    /// The master in the file of one option, if given, in the form of another.
    fn lock_of(&self, file: OptionName, form: OptionName) -> Option<Master<'a>>
        ensures { seen_lock result ≡ lock_of ((seen_options self.now).values file)
            ((seen_options self.now).values form) }
    {
        match self.value(file) {
            Some(file) => Some(Master {
                file,
                form: self.form(form),
            }),
            None => None,
        }
    }

    /// The master of the keysets of the command.
    pub(super) fn lock(&self) -> Option<Master<'a>>
        ensures { seen_lock result ≡ lock (seen_options self.now).values }
    {
        self.lock_of(OptionName::Master, OptionName::MasterFormat)
    }

    /// The master of a keyset that is put elsewhere.
    pub(super) fn new_lock(&self) -> NewLock<'a>
        ensures { seen_new_lock result ≡ new_lock (seen_options self.now).values }
    {
        relocked(self.lock_of(OptionName::NewMaster, OptionName::NewMasterFormat))
    }

    /// Where the bytes of work by keys are put.
    fn output(&self) -> Output<'a>
        ensures { seen_output result ≡ output_in (seen_options self.now).values }
    {
        Output {
            file: self.value(OptionName::Out),
            hex: self.value(OptionName::Hex).is_some(),
        }
    }

    /// The associated data.
    pub(super) fn ad(&self) -> Datum<'a>
        ensures { seen_datum result ≡ ad (seen_options self.now).values }
    {
        match self.value(OptionName::Ad) {
            Some(text) => Datum::Plain(text),
            None => Datum::Hex(self.text(OptionName::AdHex)),
        }
    }

    /// Whether a session seals and tags only under a keyset that a file has.
    pub(super) fn saved_only(&self) -> bool
        ensures { result ≡ saved_only (seen_options self.now).values }
    {
        self.value(OptionName::Saved).is_some()
    }

    /// Work by the keys of a keyset.
    pub(super) fn worked(&self, work: Work<'a>) -> Request<'a>
        ensures { seen_command result
            ≡ worked (seen_work work.entry) (seen_options self.now).values }
    {
        Request::UseKeyset {
            lock: self.lock(),
            keyset: self.text(OptionName::Keyset),
            form: self.form(OptionName::KeysetFormat),
            work,
            output: self.output(),
        }
    }

    /// Work by data keys under the keys of a keyset.
    pub(super) fn enveloped(&self, work: Envelope<'a>) -> Request<'a>
        ensures { seen_command result
            ≡ enveloped (seen_envelope work.entry) (seen_options self.now).values }
    {
        Request::UseEnvelope {
            lock: self.lock(),
            keyset: self.text(OptionName::Keyset),
            form: self.form(OptionName::KeysetFormat),
            template: self.text(OptionName::DekTemplate),
            work,
            output: self.value(OptionName::Out),
        }
    }

    /// Work on a stream by the keys of a keyset.
    pub(super) fn streamed(&self, work: StreamWork) -> Request<'a>
        ensures { seen_command result ≡ streamed work (seen_options self.now).values }
    {
        Request::UseStream {
            lock: self.lock(),
            keyset: self.text(OptionName::Keyset),
            form: self.form(OptionName::KeysetFormat),
            work,
            ad: self.ad(),
            output: self.value(OptionName::Out),
        }
    }

    /// Whether the option, or one that excludes it, was given before.
    pub(super) fn is_barred(&self, name: OptionName) -> bool
        ensures { result ≡ is_barred name (seen_options self.now) }
    {
        if self.value(name).is_some() {
            return true;
        }
        match name.rival() {
            Some(other) => self.value(other).is_some(),
            None => false,
        }
    }

    /// Why an option with this rival is barred.
    pub(super) fn bar(
        &self,
        command: CommandName,
        name: OptionName,
        rival: Option<OptionName>,
    ) -> Misfit
        ensures { result ≡ bar command name rival (seen_options self.now) }
    {
        match rival {
            Some(other) if self.value(name).is_none() => Misfit::Beside(command, name, other),
            _ => Misfit::Twice(command, name),
        }
    }

    /// The request to convert a keyset, with these locks.
    pub(super) fn converted(&self, lock: Option<Master<'a>>, new: NewLock<'a>) -> Request<'a>
        ensures { seen_command result ≡ convert_keyset (seen_lock lock.entry) (seen_new_lock new.entry)
            (taken_from (seen_options self.now).values) (put_to (seen_options self.now).values) }
    {
        Request::ConvertKeyset {
            lock,
            new,
            input: self.taken_from(),
            output: self.put_to(),
        }
    }

    /// The request to edit a keyset in this way.
    pub(super) fn edited(&self, edit: Edit<&'a str>) -> Request<'a>
        ensures { seen_command result
            ≡ edited (seen_edit edit.entry) (seen_options self.now).values }
    {
        Request::EditKeyset {
            lock: self.lock(),
            edit,
            input: self.taken_from(),
            output: self.put_to(),
        }
    }
}

/// Under this master; without one, as it was taken.
pub(super) fn relocked(lock: Option<Master<'_>>) -> NewLock<'_>
    ensures { seen_new_lock result ≡ relocked (seen_lock lock.entry) }
{
    match lock {
        Some(master) => NewLock::Under(master),
        None => NewLock::AsTaken,
    }
}

/// A length of a range, or 0 if it is too long.
fn range_length(length: u32) -> u32
    ensures length { result ≡ range_length length }
    ensures bound { result ≤ 16777216 }
{
    if length <= MOST_RANGE { length } else { 0 }
}

/// No option yet.
pub(super) fn no_options<'a>() -> Options<'a>
    ensures { seen_options result ≡ no_options }
{
    Options {
        values: [None; OPTION_COUNT],
        waiting: None,
    }
}

/// Keeps the value at this place.
pub(super) fn write<'a>(values: &mut [Option<&'a str>; OPTION_COUNT], place: usize, value: &'a str)
    requires within { place < OPTION_COUNT }
    ensures size { length values.old ≡ OPTION_COUNT }
    ensures written { values.new ≡ slice_set values.old place (Some value.entry) }
{
    values[place] = Some(value);
}

/// Keeps no value at this place.
pub(super) fn erase<'a>(values: &mut [Option<&'a str>; OPTION_COUNT], place: usize)
    requires within { place < OPTION_COUNT }
    ensures size { length values.old ≡ OPTION_COUNT }
    ensures erased { values.new ≡ slice_set values.old place None }
{
    values[place] = None;
}
