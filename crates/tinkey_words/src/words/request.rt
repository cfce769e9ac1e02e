//! What the words of a command ask for.

use super::{Format, Master, NewLock, Range, SealedForm, Topic};
use key_msgs::Primitive;
use tinkey_cmds::KeysetEdit as Edit;

/// What the words ask for.
#[derive(Clone, Copy)]
pub enum Request<'a> {
    /// Make a keyset of one new key.
    CreateKeyset {
        /// The master of the keyset, if it lies under one.
        lock: Option<Master<'a>>,
        /// The name of the template of the key.
        template: &'a str,
        /// Where the keyset is put.
        output: KeysetFile<'a>,
    },
    /// Change a keyset.
    EditKeyset {
        /// The master of the keysets, if they lie under one.
        lock: Option<Master<'a>>,
        /// The change.
        edit: Edit<&'a str>,
        /// Where the keyset is taken from.
        input: KeysetFile<'a>,
        /// Where the changed one is put.
        output: KeysetFile<'a>,
    },
    /// List a keyset.
    ListKeyset {
        /// The master of the keyset, if it lies under one.
        lock: Option<Master<'a>>,
        /// Where the keyset is taken from.
        input: KeysetFile<'a>,
    },
    /// List the keys of a keyset with the input's output prefix.
    KeyOf {
        /// The master of the keyset, if it lies under one.
        lock: Option<Master<'a>>,
        /// The file of the keyset.
        keyset: &'a str,
        /// The form of the keyset.
        form: Format,
        /// What the input is.
        kind: SealedForm,
        /// The associated data of a stream.
        ad: Datum<'a>,
    },
    /// Put a keyset elsewhere, in another form, or under another master.
    ConvertKeyset {
        /// The master of the keyset that is taken, if it lies under one.
        lock: Option<Master<'a>>,
        /// The master under which it is put.
        new: NewLock<'a>,
        /// Where the keyset is taken from.
        input: KeysetFile<'a>,
        /// Where it is put.
        output: KeysetFile<'a>,
    },
    /// List the names of the templates.
    ListKeyTemplates {
        /// The primitive of the templates' keys, or any.
        primitive: Option<Primitive>,
    },
    /// Work on the input, by the keys of a keyset.
    UseKeyset {
        /// The master of the keyset, if it lies under one.
        lock: Option<Master<'a>>,
        /// The file of the keyset.
        keyset: &'a str,
        /// The form of the keyset.
        form: Format,
        /// What is done.
        work: Work<'a>,
        /// Where it is put.
        output: Output<'a>,
    },
    /// Work on the input as a stream, by the keys of a keyset.
    UseStream {
        /// The master of the keyset, if it lies under one.
        lock: Option<Master<'a>>,
        /// The file of the keyset.
        keyset: &'a str,
        /// The form of the keyset.
        form: Format,
        /// What is done.
        work: StreamWork,
        /// The associated data.
        ad: Datum<'a>,
        /// The new file for the output, there once it is whole, or none for standard output.
        output: Option<&'a str>,
    },
    /// Open a range of the stream in a file.
    OpenRange {
        /// The master of the keyset, if it lies under one.
        lock: Option<Master<'a>>,
        /// The file of the keyset.
        keyset: &'a str,
        /// The form of the keyset.
        form: Format,
        /// The associated data.
        ad: Datum<'a>,
        /// The range.
        range: Range<'a>,
        /// The new file for the plaintext, or none for standard output.
        output: Option<&'a str>,
    },
    /// Answer the lines of the input over a keyset.
    Session {
        /// The master of the keysets, if they lie under one.
        lock: Option<Master<'a>>,
        /// The file of the keyset.
        keyset: &'a str,
        /// The form of the keyset.
        form: Format,
        /// Where the last keyset is put; nowhere if no file is named.
        output: KeysetFile<'a>,
        /// Whether a line that seals or tags is refused while an edit is in no file.
        saved_only: bool,
    },
    /// Answer lines made from a number, and report their outcomes.
    SelfTest {
        /// The number.
        seed: u32,
        /// How many lines there are.
        lines: u32,
    },
    /// Work on the input, by data keys under the keys of a keyset.
    UseEnvelope {
        /// The master of the keyset, if it lies under one.
        lock: Option<Master<'a>>,
        /// The file of the keyset.
        keyset: &'a str,
        /// The form of the keyset.
        form: Format,
        /// The name of the template of the data keys.
        template: &'a str,
        /// What is done.
        work: Envelope<'a>,
        /// The file that it is put into, or none for standard output.
        output: Option<&'a str>,
    },
    /// Print the help on a topic.
    Help {
        /// The topic.
        topic: Topic,
    },
    /// Print the version.
    Version,
}

/// What is done with the whole input by data keys under the keys of a keyset.
#[derive(Clone, Copy)]
pub enum Envelope<'a> {
    /// Seal it, with this associated data.
    Seal(Datum<'a>),
    /// Open it, with this associated data.
    Open(Datum<'a>),
    /// Open its data key, and seal that again; the payload isn't opened.
    Reseal,
}

/// What is done with the whole input by the keys of a keyset.
#[derive(Clone, Copy)]
pub enum Work<'a> {
    /// Seal it, with this associated data.
    Seal(Datum<'a>),
    /// Open it, with this associated data.
    Open(Datum<'a>),
    /// Seal it without an IV, with this associated data.
    Dseal(Datum<'a>),
    /// Open what was sealed without an IV, with this associated data.
    Dopen(Datum<'a>),
    /// Open it, and seal the plaintext, both with this associated data.
    Reseal(Datum<'a>),
    /// The same for bytes sealed without an IV.
    Dreseal(Datum<'a>),
    /// Tag it.
    Tag,
    /// Compare its tag with this one.
    Verify(Datum<'a>),
    /// Derive this many bytes from it.
    Derive(u32),
}

/// What is done with a stream.
#[derive(Clone, Copy)]
pub enum StreamWork {
    /// Seal it.
    Seal,
    /// Open it.
    Open,
    /// Open it, and seal the plaintext, both with the same associated data.
    Reseal,
}

/// Bytes given in a word.
#[derive(Clone, Copy)]
pub enum Datum<'a> {
    /// As they are.
    Plain(&'a str),
    /// In hexadecimal.
    Hex(&'a str),
}

/// Where a keyset is taken from or put.
#[derive(Clone, Copy)]
pub struct KeysetFile<'a> {
    /// The file, or none for standard input and output.
    pub file: Option<&'a str>,
    /// The form of the keyset.
    pub form: Format,
}

/// Where the output of work by keys is put.
#[derive(Clone, Copy)]
pub struct Output<'a> {
    /// The file, or none for standard output.
    pub file: Option<&'a str>,
    /// Whether they are put in hexadecimal.
    pub hex: bool,
}
