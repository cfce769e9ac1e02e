//! The names of commands and options, and their rows; made by tools/words of words.table.

ghost use Rattle.std.specs.Prelude.{◌≡◌, ◌<◌};
ghost use Rattle.tinkey_words.specs.Names.{for_streams, form_for, length_form, option_row, out_form, primitive_of, rival, row, row_of, seen_row};

use super::rows::ValueForm;
use key_msgs::Primitive;

/// A command by its name.
#[derive(Clone, Copy, Debug, PartialEq, Eq)]
pub enum CommandName {
    /// `create-keyset`
    CreateKeyset,
    /// `add-key`
    AddKey,
    /// `rotate-keyset`
    RotateKeyset,
    /// `promote-key`
    PromoteKey,
    /// `enable-key`
    EnableKey,
    /// `disable-key`
    DisableKey,
    /// `destroy-key`
    DestroyKey,
    /// `delete-key`
    DeleteKey,
    /// `list-keyset`
    ListKeyset,
    /// `convert-keyset`
    ConvertKeyset,
    /// `list-key-templates`
    ListKeyTemplates,
    /// `seal`
    Seal,
    /// `open`
    Open,
    /// `dseal`
    Dseal,
    /// `dopen`
    Dopen,
    /// `reseal`
    Reseal,
    /// `dreseal`
    Dreseal,
    /// `sseal`
    Sseal,
    /// `sopen`
    Sopen,
    /// `sreseal`
    Sreseal,
    /// `tag`
    Tag,
    /// `verify`
    Verify,
    /// `derive`
    Derive,
    /// `session`
    Session,
    /// `selftest`
    Selftest,
    /// `wrap-keyset`
    WrapKeyset,
    /// `unwrap-keyset`
    UnwrapKeyset,
    /// `eseal`
    Eseal,
    /// `eopen`
    Eopen,
    /// `ereseal`
    Ereseal,
    /// `srange`
    Srange,
    /// `key-of`
    KeyOf,
}

/// An option by its name.
#[derive(Clone, Copy, Debug, PartialEq, Eq)]
pub enum OptionName {
    /// `--key-template`, the template of the new key.
    KeyTemplate,
    /// `--key-id`, the id of the key to change.
    KeyId,
    /// `--in`, the file of the keyset to read.
    In,
    /// `--in-format`, the form of that keyset.
    InFormat,
    /// `--out`, the file to make.
    Out,
    /// `--out-format`, the form of the keyset to write.
    OutFormat,
    /// `--keyset`, the file of the keyset to use.
    Keyset,
    /// `--keyset-format`, the form of that keyset.
    KeysetFormat,
    /// `--ad`, the associated data.
    Ad,
    /// `--ad-hex`, the associated data in hexadecimal.
    AdHex,
    /// `--tag-hex`, the tag to verify, in hexadecimal.
    TagHex,
    /// `--length`, how many bytes to derive, or to open.
    Length,
    /// `--seed`, the number that the self-test is made from.
    Seed,
    /// `--lines`, how many lines it has.
    Lines,
    /// `--master`, the file of the master, the keyset under which this one is encrypted.
    Master,
    /// `--master-format`, the form of the master.
    MasterFormat,
    /// `--new-master`, the file of the master that the keyset is put under.
    NewMaster,
    /// `--new-master-format`, the form of that master.
    NewMasterFormat,
    /// `--dek-template`, the template of the data key.
    DekTemplate,
    /// `--file`, the file of the stream.
    File,
    /// `--from`, the offset of the first byte to open.
    From,
    /// `--hex`, writes the output in hexadecimal.
    Hex,
    /// `--as`, what the input is: a sealed text or a tag, an envelope, or a stream.
    As,
    /// `--for`, the command that the templates' keys are to serve.
    For,
    /// `--saved`, seals and tags only under a keyset that a file has.
    Saved,
}

/// How many commands there are.
const COMMAND_COUNT: usize = 32;

/// How many options there are.
pub const OPTION_COUNT: usize = 25;

/// A command's word, the options that it requires, and those that it may have.
#[derive(Clone, Copy)]
pub struct CommandRow {
    pub word: &'static str,
    pub required: &'static [OptionName],
    pub optional: &'static [OptionName],
}

/// An option's word, and the form of its value.
#[derive(Clone, Copy)]
pub struct OptionRow {
    pub word: &'static str,
    pub form: ValueForm,
}

impl CommandName {
    /// The command's word.
    pub fn word(self) -> &'static str
        ensures { result.now ≡ (row_of self).word }
    {
        self.row().word
    }

    /// The row of the command.
    pub fn row(self) -> CommandRow
        ensures { seen_row result ≡ row_of self }
    {
        match self {
            CommandName::CreateKeyset => row(
                "create-keyset",
                &CREATE_KEYSET_REQUIRES,
                &CREATE_KEYSET_MAY,
            ),
            CommandName::AddKey => row("add-key", &CREATE_KEYSET_REQUIRES, &ADD_KEY_MAY),
            CommandName::RotateKeyset => row(
                "rotate-keyset",
                &CREATE_KEYSET_REQUIRES,
                &ADD_KEY_MAY,
            ),
            CommandName::PromoteKey => row("promote-key", &PROMOTE_KEY_REQUIRES, &ADD_KEY_MAY),
            CommandName::EnableKey => row("enable-key", &PROMOTE_KEY_REQUIRES, &ADD_KEY_MAY),
            CommandName::DisableKey => row("disable-key", &PROMOTE_KEY_REQUIRES, &ADD_KEY_MAY),
            CommandName::DestroyKey => row("destroy-key", &PROMOTE_KEY_REQUIRES, &ADD_KEY_MAY),
            CommandName::DeleteKey => row("delete-key", &PROMOTE_KEY_REQUIRES, &ADD_KEY_MAY),
            CommandName::ListKeyset => row("list-keyset", &[], &LIST_KEYSET_MAY),
            CommandName::ConvertKeyset => row("convert-keyset", &[], &CONVERT_KEYSET_MAY),
            CommandName::ListKeyTemplates => row(
                "list-key-templates",
                &[],
                &LIST_KEY_TEMPLATES_MAY,
            ),
            CommandName::Seal => row("seal", &SEAL_REQUIRES, &SEAL_MAY),
            CommandName::Open => row("open", &SEAL_REQUIRES, &SEAL_MAY),
            CommandName::Dseal => row("dseal", &SEAL_REQUIRES, &SEAL_MAY),
            CommandName::Dopen => row("dopen", &SEAL_REQUIRES, &SEAL_MAY),
            CommandName::Reseal => row("reseal", &SEAL_REQUIRES, &SEAL_MAY),
            CommandName::Dreseal => row("dreseal", &SEAL_REQUIRES, &SEAL_MAY),
            CommandName::Sseal => row("sseal", &SEAL_REQUIRES, &SEAL_MAY),
            CommandName::Sopen => row("sopen", &SEAL_REQUIRES, &SEAL_MAY),
            CommandName::Sreseal => row("sreseal", &SEAL_REQUIRES, &SEAL_MAY),
            CommandName::Tag => row("tag", &SEAL_REQUIRES, &TAG_MAY),
            CommandName::Verify => row("verify", &VERIFY_REQUIRES, &VERIFY_MAY),
            CommandName::Derive => row("derive", &DERIVE_REQUIRES, &TAG_MAY),
            CommandName::Session => row("session", &SEAL_REQUIRES, &SESSION_MAY),
            CommandName::Selftest => row("selftest", &SELFTEST_REQUIRES, &SELFTEST_MAY),
            CommandName::WrapKeyset => row("wrap-keyset", &WRAP_KEYSET_REQUIRES, &WRAP_KEYSET_MAY),
            CommandName::UnwrapKeyset => row(
                "unwrap-keyset",
                &WRAP_KEYSET_REQUIRES,
                &WRAP_KEYSET_MAY,
            ),
            CommandName::Eseal => row("eseal", &ESEAL_REQUIRES, &SEAL_MAY),
            CommandName::Eopen => row("eopen", &ESEAL_REQUIRES, &SEAL_MAY),
            CommandName::Ereseal => row("ereseal", &ESEAL_REQUIRES, &ERESEAL_MAY),
            CommandName::Srange => row("srange", &SRANGE_REQUIRES, &SEAL_MAY),
            CommandName::KeyOf => row("key-of", &SEAL_REQUIRES, &KEY_OF_MAY),
        }
    }

    /// The options of the command that mean something for a stream alone.
    pub fn for_streams(self) -> &'static [OptionName]
        ensures { result.now ≡ for_streams self }
    {
        match self {
            CommandName::KeyOf => &KEY_OF_STREAMS,
            _ => &[],
        }
    }

    /// The primitive of the keys that the command asks for, or none.
    pub fn primitive(self) -> Option<Primitive>
        ensures { result ≡ primitive_of self }
    {
        match self {
            CommandName::Seal => Some(Primitive::Aead),
            CommandName::Open => Some(Primitive::Aead),
            CommandName::Dseal => Some(Primitive::Daead),
            CommandName::Dopen => Some(Primitive::Daead),
            CommandName::Reseal => Some(Primitive::Aead),
            CommandName::Dreseal => Some(Primitive::Daead),
            CommandName::Sseal => Some(Primitive::Stream),
            CommandName::Sopen => Some(Primitive::Stream),
            CommandName::Sreseal => Some(Primitive::Stream),
            CommandName::Tag => Some(Primitive::Mac),
            CommandName::Verify => Some(Primitive::Mac),
            CommandName::Derive => Some(Primitive::Prf),
            CommandName::WrapKeyset => Some(Primitive::Aead),
            CommandName::UnwrapKeyset => Some(Primitive::Aead),
            CommandName::Eseal => Some(Primitive::Aead),
            CommandName::Eopen => Some(Primitive::Aead),
            CommandName::Ereseal => Some(Primitive::Aead),
            CommandName::Srange => Some(Primitive::Stream),
            _ => None,
        }
    }
}

// What commands require or may have, named after the first one that it is so of.
const CREATE_KEYSET_REQUIRES: [OptionName; 1] = [OptionName::KeyTemplate];

const CREATE_KEYSET_MAY: [OptionName; 4] = [
    OptionName::Out,
    OptionName::OutFormat,
    OptionName::Master,
    OptionName::MasterFormat,
];

const ADD_KEY_MAY: [OptionName; 6] = [
    OptionName::In,
    OptionName::InFormat,
    OptionName::Out,
    OptionName::OutFormat,
    OptionName::Master,
    OptionName::MasterFormat,
];

const PROMOTE_KEY_REQUIRES: [OptionName; 1] = [OptionName::KeyId];

const LIST_KEYSET_MAY: [OptionName; 4] = [
    OptionName::In,
    OptionName::InFormat,
    OptionName::Master,
    OptionName::MasterFormat,
];

const CONVERT_KEYSET_MAY: [OptionName; 8] = [
    OptionName::In,
    OptionName::InFormat,
    OptionName::Out,
    OptionName::OutFormat,
    OptionName::Master,
    OptionName::MasterFormat,
    OptionName::NewMaster,
    OptionName::NewMasterFormat,
];

const LIST_KEY_TEMPLATES_MAY: [OptionName; 1] = [OptionName::For];

const SEAL_REQUIRES: [OptionName; 1] = [OptionName::Keyset];

const SEAL_MAY: [OptionName; 6] = [
    OptionName::KeysetFormat,
    OptionName::Ad,
    OptionName::AdHex,
    OptionName::Out,
    OptionName::Master,
    OptionName::MasterFormat,
];

const TAG_MAY: [OptionName; 5] = [
    OptionName::KeysetFormat,
    OptionName::Out,
    OptionName::Hex,
    OptionName::Master,
    OptionName::MasterFormat,
];

const VERIFY_REQUIRES: [OptionName; 2] = [OptionName::Keyset, OptionName::TagHex];

const VERIFY_MAY: [OptionName; 3] = [
    OptionName::KeysetFormat,
    OptionName::Master,
    OptionName::MasterFormat,
];

const DERIVE_REQUIRES: [OptionName; 2] = [OptionName::Keyset, OptionName::Length];

const SESSION_MAY: [OptionName; 6] = [
    OptionName::KeysetFormat,
    OptionName::Out,
    OptionName::OutFormat,
    OptionName::Saved,
    OptionName::Master,
    OptionName::MasterFormat,
];

const SELFTEST_REQUIRES: [OptionName; 1] = [OptionName::Seed];

const SELFTEST_MAY: [OptionName; 1] = [OptionName::Lines];

const WRAP_KEYSET_REQUIRES: [OptionName; 1] = [OptionName::Master];

const WRAP_KEYSET_MAY: [OptionName; 5] = [
    OptionName::MasterFormat,
    OptionName::In,
    OptionName::InFormat,
    OptionName::Out,
    OptionName::OutFormat,
];

const ESEAL_REQUIRES: [OptionName; 2] = [OptionName::Keyset, OptionName::DekTemplate];

const ERESEAL_MAY: [OptionName; 4] = [
    OptionName::KeysetFormat,
    OptionName::Out,
    OptionName::Master,
    OptionName::MasterFormat,
];

const SRANGE_REQUIRES: [OptionName; 4] = [
    OptionName::Keyset,
    OptionName::File,
    OptionName::From,
    OptionName::Length,
];

const KEY_OF_MAY: [OptionName; 6] = [
    OptionName::KeysetFormat,
    OptionName::Ad,
    OptionName::AdHex,
    OptionName::Master,
    OptionName::MasterFormat,
    OptionName::As,
];

const KEY_OF_STREAMS: [OptionName; 2] = [OptionName::Ad, OptionName::AdHex];

fn row(
    word: &'static str,
    required: &'static [OptionName],
    optional: &'static [OptionName],
) -> CommandRow
    ensures { seen_row result ≡ row word.now required.now optional.now }
{
    CommandRow {
        word,
        required,
        optional,
    }
}

impl OptionName {
    /// The option's word, with its two hyphens.
    pub fn word(self) -> &'static str
        ensures { result.now ≡ (option_row self).word }
    {
        self.row().word
    }

    /// The row of the option.
    pub fn row(self) -> OptionRow
        ensures word { result.word.now ≡ (option_row self).word }
        ensures form { result.form ≡ (option_row self).form }
    {
        match self {
            OptionName::KeyTemplate => option("--key-template", ValueForm::Text),
            OptionName::KeyId => option("--key-id", ValueForm::Number),
            OptionName::In => option("--in", ValueForm::Input),
            OptionName::InFormat => option("--in-format", ValueForm::Format),
            OptionName::Out => option("--out", ValueForm::Output),
            OptionName::OutFormat => option("--out-format", ValueForm::Format),
            OptionName::Keyset => option("--keyset", ValueForm::FileName),
            OptionName::KeysetFormat => option("--keyset-format", ValueForm::Format),
            OptionName::Ad => option("--ad", ValueForm::Datum),
            OptionName::AdHex => option("--ad-hex", ValueForm::Hex),
            OptionName::TagHex => option("--tag-hex", ValueForm::Hex),
            OptionName::Length => option("--length", ValueForm::Number),
            OptionName::Seed => option("--seed", ValueForm::Number),
            OptionName::Lines => option("--lines", ValueForm::LineCount),
            OptionName::Master => option("--master", ValueForm::FileName),
            OptionName::MasterFormat => option("--master-format", ValueForm::Format),
            OptionName::NewMaster => option("--new-master", ValueForm::FileName),
            OptionName::NewMasterFormat => option("--new-master-format", ValueForm::Format),
            OptionName::DekTemplate => option("--dek-template", ValueForm::Text),
            OptionName::File => option("--file", ValueForm::FileName),
            OptionName::From => option("--from", ValueForm::Offset),
            OptionName::Hex => option("--hex", ValueForm::Flag),
            OptionName::As => option("--as", ValueForm::SealedForm),
            OptionName::For => option("--for", ValueForm::Command),
            OptionName::Saved => option("--saved", ValueForm::Flag),
        }
    }

    /// The form of the option's value, for the command.
    pub fn form_for(self, command: CommandName) -> ValueForm
        ensures { result ≡ form_for self command }
    {
        match self {
            OptionName::Out => out_form(command),
            OptionName::Length => length_form(command),
            _ => self.row().form,
        }
    }

    /// The place of the option among them all.
    pub fn place(self) -> usize
        ensures place { result ≡ (option_row self).place }
        ensures within { result < OPTION_COUNT }
    {
        self as usize
    }

    /// The option that must not stand beside this one.
    pub fn rival(self) -> Option<OptionName>
        ensures { result ≡ rival self }
    {
        match self {
            OptionName::Ad => Some(OptionName::AdHex),
            OptionName::AdHex => Some(OptionName::Ad),
            _ => None,
        }
    }
}

/// The form of the value of `--out`.
fn out_form(command: CommandName) -> ValueForm
    ensures { result ≡ out_form command }
{
    match command {
        CommandName::Session => ValueForm::NewFile,
        _ => ValueForm::Output,
    }
}

/// The form of the value of `--length`.
fn length_form(command: CommandName) -> ValueForm
    ensures { result ≡ length_form command }
{
    match command {
        CommandName::Srange => ValueForm::RangeLength,
        _ => ValueForm::Number,
    }
}

fn option(word: &'static str, form: ValueForm) -> OptionRow
    ensures word { result.word.now ≡ word.now }
    ensures form { result.form ≡ form }
{
    OptionRow { word, form }
}

/// The options that mean nothing without another, each with that one.
pub const NEEDS: [(OptionName, OptionName); 2] = [
    (OptionName::MasterFormat, OptionName::Master),
    (OptionName::NewMasterFormat, OptionName::NewMaster),
];

/// All commands.
pub const COMMANDS: [CommandName; COMMAND_COUNT] = [
    CommandName::CreateKeyset,
    CommandName::AddKey,
    CommandName::RotateKeyset,
    CommandName::PromoteKey,
    CommandName::EnableKey,
    CommandName::DisableKey,
    CommandName::DestroyKey,
    CommandName::DeleteKey,
    CommandName::ListKeyset,
    CommandName::ConvertKeyset,
    CommandName::ListKeyTemplates,
    CommandName::Seal,
    CommandName::Open,
    CommandName::Dseal,
    CommandName::Dopen,
    CommandName::Reseal,
    CommandName::Dreseal,
    CommandName::Sseal,
    CommandName::Sopen,
    CommandName::Sreseal,
    CommandName::Tag,
    CommandName::Verify,
    CommandName::Derive,
    CommandName::Session,
    CommandName::Selftest,
    CommandName::WrapKeyset,
    CommandName::UnwrapKeyset,
    CommandName::Eseal,
    CommandName::Eopen,
    CommandName::Ereseal,
    CommandName::Srange,
    CommandName::KeyOf,
];

/// All options, in the order of their places.
pub const OPTIONS: [OptionName; OPTION_COUNT] = [
    OptionName::KeyTemplate,
    OptionName::KeyId,
    OptionName::In,
    OptionName::InFormat,
    OptionName::Out,
    OptionName::OutFormat,
    OptionName::Keyset,
    OptionName::KeysetFormat,
    OptionName::Ad,
    OptionName::AdHex,
    OptionName::TagHex,
    OptionName::Length,
    OptionName::Seed,
    OptionName::Lines,
    OptionName::Master,
    OptionName::MasterFormat,
    OptionName::NewMaster,
    OptionName::NewMasterFormat,
    OptionName::DekTemplate,
    OptionName::File,
    OptionName::From,
    OptionName::Hex,
    OptionName::As,
    OptionName::For,
    OptionName::Saved,
];
