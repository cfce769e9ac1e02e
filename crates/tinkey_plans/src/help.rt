//! What help and version print; made by tools/words of words.table.

ghost use Rattle.std.specs.Prelude.{◌≡◌};
ghost use Rattle.tinkey_plans.specs.Help.{command_text, exit_text, help_on_help, help_on_version, help_text, list_text, version_text};

use tinkey_words::{CommandName, Topic};

/// A text of literals and of parts that commands share, by their names. What is said so far stands in brackets.
macro_rules! text {
    ([$($said:literal)*]) => {
        concat!($($said),*)
    };
    ([$($said:literal)*] $line:literal $($rest:tt)*) => {
        text!([$($said)* $line] $($rest)*)
    };
    ([$($said:literal)*] key_template_31 $($rest:tt)*) => {
        text!([$($said)* "  --key-template NAME          the template of the new key: a name that list-key-templates
                               prints; any text is taken as a word, and then looked up
"] $($rest)*)
    };
    ([$($said:literal)*] out_31 $($rest:tt)*) => {
        text!([$($said)* "  --out FILE                   the file to make: the name of a file that isn't there yet, of
                               one byte or more; its last part doesn't begin with
                               .tinkey-new-; or, but for session, - for standard output
"] $($rest)*)
    };
    ([$($said:literal)*] out_format_31 $($rest:tt)*) => {
        text!([$($said)* "  --out-format json|binary     the form of the keyset to write: json or binary, in upper or
                               lower case; json if it isn't given
"] $($rest)*)
    };
    ([$($said:literal)*] master_31 $($rest:tt)*) => {
        text!([$($said)* "  --master FILE                the file of the master, the keyset under which this one is
                               encrypted: a file's name, of one byte or more, and not -
"] $($rest)*)
    };
    ([$($said:literal)*] master_format_31 $($rest:tt)*) => {
        text!([$($said)* "  --master-format json|binary  the form of the master: json or binary, in upper or lower
                               case; json if it isn't given
"] $($rest)*)
    };
    ([$($said:literal)*] read_by_create_keyset $($rest:tt)*) => {
        text!([$($said)* "
Reads  nothing
"] $($rest)*)
    };
    ([$($said:literal)*] code_0 $($rest:tt)*) => {
        text!([$($said)* "  0  done\n"] $($rest)*)
    };
    ([$($said:literal)*] code_2 $($rest:tt)*) => {
        text!([$($said)* "  2  the words aren't a command, or ask for something that can't be had
"] $($rest)*)
    };
    ([$($said:literal)*] code_3 $($rest:tt)*) => {
        text!([$($said)* "  3  the keyset isn't one, or its keys can't serve for the command
"] $($rest)*)
    };
    ([$($said:literal)*] code_4 $($rest:tt)*) => {
        text!([$($said)* "  4  a file is missing or already there, or an edit is refused
"] $($rest)*)
    };
    ([$($said:literal)*] code_5 $($rest:tt)*) => {
        text!([$($said)* "  5  reading, writing, a file or the random device failed
"] $($rest)*)
    };
    ([$($said:literal)*] code_6 $($rest:tt)*) => {
        text!([$($said)* "  6  a limit was passed\n"] $($rest)*)
    };
    ([$($said:literal)*] code_7 $($rest:tt)*) => {
        text!([$($said)* "  7  out of memory\n"] $($rest)*)
    };
    ([$($said:literal)*] code_8 $($rest:tt)*) => {
        text!([$($said)* "  8  a word of the command isn't text (UTF-8)\n"] $($rest)*)
    };
    ([$($said:literal)*] codes_02345678 $($rest:tt)*) => {
        text!([$($said)*] "
Exit codes:
" code_0 code_2 code_3 code_4 code_5 code_6 code_7 code_8 "
Example:
" $($rest)*)
    };
    ([$($said:literal)*] in_31 $($rest:tt)*) => {
        text!([$($said)* "  --in FILE                    the file of the keyset to read: a file's name, of one byte or
                               more, or - for standard input
"] $($rest)*)
    };
    ([$($said:literal)*] in_format_31 $($rest:tt)*) => {
        text!([$($said)* "  --in-format json|binary      the form of that keyset: json or binary, in upper or lower
                               case; json if it isn't given
"] $($rest)*)
    };
    ([$($said:literal)*] options_of_add_key $($rest:tt)*) => {
        text!([$($said)*] "
Required:
" key_template_31 "
Optional:
" in_31 in_format_31 out_31 out_format_31 master_31 master_format_31 $($rest)*)
    };
    ([$($said:literal)*] read_by_add_key $($rest:tt)*) => {
        text!([$($said)* "
Reads  a keyset, from the file of --in, or from standard input if there is no --in
"] $($rest)*)
    };
    ([$($said:literal)*] given_by_add_key $($rest:tt)*) => {
        text!([$($said)* "\
Gives  the keyset after that edit, in a new file of --out, or on standard output if there is
       no --out
"] $($rest)*)
    };
    ([$($said:literal)*] note_of_add_key $($rest:tt)*) => {
        text!([$($said)* "\
Note   no file is replaced; to change k in place: --in k --out k.new && mv k.new k
"] $($rest)*)
    };
    ([$($said:literal)*] codes_012345678 $($rest:tt)*) => {
        text!([$($said)*] "
Exit codes:
" code_0 "  1  what was given doesn't open or verify, isn't a whole stream, or no key made it
" code_2 code_3 code_4 code_5 code_6 code_7 code_8 "
Example:
" $($rest)*)
    };
    ([$($said:literal)*] options_of_promote_key $($rest:tt)*) => {
        text!([$($said)*] "
Required:
  --key-id N                   the id of the key to change: 1 to 10 decimal digits, of a
                               number up to 4,294,967,295

Optional:
" in_31 in_format_31 out_31 out_format_31 master_31 master_format_31 $($rest)*)
    };
    ([$($said:literal)*] keyset_31 $($rest:tt)*) => {
        text!([$($said)* "  --keyset FILE                the file of the keyset to use: a file's name, of one byte or
                               more, and not -
"] $($rest)*)
    };
    ([$($said:literal)*] keyset_format_31 $($rest:tt)*) => {
        text!([$($said)* "  --keyset-format json|binary  the form of that keyset: json or binary, in upper or lower
                               case; json if it isn't given
"] $($rest)*)
    };
    ([$($said:literal)*] codes_02578 $($rest:tt)*) => {
        text!([$($said)*] "
Exit codes:
" code_0 code_2 code_5 code_7 code_8 "
Example:
" $($rest)*)
    };
    ([$($said:literal)*] options_of_wrap_keyset $($rest:tt)*) => {
        text!([$($said)*] "
Required:
" master_31 "
Optional:
" master_format_31 in_31 in_format_31 out_31 out_format_31 $($rest)*)
    };
    ([$($said:literal)*] ad_31 $($rest:tt)*) => {
        text!([$($said)* "  --ad TEXT                    the associated data: a text of at most 1,048,576 bytes, taken
                               as they stand; not beside --ad-hex
"] $($rest)*)
    };
    ([$($said:literal)*] ad_hex_31 $($rest:tt)*) => {
        text!([$($said)* "  --ad-hex HEX                 the associated data in hexadecimal: an even number of
                               hexadecimal digits of either case, at most 2,097,152, or
                               none; not beside --ad
"] $($rest)*)
    };
    ([$($said:literal)*] options_of_seal $($rest:tt)*) => {
        text!([$($said)*] "
Required:
" keyset_31 "
Optional:
" keyset_format_31 ad_31 ad_hex_31 out_31 master_31 master_format_31 $($rest)*)
    };
    ([$($said:literal)*] read_by_seal $($rest:tt)*) => {
        text!([$($said)* "
Reads  the keyset in the file of --keyset, and all of standard input
"] $($rest)*)
    };
    ([$($said:literal)*] given_by_open $($rest:tt)*) => {
        text!([$($said)* "\
Gives  what the input opens to, in a new file of --out, or on standard output if there is no
       --out
"] $($rest)*)
    };
    ([$($said:literal)*] dek_template_31 $($rest:tt)*) => {
        text!([$($said)* "  --dek-template NAME          the template of the data key: a name that list-key-templates
                               prints; any text is taken as a word, and then looked up
"] $($rest)*)
    };
    ([$($said:literal)*] options_of_eseal $($rest:tt)*) => {
        text!([$($said)*] "
Required:
" keyset_31 dek_template_31 "
Optional:
" keyset_format_31 ad_31 ad_hex_31 out_31 master_31 master_format_31 $($rest)*)
    };
    ([$($said:literal)*] read_by_sseal $($rest:tt)*) => {
        text!([$($said)* "
Reads  the keyset, and standard input as a stream
"] $($rest)*)
    };
    ([$($said:literal)*] length_31 $($rest:tt)*) => {
        text!([$($said)* "  --length N                   how many bytes to derive, or to open: 1 to 10 decimal digits,
                               of a number up to 4,294,967,295; for srange, up to 16,777,216
"] $($rest)*)
    };
    ([$($said:literal)*] hex_31 $($rest:tt)*) => {
        text!([$($said)* "  --hex                        writes the output in hexadecimal
"] $($rest)*)
    };
}

/// What a topic has to say.
pub fn help_text(topic: Topic) -> &'static str
    ensures { result.now ≡ help_text topic }
{
    match topic {
        Topic::Commands => list_text(),
        Topic::Exit => exit_text(),
        Topic::Help => help_on_help(),
        Topic::Version => help_on_version(),
        Topic::Command(command) => command_text(command),
    }
}

/// The version.
pub fn version_text() -> &'static str
    ensures { result.now ≡ version_text }
{
    "\
tinkey 0.9.0
proved with logic dac8208d650f15bf
"
}

/// The list of the commands.
fn list_text() -> &'static str
    ensures { result.now ≡ list_text }
{
    "\
tinkey makes and changes keysets of Google Tink, and uses their symmetric keys.

  tinkey COMMAND [OPTION VALUE]...

An option is given once, as --option VALUE or --option=VALUE.

Make and change a keyset:
  create-keyset       makes a keyset of one new key, the primary
  add-key             adds a new key
  rotate-keyset       adds a new key, and makes it the primary
  promote-key         makes an enabled key the primary
  enable-key          makes a key ENABLED
  disable-key         makes a key DISABLED: it isn't used, and can be enabled again
  destroy-key         destroys a key's material for good: what it sealed never opens again
  delete-key          removes a key for good: what it sealed never opens again

Look at a keyset, and keep it:
  list-keyset         lists a keyset without key material
  key-of              shows which keys may have made a sealed text, tag, envelope or stream
  list-key-templates  lists the names of the templates for new keys
  convert-keyset      writes a keyset in another form, or under another master
  wrap-keyset         seals a keyset under another one, the master
  unwrap-keyset       opens a keyset that was wrapped

Seal and open:
  seal                seals standard input under the primary key
  open                opens what any enabled key sealed
  eseal               seals under a fresh data key, and that key under the keyset: an
                      envelope
  eopen               opens an envelope
  ereseal             opens an envelope's data key, and seals that again under the primary
                      key
  dseal               seals deterministically: equal texts give equal bytes
  dopen               opens what dseal sealed
  reseal              opens, and seals again under the primary key
  dreseal             as reseal, of what dseal sealed
  sseal               seals a stream of any length, in one pass
  sopen               opens a stream; it is complete only if the exit code is 0
  sreseal             opens a stream, and seals it again under the primary key, in one pass
  srange              opens a range of a stream in a file

Tag, verify and derive:
  tag                 tags standard input under the primary key
  verify              says whether a tag is valid under any enabled key
  derive              derives bytes from standard input

Many lines in one run:
  session             answers lines that seal, open, tag, verify, derive, edit and save
  selftest            seals, opens and edits many times, and counts the results

More:
  tinkey help COMMAND   its options, what it reads and gives, its exit codes, an example
  tinkey help exit      the diagnostic lines: what each means, and what to do next
  tinkey version        the version
"
}

/// The diagnostic lines.
fn exit_text() -> &'static str
    ensures { result.now ≡ exit_text }
{
    "\
A command that fails prints a line on standard error and ends with an exit code. The line is
\"tinkey: \" and one of these, listed after their exit codes.

0  done, and no line

1  open failed
     No ENABLED key of the keyset opens these bytes with these associated data. A second
     line says under which key they were sealed, by the output prefix in front. If it is
     DISABLED, enable it first; if it was DESTROYED, nothing opens them any more. If it is
     ENABLED, give the same --ad; otherwise the bytes are cut or altered. If the bytes name
     no key, use the keyset that they were sealed under (key-of tries one); it may be that a
     RAW key of it is DISABLED. Open what seal, dseal, sseal or eseal made with open, dopen,
     sopen or eopen; an envelope needs a template of its data key's kind. For an encrypted
     keyset the second line is about the master's keys, or says that the keyset is in clear.

1  verify failed
     No ENABLED key makes this tag of this input. Give the whole tag with its prefix, in
     hexadecimal, as tag --hex prints it.

1  no key of the keyset
     No key of the keyset has the output prefix in front of these bytes, and none is RAW:
     another keyset sealed them, or they are no sealed text. For an envelope give --as
     envelope; a stream has no prefix.

1  stream failed at segment {segment}
     From this segment on the stream is damaged or cut, or the key or the associated data
     are not the ones it was sealed with; at segment 0 it may be no stream at all. What was
     written before is authentic; the rest has to come from a copy.

2  usage: word {word}
     This word is wrong: it is no command, no option of this command, an option that was
     given before or excludes another one, or a value of the wrong form. Words count from 0,
     which is the command. If the number equals the word count, a word is missing at the
     end: a value, or an option that the command requires. A second line says which of these
     it is. Check the word before, too: if its value was left out, the next word was taken
     as the value. tinkey help lists the commands, and tinkey help COMMAND a command's
     options.

2  unknown key template
     list-key-templates lists the names. AEADs with Poly1305 aren't supported.

2  asymmetric key template
     Asymmetric keys aren't supported: Tinkey makes them.

2  template is not an AEAD
     --dek-template is for the data keys of envelopes, which must be AEAD keys, such as
     those of AES128_GCM.

2  output too long: {asked} over {greatest}
     The key can derive at most the second number of bytes.

2  range past the end
     The stream's plaintext is shorter than offset and length together. Ask for less; sopen,
     piped to wc -c, shows how long it is.

3  bad protobuf at byte {at}
     The keyset isn't one in the binary form. A second line says which file it is. If it is
     JSON, give no form, or json; if it is an encrypted keyset, give --master: the second
     line says so, too. Otherwise it is damaged from about that byte on.

3  not JSON
     The keyset isn't JSON: it is empty, cut or damaged, or in the binary form. A second
     line says which file it is, and if it begins in that form, which option to add:
     --in-format binary, --keyset-format binary, --master-format binary or
     --new-master-format binary. Without --in, standard input was read.

3  bad JSON member {member}
     The JSON isn't a keyset: this member has the wrong form. A second line says which file
     it is.

3  bad JSON member {member} of key {key}
     The same, for a key. Keys count from 0.

3  bad JSON member encryptedKeyset
     The JSON isn't an encrypted keyset, as wrap-keyset writes one.

3  keyset has no key
     An empty input in the binary form is such a keyset: check that the file isn't empty. A
     second line says which file it is, as for each fault of a keyset below. An encrypted
     keyset in JSON also gives this line, and a second one that says so: give --master.

3  keyset has too many keys
     A keyset has at most 1,000 keys. Delete some with the tool that made it.

3  key {key} has an unknown status
     The key's status isn't one of Tink's: the file is damaged, or of a later Tink.

3  key {key} has an unknown output prefix type
     The same, for its output prefix type.

3  key {key} has an unknown key material type
     The same, for its key material type.

3  key {key} has no key data
     Only a DESTROYED key may have none.

3  no key has the primary id
     The keyset is incomplete. Another copy of it may have the key.

3  the primary key is not enabled
     No key with the primary id is ENABLED. Enable it, or make another one the primary, with
     the tool that made the keyset.

3  keys {first} and {second} are both the primary
     Two ENABLED keys have the primary id, and nothing says which one seals. Disable one of
     them with the tool that made the keyset.

3  key {key} has no manager for this command
     The key is of a kind that this command doesn't use; a second line has its id, and what
     it is for: keys for AEAD are for seal, open, reseal, eseal, eopen and ereseal, AES-SIV
     for dseal, dopen and dreseal, HMAC and CMAC for tag and verify, PRFs for derive,
     streaming keys for sseal, sopen, sreseal and srange. The keys of a master are for AEAD.
     One ENABLED key of another kind is enough for this: disable it (if it is the primary,
     make another key the primary first), or keep it in a keyset of its own.

3  key {key} is not valid: {rule}
     The key breaks this rule, for example with a size that its kind doesn't have. Another
     tool made it: disable it (if it is the primary, make another key the primary first).

3  key {key} is not RAW
     A key that derives has to be RAW, because there is no place for a prefix.

3  no manager for the data key
     Another program's managers lack this kind of key. tinkey itself has one for each AEAD.

3  data key refused: {rule}
     Another program's manager refuses the keys of this template. Those of tinkey accept
     each.

4  input file missing
     There is no file with the name given by --in, --keyset, --master, --new-master or
     --file; a second line says by which of them.

4  key not found
     No key of the keyset has this id: list-keyset shows the ids.

4  key is primary
     Make another key the primary first: promote-key, or rotate-keyset.

4  key is not enabled
     Only an ENABLED key can be the primary: enable-key first.

4  key is destroyed
     Its material is gone, and no command brings it back.

4  key refused: {rule}
     The key's message breaks this rule, so it isn't enabled.

4  key of another primitive
     All keys of a keyset do one kind of work. Make a separate keyset for this template or
     key.

4  no free key id
     64 random ids in a row were 0 or in use: check the random device.

4  too many keys
     The keyset has 1,000 keys. Delete those that nothing is sealed under any more.

4  primary would be ambiguous
     Another key has this id, and both would be ENABLED under the primary id. To enable a
     key, first make a key with another id the primary. Otherwise use rotate-keyset, which
     makes a primary with an id of its own.

4  output file exists
     No file is ever replaced: give a new name. A session checks this before its first line.

5  read fault
     Standard input couldn't be read.

5  write fault
     Standard output accepted no more bytes, for example because a pipe was closed or a disk
     is full. What it accepted is the first part of the output.

5  entropy fault
     The system's random device couldn't be read, or isn't the system's.

5  store fault
     A file couldn't be read or made: it is a folder, or for --file a pipe; the folder of
     the new file isn't there; permission is missing; the disk is full. The new file isn't
     there, or is there whole; on a file system without hard links it may have only its
     first bytes. Remove it before the next try.

6  keyset too long
     A keyset has at most 1,048,576 bytes when it is read and when it is written; JSON is
     longer than the binary form. An encrypted keyset has at most 4,194,304.

6  input too long
     The command takes 16,777,216 bytes, and a command that opens or reseals takes
     everything that was sealed from that many. Seal longer inputs with sseal, under a
     streaming key.

6  too many segments
     The input of a stream is too long for its segments: use a template with larger ones.

6  line too long
     A line of a session has at most 65,536 bytes. The replies before it are valid, but
     --out makes no file: edits that no line save kept are lost, and what was sealed under a
     key that they made never opens again.

6  too many lines
     A session has at most 100,000 lines. Its replies are valid, but --out makes no file:
     edits that no line save kept are lost, and what was sealed under a key that they made
     never opens again. Count the lines first, and split them over several sessions.

7  out of memory
     Memory was refused. No new file was made; what a stream or a session had written before
     is valid.

8  a word of the command isn't text (UTF-8)

127  the processor lacks what the program was built for, as x86-64-v3: make run
     CPU=x86-64-v2 makes one for nearly every processor. The line is the toolchain's; the
     build for plain x86-64 that it may advise is refused here.
"
}

/// Each command.
fn command_text(command: CommandName) -> &'static str
    ensures { result.now ≡ command_text command }
{
    match command {
        CommandName::CreateKeyset => text!([] "\
tinkey create-keyset: makes a keyset of one new key, the primary

  tinkey create-keyset --key-template NAME [--out FILE] [--out-format json|binary]
      [--master FILE] [--master-format json|binary]

Required:
" key_template_31 "
Optional:
" out_31 out_format_31 master_31 master_format_31 read_by_create_keyset "\
Gives  a keyset of one new key, in a new file of --out, or on standard output if there is no
       --out
" codes_02345678 "  tinkey create-keyset --key-template AES256_GCM --out first.json
"),
        CommandName::AddKey => text!([] "\
tinkey add-key: adds a new key

  tinkey add-key --key-template NAME [--in FILE] [--in-format json|binary] [--out FILE]
      [--out-format json|binary] [--master FILE] [--master-format json|binary]
" options_of_add_key read_by_add_key given_by_add_key note_of_add_key codes_012345678 "  tinkey create-keyset --key-template AES256_GCM --out one.json
  tinkey add-key --key-template AES256_GCM --in one.json --out two.json
"),
        CommandName::RotateKeyset => text!([] "\
tinkey rotate-keyset: adds a new key, and makes it the primary

  tinkey rotate-keyset --key-template NAME [--in FILE] [--in-format json|binary]
      [--out FILE] [--out-format json|binary] [--master FILE] [--master-format json|binary]
" options_of_add_key read_by_add_key given_by_add_key note_of_add_key codes_012345678 "  tinkey create-keyset --key-template AES256_GCM --out old.json
  tinkey rotate-keyset --key-template AES256_GCM --in old.json --out rotated.json
"),
        CommandName::PromoteKey => text!([] "\
tinkey promote-key: makes an enabled key the primary

  tinkey promote-key --key-id N [--in FILE] [--in-format json|binary] [--out FILE]
      [--out-format json|binary] [--master FILE] [--master-format json|binary]
" options_of_promote_key read_by_add_key given_by_add_key note_of_add_key codes_012345678 "  tinkey create-keyset --key-template AES256_GCM |
      tinkey rotate-keyset --key-template AES256_GCM --out both.json
  id=$(tinkey list-keyset --in both.json | sed -n 's/^  key_id: //p' | head -n 1)
  tinkey promote-key --key-id $id --in both.json --out promoted.json
"),
        CommandName::EnableKey => text!([] "\
tinkey enable-key: makes a key ENABLED

  tinkey enable-key --key-id N [--in FILE] [--in-format json|binary] [--out FILE]
      [--out-format json|binary] [--master FILE] [--master-format json|binary]
" options_of_promote_key read_by_add_key given_by_add_key note_of_add_key codes_012345678 "  tinkey create-keyset --key-template AES256_GCM |
      tinkey rotate-keyset --key-template AES256_GCM --out ready.json
  id=$(tinkey list-keyset --in ready.json | sed -n 's/^  key_id: //p' | head -n 1)
  tinkey disable-key --key-id $id --in ready.json --out off.json
  tinkey enable-key --key-id $id --in off.json --out on.json
"),
        CommandName::DisableKey => text!([] "\
tinkey disable-key: makes a key DISABLED: it isn't used, and can be enabled again

  tinkey disable-key --key-id N [--in FILE] [--in-format json|binary] [--out FILE]
      [--out-format json|binary] [--master FILE] [--master-format json|binary]
" options_of_promote_key read_by_add_key given_by_add_key note_of_add_key codes_012345678 "  tinkey create-keyset --key-template AES256_GCM |
      tinkey rotate-keyset --key-template AES256_GCM --out busy.json
  id=$(tinkey list-keyset --in busy.json | sed -n 's/^  key_id: //p' | head -n 1)
  tinkey disable-key --key-id $id --in busy.json --out disabled.json
"),
        CommandName::DestroyKey => text!([] "\
tinkey destroy-key: destroys a key's material for good: what it sealed never opens again

  tinkey destroy-key --key-id N [--in FILE] [--in-format json|binary] [--out FILE]
      [--out-format json|binary] [--master FILE] [--master-format json|binary]
" options_of_promote_key read_by_add_key given_by_add_key note_of_add_key codes_012345678 "  tinkey create-keyset --key-template AES256_GCM |
      tinkey rotate-keyset --key-template AES256_GCM --out full.json
  id=$(tinkey list-keyset --in full.json | sed -n 's/^  key_id: //p' | head -n 1)
  tinkey destroy-key --key-id $id --in full.json --out destroyed.json
"),
        CommandName::DeleteKey => text!([] "\
tinkey delete-key: removes a key for good: what it sealed never opens again

  tinkey delete-key --key-id N [--in FILE] [--in-format json|binary] [--out FILE]
      [--out-format json|binary] [--master FILE] [--master-format json|binary]
" options_of_promote_key read_by_add_key given_by_add_key note_of_add_key codes_012345678 "  tinkey create-keyset --key-template AES256_GCM |
      tinkey rotate-keyset --key-template AES256_GCM --out many.json
  id=$(tinkey list-keyset --in many.json | sed -n 's/^  key_id: //p' | head -n 1)
  tinkey delete-key --key-id $id --in many.json --out fewer.json
"),
        CommandName::ListKeyset => text!([] "\
tinkey list-keyset: lists a keyset without key material

  tinkey list-keyset [--in FILE] [--in-format json|binary] [--master FILE]
      [--master-format json|binary]

Optional:
" in_31 in_format_31 master_31 master_format_31 read_by_add_key "Gives  its listing, on standard output\n" codes_012345678 "  tinkey create-keyset --key-template AES256_GCM --out listed.json
  tinkey list-keyset --in listed.json
"),
        CommandName::KeyOf => text!([] "\
tinkey key-of: shows which keys may have made a sealed text, tag, envelope or stream

  tinkey key-of --keyset FILE [--keyset-format json|binary] [--ad TEXT] [--ad-hex HEX]
      [--master FILE] [--master-format json|binary] [--as text|envelope|stream]

Required:
" keyset_31 "
Optional:
" keyset_format_31 "  --ad TEXT                    the associated data, only with --as stream: a text of at most
                               1,048,576 bytes, taken as they stand; not beside --ad-hex
  --ad-hex HEX                 the associated data in hexadecimal, only with --as stream: an
                               even number of hexadecimal digits of either case, at most
                               2,097,152, or none; not beside --ad
" master_31 master_format_31 "  --as text|envelope|stream    what the input is: a sealed text or a tag, an envelope, or a
                               stream: text, envelope or stream, in upper or lower case;
                               text if it isn't given

Reads  the keyset, and the first 5 bytes of standard input, the first 9 with --as envelope,
       or with --as stream one byte more than the largest segment under the keyset's keys
Gives  a line for each key, of any status, whose output prefix the input begins with, and
       one that counts the keys without a prefix; with --as stream the line of the key under
       which sopen opens the stream; on standard output
" codes_012345678 "  tinkey create-keyset --key-template AES256_GCM --out sealer.json
  echo 'Dear Ada' | tinkey seal --keyset sealer.json --out sealed.text
  tinkey key-of --keyset sealer.json < sealed.text
"),
        CommandName::ListKeyTemplates => text!([] "\
tinkey list-key-templates: lists the names of the templates for new keys

  tinkey list-key-templates [--for COMMAND]

Optional:
  --for COMMAND  the command that the templates' keys are to serve: the word of a command
                 that seals, opens, reseals, tags, verifies, derives, wraps or unwraps
" read_by_create_keyset "\
Gives  the names of the templates, or with --for of those whose keys serve that command, one
       a line, on standard output
" codes_02578 "  tinkey list-key-templates --for dseal\n"),
        CommandName::ConvertKeyset => text!([] "\
tinkey convert-keyset: writes a keyset in another form, or under another master

  tinkey convert-keyset [--in FILE] [--in-format json|binary] [--out FILE]
      [--out-format json|binary] [--master FILE] [--master-format json|binary]
      [--new-master FILE] [--new-master-format json|binary]

Optional:
  --in FILE                        the file of the keyset to read: a file's name, of one
                                   byte or more, or - for standard input
  --in-format json|binary          the form of that keyset: json or binary, in upper or
                                   lower case; json if it isn't given
  --out FILE                       the file to make: the name of a file that isn't there
                                   yet, of one byte or more; its last part doesn't begin
                                   with .tinkey-new-; or, but for session, - for standard
                                   output
  --out-format json|binary         the form of the keyset to write: json or binary, in upper
                                   or lower case; json if it isn't given
  --master FILE                    the file of the master, the keyset under which this one
                                   is encrypted: a file's name, of one byte or more, and not
                                   -
  --master-format json|binary      the form of the master: json or binary, in upper or lower
                                   case; json if it isn't given
  --new-master FILE                the file of the master that the keyset is put under: a
                                   file's name, of one byte or more, and not -
  --new-master-format json|binary  the form of that master: json or binary, in upper or
                                   lower case; json if it isn't given
" read_by_add_key "\
Gives  the same keyset, in a new file of --out, or on standard output if there is no --out
" note_of_add_key codes_012345678 "  tinkey create-keyset --key-template AES256_GCM --out text.json
  tinkey convert-keyset --in text.json --out keyset.bin --out-format binary
  tinkey create-keyset --key-template AES256_GCM --out other.json
  tinkey convert-keyset --in text.json --new-master other.json --out hidden.json
"),
        CommandName::WrapKeyset => text!([] "\
tinkey wrap-keyset: seals a keyset under another one, the master

  tinkey wrap-keyset --master FILE [--master-format json|binary] [--in FILE]
      [--in-format json|binary] [--out FILE] [--out-format json|binary]
" options_of_wrap_keyset "
Reads  the master in the file of --master, and a keyset, from the file of --in, or from
       standard input if there is no --in
Gives  the keyset as an encrypted keyset, sealed under the master's primary key, in the form
       of --out-format, in a new file of --out, or on standard output if there is no --out
Keys   of the master, of templates that tinkey list-key-templates --for wrap-keyset lists
" codes_02345678 "  tinkey create-keyset --key-template AES256_GCM --out master.json
  tinkey create-keyset --key-template AES256_GCM |
      tinkey wrap-keyset --master master.json --out wrapped.json
"),
        CommandName::UnwrapKeyset => text!([] "\
tinkey unwrap-keyset: opens a keyset that was wrapped

  tinkey unwrap-keyset --master FILE [--master-format json|binary] [--in FILE]
      [--in-format json|binary] [--out FILE] [--out-format json|binary]
" options_of_wrap_keyset "
Reads  the master, and an encrypted keyset in the form of --in-format, from the file of
       --in, or from standard input if there is no --in
Gives  the keyset inside, in a new file of --out, or on standard output if there is no --out
Keys   of the master, of templates that tinkey list-key-templates --for unwrap-keyset lists
" codes_012345678 "  tinkey create-keyset --key-template AES256_GCM --out lock.json
  tinkey create-keyset --key-template AES256_GCM |
      tinkey wrap-keyset --master lock.json --out locked.json
  tinkey unwrap-keyset --master lock.json --in locked.json --out unlocked.json
"),
        CommandName::Seal => text!([] "\
tinkey seal: seals standard input under the primary key

  tinkey seal --keyset FILE [--keyset-format json|binary] [--ad TEXT] [--ad-hex HEX]
      [--out FILE] [--master FILE] [--master-format json|binary]
" options_of_seal read_by_seal "\
Gives  the input sealed under the primary key, in a new file of --out, or on standard output
       if there is no --out
Keys   of templates that tinkey list-key-templates --for seal lists
" codes_012345678 "  tinkey create-keyset --key-template AES256_GCM --out seal.json
  echo 'Dear Ada' | tinkey seal --keyset seal.json --ad 'to Ada' --out letter.sealed
"),
        CommandName::Open => text!([] "\
tinkey open: opens what any enabled key sealed

  tinkey open --keyset FILE [--keyset-format json|binary] [--ad TEXT] [--ad-hex HEX]
      [--out FILE] [--master FILE] [--master-format json|binary]
" options_of_seal read_by_seal given_by_open "\
Keys   of templates that tinkey list-key-templates --for open lists
" codes_012345678 "  tinkey create-keyset --key-template AES256_GCM --out open.json
  echo 'Dear Ada' | tinkey seal --keyset open.json --ad 'to Ada' --out open.sealed
  tinkey open --keyset open.json --ad 'to Ada' < open.sealed
"),
        CommandName::Eseal => text!([] "\
tinkey eseal: seals under a fresh data key, and that key under the keyset: an envelope

  tinkey eseal --keyset FILE --dek-template NAME [--keyset-format json|binary] [--ad TEXT]
      [--ad-hex HEX] [--out FILE] [--master FILE] [--master-format json|binary]
" options_of_eseal read_by_seal "\
Gives  an envelope of the input, under a fresh data key of the template of --dek-template,
       in a new file of --out, or on standard output if there is no --out
Keys   of templates that tinkey list-key-templates --for eseal lists
" codes_012345678 "  tinkey create-keyset --key-template AES256_GCM --out eseal.json
  echo 'Dear Ada' | tinkey eseal --keyset eseal.json --dek-template AES128_GCM --out envelope
"),
        CommandName::Eopen => text!([] "\
tinkey eopen: opens an envelope

  tinkey eopen --keyset FILE --dek-template NAME [--keyset-format json|binary] [--ad TEXT]
      [--ad-hex HEX] [--out FILE] [--master FILE] [--master-format json|binary]
" options_of_eseal read_by_seal "\
Gives  what the envelope opens to, in a new file of --out, or on standard output if there is
       no --out
Keys   of templates that tinkey list-key-templates --for eopen lists
" codes_012345678 "  tinkey create-keyset --key-template AES256_GCM --out eopen.json
  echo 'Dear Ada' | tinkey eseal --keyset eopen.json --dek-template AES128_GCM --out eopen.sealed
  tinkey eopen --keyset eopen.json --dek-template AES128_GCM < eopen.sealed
"),
        CommandName::Ereseal => text!([] "\
tinkey ereseal: opens an envelope's data key, and seals that again under the primary key

  tinkey ereseal --keyset FILE --dek-template NAME [--keyset-format json|binary]
      [--out FILE] [--master FILE] [--master-format json|binary]

Required:
" keyset_31 dek_template_31 "
Optional:
" keyset_format_31 out_31 master_31 master_format_31 read_by_seal "\
Gives  the envelope with its data key sealed again under the primary key; its payload stays
       as it is, and isn't opened, in a new file of --out, or on standard output if there is
       no --out
Keys   of templates that tinkey list-key-templates --for ereseal lists
" codes_012345678 "  tinkey create-keyset --key-template AES256_GCM --out outer.json
  echo 'Dear Ada' | tinkey eseal --keyset outer.json --dek-template AES128_GCM --out outer.sealed
  tinkey rotate-keyset --key-template AES256_GCM --in outer.json --out ereseal.json
  tinkey ereseal --keyset ereseal.json --dek-template AES128_GCM < outer.sealed > eresealed
"),
        CommandName::Dseal => text!([] "\
tinkey dseal: seals deterministically: equal texts give equal bytes

  tinkey dseal --keyset FILE [--keyset-format json|binary] [--ad TEXT] [--ad-hex HEX]
      [--out FILE] [--master FILE] [--master-format json|binary]
" options_of_seal read_by_seal "\
Gives  the input sealed under the primary key, without an IV, in a new file of --out, or on
       standard output if there is no --out
Keys   of templates that tinkey list-key-templates --for dseal lists
" codes_012345678 "  tinkey create-keyset --key-template AES256_SIV --out dseal.json
  echo 'Dear Ada' | tinkey dseal --keyset dseal.json --out same.sealed
"),
        CommandName::Dopen => text!([] "\
tinkey dopen: opens what dseal sealed

  tinkey dopen --keyset FILE [--keyset-format json|binary] [--ad TEXT] [--ad-hex HEX]
      [--out FILE] [--master FILE] [--master-format json|binary]
" options_of_seal read_by_seal given_by_open "\
Keys   of templates that tinkey list-key-templates --for dopen lists
" codes_012345678 "  tinkey create-keyset --key-template AES256_SIV --out dopen.json
  echo 'Dear Ada' | tinkey dseal --keyset dopen.json --out dopen.sealed
  tinkey dopen --keyset dopen.json < dopen.sealed
"),
        CommandName::Reseal => text!([] "\
tinkey reseal: opens, and seals again under the primary key

  tinkey reseal --keyset FILE [--keyset-format json|binary] [--ad TEXT] [--ad-hex HEX]
      [--out FILE] [--master FILE] [--master-format json|binary]
" options_of_seal read_by_seal "\
Gives  what the input opens to, sealed again under the primary key, in a new file of --out,
       or on standard output if there is no --out
Keys   of templates that tinkey list-key-templates --for reseal lists
" codes_012345678 "  tinkey create-keyset --key-template AES256_GCM --out before.json
  echo 'Dear Ada' | tinkey seal --keyset before.json --ad 'to Ada' --out reseal.sealed
  tinkey rotate-keyset --key-template AES256_GCM --in before.json --out reseal.json
  tinkey reseal --keyset reseal.json --ad 'to Ada' < reseal.sealed > resealed
"),
        CommandName::Dreseal => text!([] "\
tinkey dreseal: as reseal, of what dseal sealed

  tinkey dreseal --keyset FILE [--keyset-format json|binary] [--ad TEXT] [--ad-hex HEX]
      [--out FILE] [--master FILE] [--master-format json|binary]
" options_of_seal read_by_seal "\
Gives  as reseal, without an IV, in a new file of --out, or on standard output if there is
       no --out
Keys   of templates that tinkey list-key-templates --for dreseal lists
" codes_012345678 "  tinkey create-keyset --key-template AES256_SIV --out earlier.json
  echo 'Dear Ada' | tinkey dseal --keyset earlier.json --out dreseal.sealed
  tinkey rotate-keyset --key-template AES256_SIV --in earlier.json --out dreseal.json
  tinkey dreseal --keyset dreseal.json < dreseal.sealed > dresealed
"),
        CommandName::Sseal => text!([] "\
tinkey sseal: seals a stream of any length, in one pass

  tinkey sseal --keyset FILE [--keyset-format json|binary] [--ad TEXT] [--ad-hex HEX]
      [--out FILE] [--master FILE] [--master-format json|binary]
" options_of_seal read_by_sseal "\
Gives  the input sealed as a stream; in a new file of --out, which is there only once it is
       whole, or on standard output, written while it is read
Keys   of templates that tinkey list-key-templates --for sseal lists
" codes_012345678 "  tinkey create-keyset --key-template AES256_GCM_HKDF_1MB --out sseal.json
  echo 'Dear Ada' | tinkey sseal --keyset sseal.json > letter.stream
"),
        CommandName::Sopen => text!([] "\
tinkey sopen: opens a stream; it is complete only if the exit code is 0

  tinkey sopen --keyset FILE [--keyset-format json|binary] [--ad TEXT] [--ad-hex HEX]
      [--out FILE] [--master FILE] [--master-format json|binary]
" options_of_seal read_by_sseal "\
Gives  the plaintext of the stream; in a new file of --out, which is there only once all of
       it is verified, or on standard output, each segment once it is verified
Keys   of templates that tinkey list-key-templates --for sopen lists
" codes_012345678 "  tinkey create-keyset --key-template AES256_GCM_HKDF_1MB --out sopen.json
  echo 'Dear Ada' | tinkey sseal --keyset sopen.json > sopen.stream
  tinkey sopen --keyset sopen.json < sopen.stream > opened.txt && echo whole
"),
        CommandName::Sreseal => text!([] "\
tinkey sreseal: opens a stream, and seals it again under the primary key, in one pass

  tinkey sreseal --keyset FILE [--keyset-format json|binary] [--ad TEXT] [--ad-hex HEX]
      [--out FILE] [--master FILE] [--master-format json|binary]
" options_of_seal read_by_sseal "\
Gives  the plaintext of the stream, sealed again as a stream; in a new file of --out, which
       is there only once it is whole, or on standard output, written while it is read
Keys   of templates that tinkey list-key-templates --for sreseal lists
" codes_012345678 "  tinkey create-keyset --key-template AES256_GCM_HKDF_1MB --out former.json
  echo 'Dear Ada' | tinkey sseal --keyset former.json > former.stream
  tinkey rotate-keyset --key-template AES256_GCM_HKDF_1MB --in former.json --out sreseal.json
  tinkey sreseal --keyset sreseal.json < former.stream > sresealed && echo whole
"),
        CommandName::Srange => text!([] "\
tinkey srange: opens a range of a stream in a file

  tinkey srange --keyset FILE --file FILE --from N --length N [--keyset-format json|binary]
      [--ad TEXT] [--ad-hex HEX] [--out FILE] [--master FILE] [--master-format json|binary]

Required:
" keyset_31 "  --file FILE                  the file of the stream: a file's name, of one byte or more,
                               and not -; the file is no folder and no pipe
  --from N                     the offset of the first byte to open: 1 to 19 decimal digits,
                               of a number up to 9,223,372,036,854,775,807
" length_31 "
Optional:
" keyset_format_31 ad_31 ad_hex_31 out_31 master_31 master_format_31 "
Reads  the keyset, and the stream in the file of --file
Gives  as many bytes of the stream's plaintext as --length says, from the offset of --from
       on, counted from 0; in a new file of --out, or on standard output
Keys   of templates that tinkey list-key-templates --for srange lists
" codes_012345678 "  tinkey create-keyset --key-template AES256_GCM_HKDF_1MB --out srange.json
  echo 'Dear Ada' | tinkey sseal --keyset srange.json > srange.stream
  tinkey srange --keyset srange.json --file srange.stream --from 5 --length 3
"),
        CommandName::Tag => text!([] "\
tinkey tag: tags standard input under the primary key

  tinkey tag --keyset FILE [--keyset-format json|binary] [--out FILE] [--hex]
      [--master FILE] [--master-format json|binary]

Required:
" keyset_31 "
Optional:
" keyset_format_31 out_31 hex_31 master_31 master_format_31 read_by_seal "\
Gives  the tag of the input under the primary key, in a new file of --out, or on standard
       output if there is no --out
Keys   of templates that tinkey list-key-templates --for tag lists
" codes_012345678 "  tinkey create-keyset --key-template HMAC_SHA256_128BITTAG --out tag.json
  echo 'Dear Ada' | tinkey tag --keyset tag.json --hex --out letter.tag
"),
        CommandName::Verify => text!([] "\
tinkey verify: says whether a tag is valid under any enabled key

  tinkey verify --keyset FILE --tag-hex HEX [--keyset-format json|binary] [--master FILE]
      [--master-format json|binary]

Required:
" keyset_31 "  --tag-hex HEX                the tag to verify, in hexadecimal: an even number of
                               hexadecimal digits of either case, at most 2,097,152, or none

Optional:
" keyset_format_31 master_31 master_format_31 read_by_seal "\
Gives  nothing; the status says whether the tag is one of the keyset's
Keys   of templates that tinkey list-key-templates --for verify lists
" codes_012345678 "  tinkey create-keyset --key-template HMAC_SHA256_128BITTAG --out verify.json
  tag=$(echo 'Dear Ada' | tinkey tag --keyset verify.json --hex)
  echo 'Dear Ada' | tinkey verify --keyset verify.json --tag-hex $tag && echo verified
"),
        CommandName::Derive => text!([] "\
tinkey derive: derives bytes from standard input

  tinkey derive --keyset FILE --length N [--keyset-format json|binary] [--out FILE] [--hex]
      [--master FILE] [--master-format json|binary]

Required:
" keyset_31 length_31 "
Optional:
" keyset_format_31 out_31 hex_31 master_31 master_format_31 read_by_seal "\
Gives  as many bytes as --length says, derived from the input by the primary key, in a new
       file of --out, or on standard output if there is no --out
Keys   of templates that tinkey list-key-templates --for derive lists
" codes_012345678 "  tinkey create-keyset --key-template HKDF_SHA256 --out derive.json
  echo 'Dear Ada' | tinkey derive --keyset derive.json --length 32 --hex
"),
        CommandName::Session => text!([] "\
tinkey session: answers lines that seal, open, tag, verify, derive, edit and save

Lost   every edit that no file has: a line save FILE that was answered ok keeps the edits
       before it, and --out those of a session that ended with exit code 0. What was sealed
       or tagged under a key that the session made, and that no file has, never opens or
       verifies again. So send save behind each add and rotate, and wait for its ok before
       you hand out what the new key seals; or give --saved, with which no line seals,
       reseals or tags while the keyset has an edit that no file has

  tinkey session --keyset FILE [--keyset-format json|binary] [--out FILE]
      [--out-format json|binary] [--saved] [--master FILE] [--master-format json|binary]

Required:
" keyset_31 "
Optional:
" keyset_format_31 out_31 out_format_31 "  --saved                      seals and tags only under a keyset that a file has
" master_31 master_format_31 "
Reads  the keyset, and lines on standard input; bytes are hexadecimal, and - stands for none
Gives  one reply for each line, on standard output: ok and what the line gives, or no and
       the reason, and the session goes on; and then the last keyset in the new file of
       --out

Lines, with the reply to each:
  seal TEXT AD, open TEXT AD: ok BYTES
      as the commands seal and open; AD are the associated data
  dseal TEXT AD, dopen TEXT AD: ok BYTES
      as dseal and dopen
  reseal TEXT AD, dreseal TEXT AD: ok BYTES
      opens, and seals again under the primary key
  tag TEXT: ok BYTES
      as tag
  verify TAG TEXT: ok
      as verify
  derive N TEXT: ok BYTES
      derives N bytes
  add NAME, rotate NAME: ok ID
      adds a key of the template; rotate makes it the primary. ID is its key id
  promote ID, enable ID, disable ID, destroy ID, delete ID: ok
      the edit of that name
  save FILE: ok
      makes a new file of the keyset as it is now, in the form of --out-format, and with
      --master encrypted; the reply comes once the file lasts
  any line that is rejected: no REASON
      nothing changes, and the session goes on

Why a line is refused:
  no bad line
      to any: not a line of the table above: a word too many or too few, an odd number of
      digits, two spaces
  no open failed
      to open, dopen, reseal, dreseal: no enabled key of the keyset opens the text with this
      AD
  no verify failed
      to verify: no enabled key of the keyset makes this tag of this text
  no output too long: N over M
      to derive: the key derives at most M bytes
  no key N has no manager for this command, no key N is not valid: RULE, no key N is not RAW
      to all but edits: the keyset has an enabled key that can't do this work. N counts from
      0; the last reply comes to derive alone
  no unknown key template, no asymmetric key template
      to add, rotate: NAME is no template, or one for asymmetric keys
  no key of another primitive, no no free key id, no too many keys
      to add, rotate: as for the commands
  no key not found
      to edits by ID: no key has the id
  no key is primary
      to disable, destroy, delete: make another key the primary first
  no key is not enabled
      to promote: enable it first
  no key is destroyed
      to enable, disable: its material is gone
  no key refused: RULE, no key of another primitive
      to enable: the key's message can't be used in this keyset
  no primary would be ambiguous
      to promote, enable: another key has this id
  no output file exists
      to save: anything has the name: no file is ever replaced
  no keyset too long
      to save: as it is written it would be too long to be read again
  no keyset is not saved
      to seal, dseal, reseal, dreseal, tag: only with --saved: since the last accepted edit
      no save was answered ok
  no store fault
      to save: the file couldn't be made: its folder isn't there, permission is missing, the
      disk is full
" codes_012345678 "  tinkey create-keyset --key-template AES256_GCM --out session.json
  (echo rotate AES256_GCM; echo save rotated-session.json; echo seal 00 -) |
      tinkey session --keyset session.json --out after.json
"),
        CommandName::Selftest => text!([] "\
tinkey selftest: seals, opens and edits many times, and counts the results

  tinkey selftest --seed N [--lines N]

Required:
  --seed N   the number that the self-test is made from: 1 to 10 decimal digits, of a number
             up to 4,294,967,295

Optional:
  --lines N  how many lines it has: 1 to 10 decimal digits, of a number from 1 to 100,000;
             1,000 if it isn't given
" read_by_create_keyset "\
Gives  one line of counts, on standard output

Exit codes:
" code_0 code_2 code_4 code_5 code_7 code_8 "
Example:
  tinkey selftest --seed 1 --lines 1000
"),
    }
}

/// How help is asked for, and which topics there are.
fn help_on_help() -> &'static str
    ensures { result.now ≡ help_on_help }
{
    text!([] "\
tinkey help: lists the commands, or prints the help on a topic

  tinkey help [TOPIC]
  tinkey --help
  tinkey COMMAND --help

Without a topic the commands are listed. -h is --help.

Topics:
  COMMAND  its options, what it reads and gives, its exit codes, an example
  exit     the diagnostic lines: what each means, and what to do next
  help     how help is asked for, and which topics there are
  version  what tinkey version prints
" read_by_create_keyset "Gives  the text that is asked for, on standard output\n" codes_02578 "  tinkey help seal\n")
}

/// What `tinkey version` prints.
fn help_on_version() -> &'static str
    ensures { result.now ≡ help_on_version }
{
    text!([] "\
tinkey version: prints the version

  tinkey version
  tinkey --version
" read_by_create_keyset "\
Gives  two lines, on standard output: the program's version, and the number of the logic
       that it is proved in
" codes_02578 "  tinkey version\n")
}
