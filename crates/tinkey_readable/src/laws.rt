//! Laws of runs. Each is the contract of a function with no effect.

ghost use Rattle.key_msgs.specs.declared.primitive.Primitive.TheVariants.{Aead, Daead, Mac};
ghost use Rattle.keyset_json.specs.Writing.{JsonBack};
ghost use Rattle.keyset_model.specs.Writing.{BinaryBack};
ghost use Rattle.tinkey_readable.specs.Anywhere.{CreatedServe, CreatedServeStreams, DopensAnywhere, DopensSomehowAnywhere, LocksServe, LocksServeStreams, OpensAnywhere, OpensEnvelopeAnywhere, OpensFirstAnywhere, OpensRangeAnywhere, OpensSomehowAnywhere, OpensStreamAnywhere, UnwrapsAnywhere, VerifiesAnywhere};
ghost use Rattle.tinkey_readable.specs.DoneWhere.{EditsDone, EnvelopesDone, KeyOfDone, RangesDone, SessionsDone, StreamsDone, WorksDone};
ghost use Rattle.tinkey_readable.specs.EnvelopeRuns.{RunsOpenEnvelope};
ghost use Rattle.tinkey_readable.specs.Hiding.{ListedAlike, ListingHidesKeys, ReportsGoByStatus};
ghost use Rattle.tinkey_readable.specs.KeptRuns.{CommandIdsStayDistinct, CreatedIdsAreDistinct, CreatedUnderLock, DataStaysByCommands, FilesStay, GivenBackByEnable, GivenBackUnderLock, KeptByCommands, KeptByItsIdAlone};
ghost use Rattle.tinkey_readable.specs.KeptTexts.{ReadsAfterCommands, ReadsByItsIdAlone};
ghost use Rattle.tinkey_readable.specs.LibraryStreams.{LibraryStreamsOpen, StreamHandlesAreMade, StreamHandlesServe, WrappedStreamHandlesAreMade};
ghost use Rattle.tinkey_readable.specs.LibraryTexts.{HandlesAreMade, HandlesServe, LibraryTagsVerify, LibraryTextsDopen, LibraryTextsOpen, WrappedHandlesAreMade};
ghost use Rattle.tinkey_readable.specs.LineRuns.{MadeDopens, MadeDopensPresent, MadeOpens, MadeOpensPresent, MadeVerifies};
ghost use Rattle.tinkey_readable.specs.LockedHiding.{LockedLinesSave, LockedRunsPut, LockedSessionsSave, SealedAlike};
ghost use Rattle.tinkey_readable.specs.NamedRuns.{KeysAreNamed};
ghost use Rattle.tinkey_readable.specs.RangeRuns.{RunsOpenRange};
ghost use Rattle.tinkey_readable.specs.Readable.{AnswersAreReadable, SessionsAreReadable};
ghost use Rattle.tinkey_readable.specs.Resealing.{ResealedDopens, ResealedEnvelopesOpen, ResealedOpens};
ghost use Rattle.tinkey_readable.specs.ResealedStreams.{ResealedStreamsOpen};
ghost use Rattle.tinkey_readable.specs.Runs.{LocksStep, ReadIsStored, RunStep, RunsDopen, RunsDopenPresent, RunsOpen, RunsOpenPresent, RunsUnwrap, RunsVerify, WrapStep};
ghost use Rattle.tinkey_readable.specs.SavedLines.{LinesMake, SavedInClear, SavedUnderMaster};
ghost use Rattle.tinkey_readable.specs.SavedReplies.{SavedReplies, SavedRepliesInClear, SavedRepliesUnderMaster};
ghost use Rattle.tinkey_readable.specs.ServingTemplates.{StreamTemplatesServe, TemplatesServe};
ghost use Rattle.tinkey_readable.specs.StreamFiles.{StreamsWholeOrAbsent};
ghost use Rattle.tinkey_readable.specs.StreamRuns.{RunsOpenStream, RunsOpenStreamPresent};

use envelopes::laws::{envelope_back, envelope_resealed, envelopes_fit, standard_data_keys};
use keyset_json::laws::{json_back, json_is_stored};
use keyset_model::laws::{binary_back, faultless_keysets, read_keysets_fit};
use seal_wrap::laws::{sealings_fit, text_hides_keys, wrap_back_bytes};
use segment_stream::laws::{
    decided_stays, range_is_slice, released_prefix, resealed_back, stream_back,
};
use tinkey_cmds::laws::edits_keep_keysets;
use tinkey_plans::laws::{commands_are_whole, done_exactly, fit_keysets_answer};
use tinkey_session::laws::{
    edited_kept, kept_dopen, kept_dopen_present, kept_open, kept_open_present, kept_tag,
    saved_before_sealing, saves_are_turns, session_dopens, session_dopens_present,
    session_is_edits, session_opens, session_opens_present, session_verifies, sound_kept,
    sound_usable, stored_kept,
};

/// The written form of a keyset without a fault, binary or JSON, reads back to it: in the binary
/// form if URL and value of each record together have at most 2^32 bytes, as two lists of 2^31
/// have, and in JSON whatever their sizes.
pub fn forms_back()
    ensures binary { BinaryBack }
    ensures json { JsonBack }
{
    binary_back();
    json_back();
}

/// A keyset that is read, in either form, meets the bounds of a record's types: ids of 32 bits,
/// URLs that are text, and values of bytes, short enough to be written.
pub fn read_is_stored()
    ensures { ReadIsStored }
{
    read_keysets_fit();
    json_is_stored();
}

/// The output of a run that passes a keyset on reads back, in its own form, to the keyset that the
/// run read, after the run's accepted edits. Such a run edits a keyset, converts it, or is a
/// session with a file for the last keyset.
pub fn run_step()
    ensures { RunStep }
{
    faultless_keysets();
    forms_back();
    edits_keep_keysets();
    stored_kept();
    saves_are_turns();
    session_is_edits();
    edited_kept();
    read_is_stored();
}

/// A keyset that one run wrapped under a master, and a later one unwrapped, is the keyset that the
/// first one read, in either form of the text and of both keysets, while the master has the key
/// that sealed, ENABLED and alone under its prefix.
pub fn wrap_step()
    ensures { WrapStep }
{
    faultless_keysets();
    forms_back();
    read_is_stored();
    wrap_back_bytes();
}

/// A keyset that one run wrapped under a master, any others passed on under masters, and a last one
/// unwrapped, is the keyset that the first one read, after the edits accepted on the way. The runs
/// in between edit it under a lock, convert it to another form, put it under another master, or are
/// a session with a file for the last keyset. Each of them, and the last one, opens the text under
/// a master that has the key that sealed it, ENABLED and alone under its prefix.
pub fn locks_step()
    ensures { LocksStep }
{
    faultless_keysets();
    forms_back();
    edits_keep_keysets();
    stored_kept();
    saves_are_turns();
    session_is_edits();
    edited_kept();
    read_is_stored();
    wrap_back_bytes();
}

/// A keyset passed on in this way to a master that serves still serves AEADs, DAEADs, MACs or
/// streams if the first one did. So commands with a lock are Done over it, and what was made under
/// a key opens or verifies while the key is there, as `kept_anywhere` says of each keyset that
/// serves.
pub fn locks_serve()
    ensures aead { LocksServe Aead }
    ensures daead { LocksServe Daead }
    ensures mac { LocksServe Mac }
    ensures streams { LocksServeStreams }
{
    faultless_keysets();
    forms_back();
    edits_keep_keysets();
    stored_kept();
    saves_are_turns();
    session_is_edits();
    edited_kept();
    read_is_stored();
    wrap_back_bytes();
    read_keysets_fit();
    sound_usable();
}

/// The same for a keyset that was created under a master, and was never in clear.
pub fn created_serve()
    ensures aead { CreatedServe Aead }
    ensures daead { CreatedServe Daead }
    ensures mac { CreatedServe Mac }
    ensures streams { CreatedServeStreams }
{
    faultless_keysets();
    forms_back();
    edits_keep_keysets();
    stored_kept();
    saves_are_turns();
    session_is_edits();
    edited_kept();
    read_is_stored();
    wrap_back_bytes();
    sound_usable();
}

/// The first keyset of a template that `list-key-templates` names for AEADs, deterministic AEADs or
/// MACs serves these, and one named for streams serves streams: so each command for which the
/// template is named accepts it, within its limits. Nothing is said of pseudo-random functions.
pub fn templates_serve()
    ensures aead { TemplatesServe Aead }
    ensures daead { TemplatesServe Daead }
    ensures mac { TemplatesServe Mac }
    ensures streams { StreamTemplatesServe }
{
    sound_usable();
    sound_kept();
}

/// What was wrapped under a key with a prefix unwraps to the keyset, after any runs that pass the
/// master on, while that key is ENABLED in the last master and alone under its prefix: a run that
/// reads the text there is Done if the name of its new file is free and, if JSON is asked for, the
/// JSON form is within the limit of a keyset. The binary form needs no such condition, since a
/// longer one isn't wrapped; but the JSON form of a keyset read in binary may be longer than what
/// can be read.
pub fn kept_wrapped()
    ensures { RunsUnwrap }
{
    kept_anywhere();
    run_step();
    locks_step();
    read_keysets_fit();
    session_is_edits();
    edited_kept();
    sound_usable();
}

/// For what a run of `seal`, `dseal`, `tag` or `eseal`, or except for `eseal` a line of a session,
/// made under a key with an output prefix, from a keyset in clear or under a master: over each
/// keyset that is accepted, in clear or under a master, `key-of` is Done and prints exactly the
/// records with that prefix, of any status, each with the key's id and output prefix type among
/// them; or it finds no key, if and only if there is none and none is RAW.
pub fn keys_are_named()
    ensures { KeysAreNamed }
{
    fit_keysets_answer();
    read_keysets_fit();
}

/// No run removes or changes a file, whatever its words and however it ends: a keyset in a file is
/// still there afterwards.
pub fn files_stay()
    ensures { FilesStay }
{}

/// A key with a prefix that is ENABLED and alone under it stays so, with the same id, prefix, URL
/// and value, over any list of runs with whatever outcome: edits, conversions, wrapping and
/// unwrapping, sessions, in clear or between wrapping and unwrapping under masters, and any others
/// while the keyset is in a file. The condition is that no accepted edit and no accepted line of a
/// session among them disables, destroys or deletes its id, or enables another key under its
/// prefix.
///
/// The runs are runs of the top call, over objects that report their contents; in a session no call
/// of the store fails. The drawn bytes and the first keyset's file are bytes.
pub fn kept_by_commands()
    ensures { KeptByCommands }
{
    run_step();
    read_is_stored();
    files_stay();
    faultless_keysets();
    forms_back();
    edits_keep_keysets();
    stored_kept();
    saves_are_turns();
    session_is_edits();
    edited_kept();
    wrap_back_bytes();
}

/// A keyset with distinct ids has distinct ids after any such runs, and create-keyset makes one, in
/// clear or under a master. In such a keyset only disable-key, destroy-key and delete-key of its
/// own id, as a command or a line of a session, remove a key with a prefix; and enable-key restores
/// it after a disable, since all that makes it is kept. It restores it under a master too, in a
/// keyset that one run wrapped or created there and that other runs took on under masters, each of
/// which has the key that sealed what it opens, ENABLED and alone under its prefix.
pub fn ids_stay_distinct()
    ensures apart { CommandIdsStayDistinct }
    ensures created { CreatedIdsAreDistinct }
    ensures created_under_lock { CreatedUnderLock }
    ensures kept { KeptByItsIdAlone }
    ensures stays { DataStaysByCommands }
    ensures back { GivenBackByEnable }
    ensures back_under_lock { GivenBackUnderLock }
{
    run_step();
    read_is_stored();
    files_stay();
    faultless_keysets();
    forms_back();
    edits_keep_keysets();
    stored_kept();
    saves_are_turns();
    session_is_edits();
    edited_kept();
    wrap_back_bytes();
}

/// What a run, a line of a session or a call of the library made under a key opens or verifies over
/// every keyset that is accepted for the primitive and in which that key is ENABLED and alone under
/// its prefix: a backup, a branch, another tool's copy. Nothing is required of the runs in between.
/// The run, line or call that sealed, with an IV or without, or tagged, and the one that opens or
/// verifies may each have its keyset in clear or under the lock of a master. While the key is
/// there, ENABLED, alone or not and of whatever prefix type, what was sealed opens to some
/// plaintext, and a tag verifies. For a stream, no other key before it may open the first segment,
/// since nothing in a stream identifies its key.
///
/// The session of such a line may save its keyset or not, and may end in any way after the line. A
/// call of the library uses a handle that was made from a keyset's text in either form, or from an
/// encrypted text and its master's text; what it sealed or tagged is within the limit of a run's
/// input. A call that opens or verifies gives the plaintext, or reports that an input is longer
/// than it takes, that the caller's bytes are fewer than the answer, or that memory couldn't be
/// allocated.
pub fn kept_anywhere()
    ensures opens { OpensAnywhere }
    ensures dopens { DopensAnywhere }
    ensures opens_somehow { OpensSomehowAnywhere }
    ensures dopens_somehow { DopensSomehowAnywhere }
    ensures verifies { VerifiesAnywhere }
    ensures opens_stream { OpensStreamAnywhere }
    ensures opens_first_segment { OpensFirstAnywhere }
    ensures opens_range { OpensRangeAnywhere }
    ensures opens_envelope { OpensEnvelopeAnywhere }
    ensures unwraps { UnwrapsAnywhere }
{
    read_is_stored();
    sealings_fit();
    read_keysets_fit();
    fit_keysets_answer();
    kept_open();
    kept_dopen();
    kept_open_present();
    kept_dopen_present();
    kept_tag();
    stream_back();
    range_is_slice();
    envelope_back();
    envelopes_fit();
    standard_data_keys();
    faultless_keysets();
    forms_back();
    wrap_back_bytes();
}

/// What a call of the library sealed under a key with a prefix opens to its plaintext, with its
/// associated data, by calls over every keyset of which there is a handle for AEADs and in which
/// that key is ENABLED and alone under its prefix, however long it is; and within the limit of a
/// run's input by runs and lines too, as `kept_anywhere` says. The same without an IV; and a tag
/// verifies so, while the key is there, ENABLED.
///
/// A handle is made of every keyset that a command for the primitive accepts, in clear or under a
/// master, unless memory can't be allocated; and each ENABLED record of a handle's keyset serves
/// the primitive.
pub fn library_texts_open()
    ensures opens { LibraryTextsOpen }
    ensures dopens { LibraryTextsDopen }
    ensures verifies { LibraryTagsVerify }
    ensures made { HandlesAreMade }
    ensures made_wrapped { WrappedHandlesAreMade }
    ensures serve { HandlesServe }
{
    kept_open();
    kept_dopen();
    kept_tag();
    kept_anywhere();
}

/// What calls of the library sealed as a stream, in pieces of whatever sizes, or a run of `sseal`
/// put out, and runs of `sreseal` then resealed any number of times or not at all, opens to its
/// plaintext with its associated data: by runs of `sopen`, and in ranges by runs of `srange`, over
/// every keyset that is accepted for streams; and by calls over every keyset of which there is a
/// handle for streams, in pieces of whatever sizes. In each of them the last key that sealed must
/// be ENABLED, and no other key before it may open the first segment.
///
/// No call with a piece of such a stream is refused. What was given after some pieces are the first
/// bytes of the plaintext, and the call at the end gives the rest; or the caller's bytes are fewer
/// than that, or memory couldn't be allocated.
///
/// A handle for streams is made of every keyset that `sseal` and `sopen` accept, in clear or under
/// a master, unless memory can't be allocated; and each ENABLED record of a handle's keyset gives a
/// key for streams.
pub fn library_streams_open()
    ensures opens { LibraryStreamsOpen }
    ensures made { StreamHandlesAreMade }
    ensures made_wrapped { WrappedStreamHandlesAreMade }
    ensures serve { StreamHandlesServe }
{
    stream_back();
    resealed_back();
    range_is_slice();
    decided_stays();
    released_prefix();
    read_keysets_fit();
}

/// What was sealed, and then resealed any number of times, opens to its plaintext with its
/// associated data over every keyset that is accepted for AEADs and in which the primary key of the
/// last resealing is ENABLED and alone under its prefix. Each resealing, by a run or by a line of a
/// session, was over a keyset in which the same held for the key of the previous text. The earlier
/// keys may then be gone. The same for `dseal` and `dreseal`.
pub fn resealed_opens()
    ensures opens { ResealedOpens }
    ensures dopens { ResealedDopens }
{
    sealings_fit();
    read_keysets_fit();
    fit_keysets_answer();
    kept_open();
    kept_dopen();
}

/// What was sealed in an envelope, and whose data key was then resealed any number of times, opens
/// to its plaintext with its associated data over every keyset that is accepted for AEADs and in
/// which the primary key of the last resealing is ENABLED and alone under its prefix. Each
/// resealing, by a run, was over a keyset in which the same held for the key of the envelope before
/// it. The earlier keys may then be gone. The templates make keys of the same type, and each keyset
/// is in clear or under the lock of a master.
pub fn resealed_envelopes_open()
    ensures { ResealedEnvelopesOpen }
{
    envelope_resealed();
    standard_data_keys();
    read_keysets_fit();
}

/// What was sealed as a stream, and then resealed any number of times, opens to its plaintext with
/// its associated data over every keyset that is accepted for streams and in which the primary key
/// of the last resealing is ENABLED, if no other key before it opens the first segment of the last
/// stream. Each resealing, by a run, was over a keyset in which the same held for the key of the
/// previous stream. The earlier keys may then be gone.
pub fn resealed_streams_open()
    ensures { ResealedStreamsOpen }
{
    stream_back();
    resealed_back();
    read_keysets_fit();
}

/// After such runs, what was made under a key that is ENABLED and alone under its prefix still
/// opens to what it was made from, or verifies for it, if the first keyset serves the primitive and
/// the runs spare the key: what was sealed, with an IV or without, tagged, sealed as a stream or in
/// an envelope, and a wrapped keyset. If ids are distinct, only disable-key, destroy-key and
/// delete-key of its own id make a key's texts unreadable.
pub fn texts_stay_readable()
    ensures commands { ReadsAfterCommands }
    ensures by_id { ReadsByItsIdAlone }
{
    kept_by_commands();
    ids_stay_distinct();
    kept_anywhere();
    run_step();
    locks_step();
    read_keysets_fit();
    session_is_edits();
    sound_usable();
    edited_kept();
}

/// What was sealed over a keyset opens, with its associated data, to its plaintext after any runs
/// that pass the keyset on, in clear or wrapped in between and edited there under masters, while
/// the key that sealed is ENABLED in the last keyset and alone under its prefix. While the key is
/// there, ENABLED, it opens to some plaintext, whatever the prefix type, and a tag verifies. The
/// sealed bytes or the tag may be in a new file, the tag in hexadecimal; the plaintext may go to a
/// new file, if its name is free.
pub fn kept_runs()
    ensures open { RunsOpen }
    ensures dopen { RunsDopen }
    ensures open_present { RunsOpenPresent }
    ensures dopen_present { RunsDopenPresent }
    ensures verify { RunsVerify }
{
    kept_anywhere();
    run_step();
    locks_step();
    read_keysets_fit();
    session_is_edits();
    edited_kept();
    sound_usable();
}

/// What was sealed in an envelope over a keyset opens to its plaintext after any such runs, with
/// its associated data and any template that makes keys of its data key's type, while the key that
/// sealed is ENABLED in the last keyset and alone under its prefix.
pub fn kept_envelopes()
    ensures { RunsOpenEnvelope }
{
    kept_anywhere();
    run_step();
    locks_step();
    read_keysets_fit();
    session_is_edits();
    edited_kept();
    sound_usable();
}

/// What was sealed as a stream over a keyset opens to its plaintext after any such runs, with its
/// associated data, while the key that sealed it is ENABLED in the last keyset, and no other key
/// before it there opens the stream's first segment, since `sopen` takes the first key that does.
/// While the key is there, ENABLED, the first segment opens, under that key or another one.
///
/// It need not be required that the last keyset gives keys for streams, since edits preserve that;
/// nor that the stream has at most 2^32 segments, since it was sealed.
pub fn kept_streams()
    ensures open { RunsOpenStream }
    ensures open_present { RunsOpenStreamPresent }
{
    kept_anywhere();
    run_step();
    locks_step();
    read_keysets_fit();
    session_is_edits();
    edited_kept();
}

/// From what was sealed as a stream over a keyset, `srange` gives slices of the plaintext after any
/// such runs, with its associated data, as `sopen` gives all of it, while the key that sealed it is
/// ENABLED in the last keyset, and no other key before it there opens the stream's first segment. A
/// range that ends past the plaintext is refused.
pub fn kept_ranges()
    ensures { RunsOpenRange }
{
    kept_anywhere();
    run_step();
    locks_step();
    read_keysets_fit();
    session_is_edits();
    edited_kept();
}

/// The same if what sealed or tagged, or what opens or verifies, may be a run of a command or a
/// line of a session. A session that sealed passes its keyset on; one that opens may be any. No
/// length is required: a session that is Done had short lines, and what they sealed is short as
/// well.
pub fn kept_lines()
    ensures open { MadeOpens }
    ensures dopen { MadeDopens }
    ensures open_present { MadeOpensPresent }
    ensures dopen_present { MadeDopensPresent }
    ensures verify { MadeVerifies }
{
    kept_anywhere();
    saves_are_turns();
    run_step();
    locks_step();
    read_keysets_fit();
    session_is_edits();
    edited_kept();
    sound_usable();
}

/// A line `save` of a session that is answered ok has made a file of that name, which is there
/// after the run: read back, it is the keyset as it was before that line; under a lock, each master
/// that still opens it gives that keyset. What lines of that session sealed, resealed or tagged,
/// before that line or after it, opens or verifies over that file if its ENABLED records serve the
/// primitive and it has the key, ENABLED and alone under its prefix; so it does if the key was the
/// primary one at both lines, and ids were distinct at first. While it has the key, ENABLED, what
/// was sealed opens to some plaintext, whatever the prefix type, and a tag verifies. What such a
/// line made is one of the texts that `kept_anywhere` and its kin speak of.
pub fn saved_lines()
    ensures clear { SavedInClear }
    ensures locked { SavedUnderMaster }
    ensures made { LinesMake }
{
    faultless_keysets();
    forms_back();
    read_is_stored();
    wrap_back_bytes();
    edits_keep_keysets();
    stored_kept();
    saves_are_turns();
    session_is_edits();
    edited_kept();
    kept_anywhere();
    sealings_fit();
    kept_open();
    kept_dopen();
}

/// In a session with the option `--saved`, however it ends, each output that a line sealed, resealed
/// or tagged was made over the keyset of the file that the session read, or over one that an
/// earlier line saved. So it is read over a file that is there after the run: what was sealed under
/// a key with a prefix opens to its plaintext if ids were distinct at first, whatever was sealed
/// opens to some plaintext, and a tag verifies. Under a lock it is so under the master, if its
/// primary key has a prefix and is alone under it.
pub fn saved_replies()
    ensures made { SavedReplies }
    ensures clear { SavedRepliesInClear }
    ensures locked { SavedRepliesUnderMaster }
{
    saved_before_sealing();
    faultless_keysets();
    forms_back();
    read_is_stored();
    wrap_back_bytes();
    edits_keep_keysets();
    stored_kept();
    saves_are_turns();
    session_is_edits();
    edited_kept();
    kept_anywhere();
    sealings_fit();
    kept_open();
    kept_dopen();
}

/// What a run of a session wrote, over a keyset in clear or under a lock, are the replies of turns,
/// which are readable under the standard managers: however the run ends, and also for each stated
/// answer. Lines that save the keyset are answered as the store did; and what one saved that was
/// answered ok is in a file of that name after the run, unless a write failed.
pub fn sessions_are_readable()
    ensures ended { SessionsAreReadable }
    ensures answered { AnswersAreReadable }
{
    session_opens();
    session_dopens();
    session_opens_present();
    session_dopens_present();
    session_verifies();
    saves_are_turns();
    read_keysets_fit();
}

/// An edit is answered Done if and only if its keyset is there, the edit is accepted, with a
/// template of the table and random bytes that suffice, the new keyset fits, and its name is free.
/// The same holds for a first keyset, without the old one, and for another form of a keyset,
/// without the edit; and a listing is Done if and only if the keyset is there.
///
/// A keyset is there if it is in clear, within its limit and well formed; under a lock, if the
/// master is there in this sense and can serve, and a text within its limit gives the keyset under
/// it. It fits if it is within the limit; under a master, if its binary form is, and the random
/// bytes suffice for a text of it that is within its own limit. So a keyset is wrapped or
/// unwrapped, or put under another master, if and only if it is there and fits, and both masters
/// are there. The laws below also hold under any lock.
pub fn edits_done()
    ensures { EditsDone }
{}

/// Work on a whole input is answered Done if and only if its keyset is there and fit for the work,
/// the input within its limit, the name of a new file free, and: for sealing, the random bytes
/// suffice for an IV; for opening and verifying, a candidate opens or has the tag; for deriving, no
/// more bytes are asked for than there can be.
pub fn works_done()
    ensures { WorksDone }
{
    fit_keysets_answer();
    done_exactly();
}

/// A stream is sealed to its end, and answered Done, if and only if the keyset is there, each
/// ENABLED record gives a key for streams, the name of a new file is free, the random bytes suffice
/// for salt and nonce prefix, and there are at most 2^32 segments. One is opened to its end, and
/// answered Done, if and only if under such a keyset's first key that opens the first segment each
/// segment opens in its place, the final one as the last, and the name of a new file is free. One
/// is resealed to its end, and answered Done, if and only if it opens so, the random bytes suffice,
/// and its plaintext makes at most 2^32 segments under the primary key.
pub fn streams_done()
    ensures { StreamsDone }
{}

/// A stream in a new file is whole or absent. If the stated answer of `sseal`, `sopen` or `sreseal`
/// with a new file is Done, its name was free, the answer without it is Done too, and the file has
/// exactly what that one puts out; otherwise no file has changed. Nothing goes to standard output.
/// What stands after a fault is part `stands` of `run`, as for each command that writes only at its
/// end.
pub fn streams_whole_or_absent()
    ensures { StreamsWholeOrAbsent }
{
    commands_are_whole();
    streams_done();
}

/// A range of a stream is opened, and answered Done, if and only if such a keyset and the stream
/// are there, the final segment and those that cover the range open under the first key that opens
/// the first one, the range ends within the plaintext, and the name of a new file is free.
pub fn ranges_done()
    ensures { RangesDone }
{}

/// A session is answered Done if and only if the keyset is there, the name of a new file free and
/// no line has saved the keyset under it, the lines and their number within their limits, the
/// random bytes suffice for them, and the last keyset, if it is to be saved, fits with the random
/// bytes left.
pub fn sessions_done()
    ensures { SessionsDone }
{}

/// An envelope is sealed, opened or resealed, and answered Done, if and only if the template is of
/// the table and makes keys of AEADs that have a manager, the keyset is there and fit, the input
/// within its limit, the name of a new file free, and: for sealing, the random bytes suffice and
/// the data key breaks no rule; for opening, it opens; for resealing, its data key opens, and the
/// random bytes suffice.
pub fn envelopes_done()
    ensures { EnvelopesDone }
{}

/// `key-of` is answered Done if and only if the keyset is there, and: for a text or a tag, the
/// output prefix of one of its records, of any status, is in front of the input, or one of them is
/// RAW; for an envelope, the same after the first four bytes; for a stream, each ENABLED record
/// gives a key for streams, and one of these opens the first segment.
pub fn key_of_done()
    ensures { KeyOfDone }
{
    fit_keysets_answer();
}

/// A listing doesn't depend on key messages and key material types: list-keyset prints the same for
/// two keysets that differ only in these, each in clear or under a lock. Standard error depends
/// only on the command that the words name, on whether they name a file to make, and on the status,
/// which holds places, ids, counts, numbers and this program's names, and no byte of a key or a
/// plaintext. So both may be shown to others.
pub fn listing_hides_keys()
    ensures listing { ListingHidesKeys }
    ensures listed { ListedAlike }
    ensures reports { ReportsGoByStatus }
{}

/// A run that puts a keyset under a master reveals of it, in all its output, only its info and
/// sealed bytes: the new file, or standard output if no file is named, is one text made from these
/// two alone, and nothing else is new. This holds for create-keyset, each edit and convert-keyset;
/// for each file that a line of a session asks for, however the session ends; and for a session at
/// its end, whose output is the replies to its lines. A refused run of the former puts out nothing,
/// and one in which a write or the store fails at most the first bytes of that text (`stands` of
/// run). Two keysets that differ only in key messages and key material types, with
/// binary forms of the same length, have texts that differ only in the sealed bytes, of the same
/// length; list-keyset prints the same for both.
pub fn locked_runs_hide()
    ensures puts { LockedRunsPut }
    ensures lines { LockedLinesSave }
    ensures saves { LockedSessionsSave }
    ensures alike { SealedAlike }
{
    text_hides_keys();
    saves_are_turns();
}
