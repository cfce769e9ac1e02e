//! Laws of the definitions. Each is the contract of a function with no effect.

ghost use Rattle.key_msgs.specs.declared.primitive.Primitive.TheVariants.{Aead, Daead, Mac};
ghost use Rattle.tinkey_session.specs.KeptKeys.{AllIdsStayDistinct, DataStays, EnableGivesBack, EnabledIsAlone, FirstsHaveDistinctIds, IdsStayDistinct, KeptByAllEdits, KeptByEdits, KeptByItsId, NoOtherToEnable};
ghost use Rattle.tinkey_session.specs.KeptLines.{KeptByLines, KeptBySession, LineIdsStayDistinct, LinesOfOthersSpare, SessionDataStays, SessionIdsStayDistinct};
ghost use Rattle.tinkey_session.specs.HeldLaws.{EditsKeepStored, FirstsAreStored, SessionsKeepStored};
ghost use Rattle.tinkey_session.specs.Laws.{EditedIsKeyset, EditedIsSound, EditsKeepSound, FirstsAreSound};
ghost use Rattle.tinkey_session.specs.Laws.{KeptDopen, KeptDopenPresent, KeptOpen, KeptOpenPresent, KeptTag, SoundIsUsable};
ghost use Rattle.tinkey_session.specs.LineLaws.{FirstsDrawFew, LinesDrawFew, LinesDrawFronts, LinesOpen, LinesOpenPresent};
ghost use Rattle.tinkey_session.specs.LineLaws.{RefusalsLeave, TellsNewId, WordsReadBack};
ghost use Rattle.tinkey_cmds.specs.Edits.{Add, Rotate};
ghost use Rattle.tinkey_cmds.specs.Laws.{EditsFollow, EditsLeaveOthers};
ghost use Rattle.tinkey_session.specs.SessionLaws.{LinesGoOn, SessionGoesOn, SessionIsEdits, SessionVerifies};
ghost use Rattle.tinkey_session.specs.SessionLaws.{SessionDopens, SessionDopensPresent, SessionOpens, SessionOpensPresent};
ghost use Rattle.tinkey_session.specs.SessionLaws.{TurnIsEdits, TurnsAreLines, TurnsAreSpelled};
ghost use Rattle.tinkey_session.specs.TalkLaws.{NothingIsSaved, SavedBeforeSealing, SavesAreBefore, SavesAreSteady, SavesAreTold, SavesAreTurns, TalkIsTurns, TalksAreSteady};

use key_msgs::laws::made_is_valid;
use tinkey_cmds::laws::{edits_follow, edits_leave_others};
use wrapped_prims::laws::{
    enabled_key_dopens, enabled_key_opens, same_key_dopens, same_key_opens, same_key_verifies,
};

/// No record of a keyset is unfit under the standard table if and only if the keyset is sound: each
/// ENABLED record has the URL of a key type for the primitive, and a valid key of that type.
pub fn sound_usable()
    ensures aead { SoundIsUsable Aead }
    ensures daead { SoundIsUsable Daead }
    ensures mac { SoundIsUsable Mac }
{}

/// An accepted edit of a sound keyset gives a keyset sound for the same primitive, and a new keyset
/// is sound for its template's.
///
/// Each record of an edited keyset is an old one, perhaps with another status, an old one
/// destroyed, or the one new record, whose id isn't 0 and wasn't in use; a record that the edit
/// doesn't name is unchanged and in its place.
pub fn sound_kept()
    ensures edits { EditsKeepSound }
    ensures firsts { FirstsAreSound }
    ensures follow { EditsFollow }
    ensures others { EditsLeaveOthers }
{
    made_is_valid();
    edits_follow();
    edits_leave_others();
}

/// After any edits, accepted or refused, a keyset is still a keyset, and a sound one is sound for
/// the same primitive.
pub fn edited_kept()
    ensures keysets { EditedIsKeyset }
    ensures sound { EditedIsSound }
{
    sound_kept();
}

/// What a keyset sealed opens, with the same associated data, to the plaintext under any keyset,
/// also one after edits, accepted or refused, in which the key that sealed is ENABLED and alone
/// under its prefix. The key isn't RAW.
pub fn kept_open()
    ensures { KeptOpen }
{
    same_key_opens();
}

/// The same for sealing without an IV.
pub fn kept_dopen()
    ensures { KeptDopen }
{
    same_key_dopens();
}

/// What was sealed under a key of any output prefix type opens to some plaintext while the key is
/// there, ENABLED.
pub fn kept_open_present()
    ensures { KeptOpenPresent }
{
    enabled_key_opens();
}

/// The same for sealing without an IV.
pub fn kept_dopen_present()
    ensures { KeptDopenPresent }
{
    enabled_key_dopens();
}

/// A tag verifies after any edits while the keyset has the key that made it, ENABLED. The key may
/// be of any output prefix type.
pub fn kept_tag()
    ensures { KeptTag }
{
    same_key_verifies();
}

/// A key with a prefix that is ENABLED and alone under it stays so, with the same id, prefix, URL
/// and value, over any edits, accepted or refused, if no accepted one disables, destroys or deletes
/// its id, or enables another key under its prefix.
pub fn kept_by_edits()
    ensures one { KeptByEdits }
    ensures all { KeptByAllEdits }
{}

/// A keyset whose ids are distinct has distinct ids after any edits, accepted or refused, since a
/// new key has an id that no record has; so has a new keyset. No edit of such a keyset enables
/// another key under the prefix of one that is ENABLED and alone under it, so only an accepted edit
/// that disables, destroys or deletes its own id removes that key.
pub fn edits_keep_ids_distinct()
    ensures one { IdsStayDistinct }
    ensures all { AllIdsStayDistinct }
    ensures firsts { FirstsHaveDistinctIds }
    ensures no_other { NoOtherToEnable }
    ensures kept { KeptByItsId }
{}

/// If ids are distinct, each ENABLED key with a prefix is alone under it, and an edit that enables
/// a key restores it: all that makes it is kept over any edits and lines that don't destroy or
/// delete its id, even if they disable it.
pub fn enable_gives_back()
    ensures alone { EnabledIsAlone }
    ensures stays { DataStays }
    ensures session { SessionDataStays }
    ensures back { EnableGivesBack }
{}

/// A key with a prefix that is ENABLED and alone under it stays so over a session, before each line
/// and in the last keyset, if no accepted line disables, destroys or deletes its id, or enables
/// another key under its prefix. Distinct ids stay distinct; and if they are, only lines with its
/// own id matter.
pub fn kept_by_session()
    ensures turns { KeptByLines }
    ensures last { KeptBySession }
    ensures apart { LineIdsStayDistinct }
    ensures apart_last { SessionIdsStayDistinct }
    ensures others { LinesOfOthersSpare }
{}

/// A session's keyset, before each line and at the end, is the first one after some edits.
pub fn session_is_edits()
    ensures last { SessionIsEdits }
    ensures each { TurnIsEdits }
{}

/// Each turn is the turn of the input's line at the same place, as spelled there, and a text
/// continues line by line.
pub fn turns_are_lines()
    ensures turns { TurnsAreLines }
    ensures spelled { TurnsAreSpelled }
    ensures lines { LinesGoOn }
{}

/// Accepted edits, first keysets and sessions keep the bounds of a record's types: an id of 32
/// bits, a URL that is text, URL and value short enough to be written, and a value of bytes. The
/// random bytes are bytes too.
pub fn stored_kept()
    ensures edits { EditsKeepStored }
    ensures firsts { FirstsAreStored }
    ensures sessions { SessionsKeepStored }
{}

/// A session over more lines is a session over the first of them, then one over what it left.
pub fn session_goes_on()
    ensures { SessionGoesOn }
{}

/// A refused line leaves the keyset unchanged.
pub fn refusals_leave()
    ensures { RefusalsLeave }
{}

/// An accepted line `add` or `rotate` answers the id of the new record, which is the last one.
pub fn new_ids_are_told()
    ensures add { TellsNewId Add }
    ensures rotate { TellsNewId Rotate }
{}

/// A line depends on no random byte after those that it draws.
pub fn lines_draw_fronts()
    ensures { LinesDrawFronts }
{}

/// With 320 random bytes a line over a keyset is answered, and draws no more; the same for a
/// template's first keyset.
pub fn lines_draw_few()
    ensures lines { LinesDrawFew }
    ensures firsts { FirstsDrawFew }
{}

/// A line `open` with the same associated data answers what a line `seal` gave with its plaintext,
/// after any edits, while the key that sealed is ENABLED in the keyset and alone under its prefix.
/// The key isn't RAW.
pub fn lines_open()
    ensures { LinesOpen }
{
    sound_usable();
    sound_kept();
    kept_open();
}

/// A line `open` answers what a line `seal` gave with some plaintext, after any edits, while the
/// keyset has the key that sealed, ENABLED. The key may be of any output prefix type.
pub fn lines_open_present()
    ensures { LinesOpenPresent }
{
    sound_usable();
    sound_kept();
    kept_open_present();
}

/// A word that spells bytes in lower case is read as those bytes.
pub fn words_read_back()
    ensures { WordsReadBack }
{}

/// A later line `open` with the same associated data answers what a line `seal` gave with its
/// plaintext while the key that sealed is ENABLED in the keyset and alone under its prefix. The key
/// isn't RAW.
pub fn session_opens()
    ensures { SessionOpens }
{
    lines_open();
}

/// The same for `dseal` and `dopen`.
pub fn session_dopens()
    ensures { SessionDopens }
{
    sound_usable();
    sound_kept();
    kept_dopen();
}

/// A later line `open` answers what a line `seal` gave with some plaintext while the keyset has the
/// key that sealed, ENABLED. The key may be of any output prefix type.
pub fn session_opens_present()
    ensures { SessionOpensPresent }
{
    lines_open_present();
}

/// The same for `dseal` and `dopen`.
pub fn session_dopens_present()
    ensures { SessionDopensPresent }
{
    sound_usable();
    sound_kept();
    kept_dopen_present();
}

/// A later line `verify` accepts what a line `tag` gave while the keyset has the key that made it,
/// ENABLED. The key may be of any output prefix type.
pub fn session_verifies()
    ensures { SessionVerifies }
{
    sound_usable();
    sound_kept();
    kept_tag();
}

/// The random bytes that a session over bytes draws settle it, and past a limit nothing that
/// follows matters.
pub fn talks_are_steady()
    ensures { TalksAreSteady }
{}

/// So do they settle a session that saves its keyset, whatever the store answers.
pub fn saves_are_steady()
    ensures { SavesAreSteady }
{}

/// The replies of a session over bytes are the replies of its lines' turns. Each line has a turn,
/// unless the random bytes run out or a limit is passed.
pub fn talk_is_turns()
    ensures { TalkIsTurns }
{}

/// The same of a session that saves its keyset: each line that saves it is answered as the form and
/// the store have it, and the files asked for are those of the answered lines.
pub fn saves_are_turns()
    ensures { SavesAreTurns }
{}

/// A session with `NoWriter` is the session that saves nothing, and leaves its store as it was.
pub fn nothing_is_saved()
    ensures { NothingIsSaved }
{}

/// Over a store that reports its files, and doesn't fail in it, a session that saves is determined by
/// these files, the input and the random bytes; then the store has the files that were made, too.
pub fn saves_are_told()
    ensures { SavesAreTold }
{}

/// The file that a line asks for is the keyset before it, written.
pub fn saves_are_before()
    ensures { SavesAreBefore }
{}

/// In a session that seals only what is saved, a line that seals or tags does so under the first
/// keyset, or under one that an earlier line saved.
pub fn saved_before_sealing()
    ensures { SavedBeforeSealing }
{}
