//! Laws of the definitions. Each is the contract of a function with no effect.

ghost use Rattle.random_draws.specs.Runs.{MovedAreSame, OrderedAreApart, RunsDraw, RunsDrawInOrder};
ghost use Rattle.random_draws.specs.Sessions.{IvsApart, IvsAreDrawn, IvsStandInReplies, NewKeysAreDrawn};
ghost use Rattle.random_draws.specs.Sessions.{NoByteServesTwice, SlicesAreAll, SlicesAreSettled};
ghost use Rattle.random_draws.specs.Sessions.{SlicesApart, SlicesAreWithin, SlicesFollow, SlicesGoOn, TurnsHaveSlices};
ghost use Rattle.tinkey_cmds.specs.Edits.{Add, Rotate};

use tinkey_session::laws::saves_are_turns;

/// Every random byte of a run is used at most once. What a run makes from random bytes (IV, key,
/// id, data key, the salt and nonce prefix of a stream) is made from slices of the entropy's bytes,
/// which follow one another: in one run, over all lines of a session, and over runs that continue
/// with one entropy, whatever fails in them. So an IV occurs twice only if the device repeats
/// itself.
///
/// `run` and `runs` are about an entropy that reports its bytes. Bytes may be drawn and not used;
/// none of those is used later.
pub fn draws_apart()
    ensures run { RunsDraw }
    ensures runs { RunsDrawInOrder }
    ensures apart { OrderedAreApart }
    ensures moved { MovedAreSame }
{
    slices_are_settled();
    saves_are_turns();
}

/// The slices of a session follow one another from its first random byte on, without gaps, and it
/// leaves the bytes after them. A line is answered from the bytes after the slices of the lines
/// before it.
pub fn slices_follow()
    ensures follow { SlicesFollow }
    ensures within { SlicesAreWithin }
    ensures all { SlicesAreAll }
    ensures turns { TurnsHaveSlices }
    ensures more { SlicesGoOn }
{}

/// No random byte is in two slices of a session.
pub fn slices_apart()
    ensures slices { SlicesApart }
    ensures bytes { NoByteServesTwice }
{}

/// The IV in the reply to a line `seal` or `reseal` is a slice of its own, and the IVs of two such
/// lines have no byte in common.
pub fn ivs_are_drawn()
    ensures sealed { IvsAreDrawn }
    ensures replies { IvsStandInReplies }
    ensures apart { IvsApart }
{}

/// The id of a new key in a session is a slice of four bytes of its line, and the key is the next
/// slice.
pub fn new_keys_are_drawn()
    ensures add { NewKeysAreDrawn Add }
    ensures rotate { NewKeysAreDrawn Rotate }
{}

/// If the random bytes suffice for a session, further ones change neither its turns nor its slices.
pub fn slices_are_settled()
    ensures { SlicesAreSettled }
{}
