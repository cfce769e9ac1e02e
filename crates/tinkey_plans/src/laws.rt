//! Laws of what the program answers. Each is the contract of a function with no effect.

ghost use Rattle.tinkey_plans.specs.Going.{DoneExactly, FitKeysetsSeal};
ghost use Rattle.tinkey_plans.specs.Naming.{KeyOfStreamTells, KeyOfTells, SealersAreNamed};
ghost use Rattle.tinkey_plans.specs.Retiring.{RetiringLosesNothing};
ghost use Rattle.tinkey_plans.specs.Laws.{CommandsAreWhole, DataKeysCome, FitKeysetsAnswer, RangesReadLittle, SelfTestRuns, SelfTestsTell};

use envelopes::laws::standard_data_keys;
use tinkey_selftest::laws::{counts_add_up, entropy_suffices, nothing_is_lost};

/// A keyset without a fault whose ENABLED records can all serve has a primary key under its table,
/// which gives an answer for every input. If each gives a key for streams, it has its keys for
/// streams.
pub fn fit_keysets_answer()
    ensures { FitKeysetsAnswer }
{}

/// Every command except those of streams and the session writes only at its end.
pub fn commands_are_whole()
    ensures { CommandsAreWhole }
{}

/// A self-test is Done and reports the counts of its lines, which add up to their number, with none
/// lost under the standard managers; or it is refused, if and only if the first 64 32-bit numbers
/// among its seed's random bytes are 0, and so no ids. A run of it may also fail while writing
/// them, or lack memory.
pub fn self_tests_tell()
    ensures stated { SelfTestsTell }
    ensures runs { SelfTestRuns }
{
    counts_add_up();
    nothing_is_lost();
    entropy_suffices();
}

/// The stated answer of a command is Done if and only if none of its steps refuses. Sealing is one
/// of them: over a keyset that can serve, it doesn't refuse if and only if the random bytes suffice
/// for an IV.
pub fn done_exactly()
    ensures commands { DoneExactly }
    ensures seals { FitKeysetsSeal }
{}

/// Under the standard managers no run of `eseal`, `eopen` or `ereseal` lacks a manager for the data
/// key, and no data key is refused, whatever fails.
pub fn data_keys_come()
    ensures { DataKeysCome }
{
    standard_data_keys();
}

/// A run of `srange` reads at most the bytes of a keyset within its limit, those of its master if
/// it has one, and for the range: two segments of the largest size under the keyset's keys, plus as
/// many as cover the range under the chosen key; only two if the range ends past the plaintext.
/// Without keys for streams it reads only the keyset and its master.
pub fn ranges_read_little()
    ensures { RangesReadLittle }
{}

/// For what a primary key with an output prefix sealed, tagged, or sealed in an envelope, `key-of`
/// names exactly the records with that prefix, of any status and in any keyset; so every one with
/// its id and output prefix type. It is refused if and only if it names none and no record is RAW.
pub fn key_of_tells()
    ensures { KeyOfTells }
{}

/// For a stream `key-of` names the record under whose key `sopen` with the same associated data
/// goes on, and no other: the keyset's first ENABLED one whose key opens the first segment in its
/// place. It finds no key if and only if `sopen` refuses that segment.
pub fn key_of_stream_tells()
    ensures { KeyOfStreamTells }
{}

/// Disabling, destroying or deleting a key that `key-of` doesn't name for a text, tag or envelope,
/// and that isn't RAW, doesn't change what that opens to; nor what a stream opens to for which it
/// names a key with another id, or no key.
pub fn retiring_loses_nothing()
    ensures { RetiringLosesNothing }
{}

/// The second line for what no key opens names one of the records that `key-of` names, an ENABLED
/// one if any of them is. It says that there is none if and only if `key-of` names none.
pub fn sealers_are_named()
    ensures { SealersAreNamed }
{}
