//! Laws of the definitions. Each is the contract of a function with no effect.

ghost use Rattle.tinkey_cmds.specs.Laws.{EditsDrawFronts, EditsFollow, EditsKeepBounds, EditsKeepKeysets, EditsKeepThePrimary, EditsLeaveOthers, FirstsAreKeysets, FirstsHaveBounds, RefusalsDrawNothing};

/// An accepted edit of a keyset without a fault gives a keyset without a fault, and a new keyset
/// has no fault.
pub fn edits_keep_keysets()
    ensures edits { EditsKeepKeysets }
    ensures firsts { FirstsAreKeysets }
{}

/// An accepted edit keeps the bounds of records, and the record of a new keyset meets them: ids of
/// 32 bits, URLs that are text, and at most 2^32 bytes of URL and value together.
pub fn edits_keep_bounds()
    ensures edits { EditsKeepBounds }
    ensures firsts { FirstsHaveBounds }
{}

/// Each record of an edited keyset is an old one, perhaps with another status, an old one
/// destroyed, or the one new record, whose id isn't 0 and wasn't in use.
pub fn edits_follow()
    ensures { EditsFollow }
{}

/// An accepted edit leaves every record that it doesn't name unchanged and in place: a new record
/// is added at the end, and of the records with an id only the first one changes or is removed.
pub fn edits_leave_others()
    ensures { EditsLeaveOthers }
{}

/// Only Promote and Rotate change the primary id: to the id of the record named, and to the new
/// record's.
pub fn edits_keep_the_primary()
    ensures { EditsKeepThePrimary }
{}

/// An edit depends on no random byte after those that it draws.
pub fn edits_draw_fronts()
    ensures { EditsDrawFronts }
{}

/// A refused edit draws nothing, unless it is refused because no draw gave a new id.
pub fn refusals_draw_nothing()
    ensures { RefusalsDrawNothing }
{}
