//! Edits of a keyset, and why they are refused.

ghost use Rattle.std.specs.Prelude.{◌≡◌};

use key_msgs::Rule;
use tink_base::NoMemory;

/// An edit of a keyset, with a template or a template's name. An id names the first record that has
/// it.
#[derive(Clone, Copy)]
pub enum KeysetEdit<T> {
    /// Adds a new key of this template at the end.
    Add(T),
    /// The same, and makes the new key primary.
    Rotate(T),
    /// Makes this key primary.
    Promote(u32),
    /// Makes this key ENABLED.
    Enable(u32),
    /// Makes this key DISABLED.
    Disable(u32),
    /// Makes this key DESTROYED, and removes its key data.
    Destroy(u32),
    /// Removes this key.
    Delete(u32),
}

/// Why an edit is refused.
#[derive(Clone, Copy, Debug, PartialEq, Eq)]
pub enum EditRefusal {
    /// No record has the id.
    KeyNotFound,
    /// The id is the primary id.
    KeyIsPrimary,
    /// The record to make primary isn't ENABLED.
    KeyNotEnabled,
    /// The record is DESTROYED.
    KeyDestroyed,
    /// The first rule that the key message of the record to enable breaks.
    KeyRefused(Rule),
    /// The key's primitive differs from the primary key's.
    MixedPrimitive,
    /// None of 64 draws gave a new id.
    IdsExhausted,
    /// The keyset has 1,000 records already.
    TooManyKeys,
    /// An ENABLED record would be primary beside another one.
    AmbiguousPrimary,
}

/// Why an edit gives no keyset.
#[derive(Clone, Copy, Debug, PartialEq, Eq)]
pub enum EditError {
    /// The edit is refused.
    Refused(EditRefusal),
    /// The entropy failed.
    EntropyFault,
    /// Memory couldn't be allocated.
    NoMemory,
}

impl From<NoMemory> for EditError {
    ghost use Rattle.tinkey_cmds.specs.declared.command.EditError.TheVariants as errors;

    ghost from_gives = { λ _ error. error ≡ errors.NoMemory };

    fn from(_error: NoMemory) -> EditError {
        EditError::NoMemory
    }
}
