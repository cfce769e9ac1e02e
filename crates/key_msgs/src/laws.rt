//! Laws of the definitions of keys. Each is the contract of a function with no effect.

ghost use Rattle.key_msgs.specs.Templates.{MadeKeysAreValid};
ghost use Rattle.key_msgs.specs.Writing.{KeysReadBack};

/// The message of a key that keeps the rules, with lists of at most 2^31 bytes each, reads back to
/// that key under its own type.
pub fn key_back()
    ensures { KeysReadBack }
{}

/// Each template of the table, with as many random bytes as it takes, makes a key that keeps every
/// rule of its type.
pub fn made_is_valid()
    ensures { MadeKeysAreValid }
{}
