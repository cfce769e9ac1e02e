//! Laws of the words. Each is the contract of a function with no effect.

ghost use Rattle.tinkey_words.specs.Grammar.{DashesAreLeftOut, KeysAreAsked, MisusesAreTrue, PlacesAreDecided, WordsAreSpelled};

/// A word at fault, and the reason, depend only on the words up to it.
pub fn places_are_decided()
    ensures { PlacesAreDecided }
{}

/// Words are accepted as a request if and only if they spell it: a command's word, then options
/// that fit its row, each as `--name value` or `--name=value`, in any order; or words that ask for
/// help or for the version.
pub fn words_are_spelled()
    ensures { WordsAreSpelled }
{}

/// `--in -` and `--out -` mean the same as leaving them out: standard input and standard output.
pub fn dashes_are_left_out()
    ensures { DashesAreLeftOut }
{}

/// A command whose row has a primitive asks for keys of it, of the keyset that it uses or of the
/// master under which it wraps or unwraps one; and each command that uses the keys of a keyset for
/// one primitive has it in its row. So `list-key-templates --for` names what serves the command.
pub fn keys_are_asked()
    ensures { KeysAreAsked }
{}

/// The reason reported for refused words is true of the word at fault and the words before it.
pub fn misuses_are_true()
    ensures { MisusesAreTrue }
{}
