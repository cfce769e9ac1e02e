//! The nesting depth of a text's lists and objects, checked before it is read.
//!
//! `serde_json` reads nested values by recursion, up to 127 levels, for which a stack of 64 KiB has
//! no room. What is read here nests at most 32 deep; Tink's keysets nest 4 deep.

ghost use Rattle.std.specs.Prelude.{◌≡◌, ◌≤◌, List, ℕ, ◌∷◌, ◌&&◌, IfSome};
ghost use Rattle.keyset_json.specs.Nesting.{opens, closes, is_outside, next, nests_within, is_shallow, goes_on, most_levels};

/// The most levels of lists and objects that a text may have.
const MOST: usize = 32;

/// Where a byte is relative to strings.
#[derive(Clone, Copy)]
pub(crate) enum Quoting {
    /// Outside strings.
    Outside,
    /// In one, or at its end.
    Inside,
    /// In one, after a backslash.
    Escaped,
}

impl Quoting {
    /// Whether no string is open.
    fn is_outside(self) -> bool
        ensures { result ≡ is_outside self }
    {
        match self {
            Quoting::Outside => true,
            Quoting::Inside => false,
            Quoting::Escaped => false,
        }
    }

    /// The state of the byte after this one.
    fn next(self, byte: u8) -> Quoting
        ensures { result ≡ next self byte }
    {
        match self {
            Quoting::Outside => {
                if byte == b'"' {
                    Quoting::Inside
                } else {
                    Quoting::Outside
                }
            }
            Quoting::Inside => {
                if byte == b'"' {
                    Quoting::Outside
                } else if byte == b'\\' {
                    Quoting::Escaped
                } else {
                    Quoting::Inside
                }
            }
            Quoting::Escaped => Quoting::Inside,
        }
    }
}

/// How many levels are open before a byte, and where it is relative to strings.
#[derive(Clone, Copy)]
pub(crate) struct Levels {
    level: usize,
    quoting: Quoting,
}

impl Levels {
    /// Whether the byte opens a level.
    fn opens(self, byte: u8) -> bool
        ensures { result ≡ (is_outside self.quoting && opens byte) }
    {
        self.quoting.is_outside() && (byte == b'[' || byte == b'{')
    }

    /// Whether the byte closes one.
    fn closes(self, byte: u8) -> bool
        ensures { result ≡ (is_outside self.quoting && closes byte) }
    {
        self.quoting.is_outside() && (byte == b']' || byte == b'}')
    }

    /// The levels after this byte; `None` if it opens one too many.
    fn after(self, byte: u8) -> Option<Levels>
        requires level_bound { self.level ≤ most_levels }
        ensures level { IfSome result (λ levels. levels.level ≤ most_levels) }
        ensures goes_on { (xs : List ℕ) →
            nests_within most_levels self.level self.quoting (byte ∷ xs) ≡ goes_on result xs }
    {
        let (level, quoting) = (self.level, self.quoting.next(byte));
        if self.opens(byte) {
            if level < MOST {
                Some(Levels {
                    level: level + 1,
                    quoting,
                })
            } else {
                None
            }
        } else if self.closes(byte) {
            Some(Levels {
                level: level.saturating_sub(1),
                quoting,
            })
        } else {
            Some(Levels { level, quoting })
        }
    }
}

/// Whether the lists and objects of a text nest at most 32 deep. Brackets and braces in strings
/// don't count.
pub(crate) fn is_shallow(text: &[u8]) -> bool
    ensures { result ≡ is_shallow text.now }
{
    let mut levels = Levels {
        level: 0,
        quoting: Quoting::Outside,
    };
    for byte in text {
        match levels.after(*byte) {
            Some(behind) => levels = behind,
            None => return false,
        }
    }
    true
}
