//! An entropy that holds the bytes that come next.

ghost use Rattle.std.specs.Prelude.{◌≡◌, ◌≤◌, ℕ, List, length, take, IfSome};
ghost use Rattle.tink_spec.specs.Outside.{Drew, Stood};

use crate::Entropy;

/// An entropy that may hold the bytes that come next. Using held bytes can't fail.
pub trait Lookahead: Entropy {
    /// The bytes that are held.
    ghost held: { Self → List ℕ };

    /// The bytes that are held; this uses none of them. If the entropy reports its bytes, these are
    /// the first of the bytes left.
    fn held(&self) -> &[u8]
        ensures bytes { result.now ≡ held self.now }
        ensures front { IfSome (Self.state self.now).left (λ left.
            take (length (held self.now)) left ≡ held self.now) };

    /// Draws `count` of the held bytes without returning them.
    fn skip(&mut self, count: usize)
        requires within { count ≤ length (held self.old) }
        ensures drew { Drew (Self.state self.old) (Self.state self.new)
            (take count (held self.old)) }
        ensures stood { Stood (Self.state self.old).faults (Self.state self.new).faults };
}
