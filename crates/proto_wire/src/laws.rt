//! Laws of the definitions of the wire. Each is the contract of a function with no effect.

ghost use Rattle.proto_wire.specs.Laws.{CuttingIsSpelling};
ghost use Rattle.proto_wire.specs.Written.{VarintsAreShort, WrittenIsCutBack};

/// Cutting a part gives its fields, or the place of the first field at fault, as the relations say.
pub fn cutting_is_spelling()
    ensures { CuttingIsSpelling }
{}

/// A written varint means its number, and no varint of that number is shorter.
pub fn varints_are_short()
    ensures { VarintsAreShort }
{}

/// A written field is cut back into itself, whatever follows it.
pub fn written_is_cut_back()
    ensures { WrittenIsCutBack }
{}
