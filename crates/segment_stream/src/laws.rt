//! Laws of the definitions of streams. Each is the contract of a function with no effect.

ghost use Rattle.segment_stream.specs.Laws.{DecidedStays, HoldsMore, KeysAreCiphers};
ghost use Rattle.segment_stream.specs.Laws.{OpensOneMore, PassAnswers, PiecesAnswer, PiecesAreAll, RangeIsSlice, ReleasedPrefix, SealedLength};
ghost use Rattle.segment_stream.specs.Laws.{RefusedEarly, RefusedUnfinished, ResealPassAnswers, ResealStays, ResealedBack};
ghost use Rattle.segment_stream.specs.Laws.{SealPassAnswers, SealedPrefix, SealsOneMore, StandsReleased, StreamBack, TooManyOutput, TrialsInOrder, SchemesAreCiphers};

/// The pieces, joined, are all the bytes.
pub fn pieces_are_all()
    ensures { PiecesAreAll }
{}

/// Keys that are decided and don't fit are skipped, in order.
pub fn trials_in_order()
    ensures { TrialsInOrder }
{}

/// What was released stays when more bytes follow.
pub fn released_prefix()
    ensures { ReleasedPrefix }
{}

/// What is decided before the end stays decided, with its output, when more bytes follow.
pub fn decided_stays()
    ensures { DecidedStays }
{}

/// What was sealed stays when more bytes follow.
pub fn sealed_prefix()
    ensures { SealedPrefix }
{}

/// A sealed stream of at most 2^32 segments opens under its key to its plaintext.
pub fn stream_back()
    ensures { StreamBack }
{}

/// A sealed stream is as long as its header, its plaintext and one tag for each segment together.
pub fn sealed_length()
    ensures { SealedLength }
{}

/// More bytes that are only held don't change a pass.
pub fn holds_more()
    ensures { HoldsMore }
{}

/// A settled segment that opens is one step of a pass.
pub fn opens_one_more()
    ensures { OpensOneMore }
{}

/// If no segment is settled, exactly what is released was written, and nothing is decided.
pub fn stands_released()
    ensures { StandsReleased }
{}

/// A settled segment is one step of a pass that seals.
pub fn seals_one_more()
    ensures { SealsOneMore }
{}

/// For too many segments, the output is what the first 2^32 segments and one more byte release.
pub fn too_many_output()
    ensures { TooManyOutput }
{}

/// A range of a stream that opens to its end is that slice of its plaintext.
pub fn range_is_slice()
    ensures { RangeIsSlice }
{}

/// Over a source and a sink that report their bytes, a pass without a fault gives the stated
/// answer.
pub fn pass_answers()
    ensures { PassAnswers }
{}

/// A stream that arrives in pieces gives the stated answer for the whole of it, however it is cut.
pub fn pieces_answer()
    ensures { PiecesAnswer }
{}

/// The same if a piece is refused, whatever follows it.
pub fn refused_early()
    ensures { RefusedEarly }
{}

/// The same for a pass that seals.
pub fn seal_pass_answers()
    ensures { SealPassAnswers }
{}

/// The same for a pass that opens a stream and seals its plaintext again.
pub fn reseal_pass_answers()
    ensures { ResealPassAnswers }
{}

/// What resealing decides before a stream's end stays decided, with its output, when more bytes
/// follow.
pub fn reseal_stays()
    ensures { ResealStays }
{}

/// Each segment that resealing a refused stream writes is sealed as one that isn't the last.
pub fn refused_unfinished()
    ensures { RefusedUnfinished }
{}

/// Resealing a stream that opens to its end gives the sealing of its plaintext, which opens to it
/// again.
pub fn resealed_back()
    ensures { ResealedBack }
{}

/// Both of Tink's schemes are ciphers of segments, as these laws require.
pub fn schemes_are_ciphers()
    ensures { SchemesAreCiphers }
{}

/// So are the schemes of all keys of a keyset for streams.
pub fn keys_are_ciphers()
    ensures { KeysAreCiphers }
{}
