//! Numbers of 32 bits in decimal digits.

ghost use Rattle.std.specs.Prelude.{◌≡◌};
ghost use Rattle.tink_base.specs.Decimal.{number_in};

/// The most digits that a number may have.
const MOST_DIGITS: usize = 10;

/// Parses a number of 1 to 10 decimal digits, at most 4,294,967,295. Any other text, and no other,
/// gives `None`. No memory is taken.
pub fn number_in(text: &str) -> Option<u32>
    ensures { result ≡ number_in text.now }
{
    if text.len() > MOST_DIGITS || !text.bytes().all(|b| b.is_ascii_digit()) {
        return None;
    }
    text.parse::<u32>().ok()
}
