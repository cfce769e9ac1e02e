//! The report of a word that isn't text.

ghost use Rattle.std.specs.Prelude.{◌≡◌};
ghost use Rattle.tinkey_plans.specs.Status.{Wrote};
ghost use Rattle.tinkey_host.specs.NotText.{not_text_lines};

use tink_base::{Sink, write_all};
use tinkey_session::ShortText;

/// Reports on `diag`, in two lines as for any word at fault, that the word at this place isn't
/// UTF-8. Places count from 0, after the program's name. A fault of `diag` isn't reported. No
/// memory is taken.
pub(crate) fn report_not_text<G: Sink>(diag: &mut G, place: usize)
    ensures { Wrote (not_text_lines place) (G.state diag.old) (G.state diag.new) }
{
    write_lines(diag, not_text_lines(place).as_slice());
}

/// Writes lines.
pub(crate) fn write_lines<G: Sink>(diag: &mut G, lines: &[u8])
    ensures { Wrote lines.now (G.state diag.old) (G.state diag.new) }
{
    match write_all(diag, lines) {
        Ok(()) => {}
        Err(_) => {}
    }
}

/// The lines on the word at this place.
fn not_text_lines(place: usize) -> ShortText
    ensures { result ≡ not_text_lines place }
{
    let mut lines = ShortText::new();
    lines.push("tinkey: usage: word ");
    lines.push_number(place);
    lines.push("\ntinkey: a word is UTF-8 text: see tinkey help\n");
    lines
}
