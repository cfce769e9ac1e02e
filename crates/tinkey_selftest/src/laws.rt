//! Laws of the definitions. Each is the contract of a function with no effect.

ghost use Rattle.tinkey_selftest.specs.Laws.{CountsAddUp, EntropySuffices, KeysAreFound, NothingIsLost};

use tinkey_session::laws::{edited_kept, lines_draw_few, lines_open_present, sound_kept};

/// Each line counts once: as a seal, an open, a refused open, an edit, or as declined.
pub fn counts_add_up()
    ensures { CountsAddUp }
{}

/// Under the standard managers no open is refused while its key is in the keyset, ENABLED.
pub fn nothing_is_lost()
    ensures { NothingIsLost }
{
    lines_open_present();
    edited_kept();
    sound_kept();
}

/// The random bytes suffice: the first keyset is made and each line is answered.
pub fn entropy_suffices()
    ensures { EntropySuffices }
{
    lines_draw_few();
    edited_kept();
    sound_kept();
}

/// A key is found in a keyset if and only if the keyset has that key, ENABLED.
pub fn keys_are_found()
    ensures { KeysAreFound }
{}
