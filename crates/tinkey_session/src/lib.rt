//! Sessions: lines over a keyset, the answer to each, and what stays readable.
#![tactic(auto)]

mod answering;
pub mod laws;
mod line;
mod reply;
mod saving;
mod session;
mod short_text;
mod talk;

pub use line::{Line, read_line};
pub use reply::{LineRefusal, Refusal, Reply, line_refusal_text, refusal_text, reply_text};
pub use saving::{NoWriter, WriteError, Writer};
pub use session::{LineFault, Session, find_edit, find_template};
pub use short_text::ShortText;
pub use talk::TalkFault;
