//! What each command does, each proved against its plan.
//!
//! Steps that commands share are one function each (`src/steps.rt`, `src/locks.rt`,
//! `src/output.rt`), and each of their clauses says, for any rest of a plan, how it goes on.
#![tactic(auto)]

mod converting;
mod edits;
mod enveloping;
mod key_of;
mod list;
mod locks;
mod output;
mod ranging;
mod sealers;
mod self_testing;
mod session;
mod steps;
mod stream_file;
mod stream_key;
mod streaming;
mod templates;
mod using;
mod wrapping;

pub use converting::convert_keyset;
pub use edits::{create_keyset, edit_keyset};
pub use enveloping::use_envelope;
pub use key_of::tell_keys;
pub use list::list_keyset;
pub use output::{put, write_output};
pub use ranging::open_file_range;
pub use self_testing::tell_self_test;
pub use session::answer_lines;
pub use streaming::{load_stream_keys, put_stream};
pub use templates::list_templates;
pub use using::use_keyset;
