//! The files of the file system as a store.
//!
//! No clause can say what the system gives and takes. So the store doesn't report its files, and
//! the clauses on loading a file and on writing one in pieces are about any file that reports its
//! bytes.
#![tactic(auto)]

mod drafting;
mod folder;
mod named;

pub use drafting::{append_piece, begin_file, finish_file, give_up_file};
pub use folder::{DirStore, load_opened};
pub use named::{DirName, Temporary, folder_of};
