//! The real objects of the program: standard streams, random bytes, words, and how a new file is
//! filled and gets its name.
//!
//! No clause can say what the system gives and takes. So the clauses are about any stream, device,
//! file or list of words that reports its bytes, instead of the system's, and only one call each is
//! left to the system.
#![tactic(auto)]

mod ahead;
mod args;
mod beneath;
mod cause;
mod entropy;
mod filling;
mod naming;
mod placed;
mod streams;
mod unread;

pub use ahead::Device;
pub use args::{Arguments, NoWords, words};
pub use beneath::{ReadStream, StandardOutput, WriteStream};
pub use cause::{Cause, FileError, cause_of};
pub use entropy::{FileEntropy, Opens, RandomDevice};
pub use filling::{NewFile, OWNER_ALONE, fault_of, fill_opened, unmade};
pub use naming::{NewName, keep_name, link_file, make_file, open_temporary};
pub use placed::{PlacedFile, read_opened, size_of};
pub use streams::{StdSink, StdSource, write_through_signals};
