//! The program's outside as traits, with objects in memory that implement them, and the small types
//! that every crate above uses.
//!
//! A trait's ghost `state` says what an object holds and how often it has failed.
#![tactic(auto)]

mod ahead;
mod ahead_in_memory;
mod all;
mod bytes;
mod constants;
mod decimal;
mod draft_sink;
mod drawn;
mod entropy;
mod faults;
mod files;
mod hash;
pub mod laws;
mod memory;
mod part;
mod pieces;
mod sink;
mod source;
mod store;
mod stream;
mod text;
mod torn;
mod trials;

pub use ahead::Lookahead;
pub use all::{ReadAllFault, read_all, read_behind, write_all};
pub use bytes::Bytes;
pub use constants::{CRUNCHY, DESTROYED, DISABLED, ENABLED, LEGACY, RAW, TEMPORARY, TINK};
pub use decimal::number_in;
pub use draft_sink::{DraftLoan, DraftSink, Lent, append_all};
pub use drawn::Drawn;
pub use entropy::Entropy;
pub use faults::{Failed, NoMemory};
pub use files::MemStore;
pub use hash::Hash;
pub use memory::{MemSink, MemSource};
pub use part::part_of;
pub use pieces::{Begun, PieceStore};
pub use sink::Sink;
pub use source::Source;
pub use store::{Created, Loaded, Store, StoreError};
pub use stream::MemEntropy;
pub use text::Text;
pub use torn::TornStore;
pub use trials::Trials;
