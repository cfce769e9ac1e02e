//! Managers of keys, found at run time by their type URL: the interfaces for using a keyset's keys,
//! the managers of the standard kinds, and the table of a program's managers.
#![tactic(auto)]

mod aead;
mod boxes;
mod daead;
mod firsts;
mod found;
mod interfaces;
pub mod laws;
mod lists;
mod mac;
mod prepared;
mod prf;
mod reading;
mod standard;
mod table;

pub use aead::{AeadScheme, StandardAead};
pub use daead::{DaeadScheme, StandardDaead};
pub use found::{Found, FoundAead, FoundDaead, FoundMac, FoundPrf};
pub use interfaces::{AeadManager, CheckFault, DaeadManager, KeyManager, MacManager, PrfManager};
pub use mac::{MacScheme, StandardMac};
pub use prepared::Prepared;
pub use prf::{PrfScheme, StandardPrf};
pub use table::{KeyList, KeyTable, Managers, SameUrl};
