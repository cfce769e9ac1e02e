//! Ranges of a stream's plaintext (Tink's streaming AEAD), opened from the segments that cover
//! them, over a device that is read at any offset. What isn't read isn't authenticated.
#![tactic(auto)]

mod covering;
mod device;
mod memory;
mod piece;
mod range;
mod sizes;
mod stored;
mod trying;

pub use device::Device;
pub use memory::MemDevice;
pub use range::{RangeFault, open_range};
pub use stored::StoreDevice;
