//! Keys of Tink's symmetric key types: their messages, read and written, and the templates from
//! which new ones are made.
#![tactic(auto)]

mod key;
mod key_type;
pub mod laws;
mod layout;
mod making;
mod message;
mod primitive;
mod reading;
mod rule;
mod rules;
mod template;
mod writing;

pub use key::{KeyFault, KeyKind, url_of};
pub use key_type::{KeyType, primitive_of};
pub use layout::Layout;
pub use primitive::Primitive;
pub use reading::read_key;
pub use rule::Rule;
pub use template::{
    Recipe, TEMPLATE_COUNT, Template, TemplateFault, make_key, template_at, template_named,
};
pub use writing::write_key;
