//! A span's extensions: values of six types, found by tags.
#![tactic(auto)]

mod extension_tables;
mod extension_value;
mod extensions;
mod table;
mod tag;

pub use extension_value::ExtensionValue;
pub use extensions::{ExtensionMap, Extensions, ExtensionsMut};
pub use tag::Tag;
