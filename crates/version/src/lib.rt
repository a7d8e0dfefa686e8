// Versions of Semantic Versioning 2.0.0, with their three numbers below 2^64: reading one, and which of two is the later one.
#![tactic(auto)]

mod bytes;
mod cuts;
mod fields;
mod identifier;
mod number;
mod order;
mod reader;
mod version;

pub use number::Core;
pub use order::{is_new, precedence, precedence_stands};
pub use reader::parse_version;
pub use version::Version;

#[cfg(test)]
mod tests;
