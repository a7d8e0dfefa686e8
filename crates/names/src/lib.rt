// Names of applications and of quantifiers.
#![tactic(auto)]

mod app;
mod kind;
mod quant;
#[cfg(test)]
mod tests;

pub use app::{AppName, parse_app_name};
pub use kind::QuantKindParse;
pub use quant::{Qid, QidFault, parse_qid};
