// What document 01 numbers, by name: the kinds of types and defaults, the greatest sizes; and the refusals.
#![tactic(auto)]

mod kinds;
pub mod limits;
mod refusals;

pub use kinds::Kind;
pub use refusals::Refusal;
