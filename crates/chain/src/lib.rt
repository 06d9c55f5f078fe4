// Chains of names: an order's way from the lead through switches that signed it.
#![tactic(auto)]

mod chains;
mod counts;
mod lists;
mod name_sets;
mod names;
mod places;
mod refusals;
mod spans;

pub use chains::Chains;
pub use counts::chains_per_order;
pub use lists::Names;
pub use name_sets::NameSet;
pub use refusals::Refusal;
pub use spans::{Span, span_of};

#[cfg(test)]
mod tests;
