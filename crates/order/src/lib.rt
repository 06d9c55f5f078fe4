// Kinds of order, each a set of values with codes, and choices, each a rule that takes one code from a set.
#![tactic(auto)]

mod choices;
mod kinds;
mod links;
mod lowest;
mod plans;
mod rankings;
mod refusals;

pub use choices::Choice;
pub use kinds::Order;
pub use links::LinkOrder;
pub use lowest::Least;
pub use plans::Plan;
pub use rankings::Ranked;
pub use refusals::Refusal;

#[cfg(test)]
mod tests;
