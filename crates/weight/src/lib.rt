// The cells of one switch, and how heavily its chains speak for an order.
#![tactic(auto)]

mod bearing;
mod cells;
mod knowns;
mod parts;
mod weights;

pub use cells::Cell;
pub use knowns::{Known, known_order};
pub use weights::weight;

#[cfg(test)]
mod tests;
