// Signing schemes, each by its ledger: which places are signed, and by which marks.
#![tactic(auto)]

mod books;
mod counts;
mod grids;
mod ledgers;
mod refusals;

pub use books::Book;
pub use grids::Grid;
pub use ledgers::Scheme;
pub use refusals::Refusal;

#[cfg(test)]
mod tests;
