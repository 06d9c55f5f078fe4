// A ring's size and tolerance as one checked value, and the round by which its switches have acted.
#![tactic(auto)]

mod quotes;
mod refusals;
mod settings;

pub use quotes::quote;
pub use refusals::Refusal;
pub use settings::Setting;

#[cfg(test)]
mod tests;
