// The script: a line's items, the form that they make, and the answer that it gets.
#![tactic(auto)]

mod answers;
mod brackets;
mod flaws;
mod forms;
mod items;
mod numerals;
mod rests;
mod sessions;

pub use answers::{Answer, Line, answer_line};
pub use flaws::{Fault, Flaw};
pub use forms::{Form, read_form};
pub use items::{Item, Part, read_item};
pub use sessions::{Session, answer_script};

#[cfg(test)]
mod tests;
