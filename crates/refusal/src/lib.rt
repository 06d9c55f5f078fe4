// What every refusal is known by: a number, and the position of what is at fault.
#![tactic(auto)]

mod numbered;

pub use numbered::Numbered;
