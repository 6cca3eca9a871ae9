// Ranked records: one ordered list for all of them, the statement of fills, and drawing from the front.
#![tactic(auto)]

pub mod contra;
pub mod drawn;
pub mod fill;
pub mod list;
pub mod rank;
pub mod statement;
#[cfg(test)]
mod tests;
