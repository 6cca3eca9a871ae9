// Share rules: how a quantity is shared among sizes in rank order.
#![tactic(auto)]

pub mod first_come;
mod in_turn;
pub mod pro_rata;
mod range;
pub mod rule;
#[cfg(test)]
mod tests;
