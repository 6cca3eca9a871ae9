// The contra interest of an auction: which orders and responses it is, in which rank, and how many
// contracts of each count.
#![tactic(auto)]

mod count;
mod entry;
mod gather;
pub mod interest;
pub mod items;
