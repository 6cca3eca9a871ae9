// One settlement: from contra items to fills.
#![tactic(auto)]

pub mod counts;
mod filling;
mod group;
pub mod settle;
mod settlement;
mod show;
