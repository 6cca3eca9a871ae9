// The arithmetic of an auction: clauses, cap, small sizes, guarantee, and its record.
#![tactic(auto)]

pub mod agency;
pub mod record;
pub mod size;
