// The session: its tables, its calls, who is refused, and what changes.
#![tactic(auto)]

pub mod rows;
pub mod state;
