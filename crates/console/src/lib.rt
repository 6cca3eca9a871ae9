// What a text makes a session do: its headings, its lines, and the answer to each statement.
#![tactic(auto)]

pub mod notices;
pub mod setup;
pub mod text;
pub mod turn;
