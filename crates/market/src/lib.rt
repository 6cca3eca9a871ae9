// Markets: what one means to a session, and the markets that are sold with it.
#![tactic(auto)]

pub mod band;
pub mod board;
pub mod book;
pub mod fault;
pub mod interface;
mod place;
pub mod quote;
pub mod quoted;
