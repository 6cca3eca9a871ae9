// The vocabulary of a session: quantities with their ranges, sides, legs, strategies, tops and refusals.
#![tactic(auto)]

pub mod answer;
pub mod auction;
pub mod leg;
pub mod order;
pub mod price;
pub mod refusal;
pub mod side;
pub mod strategy;
pub mod synthetic;
pub mod table;
pub mod top;
