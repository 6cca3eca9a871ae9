// The session script: a line of text to words, words to a statement, and an answer to a line.
#![tactic(auto)]

pub mod answer;
pub mod keyword;
pub mod lex;
pub mod line;
pub mod word;
