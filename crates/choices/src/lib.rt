// The calls of a test: rows of text, and pseudo-random runs; and what they covered.
#![tactic(auto)]

pub mod asked;
pub mod choice;
pub mod counts;
pub mod items;
pub mod rows;
