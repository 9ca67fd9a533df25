// This crate has the text that the program `kit` prints, line by line, and the numbers that it counts for it.
#![tactic(auto)]

pub mod counting;
pub mod lines;
pub mod writing;
