// Answers as bytes (document 01: what the script program prints), each printed on a page behind what stands there.
#![tactic(auto)]

pub mod entries;
pub mod numbers;
pub mod page;
pub mod rows;
