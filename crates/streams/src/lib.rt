// The input of the script program line by line, and its output by the page.
#![tactic(auto)]

pub mod input;
pub mod output;
pub mod progress;
