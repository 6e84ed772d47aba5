// The grid for programs in C: an export for each operation, over two lent blocks of fixed length (the words, as the
// crate words maps them, and the stamps) and lanes that are coded in numbers (crate codes). Nothing else is lent or
// kept. A refusal leaves every table, every lane and the list as they are; what is handed back through a reference of
// its own is then 0.
#![tactic(auto, unfolding(crate::specs::Coded::run_update, crate::specs::Coded::run_sweep, crate::specs::Coded::rewind_deck, calls::specs::Call::unless, calls::specs::Call::after, base::specs::Outcome::pick))]

mod lane;
pub mod of_queries;
pub mod of_updates;
pub mod whole_deck;
