// The object index (document 01: the directory): 512 entries, one for each known object.
// One list of four columns of 512 numbers: the object of each entry, 0 where it is empty; its lock; its current and its
// previous place.
// A slice: as an array, each caller would have to unwrap a part of the words, with a proof of its length.
// Columns of numbers: the memory is lent and fixed, and there is no heap.
#![tactic(auto, unfolding(crate::specs::Search::start, crate::specs::Search::found_at, crate::specs::Places::read_place, crate::specs::Places::shift, base::specs::Outcome::need, base::specs::Outcome::and_then, base::specs::Outcome::outcome_map, base::specs::Outcome::tells, base::specs::Outcome::leaves))]

pub mod hash;
pub mod place;
pub mod search;
