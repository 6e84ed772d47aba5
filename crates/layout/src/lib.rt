// The geometry of the grid. No table.
#![tactic(auto, unfolding(crate::specs::Place::on_grid, crate::specs::Place::cell_of, crate::specs::Place::encode, crate::specs::Place::decode, crate::specs::Question::corners, crate::specs::Question::corners_on, crate::specs::Question::ordered, crate::specs::Question::inside, crate::specs::Question::visited, crate::specs::Question::next, base::specs::Outcome::need, base::specs::Outcome::pick))]

pub mod place;
pub mod question;
