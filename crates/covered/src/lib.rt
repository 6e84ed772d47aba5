// Cells every point of which satisfies a question (document 02, g),
// and the routine that names the next cell and says whether it is one. No table.
#![tactic(auto, unfolding(crate::specs::Visit::next_visit, crate::specs::Whole::reached, crate::specs::Whole::deep, crate::specs::Whole::whole_by, crate::specs::Whole::whole, base::specs::Outcome::and_then))]

pub mod visit;
pub mod whole;
