// The three questions of a range query (document 02: touching, within, centre), and the cells scanned for them.
// No table.
#![tactic(auto, unfolding(crate::specs::Region::radius_fits, crate::specs::Region::proper, crate::specs::Region::checks, crate::specs::Region::touching, crate::specs::Region::within, crate::specs::Region::satisfies, crate::specs::Region::inside, crate::specs::Region::walked_by_kind, crate::specs::Region::visited, crate::specs::Region::next, layout::specs::Question::corners, base::specs::Outcome::need, base::specs::Outcome::pick))]

pub mod inside;
pub mod region;
pub mod scan;
