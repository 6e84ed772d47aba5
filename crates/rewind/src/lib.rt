// Winding the clock back (document 02, request a), a public operation of the grid, lent every table.
#![tactic(auto, using(calls::proofs::Sized::sized, calls::proofs::Sized::as_long, crate::proofs::Returns::wound_grid_lem), unfolding(crate::specs::Rewind::wound_clock, crate::specs::Rewind::rewind_tables, calls::specs::Call::unless, calls::specs::Call::after, base::specs::Outcome::pick))]

pub mod clock;
pub mod stamps;
pub mod whole;
