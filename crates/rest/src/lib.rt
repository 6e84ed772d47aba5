// The lanes of the grid, and whether it is at rest (document 02): no update is under way, and every query lane is idle.
// A query that has finished and is not collected is not at rest.
#![tactic(auto)]

ghost use Rattle.std.specs.Prelude.{◌≡◌};
ghost use Rattle.rest.specs.Rest.{is_at_rest};

use query::{Query, Scan};
use stage::{Stage, Updater};

// The lanes of the grid: arrays by value, as document 01 asks.
#[derive(Clone, Copy, Debug, PartialEq, Eq)]
pub struct Lanes {
    pub updaters: [Updater; 8],
    pub queries: [Query; 4],
}

// Whether the grid with these lanes is at rest.
pub fn at_rest(lanes: Lanes) -> bool
    ensures { result ≡ is_at_rest lanes.updaters lanes.queries }
{
    lanes.updaters.iter().all(|u| u.stage == Stage::Idle)
        && lanes.queries.iter().all(|q| q.stage == Scan::Idle)
}
