// One step of a query, on the words and the stamps.
ghost use Rattle.base.specs.Lent.{seen, lent};
ghost use Rattle.queries.specs.Scans.{scan_on};
ghost use Rattle.tables.specs.Promise.{OnGrid};
ghost use Rattle.query.specs.Promise.{Progresses};

use base::Stop;
use hits::lane::QueryLane;
use query::entering::enter_step;
use query::leaving::leave_step;
use query::reading::read_step;
use query::{Query, Scan};
use words::{TIMES, WORDS};

// Does what a query does next. That is data which its lane keeps between two calls, hence a match.
#[tactic(auto, unfolding(crate::specs::Scans::scan_on, base::specs::Outcome::pick, base::specs::Step::turn_tells, base::specs::Step::turn_leaves))]
pub fn scan_step(
    words: &mut [u32; WORDS],
    times: &[i32; TIMES],
    lane: QueryLane,
    q: Query,
) -> Result<Query, Stop>
    ensures { OnGrid (lent words) (seen times) (Progresses (λ t. scan_on t lane.number q q.stage) result) }
{
    match q.stage {
        Scan::Idle | Scan::Finished => Err(Stop::Corrupt),
        Scan::Enter(cell) => enter_step(words, q, cell),
        Scan::Read(cell, s) => {
            if s.left == 0 {
                return leave_step(words, q, cell, s.bucket);
            }
            read_step(words, times, lane, q, cell, s)
        }
    }
}
