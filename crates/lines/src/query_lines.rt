// LINES ABOUT QUERIES (Q, T, W and S), each the call that it asks for.
ghost use Rattle.std.specs.Prelude.{◌≡◌};
ghost use Rattle.base.specs.Lent.{seen, lent};
ghost use Rattle.lines.specs.Line.{asked_of};
ghost use Rattle.lines.specs.Promise.{AnswersQuery};
ghost use Rattle.tables.specs.Promise.{OnGrid};

use calls::pace::{Pace, Stepped};
use calls::refusal::Refusal;
use layout::question::Question as Rectangle;
use queries::start::query_start;
use queries::step::query_step;
use query::Query;
use regions::region::{Kind, Region};
use script::line::{Asks, QueryLine, QueryStart};

// The question that a line asks: Q has no radius, T and W have theirs.
#[tactic(auto, unfolding(crate::specs::Line::asked_of))]
fn asked_of(q: QueryStart) -> Region
    ensures { result ≡ asked_of q.asks q.x0 q.y0 q.x1 q.y1 }
{
    let (kind, radius) = match q.asks {
        Asks::Centre => (Kind::Centre, 0),
        Asks::Touching(radius) => (Kind::Touching, radius),
        Asks::Within(radius) => (Kind::Within, radius),
    };
    let area = Rectangle {
        x0: q.x0,
        y0: q.y0,
        x1: q.x1,
        y1: q.y1,
    };
    Region { kind, area, radius }
}

// Starts a query, which moves on, or does a step of one.
// The line was read as data, so a match on it is plainer than a closure.
pub fn query_line(
    line: QueryLine,
    queries: [Query; 4],
    words: &mut [u32],
    times: &[i32],
) -> Result<Stepped<[Query; 4]>, Refusal>
    ensures { OnGrid (lent words) (seen times) (AnswersQuery line queries result) }
{
    match line {
        QueryLine::Start(q) => {
            let lanes = query_start(queries, q.lane, asked_of(q), words, times)?;
            Ok(Stepped {
                pace: Pace::Moved,
                lanes,
            })
        }
        QueryLine::Step(lane) => query_step(queries, lane, words, times),
    }
}
