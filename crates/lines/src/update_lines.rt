// LINES ABOUT UPDATES (R and U), each the call that it asks for.
ghost use Rattle.lines.specs.Promise.{AnswersUpdate};
ghost use Rattle.base.specs.Lent.{lent};
ghost use Rattle.tables.specs.Promise.{OnGrid};

use calls::pace::{Pace, Stepped};
use calls::refusal::Refusal;
use script::line::UpdateLine;
use stage::Updater;
use updates::start::update_start;
use updates::step::update_step;

// Starts an update, which moves on, or does a step of one.
// The line was read as data, so a match on it is plainer than a closure.
pub fn update_line(
    line: UpdateLine,
    updaters: [Updater; 8],
    words: &mut [u32],
    times: &mut [i32],
) -> Result<Stepped<[Updater; 8]>, Refusal>
    ensures { OnGrid (lent words) (lent times) (AnswersUpdate line updaters result) }
{
    match line {
        UpdateLine::Start(u) => {
            let lanes = update_start(updaters, u.lane, u.oid, u.x, u.y, u.tag, words, times)?;
            Ok(Stepped {
                pace: Pace::Moved,
                lanes,
            })
        }
        UpdateLine::Step(lane) => update_step(updaters, lane, words, times),
    }
}
