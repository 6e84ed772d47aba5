// ONE LINE of a script on the grid: the call that it asks for, or 13.
ghost use Rattle.base.specs.Lent.{seen, lent};
ghost use Rattle.script.specs.Parse.{parse_line};
ghost use Rattle.lines.specs.Promise.{Answers, Lists};
ghost use Rattle.tables.specs.Promise.{OnGrid};

use crate::list_lines::list_line;
use crate::query_lines::query_line;
use crate::update_lines::update_line;
use calls::pace::{Pace, Stepped};
use calls::refusal::Refusal;
use collect::read::Reading;
use rest::Lanes;
use script::line::Line;
use script::parse::parse;

// What an accepted line gives. Listed: it is a collection or a reading, whose list is handed back in `out[..filled]`.
// Went: it is anything else.
#[derive(Clone, Copy, Debug, PartialEq, Eq)]
pub enum Answer {
    Went(Pace),
    Listed(Reading),
}

// An accepted line: what it gives, and the lanes afterwards.
#[derive(Clone, Copy, Debug, PartialEq, Eq)]
pub struct LineStep {
    pub answer: Answer,
    pub lanes: Lanes,
}

// The line was read as data, so a match on it is plainer than a closure.
// Does what one line says, without its line feed. Refused as its call is, or with 13 (unreadable), which changes
// nothing.
#[tactic(auto, unfolding(crate::specs::Line::line_step, crate::specs::Line::command_step, crate::specs::Line::call_of, crate::specs::Line::lists, grid::specs::Run::call, collect::specs::Filling::collect_into, collect::specs::Filling::read_into))]
pub fn line_step(
    line: &[u8],
    out: &mut [u32],
    lanes: Lanes,
    words: &mut [u32],
    times: &mut [i32],
) -> Result<LineStep, Refusal>
    ensures answers { OnGrid (lent words) (lent times) (Answers (seen line) (lent out) lanes result) }
    ensures lists { Lists (parse_line line.now) result }
{
    let Lanes { updaters, queries } = lanes;
    let (answer, updaters, queries) = match parse(line).ok_or(Refusal::Unreadable)? {
        Line::Update(u) => {
            let Stepped { pace, lanes } = update_line(u, updaters, words, times)?;
            (Answer::Went(pace), lanes, queries)
        }
        Line::Query(q) => {
            let Stepped { pace, lanes } = query_line(q, queries, words, times)?;
            (Answer::Went(pace), updaters, lanes)
        }
        Line::OnList(l) => {
            let (answer, lanes) = list_line(l, queries, out, words, times)?;
            (answer, updaters, lanes)
        }
    };
    let lanes = Lanes { updaters, queries };
    Ok(LineStep { answer, lanes })
}
