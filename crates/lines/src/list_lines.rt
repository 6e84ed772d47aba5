// LINES ABOUT THE LIST OF A FINISHED QUERY (C, L and X), each the call that it asks for. No table changes.
ghost use Rattle.lines.specs.Promise.{AnswersList, ListsWish};
ghost use Rattle.base.specs.Lent.{seen, lent};
ghost use Rattle.tables.specs.Promise.{OnGrid};

use crate::step::Answer;
use calls::pace::Pace;
use calls::refusal::Refusal;
use collect::clear::clear;
use collect::read::read_into;
use collect::whole::{Collected, collect};
use query::Query;
use script::line::{ListLine, Wish};

// Reads the list, clears the lane, or does both. Gives the queries afterwards beside the answer.
// The line was read as data, so a match on it is plainer than a closure.
#[tactic(auto, unfolding(crate::specs::Line::lists))]
pub fn list_line(
    line: ListLine,
    queries: [Query; 4],
    out: &mut [u32],
    words: &[u32],
    times: &[i32],
) -> Result<(Answer, [Query; 4]), Refusal>
    ensures answers { OnGrid (seen words) (seen times) (AnswersList line queries (lent out) result) }
    ensures lists { ListsWish line result }
{
    let lane = line.lane;
    match line.wish {
        Wish::Both => {
            let Collected { reading, queries } = collect(queries, lane, out, words, times)?;
            Ok((Answer::Listed(reading), queries))
        }
        Wish::Read => {
            let reading = read_into(queries, lane, out, words, times)?;
            Ok((Answer::Listed(reading), queries))
        }
        Wish::Clear => {
            let queries = clear(queries, lane, words, times)?;
            Ok((Answer::Went(Pace::Moved), queries))
        }
    }
}
