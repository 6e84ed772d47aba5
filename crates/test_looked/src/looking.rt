// How many entries of its list a step of a sweep looks at. It is told before the step, from the tables and the lane as
// the step finds them: the lane says which slot is next (`Scan::Read`) and how many entries its list has (`hits`); the
// tuple in that slot is read by `read_tuple`; `is_inside` and `is_seen` say whether it is looked up, as they do in
// `query::reading`; and `find_hit`, which the step itself calls, looks its object up in the lane's list.
use base::LIST_SIZE;
use hits::find_hit;
use hits::lane::QueryLane;
use query::{Query, Scan};
use regions::inside::is_inside;
use script::line::{Line, QueryLine};
use script::parse::parse;
use slots::tuple::{is_seen, read_tuple};
use words::{HIT_XS, HITS, INDEX, TIMES, TUPLES, WORDS};

// In the words: where the objects of the lists end.
const LIST_XS: usize = HITS + HIT_XS;

// How many of a lane's entries are looked at for an object.
fn look_up(words: &[u32; WORDS], lane: QueryLane, size: u32, oid: u32) -> Option<usize> {
    let size = size as usize;
    if size > LIST_SIZE {
        return None;
    }
    let found = find_hit(
        &words[HITS..LIST_XS],
        LIST_SIZE * lane.number as usize,
        size,
        oid,
    );
    Some(found.looked)
}

// What the next step of a lane looks at. A step that reads no slot leaves what was last looked at.
fn next_looked(
    words: &[u32; WORDS],
    times: &[i32; TIMES],
    lane: QueryLane,
    q: Query,
    last: Option<usize>,
) -> Option<usize> {
    let Scan::Read(_, s) = q.stage else {
        return last;
    };
    if s.left == 0 {
        return last;
    }
    let t = read_tuple(&words[TUPLES..INDEX], times, s.bucket, s.left - 1).ok()?;
    if !is_inside(q.question, t.x, t.y) || !is_seen(t, q.stamp) {
        return None;
    }
    look_up(words, lane, q.hits, t.oid)
}

// How many entries a line of a script looks at, if it is a step of a sweep; none where it looks nothing up.
pub fn line_looked(
    line: &[u8],
    queries: [Query; 4],
    words: &[u32; WORDS],
    times: &[i32; TIMES],
    last: Option<usize>,
) -> Option<usize> {
    let Some(Line::Query(QueryLine::Step(number))) = parse(line) else {
        return last;
    };
    let Some(lane) = QueryLane::new(number) else {
        return last;
    };
    next_looked(words, times, lane, queries[lane.number as usize], last)
}
