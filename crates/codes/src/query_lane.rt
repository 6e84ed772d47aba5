// A lane of a query in thirteen numbers: kind of question (0 touching, 1 within, 2 centre), x0, y0, x1, y1, radius,
// stamp, hits, steps, number of what comes next (0 idle, 1 enter a cell, 2 read, 3 finished), cell, bucket, slots left.
// What does not come next is 0.
ghost use Rattle.std.specs.Prelude.{◌≡◌, ◌&&◌, eqb, leb};
ghost use Rattle.queries.specs.Query.{is_idle};
ghost use Rattle.base.specs.Table.{at as entry};
ghost use Rattle.codes.specs.Queries.{SCAN-AT, LAST-SCAN, code_kind, kind_of, names_kind, code_scan, scan_of, code_query, decode_query};

use layout::question::Question as Rectangle;
use query::{Query, Scan};
use readers::Standing;
use regions::region::{Kind, Region};

// How many numbers a lane is, where its stage is, and the numbers of the last stage and of the last kind of question.
pub const QUERY_NUMBERS: usize = 13;

pub const SCAN_AT: usize = 9;

pub const LAST_SCAN: u32 = 3;

pub const LAST_KIND: u32 = 2;

// What comes next, in numbers.
#[derive(Clone, Copy, Debug, PartialEq, Eq)]
pub struct ScanCode {
    pub stage: u32,
    pub cell: u32,
    pub at: Standing,
}

impl From<Scan> for ScanCode {
    ghost from_gives = { λ s c. c ≡ code_scan s };

    fn from(s: Scan) -> ScanCode {
        let none = Standing { bucket: 0, left: 0 };
        let (stage, cell, at) = match s {
            Scan::Idle => (0, 0, none),
            Scan::Enter(cell) => (1, cell, none),
            Scan::Read(cell, at) => (2, cell, at),
            Scan::Finished => (3, 0, none),
        };
        ScanCode { stage, cell, at }
    }
}

// A number that names nothing is not given.
impl From<ScanCode> for Scan {
    ghost from_gives = { λ c s. s ≡ scan_of c.stage c.cell c.at };

    fn from(c: ScanCode) -> Scan {
        match c.stage {
            1 => Scan::Enter(c.cell),
            2 => Scan::Read(c.cell, c.at),
            3 => Scan::Finished,
            _ => Scan::Idle,
        }
    }
}

// The number of a kind of question. The numbers are those of a coded lane only, so they stand here and not in regions;
// outside Kind's crate no From can stand.
fn code_kind(k: Kind) -> u32
    ensures { result ≡ code_kind k }
{
    match k {
        Kind::Touching => 0,
        Kind::Within => 1,
        Kind::Centre => 2,
    }
}

// The kind of question by its number. A number that names none is not given.
pub fn kind_of(n: u32) -> Kind
    ensures { result ≡ kind_of n }
{
    match n {
        1 => Kind::Within,
        2 => Kind::Centre,
        _ => Kind::Touching,
    }
}

// Whether the numbers of a lane name what comes next and a kind of question.
pub fn names_query(lane: &[u32; QUERY_NUMBERS]) -> bool
    ensures { result ≡ (leb (entry lane.now SCAN-AT) LAST-SCAN && names_kind (entry lane.now 0)) }
{
    lane[SCAN_AT] <= LAST_SCAN && lane[0] <= LAST_KIND
}

// A query that is idle exactly if the number of what comes next says so: all that a start looks at.
pub fn seen_query(stage: u32) -> Query
    ensures { is_idle result.stage ≡ eqb stage 0 }
{
    Query {
        question: Region {
            kind: Kind::Touching,
            area: Rectangle {
                x0: 0,
                y0: 0,
                x1: 0,
                y1: 0,
            },
            radius: 0,
        },
        stamp: 0,
        hits: 0,
        steps: 0,
        stage: match stage {
            0 => Scan::Idle,
            _ => Scan::Finished,
        },
    }
}

// The query whose numbers these are.
pub fn decode_query(lane: &[u32; QUERY_NUMBERS]) -> Query
    ensures { result ≡ decode_query lane.now }
{
    let &[
        kind,
        x0,
        y0,
        x1,
        y1,
        radius,
        stamp,
        hits,
        steps,
        stage,
        cell,
        bucket,
        left,
    ] = lane;
    let code = ScanCode {
        stage,
        cell,
        at: Standing { bucket, left },
    };
    Query {
        question: Region {
            kind: kind_of(kind),
            area: Rectangle { x0, y0, x1, y1 },
            radius,
        },
        stamp,
        hits,
        steps,
        stage: Scan::from(code),
    }
}

// The numbers of a query.
pub fn code_query(q: Query) -> [u32; QUERY_NUMBERS]
    ensures { result ≡ code_query q }
{
    let Region { kind, area, radius } = q.question;
    let code = ScanCode::from(q.stage);
    [
        code_kind(kind),
        area.x0,
        area.y0,
        area.x1,
        area.y1,
        radius,
        q.stamp,
        q.hits,
        q.steps,
        code.stage,
        code.cell,
        code.at.bucket,
        code.at.left,
    ]
}
