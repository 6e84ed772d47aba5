// The cells of a scan, each with whether every point of it satisfies the question.
ghost use Rattle.std.specs.Prelude.{◌≡◌};
ghost use Rattle.base.specs.Answer.{outcome_of};
ghost use Rattle.covered.specs.Visit.{visit, first_visit, next_visit};

use crate::whole::is_whole;
use base::Corrupt;
use regions::region::Region;
use regions::scan::{first_cell, next_cell};

// A cell and an answer about it. The flag says nothing of whether there is a cell, so an Option has no place here, and a
// case for each answer would be taken apart by everyone who only walks.
#[derive(Clone, Copy, Debug, PartialEq, Eq)]
pub struct Visit {
    pub cell: u32,
    pub whole: bool,
}

impl Visit {
    // A cell with whether every point of it satisfies the question.
    fn new(g: Region, cell: u32) -> Visit
        ensures { result ≡ visit g cell }
    {
        Visit {
            cell,
            whole: is_whole(g, cell),
        }
    }
}

// The first cell of the scan.
pub fn first_visit(g: Region) -> Visit
    ensures { result ≡ first_visit g }
{
    Visit::new(g, first_cell(g).cell)
}

// The cell after a given one, or none after the last. Corrupt where the cell is none of the scan's.
pub fn next_visit(g: Region, cell: u32) -> Result<Option<Visit>, Corrupt>
    ensures { outcome_of result ≡ next_visit g cell }
{
    let next = next_cell(g, cell)?;
    Ok(next.map(|v| Visit::new(g, v.cell)))
}
