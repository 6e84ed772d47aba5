// The cells that are scanned for a question: those of its rectangle, which for touching is grown by the radius.
ghost use Rattle.std.specs.Prelude.{◌≡◌};
ghost use Rattle.base.specs.Answer.{outcome_of};
ghost use Rattle.regions.specs.Region.{grown, walked, visited, first_visit, next};

use crate::region::{Kind, Region, check_region};
use base::Corrupt;
use layout::question::{
    Question as Rectangle, Visit, first_cell as first_in, is_visited as is_in, next_cell as next_in,
};

// A rectangle with each side moved out by the radius, and cut at the edge of the grid.
fn grow(a: Rectangle, radius: u32) -> Rectangle
    ensures { result ≡ grown a radius }
{
    Rectangle {
        x0: a.x0.saturating_sub(radius),
        y0: a.y0.saturating_sub(radius),
        x1: a.x1.saturating_add(radius).min(16383),
        y1: a.y1.saturating_add(radius).min(16383),
    }
}

// The rectangle whose cells are scanned.
pub fn walked_area(g: Region) -> Rectangle
    ensures { result ≡ walked g }
{
    match g.kind {
        Kind::Touching => grow(g.area, g.radius),
        Kind::Within | Kind::Centre => g.area,
    }
}

// Whether a cell is one of the scan's.
pub fn is_visited(g: Region, cell: u32) -> bool
    ensures { result ≡ visited g cell }
{
    check_region(g).is_ok() && is_in(walked_area(g), cell)
}

// The first cell of the scan.
pub fn first_cell(g: Region) -> Visit
    ensures { result ≡ first_visit g }
{
    first_in(walked_area(g))
}

// The cell after a given one, or none after the last. Corrupt where the cell is none of the scan's.
pub fn next_cell(g: Region, cell: u32) -> Result<Option<Visit>, Corrupt>
    ensures { outcome_of result ≡ next g cell }
{
    check_region(g).map_err(|_| Corrupt)?;
    next_in(walked_area(g), cell)
}
