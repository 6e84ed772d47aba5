// Whether every point of a cell satisfies a question.
ghost use Rattle.std.specs.Prelude.{◌≡◌, ◌+◌, ◌-◌, ◌<◌, max};
ghost use Rattle.covered.specs.Whole.{reached, deep, whole};

use base::CELL_COUNT;
use layout::question::Question as Rectangle;
use regions::inside::{is_close, is_deep};
use regions::region::{Kind, Region};

// How far the farther end of the 1,024 coordinates from first on lies outside an interval. An interval is two numbers: a
// struct would be built only to be taken apart.
fn farthest(low: u32, high: u32, first: u32) -> u32
    requires { first < 16384 }
    ensures { result ≡ max (low - first) (first + 1023 - high) }
{
    low.saturating_sub(first)
        .max((first + 1023).saturating_sub(high))
}

// That the cell is one of the grid stays a requires here and in the next: their one caller has just tested it.
// Whether the corner of a cell that lies farthest from the rectangle is at most the radius away.
fn is_reached(a: Rectangle, radius: u32, cell: u32) -> bool
    requires { cell < 256 }
    ensures { result ≡ reached a radius cell }
{
    let dx = farthest(a.x0, a.x1, cell % 16 * 1024);
    let dy = farthest(a.y0, a.y1, cell / 16 * 1024);
    is_close(dx, dy, radius)
}

// Whether a cell lies at least the radius inside each side of the rectangle.
fn is_deep_cell(a: Rectangle, radius: u32, cell: u32) -> bool
    requires { cell < 256 }
    ensures { result ≡ deep a radius cell }
{
    let left = cell % 16 * 1024;
    let bottom = cell / 16 * 1024;
    is_deep(a.x0, a.x1, radius, left, left + 1023)
        && is_deep(a.y0, a.y1, radius, bottom, bottom + 1023)
}

// Whether there is such a cell and every point of it satisfies the question.
pub fn is_whole(g: Region, cell: u32) -> bool
    ensures { result ≡ whole g cell }
{
    cell < CELL_COUNT
        && match g.kind {
            Kind::Touching => is_reached(g.area, g.radius, cell),
            Kind::Within => is_deep_cell(g.area, g.radius, cell),
            Kind::Centre => is_deep_cell(g.area, 0, cell),
        }
}
