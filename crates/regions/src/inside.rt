// Whether a point satisfies a question, for every content of the question: nothing overflows or goes below zero.
ghost use Rattle.std.specs.Prelude.{◌≡◌, ◌+◌, ◌&&◌, leb};
ghost use Rattle.regions.specs.Region.{square, apart, nearest, touching, within, inside};

use crate::region::{Kind, Region};
use layout::question::{Question as Rectangle, is_inside as contains};

// How far a coordinate lies from the nearest one of an interval.
// An interval stays two numbers, as a rectangle has it: a struct would be built only to be taken apart.
fn gap_to(low: u32, high: u32, at: u32) -> u32
    ensures { result ≡ apart at (nearest low high at) }
{
    at.abs_diff(low.max(at.min(high)))
}

// Whether the two sides of a right angle span at most a radius.
pub fn is_close(dx: u32, dy: u32, radius: u32) -> bool
    ensures { result ≡ leb (square dx + square dy) (square radius) }
{
    let x = u64::from(dx);
    let y = u64::from(dy);
    let r = u64::from(radius);
    (x * x).saturating_add(y * y) <= r * r
}

// Whether the coordinates from first to last lie at least the radius inside an interval.
pub fn is_deep(low: u32, high: u32, radius: u32, first: u32, last: u32) -> bool
    ensures { result ≡ (leb (low + radius) first && leb (last + radius) high) }
{
    first.checked_sub(low).is_some_and(|gap| gap >= radius)
        && high.checked_sub(last).is_some_and(|gap| gap >= radius)
}

// Whether a point lies at most the radius from the rectangle.
fn is_touching(a: Rectangle, radius: u32, x: u32, y: u32) -> bool
    ensures { result ≡ touching a radius x y }
{
    is_close(gap_to(a.x0, a.x1, x), gap_to(a.y0, a.y1, y), radius)
}

// Whether a point lies at least the radius inside each side of the rectangle.
fn is_within(a: Rectangle, radius: u32, x: u32, y: u32) -> bool
    ensures { result ≡ within a radius x y }
{
    is_deep(a.x0, a.x1, radius, x, x) && is_deep(a.y0, a.y1, radius, y, y)
}

// Whether a point satisfies the question.
pub fn is_inside(g: Region, x: u32, y: u32) -> bool
    ensures { result ≡ inside g x y }
{
    match g.kind {
        Kind::Touching => is_touching(g.area, g.radius, x, y),
        Kind::Within => is_within(g.area, g.radius, x, y),
        Kind::Centre => contains(g.area, x, y),
    }
}
