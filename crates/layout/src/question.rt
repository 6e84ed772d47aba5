// The question of a range query (document 01: a rectangle with its edges), and the cells that are scanned for it.
ghost use Rattle.std.specs.Prelude.{◌≡◌};
ghost use Rattle.base.specs.Answer.{outcome_of};
ghost use Rattle.layout.specs.Question.{corners, corners_says, inside, visited, first_visit, last_cell, next};

use crate::place::{cell_of, on_grid};
use base::{CELL_COUNT, Corrupt};

// A rectangle by its lower and its upper corner.
#[derive(Clone, Copy, Debug, Default, PartialEq, Eq)]
pub struct Question {
    pub x0: u32,
    pub y0: u32,
    pub x1: u32,
    pub y1: u32,
}

// Why corners are refused: one is off the grid, or the lower one is above the upper one.
#[derive(Clone, Copy, Debug, PartialEq, Eq)]
pub enum BadCorners {
    OffGrid,
    Crossed,
}

// A cell of the scan.
#[derive(Clone, Copy, Debug, PartialEq, Eq)]
pub struct Visit {
    pub cell: u32,
}

// The corners, tested in document 01's order: off the grid before crossed.
pub fn check_corners(q: Question) -> Result<(), BadCorners>
    ensures { corners q ≡ corners_says result }
{
    if !on_grid(q.x0, q.y0) || !on_grid(q.x1, q.y1) {
        return Err(BadCorners::OffGrid);
    }
    if q.x0 > q.x1 || q.y0 > q.y1 {
        return Err(BadCorners::Crossed);
    }
    Ok(())
}

// Whether a point satisfies the question: edges belong to the rectangle.
pub fn is_inside(q: Question, x: u32, y: u32) -> bool
    ensures { result ≡ inside q x y }
{
    q.x0 <= x && x <= q.x1 && q.y0 <= y && y <= q.y1
}

// Whether a cell is one of the scan's.
pub fn is_visited(q: Question, cell: u32) -> bool
    ensures { result ≡ visited q cell }
{
    check_corners(q).is_ok()
        && cell < CELL_COUNT
        && q.x0 / 1024 <= cell % 16
        && cell % 16 <= q.x1 / 1024
        && q.y0 / 1024 <= cell / 16
        && cell / 16 <= q.y1 / 1024
}

// The first cell of the scan.
pub fn first_cell(q: Question) -> Visit
    ensures { result ≡ first_visit q }
{
    Visit {
        cell: cell_of(q.x0, q.y0),
    }
}

// The last cell of the scan.
pub fn last_cell(q: Question) -> u32
    ensures { result ≡ last_cell q }
{
    cell_of(q.x1, q.y1)
}

// The cell after a given one, or none after the last: the next in its row, or the first of the next row.
// Corrupt where the cell is none of the scan's.
pub fn next_cell(q: Question, cell: u32) -> Result<Option<Visit>, Corrupt>
    ensures { outcome_of result ≡ next q cell }
{
    if !is_visited(q, cell) {
        return Err(Corrupt);
    }
    if cell == last_cell(q) {
        return Ok(None);
    }
    if cell % 16 == q.x1 / 1024 {
        return Ok(Some(Visit {
            cell: (cell / 16 + 1) * 16 + q.x0 / 1024,
        }));
    }
    Ok(Some(Visit { cell: cell + 1 }))
}
