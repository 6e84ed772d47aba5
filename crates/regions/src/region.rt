// What a range query asks: one of three questions about a rectangle, and what is accepted of it.
ghost use Rattle.std.specs.Prelude.{◌≡◌};
ghost use Rattle.regions.specs.Region.{radius_fits, checks, checked_says, of_corners};

use layout::question::{BadCorners, Question as Rectangle, check_corners};

// Touching: the point lies at most the radius from the rectangle. Within: at least the radius inside each of its sides.
// Centre: in the rectangle.
#[derive(Clone, Copy, Debug, Default, PartialEq, Eq)]
pub enum Kind {
    #[default]
    Touching,
    Within,
    Centre,
}

#[derive(Clone, Copy, Debug, Default, PartialEq, Eq)]
pub struct Region {
    pub kind: Kind,
    pub area: Rectangle,
    pub radius: u32,
}

// Why a question is refused: for its corners, or since its radius is over 511.
#[derive(Clone, Copy, Debug, PartialEq, Eq)]
pub enum BadRegion {
    OffGrid,
    Crossed,
    Wide,
}

impl From<BadCorners> for BadRegion {
    ghost from_gives = { λ e r. r ≡ of_corners e };

    fn from(e: BadCorners) -> BadRegion {
        match e {
            BadCorners::OffGrid => BadRegion::OffGrid,
            BadCorners::Crossed => BadRegion::Crossed,
        }
    }
}

// Whether a radius is one of 0 to 511; the centre question has none.
fn radius_fits(kind: Kind, radius: u32) -> bool
    ensures { result ≡ radius_fits kind radius }
{
    match kind {
        Kind::Touching | Kind::Within => radius <= 511,
        Kind::Centre => true,
    }
}

// The corners and the radius, tested in document 02's order: off the grid, crossed, too wide.
pub fn check_region(g: Region) -> Result<(), BadRegion>
    ensures { checks g ≡ checked_says result }
{
    check_corners(g.area)?;
    if !radius_fits(g.kind, g.radius) {
        return Err(BadRegion::Wide);
    }
    Ok(())
}
