// Stages 1, 2 and 14 of an update: each works on one part of the words and is lent it.
ghost use Rattle.base.specs.Lent.{lent};
ghost use Rattle.stage.specs.declared.Stage.TheVariants.{TakeObject, LockCell, ReleaseObject};
ghost use Rattle.turns.specs.Stages.{stage_on};
ghost use Rattle.tables.specs.Promise.{OnWords};
ghost use Rattle.stage.specs.Promise.{Turns};

use acquire::{lock_cell, release_object, take_object};
use base::Stop;
use layout::place::Place;
use stage::{Turn, Updater};
use words::{CELLS, FIRST, HITS, INDEX, WORDS};

// stage 1
pub fn take_in(words: &mut [u32; WORDS], owner: u32, u: Updater) -> Result<Turn, Stop>
    ensures { OnWords (lent words) (Turns (λ t. stage_on t owner u TakeObject) result) }
{
    take_object(&mut words[INDEX..HITS], u.oid, owner)
}

// stage 2
pub fn cell_in(words: &mut [u32; WORDS], owner: u32, u: Updater, p: Place) -> Result<Turn, Stop>
    ensures { OnWords (lent words) (Turns (λ t. stage_on t owner u (LockCell p)) result) }
{
    lock_cell(&mut words[CELLS..FIRST], p, owner)
}

// stage 14
pub fn release_in(words: &mut [u32; WORDS], owner: u32, u: Updater) -> Result<Turn, Stop>
    ensures { OnWords (lent words) (Turns (λ t. stage_on t owner u ReleaseObject) result) }
{
    release_object(&mut words[INDEX..HITS], u.oid)
}
