// Locks (document 01: free, or the lane that holds it), one number each: 0 is free, 1 + lane is held.
// One table has the locks of the cells, one those of the objects.
#![tactic(auto, unfolding(crate::specs::Lock::look, crate::specs::Lock::take_lock, crate::specs::Lock::release, base::specs::Outcome::need, base::specs::Outcome::awaits, base::specs::Outcome::and_then, base::specs::Outcome::tells, base::specs::Outcome::leaves))]

ghost use Rattle.std.specs.Prelude.{◌≡◌};
ghost use Rattle.base.specs.Outcome.{tells, nothing};
ghost use Rattle.base.specs.Answer.{attempt_of};
ghost use Rattle.base.specs.Promise.{Attempts, Changes};
ghost use Rattle.locks.specs.Lock.{look, take_lock, release};

use base::{Corrupt, Stop};

// Whether a lock is free: blocked where it is taken. Nothing is stored.
pub fn look_lock(locks: &[u32], at: usize) -> Result<(), Stop>
    ensures { tells nothing (look locks.now at) ≡ tells nothing (attempt_of result) }
{
    if at >= locks.len() || locks[at] > 8 {
        return Err(Stop::Corrupt);
    }
    if locks[at] != 0 {
        return Err(Stop::Blocked);
    }
    Ok(())
}

// Takes a lock that is free.
pub fn take_lock(locks: &mut [u32], at: usize, owner: u32) -> Result<(), Stop>
    ensures { Attempts locks.old (λ l. take_lock l at owner) result locks.new }
{
    look_lock(locks, at)?;
    locks[at] = owner;
    Ok(())
}

// Frees a lock, whoever held it.
pub fn release_lock(locks: &mut [u32], at: usize) -> Result<(), Corrupt>
    ensures { Changes locks.old (λ l. release l at) result locks.new }
{
    if at >= locks.len() {
        return Err(Corrupt);
    }
    locks[at] = 0;
    Ok(())
}
