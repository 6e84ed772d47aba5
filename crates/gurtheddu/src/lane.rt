// One lane among the numbers of all: found, and stored.
ghost use Rattle.std.specs.Prelude.{◌≡◌, ◌+◌, ◌*◌, ◌≤◌, length};
ghost use Rattle.std.specs.Fn.{FnReturnsAt};
ghost use Rattle.std.proofs.lemmas.List.Edits.{sets};
ghost use Rattle.gurtheddu.specs.Promise.{FindsLane};

use calls::refusal::Refusal;

// The numbers of a lane, which name something. Refused with 1 where there is no such lane, or with 12 where its numbers
// name nothing.
#[tactic(auto, using(crate::specs::Promise::laneless, crate::proofs::Named::unnamed))]
pub fn find_lane<L, F: Fn(&L) -> bool>(lanes: &[L], lane: u32, names: F) -> Result<&L, Refusal>
    requires { F.IsAlwaysCallable names }
    ensures { FindsLane (FnReturnsAt F.Fn names) lanes.now lane result }
{
    let Some(found) = lanes.get(lane as usize) else {
        return Err(Refusal::NoSuchLane);
    };
    if !names(found) {
        return Err(Refusal::Corrupt);
    }
    Ok(found)
}

// Stores the numbers of a lane, where each lane has N of them.
#[tactic(auto, using(codes::proofs::Stores::copied))]
pub fn store_lane<const N: usize>(lanes: &mut [u32], lane: u32, numbers: [u32; N])
    requires { N * lane + N ≤ length lanes.old }
    ensures { lanes.new ≡ sets lanes.old (N * lane) numbers.entry }
{
    let at = N * lane as usize;
    lanes[at..at + N].copy_from_slice(&numbers);
}
