// The words in which the calls are specified: what a call comes to, the tests that refuse it, and the causes of its number.
// And those in which they answer: why a call is refused, how a step went, and how a run of steps ended.
#![tactic(auto)]

ghost use Rattle.std.specs.Prelude.{◌≡◌, ◌≤◌};
ghost use Rattle.calls.specs.Run.{carried_out};

pub mod pace;
pub mod refusal;
pub mod run;

// How many steps a step was that gave this number: 1 if it was carried out, 0 if it was blocked or refused.
#[tactic(auto, unfolding(crate::specs::Run::carried_out, base::specs::Outcome::pick))]
pub fn carried_out(number: u32) -> u32
    ensures { (result ≡ carried_out number) × (result ≤ 1) }
{
    match number {
        0 | 21 | 22 => 1,
        _ => 0,
    }
}
