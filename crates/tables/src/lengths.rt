// Whether the words and the stamps are as many as they must be.
ghost use Rattle.std.specs.Prelude.{◌≡◌};
ghost use Rattle.tables.specs.Grid.{right_words};

use words::{TIMES, WORDS};

#[tactic(auto, unfolding(crate::specs::Grid::right_words))]
pub fn right_words(words: usize, times: usize) -> bool
    ensures { result ≡ right_words words times }
{
    words == WORDS && times == TIMES
}
