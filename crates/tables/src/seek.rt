// The object index among all tables.
ghost use Rattle.std.specs.Prelude.{◌≡◌, ℤ, List};
ghost use Rattle.index.specs.Search.{search};
ghost use Rattle.tables.specs.Grid.{grid};

use index::search::{Search, find_object};
use words::{INDEX, LOCKS, WORDS};

// Where the search for an object ends.
pub fn seek_object(words: &[u32; WORDS], oid: u32) -> Search
    ensures { (ts : List ℤ) → search (grid words.now ts).index.oid oid ≡ result }
{
    find_object(&words[INDEX..LOCKS], oid)
}
