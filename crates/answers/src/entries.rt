// The entries of an accepted collection.
ghost use Rattle.std.specs.Prelude.{◌≡◌, ◌++◌, ◌+◌, ◌*◌, ◌≤◌, length};
ghost use Rattle.arrayvec.specs.ArrayVec.{array_vec_len};
ghost use Rattle.answers.specs.Answer.{entry_lines, collection};

use crate::rows::{print_collected, print_entry};
use arrayvec::ArrayVec;

// One line for each entry; the list has four numbers for each.
pub fn print_entries<const N: usize>(out: &mut ArrayVec<u8, N>, list: &[u32], entries: usize)
    requires { (array_vec_len out.old + 44 * entries ≤ N) × (4 * entries ≤ length list.now) }
    ensures { out.new.items ≡ out.old.items ++ entry_lines list.now entries }
{
    for &[oid, x, y, tag] in list[..4 * entries].as_chunks::<4>().0 {
        print_entry(out, oid, x, y, tag);
    }
}

// All that is printed for an accepted collection.
#[tactic(auto, using(crate::proofs::Printing::collected_short), unfolding(crate::specs::Answer::collection))]
pub fn print_collection<const N: usize>(
    out: &mut ArrayVec<u8, N>,
    line: u64,
    steps: u32,
    list: &[u32],
    entries: u32,
)
    requires { (array_vec_len out.old + 44 * entries + 64 ≤ N) × (4 * entries ≤ length list.now) }
    ensures { out.new.items ≡ out.old.items ++ collection line steps list.now entries }
{
    print_collected(out, line, steps, entries);
    print_entries(out, list, entries as usize);
}
