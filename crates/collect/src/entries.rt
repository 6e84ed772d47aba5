// The entries of a query's list, written for the caller.
ghost use Rattle.std.specs.Prelude.{◌≡◌, ◌+◌, ◌*◌, ◌≤◌, length};
ghost use Rattle.hits.specs.Hits.{hits_at};
ghost use Rattle.collect.specs.Collect.{entries_from};
ghost use Rattle.collect.specs.Filling.{over};
ghost use Rattle.words.specs.Map.{HITS-SIZE};

use words::{HIT_TAGS, HIT_XS, HIT_YS};

// Writes so many entries, from one on, over the front of a list: object, x, y and tag of each. Later numbers are left
// alone.
pub fn write_entries(hits: &[u32], from: usize, size: usize, out: &mut [u32])
    requires { (length hits.now ≡ HITS-SIZE) × (from + size ≤ 1024) × (4 * size ≤ length out.old) }
    ensures { out.new ≡ over (entries_from (hits_at hits.now) from size) out.old }
{
    for i in 0..size {
        let at = from + i;
        let entry = [
            hits[at],
            hits[HIT_XS + at],
            hits[HIT_YS + at],
            hits[HIT_TAGS + at],
        ];
        out[4 * i..4 * i + 4].copy_from_slice(&entry);
    }
}
