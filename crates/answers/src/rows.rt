// Lines of output. The longest has at most 64 bytes.
ghost use Rattle.std.specs.Prelude.{◌≡◌, ◌++◌, ◌+◌, ◌≤◌, length};
ghost use Rattle.arrayvec.specs.ArrayVec.{array_vec_len};
ghost use Rattle.answers.specs.Answer.{row, answer_line, collected_line, entry_line};

use crate::numbers::print_closed;
use arrayvec::ArrayVec;

// A row: numbers parted by commas, with a line feed behind the last.
fn print_row<const N: usize>(out: &mut ArrayVec<u8, N>, numbers: &[u64])
    requires { array_vec_len out.old + length (row numbers.now) ≤ N }
    ensures { out.new.items ≡ out.old.items ++ row numbers.now }
{
    let Some((last, front)) = numbers.split_last() else {
        return;
    };
    for n in front {
        print_closed(out, *n, b',');
    }
    print_closed(out, *last, b'\n');
}

// An answer: the line's number and document 01's number.
#[tactic(auto, using(crate::proofs::Printing::answer_short), unfolding(crate::specs::Answer::answer_line))]
pub fn print_answer<const N: usize>(out: &mut ArrayVec<u8, N>, line: u64, number: u32)
    requires { array_vec_len out.old + 64 ≤ N }
    ensures { out.new.items ≡ out.old.items ++ answer_line line number }
{
    print_row(out, &[line, u64::from(number)]);
}

// The first line of an accepted collection, with the step count and the entry count.
#[tactic(auto, using(crate::proofs::Printing::collected_short), unfolding(crate::specs::Answer::collected_line))]
pub fn print_collected<const N: usize>(
    out: &mut ArrayVec<u8, N>,
    line: u64,
    steps: u32,
    entries: u32,
)
    requires { array_vec_len out.old + 64 ≤ N }
    ensures { out.new.items ≡ out.old.items ++ collected_line line steps entries }
{
    print_row(out, &[line, 0, u64::from(steps), u64::from(entries)]);
}

// An entry: object, x, y, tag. Four parameters: document 01 and its script name them so.
#[tactic(auto, using(crate::proofs::Printing::entry_short), unfolding(crate::specs::Answer::entry_line))]
pub fn print_entry<const N: usize>(out: &mut ArrayVec<u8, N>, oid: u32, x: u32, y: u32, tag: u32)
    requires { array_vec_len out.old + 44 ≤ N }
    ensures { out.new.items ≡ out.old.items ++ entry_line oid x y tag }
{
    print_row(
        out,
        &[u64::from(oid), u64::from(x), u64::from(y), u64::from(tag)],
    );
}
