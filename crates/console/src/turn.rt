// ONE LINE of a script: done on the grid, and its answer printed.
ghost use Rattle.std.specs.Prelude.{◌≡◌, ◌+◌, ◌≤◌, length};
ghost use Rattle.arrayvec.specs.ArrayVec.{array_vec_len};
ghost use Rattle.base.specs.Lent.{seen, lent};
ghost use Rattle.tables.specs.Promise.{OnGrid};
ghost use Rattle.console.specs.Promise.{Prints};

use crate::printing::print_step;
use answers::rows::print_answer;
use arrayvec::ArrayVec;
use lines::step::line_step;
use rest::Lanes;

// Does what a line says, and prints its answer, with the line's number. A refused line leaves the lanes as they are.
pub fn answer_line<const N: usize>(
    line: &[u8],
    number: u64,
    out: &mut ArrayVec<u8, N>,
    list: &mut [u32],
    lanes: &mut Lanes,
    words: &mut [u32],
    times: &mut [i32],
)
    requires { (array_vec_len out.old + 11328 ≤ N) × (length list.old ≡ 1024) }
    ensures { OnGrid (lent words) (lent times) (Prints (seen line) number out.old out.new (lent list) (lent lanes)) }
{
    match line_step(line, list, *lanes, words, times) {
        Ok(step) => {
            *lanes = step.lanes;
            print_step(out, number, step.answer, list);
        }
        Err(refusal) => print_answer(out, number, u32::from(refusal)),
    }
}
