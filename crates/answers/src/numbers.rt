// Decimal numbers on a page.
ghost use Rattle.std.specs.Prelude.{◌≡◌, ◌++◌, ◌+◌, ◌≤◌, ◌<◌, length};
ghost use Rattle.arrayvec.specs.ArrayVec.{array_vec_len};
ghost use Rattle.script.specs.Digits.{decimal_of};
ghost use Rattle.answers.specs.Answer.{closed};

use arrayvec::ArrayVec;
use itoa::Buffer;

// A digit as a byte.
fn digit(n: u64) -> u8
    requires { n < 10 }
    ensures { result ≡ 48 + n }
{
    b'0' + n as u8
}

// Prints the digits of n, made in a buffer. It is not inlined, so that a short number saves no registers for it.
#[tactic(auto, using(crate::proofs::Printing::decimal_is))]
#[inline(never)]
fn print_long<const N: usize>(out: &mut ArrayVec<u8, N>, n: u64)
    requires { array_vec_len out.old + length (decimal_of n) ≤ N }
    ensures { out.new.items ≡ out.old.items ++ decimal_of n }
{
    let mut buffer = Buffer::new();
    let digits = buffer.format(n).as_bytes();
    out.try_extend_from_slice(digits).unwrap();
}

// Prints the digits of n. A short number goes digit by digit: for so few a buffer costs more than the digits.
#[tactic(auto, using(crate::proofs::Parts::printed_one, crate::proofs::Parts::printed_two, crate::proofs::Parts::printed_three))]
pub fn print_number<const N: usize>(out: &mut ArrayVec<u8, N>, n: u64)
    requires { array_vec_len out.old + length (decimal_of n) ≤ N }
    ensures { out.new.items ≡ out.old.items ++ decimal_of n }
{
    if n < 10 {
        out.push(digit(n));
        return;
    }
    if n < 100 {
        out.push(digit(n / 10));
        out.push(digit(n % 10));
        return;
    }
    if n < 1000 {
        out.push(digit(n / 100));
        out.push(digit(n / 10 % 10));
        out.push(digit(n % 10));
        return;
    }
    print_long(out, n);
}

// Prints n and a byte behind it.
#[tactic(auto, using(crate::proofs::Printing::closed_length), unfolding(crate::specs::Answer::closed))]
pub fn print_closed<const N: usize>(out: &mut ArrayVec<u8, N>, n: u64, end: u8)
    requires { array_vec_len out.old + length (closed n end) ≤ N }
    ensures { out.new.items ≡ out.old.items ++ closed n end }
{
    print_number(out, n);
    out.push(end);
}
