// Numbers in a line: decimal, at most 4,294,967,295, no sign, no needless leading zero.
#![tactic(auto, unfolding(crate::specs::Parse::is_digit, crate::specs::Parse::digits_on, crate::specs::Parse::number, crate::specs::Parse::field, base::specs::Outcome::pick))]

ghost use Rattle.std.specs.Prelude.{◌≡◌, option_map};
ghost use Rattle.script.specs.Parse.{digits_on, number, field, front_at};

// A number, and the bytes behind it.
#[derive(Clone, Copy, Debug, PartialEq, Eq)]
pub struct Numeral<'a> {
    pub value: u32,
    pub rest: &'a [u8],
}

// Reads on, behind digits whose value is known, up to a byte that is no digit. Each turn goes on with the rest that it
// leaves; there is no index to count.
fn read_digits(bytes: &[u8], value: u32) -> Option<Numeral<'_>>
    ensures { option_map front_at result ≡ digits_on value bytes.now }
{
    let mut value = value;
    let mut rest = bytes;
    while let [b @ b'0'..=b'9', tail @ ..] = rest {
        value = value.checked_mul(10)?.checked_add(u32::from(b - b'0'))?;
        rest = tail;
    }
    Some(Numeral { value, rest })
}

// Reads the number in front. One that begins with a 0 is that 0 alone.
fn read_number(bytes: &[u8]) -> Option<Numeral<'_>>
    ensures { option_map front_at result ≡ number bytes.now }
{
    match bytes {
        [b'0', rest @ ..] => Some(Numeral { value: 0, rest }),
        [b @ b'1'..=b'9', rest @ ..] => read_digits(rest, u32::from(b - b'0')),
        _ => None,
    }
}

// Reads a comma and the number behind it.
pub fn read_field(bytes: &[u8]) -> Option<Numeral<'_>>
    ensures { option_map front_at result ≡ field bytes.now }
{
    match bytes {
        [b',', rest @ ..] => read_number(rest),
        _ => None,
    }
}
