// What the test programs share: printing lines.
// A line has a name and a number, and where tables were lent for change whether they are as they were.
// No contract can say what is printed.
#![tactic(auto)]

pub mod files;

use std::io;

// Whether tables are as they were.
pub fn compared(same: bool) -> &'static str {
    if same { "same" } else { "changed" }
}

// A line, whose name is any bytes.
pub fn say_bytes(rt: &impl Print, name: &[u8], n: u32) -> io::Result<()> {
    rt.write_all(name)?;
    println!(rt; "{n}")
}

pub fn say_number_bytes(rt: &impl Print, name: &[u8], n: u32, same: bool) -> io::Result<()> {
    rt.write_all(name)?;
    println!(rt; "{n}, {}", compared(same))
}

// A line, whose name is text.
pub fn say(rt: &impl Print, name: &str, n: u32) -> io::Result<()> {
    say_bytes(rt, name.as_bytes(), n)
}

pub fn say_number(rt: &impl Print, name: &str, n: u32, same: bool) -> io::Result<()> {
    say_number_bytes(rt, name.as_bytes(), n, same)
}
