// The files that the arguments of a program name.
use std::env::FillError;
use std::rt::{Env, Files};
use std::{fs, io, str};

// The line with a file's name.
pub fn print_name(rt: &impl Print, name: &str) -> io::Result<()> {
    println!(rt; "# {name}")
}

// Runs a test on each file that an argument names, behind a line with its name.
// An argument that names no file that can be opened is told of, and passed over.
pub fn each_file<R: Env + Files + Print + Eprint, F: Fn(R::File) -> io::Result<()>>(
    rt: &R,
    run: F,
) -> io::Result<()>
    requires { F.IsAlwaysCallable run }
{
    each_named(
        rt,
        |name, file|
            requires { F.IsAlwaysCallable run }
        {
            print_name(rt, name)?;
            run(file)
        },
    )
}

// Runs a test on each file that an argument names, with its name. A name has at most 4,096 bytes.
pub fn each_named<R: Env + Files + Print + Eprint, F: Fn(&str, R::File) -> io::Result<()>>(
    rt: &R,
    run: F,
) -> io::Result<()>
    requires { F.IsAlwaysCallable run }
{
    let mut path = [0u8; 4096];
    for i in 1..usize::MAX {
        let name = match rt.arg(i, &mut path) {
            Ok(n) => str::from_utf8(&path[..n]),
            Err(FillError::NotPresent) => break,
            Err(FillError::TooLong) => {
                eprintln!(rt; "argument {i}: too long")?;
                continue;
            }
        };
        match name {
            Ok(name) => run_named(rt, name, &run)?,
            Err(e) => eprintln!(rt; "argument {i}: {e}")?,
        }
    }
    Ok(())
}

// Runs a test on the file with this name.
fn run_named<R: Files + Print + Eprint, F: Fn(&str, R::File) -> io::Result<()>>(
    rt: &R,
    name: &str,
    run: &F,
) -> io::Result<()>
    requires { F.IsAlwaysCallable run.now }
{
    match fs::open(rt, name) {
        Ok(file) => run(name, file),
        Err(e) => eprintln!(rt; "{name}: {e}"),
    }
}
