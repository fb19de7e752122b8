// Prints, for each file that an argument names, the name and the check of the log in the file.
#![tactic(auto)]

use std::io;
use std::rt::Env;

fn check_file(rt: &HostRuntime, name: &[u8]) -> io::Result<()> {
    match command_line::open(rt, name) {
        Ok(mut file) => {
            rt.write_all(name)?;
            rt.write_all(b"\n")?;
            printing::print_check(rt, &mut file)
        }
        Err(error) => command_line::fail(&rt.stderr(), name, &error),
    }
}

fn check_argument(rt: &HostRuntime, i: usize) -> io::Result<()> {
    let mut name = [0u8; command_line::WORD];
    match rt.arg(i, &mut name) {
        Ok(size) => check_file(rt, &name[..size]),
        Err(error) => {
            command_line::fail(&rt.stderr(), b"argument", &command_line::word_error(error))
        }
    }
}

// A file that cannot be opened does not keep the next from being checked.
fn main(rt: HostRuntime) -> io::Result<()> {
    for i in 1..command_line::count(&rt) {
        check_argument(&rt, i)?;
    }
    Ok(())
}
