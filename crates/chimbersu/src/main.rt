// chimbersu: one program for people at the ward and the desk. Its first word is the command, and each command has a module of its own.
#![tactic(auto)]

mod asked;
mod files;
mod mac;
mod saying;
mod writing;

use std::io;
use std::rt::Env;

fn main(rt: HostRuntime) -> io::Result<()> {
    let mut word = [0u8; command_line::WORD];
    let Ok(size) = rt.arg(1, &mut word) else {
        return saying::help(&rt);
    };
    match &word[..size] {
        b"write" => writing::run(&rt),
        b"mac" => mac::run(&rt),
        _ => saying::help(&rt),
    }
}
