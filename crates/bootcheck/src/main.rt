// Prints the check of the log on standard input.
#![tactic(auto)]

use std::io;

fn main(rt: HostRuntime) -> io::Result<()> {
    printing::print_check(&rt, &mut rt.stdin())
}
