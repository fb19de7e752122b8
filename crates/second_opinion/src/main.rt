// Answers a file of cases, one line for each call: begin, state, add, finish, oneshot, check, save, load, write and round on one current state; keybegin,
// keystate, keyadd, keyfinish and keycheck on one keyed state.
#![tactic(auto)]

mod calls;
mod forms;
mod given;
mod hashing;
mod input;
mod keys;
mod line_words;
mod logs;
mod parse;
mod rounds;
mod show;

use std::io;

fn main(rt: HostRuntime) -> io::Result<()> {
    input::run(&rt)
}
