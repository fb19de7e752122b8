// The first loader's part: adds standard input to a 256-bit digest under the zero salt, and writes the saved form of its state to
// standard output, for the second to go on with.
#![tactic(auto)]

use family::SmallFamily;
use state::State;
use std::io;
use std::process::ExitCode;
use streaming::Stop;

// By `text::first`: `save` says how many bytes it wrote by the definition of the form, and that so many fit stands in no clause of it.
fn hand_over(rt: &impl Print, state: State) -> io::Result<()> {
    let mut form = [0u8; saved_form::LONGEST];
    match saving::save(state, &mut form).answer {
        Ok(size) => rt.write_all(text::first(&form, size)),
        Err(refusal) => streaming::print_refusal(rt, refusal.number()),
    }
}

fn measure(rt: &HostRuntime, state: State) -> io::Result<()> {
    let mut buffer = [0u8; 4096];
    match streaming::add_all(&mut rt.stdin(), form::BYTES, state, &mut buffer) {
        Ok(reached) => hand_over(rt, reached),
        Err(Stop::Refused(refusal)) => streaming::print_refusal(rt, refusal.number()),
        Err(Stop::Failed) => rt
            .stderr()
            .write_all(b"first_stage: standard input cannot be read\n"),
    }
}

fn start(rt: &HostRuntime) -> io::Result<()> {
    let begun = digest::begin(form::BYTES, SmallFamily::DIGEST_BITS, b"");
    match begun.answer {
        Ok(()) => measure(rt, begun.state),
        Err(refusal) => streaming::print_refusal(rt, refusal.number()),
    }
}

// A write that fails shows in the exit status alone: to print why would take a loader many times its own size.
fn main(rt: HostRuntime) -> ExitCode {
    match start(&rt) {
        Ok(()) => ExitCode::SUCCESS,
        Err(_) => ExitCode::FAILURE,
    }
}
