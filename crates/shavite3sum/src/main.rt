// shavite3sum [M [SALT-HEX]]: digests standard input, of any length, in constant memory. It prints the M-bit digest in hex, the bytes
// covered and the blocks compressed, or "refused" and the refusal's number. M is 256 where it is not given.
#![tactic(auto)]

use bits::LastBits;
use hex_bytes::HexError;
use state::State;
use std::io;
use std::rt::Env;
use streaming::{Hex, Stop};

fn complain(rt: &HostRuntime, message: &str) -> io::Result<()> {
    eprintln!(rt; "shavite3sum: {message}")
}

// The digest is taken by `text::first`: that so many bytes are in the buffer stands in no clause of `digest_bytes`. So it is with what `hex` answers below.
fn print_digest(rt: &HostRuntime, state: State) -> io::Result<()> {
    let mut bytes = [0u8; 64];
    let report = digest::finish(form::TABLES, state, LastBits::none(), &mut bytes).answer;
    match report {
        Ok(_) => {
            let digest = Hex(text::first(&bytes, bits::digest_bytes(state.m)));
            println!(rt;
                "{digest} {} {}",
                reports::covered(report),
                reports::blocks(report)
            )
        }
        Err(_) => streaming::print_refusal(rt, reports::number(report)),
    }
}

fn digest_input(rt: &HostRuntime, state: State) -> io::Result<()> {
    let mut buffer = [0u8; 65536];
    match streaming::add_all(&mut rt.stdin(), form::TABLES, state, &mut buffer) {
        Ok(reached) => print_digest(rt, reached),
        Err(Stop::Refused(refusal)) => streaming::print_refusal(rt, refusal.number()),
        Err(Stop::Failed) => complain(rt, "standard input cannot be read"),
    }
}

fn run(rt: &HostRuntime, m: u16, salt: &[u8]) -> io::Result<()> {
    let begun = digest::begin(form::TABLES, m, salt);
    match begun.answer {
        Ok(()) => digest_input(rt, begun.state),
        Err(refusal) => streaming::print_refusal(rt, refusal.number()),
    }
}

// The digest length in bits, which begin judges. `count` has the program's own name among the words: it says whether a word is there. This and the salt are read as
// `chimbersu` reads its words: a function for both programs would be public and could promise nothing, since no contract says what a word is.
fn digest_bits(rt: &HostRuntime, count: usize) -> Option<u16> {
    if count < 2 {
        return Some(256);
    }
    let mut text = [0u8; command_line::WORD];
    let size = rt.arg(1, &mut text).ok()?;
    decimal::read(&text[..size])
}

fn salt_bytes(rt: &HostRuntime, count: usize, salt: &mut [u8]) -> Result<usize, HexError> {
    if count < 3 {
        return Ok(0);
    }
    let mut text = [0u8; command_line::WORD];
    let size = rt.arg(2, &mut text).map_err(|_| HexError::NoRoom)?;
    hex_bytes::decode(&text[..size], salt)
}

fn main(rt: HostRuntime) -> io::Result<()> {
    let count = command_line::count(&rt);
    if count > 3 {
        return complain(&rt, "too many arguments: shavite3sum [M [SALT-HEX]]");
    }
    let Some(m) = digest_bits(&rt, count) else {
        return complain(&rt, "the digest length is not a decimal number up to 65535");
    };
    let mut salt = [0u8; 64];
    match salt_bytes(&rt, count, &mut salt) {
        Ok(size) => run(&rt, m, text::first(&salt, size)),
        Err(HexError::NotHex) => complain(&rt, "the salt is not hex digits, two a byte"),
        Err(HexError::NoRoom) => complain(&rt, "the salt is over 64 bytes"),
    }
}
