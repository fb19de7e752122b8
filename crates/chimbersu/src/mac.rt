// chimbersu mac KEYFILE [M] [--check TAG-HEX]: the tag of standard input under a key, or whether a tag is the right one.
use crate::asked::Asked;
use crate::{asked, files, saying};
use keyed_state::Keyed;
use std::io;
use std::rt::Env;
use streaming::{Hex, Stop};

// One byte more than the longest key has: what is longer is refused by it.
const KEY: usize = keyed::KEY_LIMIT + 1;

// One byte more than the longest tag has. A tag given that is longer has no room here: it is checked as so many bytes, and the answer is no, since no tag has that length.
const TAG: usize = 65;

// The tag is taken by `text::first`, as key and tag are below: that so many bytes are in the buffer stands in no clause of the calls that say how many there are.
fn finish(rt: &HostRuntime, keyed: Keyed) -> io::Result<()> {
    let mut tag = [0u8; 64];
    let tagged = keyed::finish(form::TABLES, keyed, &mut tag).answer;
    match tagged {
        Ok(_) => {
            let inner = keyed.inner;
            let spelled = Hex(text::first(&tag, usize::from(inner.m) / 8));
            saying::printed(
                rt,
                println!(rt; "{spelled} {}", tag_answers::covered(tagged)),
            )
        }
        Err(_) => saying::refuse(rt, tag_answers::number(tagged)),
    }
}

fn check(rt: &HostRuntime, keyed: Keyed, tag: &[u8]) -> io::Result<()> {
    let check = keyed::check(form::TABLES, keyed, tag).answer;
    match check {
        Ok(_) if tag_answers::is_yes(check) => saying::printed(rt, println!(rt; "yes")),
        Ok(_) => saying::printed(rt, println!(rt; "no")),
        Err(_) => saying::refuse(rt, tag_answers::check_number(check)),
    }
}

// Takes in the message; then makes the tag, or checks the one given.
fn tag_input(rt: &HostRuntime, keyed: Keyed, given: Option<&[u8]>) -> io::Result<()> {
    let mut buffer = [0u8; 65536];
    match streaming::add_all(&mut rt.stdin(), form::TABLES, keyed, &mut buffer) {
        Ok(reached) => match given {
            Some(tag) => check(rt, reached, tag),
            None => finish(rt, reached),
        },
        Err(Stop::Refused(refusal)) => saying::refuse(rt, refusal.number()),
        Err(Stop::Failed) => saying::complain(rt, "standard input cannot be read"),
    }
}

fn begin(rt: &HostRuntime, name: usize, m: u16, given: Option<&[u8]>) -> io::Result<()> {
    let mut key = [0u8; KEY];
    let Some(size) = files::load(rt, name, &mut key)? else {
        return Ok(());
    };
    let begun = keyed::begin(form::TABLES, m, text::first(&key, size));
    match begun.answer {
        Ok(()) => tag_input(rt, begun.state, given),
        Err(refusal) => saying::refuse(rt, refusal.number()),
    }
}

// The tag's length in bits that an argument spells, which begin judges: 256 where there is no such argument. `shavite3sum` has a function of its own for its length: one
// for both programs would be public and could promise nothing, since no contract says what a word is.
fn tag_bits(rt: &HostRuntime, argument: Option<usize>) -> Option<u16> {
    let Some(i) = argument else {
        return Some(256);
    };
    let mut text = [0u8; command_line::WORD];
    let size = rt.arg(i, &mut text).ok()?;
    decimal::read(&text[..size])
}

pub(crate) fn run(rt: &HostRuntime) -> io::Result<()> {
    let Some(
        Asked {
            first: Some(key),
            second,
            option,
            ..
        },
    ) = asked::read(rt, command_line::count(rt), b"--check", b"")
    else {
        return saying::help_mac(rt);
    };
    let Some(m) = tag_bits(rt, second) else {
        return saying::complain(rt, "the tag length is not a decimal number up to 65535");
    };
    let mut tag = [0u8; TAG];
    let Some(size) = asked::hex_word(rt, option, &mut tag) else {
        return saying::complain(rt, "the tag is not hex digits, two a byte");
    };
    begin(rt, key, m, option.map(|_| text::first(&tag, size)))
}
