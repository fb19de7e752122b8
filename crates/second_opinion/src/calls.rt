// The calls that a line can make, by name. Each writes the line that it gives, or is none where the line read is not as the format has it. Each is lent what it uses of
// the printer, the line, the states and the room: a struct of them all would lend the rest too.
ghost use Rattle.std.specs.Prelude.{◌≤◌};

use crate::line_words::Line;
use crate::{forms, given, hashing, keys, logs, rounds};
use keyed_state::Keyed;
use state::State;
use std::io::Write;
use std::{fmt, io};

// A line has at most this many bytes.
pub(crate) const LONGEST: usize = 196608;

// The most bytes that a byte string of a line has.
const MOST: usize = 40000;

// A keyed state and the longest byte string, spelled, and more.
const SPELLED: usize = 98304;

// What the lines before have left: the digest's state and the keyed one.
#[derive(Clone, Copy)]
pub(crate) struct Current {
    pub(crate) state: State,
    pub(crate) keyed: Keyed,
}

// Room for the byte strings of a line, and for the line that it gives.
#[derive(Drop)]
pub(crate) struct Room {
    pub(crate) salt: [u8; MOST],
    pub(crate) bank: [u8; MOST],
    pub(crate) data: [u8; MOST],
    pub(crate) lent: [u8; MOST],
    pub(crate) spelled: [u8; SPELLED],
}

impl Current {
    pub(crate) fn new() -> Current {
        Current {
            state: state::zero_state(),
            keyed: keyed_state::zero_keyed(),
        }
    }
}

impl Room {
    pub(crate) fn new() -> Room {
        Room {
            salt: [0u8; MOST],
            bank: [0u8; MOST],
            data: [0u8; MOST],
            lent: [0u8; MOST],
            spelled: [0u8; SPELLED],
        }
    }
}

// Puts a line and its line feed at the start of `out`, as far as there is room, and answers its length. `command_line::put_error` does the like for an error: one for both would
// be public, take the array's size as a parameter and promise the bound alone.
fn spell<D: fmt::Display + Drop>(line: D, out: &mut [u8; SPELLED]) -> usize
    ensures { result ≤ 98304 }
{
    let mut rest: &mut [u8] = out;
    let _ = writeln!(rest, "{line}");
    SPELLED.saturating_sub(rest.len())
}

// Writes a line in one call, whatever its length: `println!` would write it in parts of 1,024 bytes.
pub(crate) fn say<D: fmt::Display + Drop>(
    rt: &impl Print,
    line: D,
    out: &mut [u8; SPELLED],
) -> io::Result<()> {
    let size = spell(line, out);
    rt.write_all(&out[..size])
}

// What a line that is no comment gives: the call that the first word names, where the words that follow are as many as it takes.
pub(crate) fn answer(
    rt: &impl Print,
    line: Line<'_>,
    current: &mut Current,
    room: &mut Room,
) -> Option<io::Result<()>> {
    if line.0.len() > LONGEST {
        return None;
    }
    let state = &mut current.state;
    let keyed = &mut current.keyed;
    match (line.word(0), line.arguments()) {
        (b"begin", 2) => hashing::begin(rt, line, state, room),
        (b"state", 7) => given::given(rt, line, state, room),
        (b"add", 1) => hashing::add::<State>(rt, "add", line, state, room),
        (b"finish", 3) => hashing::finish(rt, line, *state, room),
        (b"oneshot", 6) => hashing::one_shot(rt, line, room),
        (b"check", 2) => logs::check(rt, line, room),
        (b"save", 1) => forms::save(rt, line, *state, room),
        (b"load", 1) => forms::load(rt, line, state, room),
        (b"write", 5) => logs::write(rt, line, room),
        (b"round", 2) => rounds::round(rt, line, room),
        (b"keybegin", 2) => keys::begin(rt, line, keyed, room),
        (b"keystate", 8) => keys::given(rt, line, keyed, room),
        (b"keyadd", 1) => hashing::add::<Keyed>(rt, "keyadd", line, keyed, room),
        (b"keyfinish", 1) => keys::finish(rt, line, *keyed, room),
        (b"keycheck", 1) => keys::check(rt, line, *keyed, room),
        _ => None,
    }
}
