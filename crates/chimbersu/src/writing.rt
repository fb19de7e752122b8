// chimbersu write REGISTERS EVENTS [--salt HEX] [--claims]: a boot log from its parts.
use crate::asked::Asked;
use crate::{asked, files, saying};
use std::io;

// One byte more than the most registers and events have: what is longer is refused by it.
const REGISTERS: usize = layout::REGISTER_BYTES * layout::MOST_REGISTERS + 1;

const EVENTS: usize = layout::EVENT_BYTES * layout::MOST_EVENTS + 1;

// The longest salt that is read.
const SALT: usize = 64;

// The parts are taken by `text::first`: `load` and `logger::write` say how many bytes there are, and that so many fit stands in no clause of theirs.
fn write(rt: &HostRuntime, names: (usize, usize), salt: &[u8], claims: bool) -> io::Result<()> {
    let mut registers = [0u8; REGISTERS];
    let Some(r) = files::load(rt, names.0, &mut registers)? else {
        return Ok(());
    };
    let mut events = [0u8; EVENTS];
    let Some(n) = files::load(rt, names.1, &mut events)? else {
        return Ok(());
    };
    let registers = text::first(&registers, r);
    let events = text::first(&events, n);
    let mut log = [0u8; layout::LONGEST];
    let written = logger::write(salt, registers, events, claims, &mut log);
    match written {
        Ok(_) => saying::printed(
            rt,
            rt.write_all(text::first(&log, answers::length(written))),
        ),
        Err(_) => saying::refuse(rt, answers::written_number(written)),
    }
}

// A salt that has no room is longer than any that is allowed, as the whole room is: it is refused like that.
pub(crate) fn run(rt: &HostRuntime) -> io::Result<()> {
    let Some(
        Asked {
            first: Some(registers),
            second: Some(events),
            option,
            flag,
        },
    ) = asked::read(rt, command_line::count(rt), b"--salt", b"--claims")
    else {
        return saying::help_write(rt);
    };
    let mut salt = [0u8; SALT];
    let Some(size) = asked::hex_word(rt, option, &mut salt) else {
        return saying::complain(rt, "the salt is not hex digits, two a byte");
    };
    write(rt, (registers, events), text::first(&salt, size), flag)
}
