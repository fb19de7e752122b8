// The calls of the boot log: check and write.
use crate::calls::{Room, say};
use crate::line_words::Line;
use crate::show::{Bytes, Shown};
use std::io;

pub(crate) fn check(rt: &impl Print, line: Line<'_>, room: &mut Room) -> Option<io::Result<()>> {
    let log = line.bytes(1, &mut room.data)?;
    let lent = line.bytes(2, &mut room.lent)?;
    let checked = bootlog::check(log, lent);
    Some(say(
        rt,
        format_args!("check {} {}", Shown(checked), Bytes(lent)),
        &mut room.spelled,
    ))
}

fn claims(line: Line<'_>, k: usize) -> Option<bool> {
    match line.number(k)? {
        0 => Some(false),
        1 => Some(true),
        _ => None,
    }
}

pub(crate) fn write(rt: &impl Print, line: Line<'_>, room: &mut Room) -> Option<io::Result<()>> {
    let salt = line.bytes(1, &mut room.salt)?;
    let registers = line.bytes(2, &mut room.bank)?;
    let events = line.bytes(3, &mut room.data)?;
    let claims = claims(line, 4)?;
    let lent = line.bytes(5, &mut room.lent)?;
    let written = logger::write(salt, registers, events, claims, lent);
    Some(say(
        rt,
        format_args!("write {} {}", Shown(written), Bytes(lent)),
        &mut room.spelled,
    ))
}
