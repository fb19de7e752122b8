// The calls of the digest.
use crate::calls::{Room, say};
use crate::line_words::Line;
use crate::show::{Bytes, Shown};
use state::State;
use std::{fmt, io};
use streaming::Running;

// The form of the round that a call goes by, so that both are compared, and one digest goes through both: by the tables where a number is
// even (m for begin, the bytes added, the room for finish, the size of a tag that is checked), else byte by byte. One-shot has the tables.
pub(crate) fn form_for(n: usize) -> bool {
    if n % 2 == 0 {
        form::TABLES
    } else {
        form::BYTES
    }
}

pub(crate) fn begin(
    rt: &impl Print,
    line: Line<'_>,
    state: &mut State,
    room: &mut Room,
) -> Option<io::Result<()>> {
    let m = line.digest_bits(1)?;
    let salt = line.bytes(2, &mut room.salt)?;
    let begun = digest::begin(form_for(usize::from(m)), m, salt);
    *state = begun.state;
    Some(say(
        rt,
        format_args!("begin {}", Shown(begun)),
        &mut room.spelled,
    ))
}

// To the digest's state or the keyed one.
pub(crate) fn add<S: Running>(
    rt: &impl Print,
    name: &str,
    line: Line<'_>,
    state: &mut S,
    room: &mut Room,
) -> Option<io::Result<()>>
where
    Shown<S>: fmt::Display,
{
    let bytes = line.bytes(1, &mut room.data)?;
    let added = state.add(form_for(bytes.len()), bytes);
    *state = added.state;
    Some(say(
        rt,
        format_args!("{name} {}", Shown(added)),
        &mut room.spelled,
    ))
}

// The current state stays as it is, and what is handed back is shown.
pub(crate) fn finish(
    rt: &impl Print,
    line: Line<'_>,
    state: State,
    room: &mut Room,
) -> Option<io::Result<()>> {
    let last = line.last_bits(1, 2)?;
    let lent = line.bytes(3, &mut room.lent)?;
    let finished = digest::finish(form_for(lent.len()), state, last, lent);
    Some(say(
        rt,
        format_args!("finish {} {}", Shown(finished), Bytes(lent)),
        &mut room.spelled,
    ))
}

pub(crate) fn one_shot(rt: &impl Print, line: Line<'_>, room: &mut Room) -> Option<io::Result<()>> {
    let m = line.digest_bits(1)?;
    let salt = line.bytes(2, &mut room.salt)?;
    let bytes = line.bytes(3, &mut room.data)?;
    let last = line.last_bits(4, 5)?;
    let lent = line.bytes(6, &mut room.lent)?;
    let report = digest::one_shot(m, salt, bytes, last, lent);
    Some(say(
        rt,
        format_args!("oneshot {} {}", Shown(report), Bytes(lent)),
        &mut room.spelled,
    ))
}
