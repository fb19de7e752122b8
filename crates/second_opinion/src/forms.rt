// The calls on saved forms.
use crate::calls::{Room, say};
use crate::line_words::Line;
use crate::show::{Bytes, Shown};
use state::State;
use std::io;

pub(crate) fn save(
    rt: &impl Print,
    line: Line<'_>,
    state: State,
    room: &mut Room,
) -> Option<io::Result<()>> {
    let lent = line.bytes(1, &mut room.lent)?;
    let saved = saving::save(state, lent);
    Some(say(
        rt,
        format_args!("save {} {}", Shown(saved.answer), Bytes(lent)),
        &mut room.spelled,
    ))
}

pub(crate) fn load(
    rt: &impl Print,
    line: Line<'_>,
    state: &mut State,
    room: &mut Room,
) -> Option<io::Result<()>> {
    let form = line.bytes(1, &mut room.data)?;
    let loaded = loading::load(form);
    *state = loaded.state;
    Some(say(
        rt,
        format_args!("load {}", Shown(loaded)),
        &mut room.spelled,
    ))
}
