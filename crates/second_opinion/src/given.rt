// A state written out in a line.
use crate::calls::{Room, say};
use crate::line_words::Line;
use crate::show::Shown;
use reports::Length;
use state::State;
use std::io;

// The state that words 1 to 7 write out, consistent or not.
pub(crate) fn read(line: Line<'_>) -> Option<State> {
    Some(State {
        family: line.family(1)?,
        m: line.digest_bits(2)?,
        salt: line.array(3)?,
        chain: line.fours::<16>(4)?.map(u32::from_be_bytes),
        covered: Length(line.number(5)?),
        compressed: line.number(6)?,
        held: line.array(7)?,
    })
}

// The line's state becomes the current one.
pub(crate) fn given(
    rt: &impl Print,
    line: Line<'_>,
    state: &mut State,
    room: &mut Room,
) -> Option<io::Result<()>> {
    *state = read(line)?;
    Some(say(
        rt,
        format_args!("state {}", Shown(*state)),
        &mut room.spelled,
    ))
}
