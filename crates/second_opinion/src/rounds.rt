// The AES round in both forms, on a state and a subkey of 16 bytes each, column by column.
use crate::calls::{Room, say};
use crate::line_words::Line;
use std::io;
use streaming::Hex;

// The result of the byte form, and the one over the tables, whose words have row 0 as the most significant byte.
pub(crate) fn round(rt: &impl Print, line: Line<'_>, room: &mut Room) -> Option<io::Result<()>> {
    let state = line.fours::<4>(1)?;
    let subkey = line.fours::<4>(2)?;
    let bytes = aes::round(state, subkey);
    let words = tables::round(
        &tables::all(),
        state.map(u32::from_be_bytes),
        subkey.map(u32::from_be_bytes),
    );
    let tabled = words.map(u32::to_be_bytes);
    Some(say(
        rt,
        format_args!(
            "round {} {}",
            Hex(bytes.as_flattened()),
            Hex(tabled.as_flattened())
        ),
        &mut room.spelled,
    ))
}
