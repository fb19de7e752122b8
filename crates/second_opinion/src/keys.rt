// The calls of keyed digests; add is one with the digest's. Begin is like the digest's but for the call, the room and the name: `Running` has no begin, and a trait that
// has one, with its two impls, is longer than this.
use crate::calls::{Room, say};
use crate::given;
use crate::hashing::form_for;
use crate::line_words::Line;
use crate::show::{Bytes, Shown};
use keyed_state::Keyed;
use std::io;

pub(crate) fn begin(
    rt: &impl Print,
    line: Line<'_>,
    keyed: &mut Keyed,
    room: &mut Room,
) -> Option<io::Result<()>> {
    let m = line.digest_bits(1)?;
    let key = line.bytes(2, &mut room.data)?;
    let begun = keyed::begin(form_for(usize::from(m)), m, key);
    *keyed = begun.state;
    Some(say(
        rt,
        format_args!("keybegin {}", Shown(begun)),
        &mut room.spelled,
    ))
}

// The keyed state that the line writes out, consistent or not, becomes the current one.
pub(crate) fn given(
    rt: &impl Print,
    line: Line<'_>,
    keyed: &mut Keyed,
    room: &mut Room,
) -> Option<io::Result<()>> {
    *keyed = Keyed {
        inner: given::read(line)?,
        key: line.array(8)?,
    };
    Some(say(
        rt,
        format_args!("keystate {}", Shown(*keyed)),
        &mut room.spelled,
    ))
}

// The current keyed state stays as it is, and what is handed back is shown.
pub(crate) fn finish(
    rt: &impl Print,
    line: Line<'_>,
    keyed: Keyed,
    room: &mut Room,
) -> Option<io::Result<()>> {
    let lent = line.bytes(1, &mut room.lent)?;
    let finished = keyed::finish(form_for(lent.len()), keyed, lent);
    Some(say(
        rt,
        format_args!("keyfinish {} {}", Shown(finished), Bytes(lent)),
        &mut room.spelled,
    ))
}

pub(crate) fn check(
    rt: &impl Print,
    line: Line<'_>,
    keyed: Keyed,
    room: &mut Room,
) -> Option<io::Result<()>> {
    let tag = line.bytes(1, &mut room.data)?;
    let compared = keyed::check(form_for(tag.len()), keyed, tag);
    Some(say(
        rt,
        format_args!("keycheck {}", Shown(compared)),
        &mut room.spelled,
    ))
}
