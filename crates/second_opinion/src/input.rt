// Standard input, a chunk at a time, and the lines in it.
use crate::calls;
use crate::calls::{Current, Room};
use crate::line_words::Line;
use arrayvec::ArrayVec;
use std::io;
use std::io::Read;

// One byte more than the longest line, so that a line that is too long shows.
const ROOM: usize = calls::LONGEST + 1;

// What goes on from chunk to chunk: the front of a line that the chunks so far have brought, the current states, and room for the byte strings of a line.
#[derive(Drop)]
struct Session {
    line: ArrayVec<u8, ROOM>,
    current: Current,
    room: Room,
}

impl Session {
    // Puts more behind the line's front, as far as there is room.
    fn keep(&mut self, more: &[u8]) {
        let count = more.len().min(self.line.remaining_capacity());
        let _ = self.line.try_extend_from_slice(&more[..count]);
    }

    // Writes what a whole line gives, and begins the next.
    fn reply(&mut self, rt: &impl Print) -> io::Result<()> {
        let line = self.line.as_slice();
        let written = if line.starts_with(b"#") {
            Ok(())
        } else {
            match calls::answer(rt, Line(line), &mut self.current, &mut self.room) {
                Some(written) => written,
                None => println!(rt; "unreadable"),
            }
        };
        self.line.clear();
        written
    }

    // Answers each line that ends in the chunk.
    fn feed(&mut self, rt: &impl Print, chunk: &[u8]) -> io::Result<()> {
        for part in chunk.split_inclusive(|b| *b == b'\n') {
            match part.split_last() {
                Some((b'\n', front)) => {
                    self.keep(front);
                    self.reply(rt)?;
                }
                _ => self.keep(part),
            }
        }
        Ok(())
    }
}

// Answers every line of standard input, which ends where a read fails too. A proved loop has to end, and nothing says that the input does: so the
// loop has as many turns as no run uses up. It stands beside `streaming::add_all`, which adds each read to a state and takes a failed read for an error: one loop for
// both would take closures for a read, a failure and the end, and be no plainer.
pub(crate) fn run(rt: &HostRuntime) -> io::Result<()> {
    let mut chunk = [0u8; 65536];
    let mut session = Session {
        line: ArrayVec::new(),
        current: Current::new(),
        room: Room::new(),
    };
    let mut input = rt.stdin();
    for _ in 0..u64::MAX {
        match input.read(&mut chunk) {
            Ok(n) if n > 0 => session.feed(rt, &chunk[..n])?,
            _ => break,
        }
    }
    // A last line that no line feed ends.
    if !session.line.is_empty() {
        session.reply(rt)?;
    }
    Ok(())
}
