// Reads a log from an open file and writes the text of its check to standard output, for the programs that do so.
#![tactic(auto)]

use std::io;
use std::io::Read;

// One byte more than the longest log has: what is longer is refused by it.
const MOST: usize = layout::LONGEST + 1;

// A read that fails ends the log as the file's end does: what came before it is checked. The text is taken by `text::first`: `print` says how long it is by its definition, and
// that so much fits stands in no clause of it.
pub fn print_check(rt: &impl Print, file: &mut impl Read) -> io::Result<()> {
    let mut log = [0u8; MOST];
    let (size, _) = command_line::read_full(file, &mut log);
    let mut lines = [0u8; printout::ROOM];
    let printed = printout::print(&log[..size], &mut lines);
    rt.write_all(text::first(&lines, answers::length(printed)))
}
