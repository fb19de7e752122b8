// The words that a program is started with, the files that they name, and the line that says what failed.
#![tactic(auto)]

ghost use Rattle.std.specs.Prelude.{◌≤◌, length};

use std::env::FillError;
use std::io::{ErrorKind, Read, Write};
use std::rt::{Env, Files};
use std::{fs, io, str};

// The system's numbers for a word that is not there and for one that is too long.
const INVALID: i32 = 22;

const TOO_LONG: i32 = 36;

// The longest word that is read.
pub const WORD: usize = 4096;

// The longest text of an error, and more.
const ROOM: usize = 128;

// How many words there are, the program's own name among them.
pub fn count(rt: &impl Env) -> usize {
    let mut front = [0u8; 1];
    for i in 0..usize::MAX {
        if let Err(FillError::NotPresent) = rt.arg(i, &mut front) {
            return i;
        }
    }
    usize::MAX
}

// Why a word did not come, as an error of the system. Both types are std's, so that no `From` between them can stand here.
pub fn word_error(error: FillError) -> io::Error {
    match error {
        FillError::NotPresent => io::Error::from_raw_os_error(INVALID),
        FillError::TooLong => io::Error::from_raw_os_error(TOO_LONG),
    }
}

// Opens a file for reading. Only a name that is UTF-8 can be opened.
pub fn open<R: Files>(rt: &R, name: &[u8]) -> io::Result<R::File> {
    let path = str::from_utf8(name).map_err(|_| io::Error::from(ErrorKind::InvalidFilename))?;
    fs::open(rt, path)
}

// Reads until the buffer is full, the file ends or a read fails: how many bytes came, and whether a read failed. Each read says how far the next one goes, so that
// no range or iterator gives the turns.
pub fn read_full(file: &mut impl Read, buffer: &mut [u8]) -> (usize, io::Result<()>)
    ensures { result.0 ≤ length buffer.new }
{
    let mut done = 0;
    while done < buffer.len() {
        match file.read(&mut buffer[done..]) {
            Ok(0) => return (done, Ok(())),
            Ok(n) => done += n,
            Err(error) => return (done, Err(error)),
        }
    }
    (done, Ok(()))
}

// Puts the error's text at the start of `out`, as far as there is room, and answers its length.
fn put_error(error: &io::Error, out: &mut [u8; ROOM]) -> usize
    ensures { result ≤ 128 }
{
    let mut rest: &mut [u8] = out;
    let _ = write!(rest, "{error}");
    ROOM.saturating_sub(rest.len())
}

// The words of an error's text, without the system's number behind them.
fn words(text: &str) -> &str {
    text.split_once(" (os error ")
        .map_or(text, |(words, _)| words)
}

// Writes a line: what failed, as the caller names it, a colon and the error's words.
pub fn fail(to: &impl Print, what: &[u8], error: &io::Error) -> io::Result<()> {
    let mut room = [0u8; ROOM];
    let size = put_error(error, &mut room);
    let text = str::from_utf8(&room[..size]).unwrap_or("");
    to.write_all(what)?;
    to.write_all(b": ")?;
    to.write_all(words(text).as_bytes())?;
    to.write_all(b"\n")
}
