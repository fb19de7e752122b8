// What the programs share that digest standard input: all of it added to a running state, bytes spelled in hex, and the line of a refusal.
#![tactic(auto)]

ghost use Rattle.std.specs.Prelude.{◌≡◌, ◌≤◌, ℕ, List, Some, length};
ghost use Rattle.answers.specs.declared.handed.Handed.{Handed};
ghost use Rattle.digest.specs.Calls.{add_of};
ghost use Rattle.keyed.specs.Calls.{key_add_of};
ghost use Rattle.text.specs.Digits.{hex_of};
ghost use Rattle.streaming.specs.declared.Stop.TheVariants.{Refused};

use answers::{Handed, Refusal};
use keyed_state::Keyed;
use state::State;
use std::io::Read;
use std::{fmt, io, str};

// A state that goes on with each part of a message.
pub trait Running: Copy {
    ghost added: { Self → List ℕ → Handed (Unit {0}) Self };

    fn add(self, form: bool, bytes: &[u8]) -> Handed<(), Self>
        ensures { result ≡ added self bytes.now };
}

impl Running for State {
    ghost added = { add_of };

    fn add(self, form: bool, bytes: &[u8]) -> Handed<(), State> {
        digest::add(form, self, bytes)
    }
}

impl Running for Keyed {
    ghost added = { key_add_of };

    fn add(self, form: bool, bytes: &[u8]) -> Handed<(), Keyed> {
        keyed::add(form, self, bytes)
    }
}

// Why not all of the input went in: a read failed, or what it brought was refused.
#[derive(Clone, Copy)]
pub enum Stop {
    Failed,
    Refused(Refusal),
}

impl From<Refusal> for Stop {
    ghost from_gives = { λ refusal stop. stop ≡ Refused refusal };

    fn from(refusal: Refusal) -> Stop {
        Stop::Refused(refusal)
    }
}

// Reads to the end, and adds what each read brings. A proved loop has to end, and nothing says that the input does: the turns are as many as no
// run uses up. The loop of `second_opinion` answers lines, and ends where a read fails: it would take closures for a read, a failure and the end to be this one, and be no plainer.
pub fn add_all<S: Running>(
    input: &mut impl Read,
    form: bool,
    state: S,
    buffer: &mut [u8],
) -> Result<S, Stop> {
    let mut reached = state;
    for _ in 0..u64::MAX {
        match input.read(buffer) {
            Ok(0) => return Ok(reached),
            Ok(size) => {
                let handed = reached.add(form, &buffer[..size]);
                handed.answer?;
                reached = handed.state;
            }
            Err(_) => return Err(Stop::Failed),
        }
    }
    Err(Stop::Failed)
}

// Bytes, two lower-case digits each, as `text::put_hex` spells them.
#[derive(Clone, Copy)]
pub struct Hex<'a>(pub &'a [u8]);

// How many bytes are spelled at once.
const PART: usize = 64;

// The digits of at most PART bytes, spelled in the buffer.
fn spelled<'a>(part: &[u8], digits: &'a mut [u8; 2 * PART]) -> &'a str
    requires { length part.now ≤ 64 }
    ensures { result.now ≡ hex_of part.now }
{
    let size = text::put_hex(digits, 0, part);
    str::from_utf8(text::first(digits, size)).unwrap_or("")
}

impl fmt::Display for Hex<'_> {
    ghost output = { λ h. Some (hex_of h.0.now) };

    fn fmt<W: fmt::Write>(&self, f: &mut fmt::Formatter<W>) -> fmt::Result {
        let mut digits = [0u8; 2 * PART];
        for part in self.0.chunks(PART) {
            f.write_str(spelled(part, &mut digits))?;
        }
        Ok(())
    }
}

// Writes the line of a refusal to standard output or standard error. It is put into a buffer, since formatting would take a loader many times its
// own size.
pub fn print_refusal(to: &impl Print, number: u8) -> io::Result<()> {
    let mut line = [0u8; 32];
    let at = text::put(&mut line, 0, b"refused ");
    let end = text::put_decimal(&mut line, at, u64::from(number));
    let size = text::put(&mut line, end, b"\n");
    to.write_all(text::first(&line, size))
}
