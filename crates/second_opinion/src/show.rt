// Values as words of a line.
use answers::{Handed, Refusal};
use keyed_state::Keyed;
use log_answers::{CheckAnswer, Findings, LogAnswer, Refused, Verdict};
use reports::{Coverage, Length};
use state::State;
use std::fmt;
use streaming::Hex;

// A byte string.
#[derive(Clone, Copy)]
pub(crate) struct Bytes<'a>(pub(crate) &'a [u8]);

impl fmt::Display for Bytes<'_> {
    fn fmt<W: fmt::Write>(&self, f: &mut fmt::Formatter<W>) -> fmt::Result {
        if self.0.is_empty() {
            return write!(f, "-");
        }
        let spelled = Hex(self.0);
        write!(f, "{spelled}")
    }
}

// A chain as a byte string: each word most significant byte first.
#[derive(Clone, Copy)]
struct Chain([u32; 16]);

impl fmt::Display for Chain {
    fn fmt<W: fmt::Write>(&self, f: &mut fmt::Formatter<W>) -> fmt::Result {
        let bytes = self.0.map(u32::to_be_bytes);
        let spelled = Hex(bytes.as_flattened());
        write!(f, "{spelled}")
    }
}

// A state, or what a call answers: the refusal's number or 0 first, and zeros behind the number of a refusal. The number and the values are what the crates' own
// calls say of an answer, so that those are compared too.
#[derive(Clone, Copy)]
pub(crate) struct Shown<T>(pub(crate) T);

// What a digest is begun with, and how far it is: the family, m and the salt; the chain, the counts and the held block.
impl fmt::Display for Shown<State> {
    fn fmt<W: fmt::Write>(&self, f: &mut fmt::Formatter<W>) -> fmt::Result {
        let state = self.0;
        let family = state.family.number();
        let salt = Bytes(state.salt.as_slice());
        let chain = Chain(state.chain);
        let covered = state.covered.0;
        let held = Bytes(state.held.as_slice());
        write!(f, "{family} {} {salt} {chain} ", state.m)?;
        write!(f, "{covered} {} {held}", state.compressed)
    }
}

// The inner state and the padded key.
impl fmt::Display for Shown<Keyed> {
    fn fmt<W: fmt::Write>(&self, f: &mut fmt::Formatter<W>) -> fmt::Result {
        let keyed = self.0;
        let inner = Shown(keyed.inner);
        let key = Bytes(keyed.key.as_slice());
        write!(f, "{inner} {key}")
    }
}

impl fmt::Display for Shown<Result<(), Refusal>> {
    fn fmt<W: fmt::Write>(&self, f: &mut fmt::Formatter<W>) -> fmt::Result {
        write!(f, "{}", answers::answer_number(self.0))
    }
}

// The bytes covered.
impl fmt::Display for Shown<Result<Length, Refusal>> {
    fn fmt<W: fmt::Write>(&self, f: &mut fmt::Formatter<W>) -> fmt::Result {
        let covered = tag_answers::covered(self.0);
        write!(f, "{} {covered}", tag_answers::number(self.0))
    }
}

// Whether the tag is right.
impl fmt::Display for Shown<Result<bool, Refusal>> {
    fn fmt<W: fmt::Write>(&self, f: &mut fmt::Formatter<W>) -> fmt::Result {
        let said = if tag_answers::is_yes(self.0) {
            "yes"
        } else {
            "no"
        };
        write!(f, "{} {said}", tag_answers::check_number(self.0))
    }
}

// The bytes and bits covered and the blocks compressed.
impl fmt::Display for Shown<Result<Coverage, Refusal>> {
    fn fmt<W: fmt::Write>(&self, f: &mut fmt::Formatter<W>) -> fmt::Result {
        let covered = reports::covered(self.0);
        let bits = reports::bits(self.0);
        let blocks = reports::blocks(self.0);
        write!(f, "{} {covered} {bits} {blocks}", reports::number(self.0))
    }
}

// How many bytes were written.
impl fmt::Display for Shown<Result<usize, Refusal>> {
    fn fmt<W: fmt::Write>(&self, f: &mut fmt::Formatter<W>) -> fmt::Result {
        let size = answers::length(self.0);
        write!(f, "{} {size}", answers::written_number(self.0))
    }
}

impl fmt::Display for Shown<Verdict> {
    fn fmt<W: fmt::Write>(&self, f: &mut fmt::Formatter<W>) -> fmt::Result {
        match self.0 {
            Verdict::NoClaim => write!(f, "noclaim"),
            Verdict::Agrees => write!(f, "agrees"),
            Verdict::Differs(register) => write!(f, "differs {register}"),
        }
    }
}

// The refusal's offset, the registers, the events, the blocks compressed and the verdict.
impl fmt::Display for Shown<Result<Findings, Refused>> {
    fn fmt<W: fmt::Write>(&self, f: &mut fmt::Formatter<W>) -> fmt::Result {
        let checked = self.0;
        let offset = log_answers::offset(checked.place());
        write!(f, "{} {offset} {} ", checked.number(), checked.registers())?;
        let verdict = Shown(checked.verdict());
        write!(f, "{} {} {verdict}", checked.events(), checked.blocks())
    }
}

// What a call answers, and the state handed back.
impl<T: Copy, S: Copy> fmt::Display for Shown<Handed<T, S>>
where
    Shown<Result<T, Refusal>>: fmt::Display,
    Shown<S>: fmt::Display,
{
    fn fmt<W: fmt::Write>(&self, f: &mut fmt::Formatter<W>) -> fmt::Result {
        let handed = self.0;
        write!(f, "{} {}", Shown(handed.answer), Shown(handed.state))
    }
}
