// What stands in a line: a label, and words behind it.
use crate::messages::Message;
use std::{fmt, str};

// The first `count` words, each as eight upper-case digits, which `text::put_word` spells: its digits are compared with the source's so. A slice in their place would want it
// proved that so many are there, in four functions; `take` asks nothing.
#[derive(Clone, Copy)]
pub(crate) struct Words {
    pub(crate) words: [u32; 16],
    pub(crate) count: usize,
}

impl fmt::Display for Words {
    fn fmt<W: fmt::Write>(&self, f: &mut fmt::Formatter<W>) -> fmt::Result {
        for word in self.words.iter().take(self.count) {
            let mut digits = [0u8; 8];
            let size = text::put_word(&mut digits, 0, *word);
            let spelled = str::from_utf8(text::first(&digits, size)).unwrap_or("");
            write!(f, " {spelled}")?;
        }
        Ok(())
    }
}

// The label of a digest. That it is salted is a word of the label, no step to run.
#[derive(Clone, Copy)]
pub(crate) struct Label {
    pub(crate) m: u16,
    pub(crate) salted: bool,
    pub(crate) message: Message,
}

impl fmt::Display for Label {
    fn fmt<W: fmt::Write>(&self, f: &mut fmt::Formatter<W>) -> fmt::Result {
        let kind = if self.salted { "salted" } else { "unsalted" };
        write!(f, "{} {kind} {}", self.m, self.message)
    }
}
