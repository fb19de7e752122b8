// The words behind a command: up to two names, an option that has a word behind it, and a flag.
use hex_bytes::HexError;
use std::rt::Env;

// Which argument is which: the names, and the word behind the option; and the flag.
#[derive(Clone, Copy, Default)]
pub(crate) struct Asked {
    pub(crate) first: Option<usize>,
    pub(crate) second: Option<usize>,
    pub(crate) option: Option<usize>,
    // Whether one word was given: what it stands for is the command's to say, so that no enum names it here.
    pub(crate) flag: bool,
}

enum Kind {
    Name,
    Option,
    Flag,
}

// A command that has no flag hands in an empty one, which no word that starts with `--` is. A word that is too long is no option and no flag.
fn kind_of(rt: &impl Env, i: usize, option: &[u8], flag: &[u8]) -> Option<Kind> {
    let mut text = [0u8; command_line::WORD];
    let word = match rt.arg(i, &mut text) {
        Ok(size) => &text[..size],
        Err(_) => return Some(Kind::Name),
    };
    if !word.starts_with(b"--") {
        return Some(Kind::Name);
    }
    if word == option {
        return Some(Kind::Option);
    }
    if word == flag {
        return Some(Kind::Flag);
    }
    None
}

impl Asked {
    fn take_name(&mut self, i: usize) -> Option<()> {
        if self.first.is_none() {
            self.first = Some(i);
            return Some(());
        }
        if self.second.is_some() {
            return None;
        }
        self.second = Some(i);
        Some(())
    }

    fn take_option(&mut self, i: usize) -> Option<()> {
        if self.option.is_some() {
            return None;
        }
        self.option = Some(i);
        Some(())
    }

    fn take_flag(&mut self) -> Option<()> {
        if self.flag {
            return None;
        }
        self.flag = true;
        Some(())
    }
}

// The words behind the command, option and flag before, between or behind the names, each at most once: none where a word is one too many, unknown or
// missing. Each command counts the names by itself.
pub(crate) fn read(rt: &impl Env, count: usize, option: &[u8], flag: &[u8]) -> Option<Asked> {
    let mut asked = Asked::default();
    // An option takes the word behind it out of the range too, which a `for` does not hand out.
    let mut words = 2..count;
    while let Some(i) = words.next() {
        match kind_of(rt, i, option, flag)? {
            Kind::Name => asked.take_name(i)?,
            Kind::Option => asked.take_option(words.next()?)?,
            Kind::Flag => asked.take_flag()?,
        }
    }
    Some(asked)
}

// Puts the bytes that an argument spells in hex to the start of `out` and says how many there are: 0 where there is no such argument, and all of `out`, unwritten, where they
// have no room in it. No number where it spells no bytes. (See `tag_bits` in mac for why each program has its own.)
pub(crate) fn hex_word(rt: &impl Env, argument: Option<usize>, out: &mut [u8]) -> Option<usize> {
    let Some(i) = argument else {
        return Some(0);
    };
    let mut text = [0u8; command_line::WORD];
    let Ok(size) = rt.arg(i, &mut text) else {
        return Some(out.len());
    };
    match hex_bytes::decode(&text[..size], out) {
        Err(HexError::NoRoom) => Some(out.len()),
        decoded => decoded.ok(),
    }
}
