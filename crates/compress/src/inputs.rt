// What a small compression's words are made from.
use counter::Counter;

#[derive(Clone, Copy)]
pub(crate) struct Inputs<'a> {
    pub(crate) block: &'a [u8; 128],
    pub(crate) counter: Counter,
    pub(crate) salt: &'a [u8; 64],
}
