// Files that arguments name.
use std::io;
use std::rt::Env;

// A read that fails is no end: what came before it could pass for a whole file.
fn read_named(rt: &HostRuntime, name: &[u8], buffer: &mut [u8]) -> io::Result<usize> {
    let mut file = command_line::open(rt, name)?;
    let (size, ended) = command_line::read_full(&mut file, buffer);
    ended?;
    Ok(size)
}

fn failed(rt: &HostRuntime, what: &[u8], error: &io::Error) -> io::Result<Option<usize>> {
    command_line::fail(&rt.stderr(), what, error)?;
    Ok(None)
}

// How many bytes the file has that argument i names, or as many as there is room for. None came where that failed, which is said.
pub(crate) fn load(rt: &HostRuntime, i: usize, buffer: &mut [u8]) -> io::Result<Option<usize>> {
    let mut name = [0u8; command_line::WORD];
    match rt.arg(i, &mut name) {
        Ok(size) => match read_named(rt, &name[..size], buffer) {
            Ok(read) => Ok(Some(read)),
            Err(error) => failed(rt, &name[..size], &error),
        },
        Err(error) => failed(rt, b"file name", &command_line::word_error(error)),
    }
}
