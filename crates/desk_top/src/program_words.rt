use std::env::Env;
use std::{env, io};

/// Why the program's words weren't read.
#[derive(Clone, Copy, Debug, PartialEq, Eq)]
pub enum WordsFault {
    /// Some word is no text.
    NotText,
    /// There was no memory.
    OutOfMemory,
}

/// The program's words without its name. `NotText` where some word isn't UTF-8, `OutOfMemory` where
/// there was no memory for them.
pub fn words(rt: &(impl Env + AllocGlobal)) -> Result<Vec<String>, WordsFault> {
    let mut words = Vec::new(rt.alloc());
    for word in env::args(rt).map_err(|error| fault(&error))?.skip(1) {
        words.push(word).map_err(|_| WordsFault::OutOfMemory)?;
    }
    Ok(words)
}

fn fault(error: &io::Error) -> WordsFault {
    match error.kind() {
        io::ErrorKind::OutOfMemory => WordsFault::OutOfMemory,
        _ => WordsFault::NotText,
    }
}
