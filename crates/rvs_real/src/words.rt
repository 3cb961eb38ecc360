// The words of the command line.
use rvs_base::NoMemory;
use std::io::ErrorKind;
use std::{env, io};

fn all_words(rt: &HostRuntime) -> io::Result<Vec<String>> {
    let mut words = Vec::new(rt.alloc());
    for word in env::args(rt)? {
        words.push(word)?;
    }
    Ok(words)
}

/// The words of the command line, the program's name first; none where one of them isn't UTF-8,
/// since such words are no command.
///
/// # Errors
///
/// Want of memory.
pub fn real_words(rt: &HostRuntime) -> Result<Vec<String>, NoMemory> {
    match all_words(rt) {
        Ok(words) => Ok(words),
        Err(error) if error.kind() == ErrorKind::OutOfMemory => Err(NoMemory),
        Err(_) => Ok(Vec::new(rt.alloc())),
    }
}
