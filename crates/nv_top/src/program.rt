//! Trusted edge: the words that a program is given.
use nv_plain::NoMemory;
use std::env;
use std::io::ErrorKind;
use std::rt::Env;

/// The words behind the program's name. Where one of them isn't UTF-8 they are no command, as where there is none.
pub fn program_words<R: AllocGlobal + Env>(rt: &R) -> Result<Vec<String>, NoMemory> {
    let mut words = Vec::new(rt.alloc());
    match env::args(rt) {
        Ok(all) => {
            for word in all.skip(1) {
                words.push(word)?;
            }
        }
        Err(error) if error.kind() == ErrorKind::InvalidData => {}
        Err(_) => return Err(NoMemory),
    }
    Ok(words)
}
