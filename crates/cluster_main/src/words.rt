//! The words of the program: its name and its arguments.
use std::alloc::{AllocError, Global};
use std::env::{Env, FillError};
use std::str;

/// The longest argument that is read.
const LONGEST_WORD: usize = 4096;

/// The program's name and its arguments, or none where one is no text or too long. The name by which it was called
/// doesn't matter.
pub fn read_words<N: Env>(alloc: Global, env: &N) -> Result<Option<Vec<String>>, AllocError> {
    let mut words = Vec::new(alloc);
    words.push(String::from_str(alloc, "cluster_main")?)?;
    let mut bytes = [0u8; LONGEST_WORD];
    for place in 1..usize::MAX {
        let len = match env.arg(place, &mut bytes) {
            Ok(len) => len,
            Err(FillError::NotPresent) => break,
            Err(FillError::TooLong) => return Ok(None),
        };
        let Ok(word) = str::from_utf8(&bytes[..len]) else {
            return Ok(None);
        };
        words.push(String::from_str(alloc, word)?)?;
    }
    Ok(Some(words))
}
