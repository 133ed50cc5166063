// The words of the command line.
use std::alloc::AllocError;
use std::env::{Env, FillError};

const FIRST_ROOM: usize = 256;

/// The words, the program's own name first. Whatever its bytes are, that name says nothing of what is
/// asked, and stands empty where it isn't UTF-8. There are no words at all where a later one isn't,
/// since no such word is in a grammar.
pub fn words<R: Env + AllocGlobal>(rt: &R) -> Result<Vec<String>, AllocError> {
    let mut words = Vec::new(rt.alloc());
    for number in 0..usize::MAX {
        let Some(bytes) = word(rt, number)? else {
            break;
        };
        match String::from_utf8(bytes) {
            Ok(text) => words.push(text)?,
            Err(_) if number == 0 => words.push(String::new(rt.alloc()))?,
            Err(_) => return Ok(Vec::new(rt.alloc())),
        }
    }
    Ok(words)
}

/// The bytes of that word, in room that is doubled until it has all of them.
fn word<R: Env + AllocGlobal>(rt: &R, number: usize) -> Result<Option<Vec<u8>>, AllocError> {
    let mut size = FIRST_ROOM;
    for _ in 0..usize::BITS {
        let mut room = vec![in rt.alloc(); 0u8; size]?;
        match rt.arg(number, &mut room) {
            Ok(count) => {
                room.truncate(count);
                return Ok(Some(room));
            }
            Err(FillError::NotPresent) => return Ok(None),
            Err(FillError::TooLong) => size = size.saturating_mul(2),
        }
    }
    Err(AllocError)
}
