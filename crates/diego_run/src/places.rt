// Where the two files of a board are: in the folder in which the program began.
ghost use Rattle.std.specs.Prelude.{◌≡◌, ◌++◌, codes, string_bytes, IfOk};

use std::alloc::{AllocError, Global};
use std::env::Env;

/// The longest name that the system has, in bytes.
const LONGEST: usize = 4096;

/// The folder's name from the root, with a slash behind it. It is empty where the system can't tell it:
/// then a file of it is found by its own name alone, and nobody sees that the folder was moved.
pub(crate) fn folder<R: Env + AllocGlobal>(rt: &R) -> Result<String, AllocError> {
    let mut room = vec![in rt.alloc(); 0u8; LONGEST]?;
    let count = match rt.current_dir(&mut room) {
        Ok(count) => count,
        Err(_) => 0,
    };
    room.truncate(count);
    match String::from_utf8(room) {
        Ok(name) => ended(name),
        Err(_) => Ok(String::new(rt.alloc())),
    }
}

fn ended(mut name: String) -> Result<String, AllocError> {
    if !name.starts_with('/') {
        name.clear();
    } else if !name.ends_with('/') {
        name.push('/')?;
    }
    Ok(name)
}

/// The names of the files of area A and of area B in this folder.
pub(crate) fn file_names(alloc: Global, folder: &str) -> Result<(String, String), AllocError>
    ensures a { IfOk result (λ names. string_bytes names.0 ≡ folder.now ++ codes "board.a") }
    ensures b { IfOk result (λ names. string_bytes names.1 ≡ folder.now ++ codes "board.b") }
{
    let mut a = String::from_str(alloc, folder)?;
    a.push_str("board.a")?;
    let mut b = String::from_str(alloc, folder)?;
    b.push_str("board.b")?;
    Ok((a, b))
}
