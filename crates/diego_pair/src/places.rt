// Where the files of the two boards are: in the folder in which the program began.
ghost use Rattle.std.specs.Prelude.{◌≡◌, ◌++◌, codes, string_bytes, IfOk};

use std::alloc::{AllocError, Global};
use std::env::Env;

/// The longest name that the system has, in bytes.
const LONGEST: usize = 4096;

/// The folder's name from the root, with a slash behind it. It is empty where the system can't tell it:
/// then a file of it is found by its own name alone, and nobody sees that the folder was moved.
pub(crate) fn folder<R: Env + AllocGlobal>(rt: &R) -> Result<String, AllocError> {
    let mut room = vec![in rt.alloc(); 0u8; LONGEST]?;
    let count = match rt.current_dir(&mut room) {
        Ok(count) => count,
        Err(_) => 0,
    };
    room.truncate(count);
    match String::from_utf8(room) {
        Ok(name) => ended(name),
        Err(_) => Ok(String::new(rt.alloc())),
    }
}

fn ended(mut name: String) -> Result<String, AllocError> {
    if !name.starts_with('/') {
        name.clear();
    } else if !name.ends_with('/') {
        name.push('/')?;
    }
    Ok(name)
}

/// The name of a file in this folder.
fn in_folder(alloc: Global, folder: &str, file: &str) -> Result<String, AllocError>
    ensures { IfOk result (λ name. string_bytes name ≡ folder.now ++ file.now) }
{
    let mut name = String::from_str(alloc, folder)?;
    name.push_str(file)?;
    Ok(name)
}

/// The names of the files of area A and of area B of the primary in this folder.
pub(crate) fn primary_names(alloc: Global, folder: &str) -> Result<(String, String), AllocError>
    ensures a { IfOk result (λ names. string_bytes names.0 ≡ folder.now ++ codes "board.a") }
    ensures b { IfOk result (λ names. string_bytes names.1 ≡ folder.now ++ codes "board.b") }
{
    let a = in_folder(alloc, folder, "board.a")?;
    let b = in_folder(alloc, folder, "board.b")?;
    Ok((a, b))
}

/// The names of the files of area A and of area B of the standby in this folder.
pub(crate) fn standby_names(alloc: Global, folder: &str) -> Result<(String, String), AllocError>
    ensures a { IfOk result (λ names. string_bytes names.0 ≡ folder.now ++ codes "standby.a") }
    ensures b { IfOk result (λ names. string_bytes names.1 ≡ folder.now ++ codes "standby.b") }
{
    let a = in_folder(alloc, folder, "standby.a")?;
    let b = in_folder(alloc, folder, "standby.b")?;
    Ok((a, b))
}
