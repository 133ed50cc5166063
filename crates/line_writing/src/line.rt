//! One line of output: an object, written member by member, and a newline.
ghost use Rattle.std.specs.Prelude.{◌≡◌, ◌++◌, ◌∷◌, [], IfOk};
ghost use Rattle.json.specs.Print.{print};

use json::Writer;
use std::alloc::{AllocError, Global};

/// As many bytes as most lines have.
const USUAL: usize = 512;

/// A line of which nothing is written.
pub fn line_begun(alloc: Global) -> Result<Writer, AllocError>
    ensures { IfOk result (λ line. (line.before ≡ []) × (line.tokens ≡ [])) }
{
    Ok(Writer::new(Vec::with_capacity(alloc, USUAL)?))
}

/// The text of what was written, and a newline.
pub fn line_ended(line: Writer) -> Result<Vec<u8>, AllocError>
    ensures { IfOk result (λ text. text.items ≡ (line.before ++ print line.tokens) ++ 10 ∷ []) }
{
    let mut text = line.into_inner();
    text.push(b'\n')?;
    Ok(text)
}
