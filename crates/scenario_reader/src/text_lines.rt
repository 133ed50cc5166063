//! A text is read line by line. Blank lines are passed over and counted.
ghost use Rattle.std.specs.Prelude.{◌≡◌, ◌<◌, ◌+◌, ◌^◌, ◌∷◌, [], length, position, MatchOption, IfSome};
ghost use Rattle.scenario_reader.specs.TextLines.{is_newline, is_blank, line_view, lines_of, nonblank_in};

use memchr::memchr;

/// A line with its number.
#[derive(Clone, Copy)]
pub struct TextLine<'a> {
    /// The first line of a text is 1.
    pub number: u32,
    pub text: &'a [u8],
}

/// What has not been read of a text, and the number of its first line.
#[derive(Clone, Copy)]
pub struct Rest<'a> {
    pub number: u32,
    pub bytes: &'a [u8],
}

/// The next line that isn't blank, and what stands behind it.
pub fn next_line(rest: Rest<'_>) -> Option<(TextLine<'_>, Rest<'_>)>
    requires { rest.number + length rest.bytes.now < 2 ^ 32 }
    ensures next { MatchOption result (nonblank_in rest.entry ≡ [])
        (λ found. nonblank_in rest.entry ≡ line_view found.0 ∷ nonblank_in found.1) }
    ensures room { IfSome result
        (λ found. found.1.number + length found.1.bytes.now < 2 ^ 32) }
    ensures shorter { IfSome result
        (λ found. length found.1.bytes.now < length rest.entry.bytes.now) }
{
    let mut number = rest.number;
    let mut bytes = rest.bytes;
    while !bytes.is_empty() {
        let (text, behind) = first_line(bytes);
        let line = TextLine { number, text };
        number += 1;
        bytes = behind;
        if !is_blank(text) {
            return Some((line, Rest { number, bytes }));
        }
    }
    None
}

// The first line, and what stands behind its newline.
fn first_line(bytes: &[u8]) -> (&[u8], &[u8])
    requires { 0 < length bytes.now }
    ensures cut { lines_of bytes.now ≡ result.0.now ∷ lines_of result.1.now }
    ensures shorter { length result.1.now < length bytes.now }
{
    match newline_in(bytes) {
        Some(at) => (&bytes[..at], &bytes[at + 1..]),
        None => (bytes, &[]),
    }
}

fn newline_in(bytes: &[u8]) -> Option<usize>
    ensures { result ≡ position is_newline bytes.now }
{
    memchr(b'\n', bytes)
}

fn is_blank(line: &[u8]) -> bool
    ensures { result ≡ is_blank line.now }
{
    line.iter()
        .all(|byte| matches!(*byte, b' ' | b'\t' | b'\r'))
}
