//! The number that the program is started with.
ghost use Rattle.std.specs.Prelude.{◌≡◌, get_or, map, string_bytes};
ghost use Rattle.pair_lines.specs.Words.{AsksFor, IsNumber};

/// The first byte of a word, or 0 where there is none.
fn first_byte(word: &str) -> u8
    ensures { result ≡ get_or word.now 0 0 }
{
    match word.as_bytes().first() {
        Some(byte) => *byte,
        None => 0,
    }
}

/// The number of a word, in digits without a sign or a leading zero.
fn number_of(word: &str) -> Option<u32>
    ensures { IsNumber word.now result }
{
    let first = first_byte(word);
    if first == b'+' {
        return None;
    }
    if first == b'0' && word.len() > 1 {
        return None;
    }
    match word.parse::<u32>() {
        Ok(number) => Some(number),
        Err(_) => None,
    }
}

/// Takes the words of the command line, the program's name first: the number of the phase before which
/// the standby is to take over. `None` for words that the program doesn't know.
pub fn read_number(words: &[String]) -> Option<u32>
    ensures { AsksFor (map (λ w. string_bytes w) words.now) result }
{
    match words {
        [_, word] => number_of(word.as_str()),
        _ => None,
    }
}
