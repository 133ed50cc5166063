//! The words that the program is started with.
ghost use Rattle.std.specs.Prelude.{◌≡◌, map, string_bytes};
ghost use Rattle.headroom_engine.specs.Words.{asked_by_word, asked_of};

/// In what form the answers are told.
#[derive(Clone, Copy, Debug, PartialEq, Eq)]
pub enum Asked {
    /// As lines of JSON.
    Lines,
    /// As tables for people.
    Table,
}

/// Takes the words of the command line, the program's name first. `None` for words that the program
/// doesn't know.
pub(crate) fn read_words(words: &[String]) -> Option<Asked>
    ensures { result ≡ asked_of (map (λ w. string_bytes w) words.now) }
{
    match words {
        [_, word] => asked_by(word.as_str()),
        _ => None,
    }
}

fn asked_by(word: &str) -> Option<Asked>
    ensures { result ≡ asked_by_word word.now }
{
    if word == "lines" {
        Some(Asked::Lines)
    } else if word == "table" {
        Some(Asked::Table)
    } else {
        None
    }
}
