//! The words that the program is started with.
ghost use Rattle.std.specs.Prelude.{◌≡◌, map, option_and_then, string_bytes};
ghost use Rattle.program_tools.specs.Numbers.{number_of};
ghost use Rattle.program_tools.specs.Words.{asked_alone, asked_of, asked_with, word_of};

use crate::level::parse_word;
use crate::number::number_of;
use crate::word_table::{Word, look_up};
use std::alloc::{AllocError, Global};

/// What the program is asked to do.
#[derive(Clone, Copy, Debug, PartialEq, Eq)]
pub enum Asked {
    /// To run the scenario that the source gives.
    Run,
    /// To run it, and to print what it changes of the routes in place of all that it does.
    Routes,
    /// To run the lock commands that the source gives, on a lock journal.
    Locks,
    /// To make an empty board.
    Prepare,
    /// To print each row of the board.
    Records,
    /// To tell where the board is kept, and how many transitions it has made.
    Check,
    /// To print the scenario of this number.
    Generate(u32),
    /// To run the scenario of this number on an empty board in memory.
    Large(u32),
}

/// What a word asks for that stands alone.
fn asked_alone(word: Word) -> Option<Asked>
    ensures { result ≡ asked_alone word }
{
    match word {
        Word::Run => Some(Asked::Run),
        Word::Routes => Some(Asked::Routes),
        Word::Locks => Some(Asked::Locks),
        Word::Prepare => Some(Asked::Prepare),
        Word::Records => Some(Asked::Records),
        Word::Check => Some(Asked::Check),
        Word::Generate | Word::Large => None,
    }
}

/// What a word asks for that stands before this number.
fn asked_with(word: Word, number: u32) -> Option<Asked>
    ensures { result ≡ asked_with word number }
{
    match word {
        Word::Generate => Some(Asked::Generate(number)),
        Word::Large => Some(Asked::Large(number)),
        Word::Run | Word::Routes | Word::Locks => None,
        Word::Prepare | Word::Records | Word::Check => None,
    }
}

/// The word that a text is as `clap` reads it, or, where that wants memory, by a look through the table.
fn word_of(alloc: Global, text: &str) -> Option<Word>
    ensures { result ≡ word_of text.now }
{
    if text.as_bytes().first() == Some(&b'-') {
        return None;
    }
    match parse_word(alloc, text) {
        Ok(word) => word,
        Err(AllocError) => look_up(text),
    }
}

/// What one text behind the program's name asks for.
fn asked_by_one(alloc: Global, text: &str) -> Option<Asked>
    ensures { result ≡ option_and_then asked_alone (word_of text.now) }
{
    asked_alone(word_of(alloc, text)?)
}

/// What two texts behind the program's name ask for.
fn asked_by_two(alloc: Global, text: &str, number: &str) -> Option<Asked>
    ensures { result ≡ option_and_then
        (λ word. option_and_then (asked_with word) (number_of number.now)) (word_of text.now) }
{
    let word = word_of(alloc, text)?;
    asked_with(word, number_of(number)?)
}

/// Takes the words of the command line, the program's name first. `None` for words that the
/// program doesn't know, and for no want of memory.
pub fn read_words(alloc: Global, words: &[String]) -> Option<Asked>
    ensures { result ≡ asked_of (map (λ w. string_bytes w) words.now) }
{
    match words {
        [_, word] => asked_by_one(alloc, word.as_str()),
        [_, word, number] => asked_by_two(alloc, word.as_str(), number.as_str()),
        _ => None,
    }
}

#[cfg(test)]
mod tests {
    use super::*;
    use std::test::Fail;

    fn read(alloc: Global, texts: &[&str]) -> Result<Option<Asked>, AllocError> {
        let mut words = Vec::new(alloc);
        for text in texts {
            words.push(String::from_str(alloc, *text)?)?;
        }
        Ok(read_words(alloc, &words))
    }

    #[test]
    fn one_word_behind_the_programs_name_is_read(rt: HostRuntime) -> Result<(), Fail> {
        let cases: [(&[&str], Option<Asked>); 7] = [
            (&["diego", "run"], Some(Asked::Run)),
            (&["diego", "routes"], Some(Asked::Routes)),
            (&["diego", "locks"], Some(Asked::Locks)),
            (&["diego", "prepare"], Some(Asked::Prepare)),
            (&["diego", "records"], Some(Asked::Records)),
            (&["diego", "check"], Some(Asked::Check)),
            (&["", "check"], Some(Asked::Check)),
        ];
        for (texts, asked) in cases {
            assert_eq!(rt; read(rt.alloc(), texts)?, asked, "at {texts:?}");
        }
        Ok(())
    }

    #[test]
    fn words_like_locks_ask_for_nothing(rt: HostRuntime) -> Result<(), Fail> {
        let cases: [&[&str]; 3] = [
            &["diego", "lock"],
            &["diego", "Locks"],
            &["diego", "locks", "x"],
        ];
        for texts in cases {
            assert_eq!(rt; read(rt.alloc(), texts)?, None, "at {texts:?}");
        }
        Ok(())
    }

    #[test]
    fn other_words_ask_for_nothing(rt: HostRuntime) -> Result<(), Fail> {
        let cases: [&[&str]; 19] = [
            &["diego", "Records"],
            &["diego", "record"],
            &["diego", "route"],
            &["diego", "Routes"],
            &["diego", "checks"],
            &["diego", ""],
            &["diego", "-h"],
            &["diego", "--help"],
            &["diego", "--"],
            &["diego", "help"],
            &["diego", "run", "x"],
            &["diego", "routes", "run"],
            &["diego", "run", "--"],
            &["diego", "check", "records"],
            &["diego", "generate"],
            &["diego", "large"],
            &["diego", "run", "7"],
            &["diego"],
            &[],
        ];
        for texts in cases {
            assert_eq!(rt; read(rt.alloc(), texts)?, None, "at {texts:?}");
        }
        Ok(())
    }

    #[test]
    fn a_word_and_a_number_behind_it_are_read(rt: HostRuntime) -> Result<(), Fail> {
        let cases: [(&[&str], Option<Asked>); 5] = [
            (&["diego", "generate", "7"], Some(Asked::Generate(7))),
            (&["diego", "large", "7"], Some(Asked::Large(7))),
            (&["diego", "generate", "0"], Some(Asked::Generate(0))),
            (&["diego", "generate", "10"], Some(Asked::Generate(10))),
            (
                &["diego", "generate", "4294967295"],
                Some(Asked::Generate(4_294_967_295)),
            ),
        ];
        for (texts, asked) in cases {
            assert_eq!(rt; read(rt.alloc(), texts)?, asked, "at {texts:?}");
        }
        Ok(())
    }

    #[test]
    fn texts_like_numbers_are_none(rt: HostRuntime) -> Result<(), Fail> {
        let cases = [
            "",
            "00",
            "07",
            "+7",
            "-7",
            " 7",
            "7 ",
            "7a",
            "0x7",
            "4294967296",
            "10000000000",
        ];
        for number in cases {
            assert_eq!(rt;
                read(rt.alloc(), &["diego", "generate", number])?,
                None,
                "at {number:?}"
            );
        }
        assert_eq!(rt; read(rt.alloc(), &["diego", "generate", "7", "7"])?, None);
        Ok(())
    }
}
