//! The program's words as one level of `clap`'s subcommands.
ghost use Rattle.std.specs.Prelude.{◌≡◌, IfOk, false};
ghost use Rattle.clap.specs.Words.{app_of, new_app};
ghost use Rattle.clap.specs.declared.builder.command.Command.TheViews.{out-Command as fields_of};
ghost use Rattle.program_tools.specs.Level.{begins_with_hyphen, level};
ghost use Rattle.program_tools.specs.Words.{text_for, word_of};

use crate::word_table::{Word, look_up};
use clap::Command;
use clap::error::ErrorKind;
use std::alloc::{AllocError, Global};

/// The subcommand of a word, which takes nothing behind it.
fn subcommand<'a>(alloc: Global, word: Word) -> Command<'a>
    ensures app { app_of result ≡ new_app (text_for word) }
    ensures local { (fields_of result).has_globals ≡ false }
{
    let text: &'a str = word.text();
    Command::new(alloc, text)
}

/// A subcommand for each word, of which one has to stand, without the flags and the subcommand that `clap`
/// would add.
fn level<'a>(alloc: Global) -> Result<Command<'a>, AllocError>
    ensures { IfOk result (λ command. app_of command ≡ level) }
{
    let mut level = Command::new(alloc, "diego")
        .no_binary_name(true)
        .subcommand_required(true)
        .disable_help_flag(true)
        .disable_help_subcommand(true)
        .disable_version_flag(true);
    for word in Word::ALL {
        level = level.subcommand(subcommand(alloc, word))?;
    }
    Ok(level)
}

/// The word that a text is, as `clap` reads it. The texts of its errors aren't shown.
pub(crate) fn parse_word(alloc: Global, text: &str) -> Result<Option<Word>, AllocError>
    requires { begins_with_hyphen text.now ≡ false }
    ensures { IfOk result (λ word. word ≡ word_of text.now) }
{
    let words = [text];
    match level(alloc)?.try_get_matches_from(words.as_slice()) {
        Ok(matches) => Ok(matches.subcommand_name().and_then(look_up)),
        Err(error) => {
            if error.kind() == ErrorKind::OutOfMemory {
                Err(AllocError)
            } else {
                Ok(None)
            }
        }
    }
}

#[cfg(test)]
mod tests {
    use super::*;
    use std::test::Fail;

    #[test]
    fn each_word_is_read_where_there_is_memory(rt: HostRuntime) -> Result<(), Fail> {
        for wanted in Word::ALL {
            assert_eq!(rt; parse_word(rt.alloc(), wanted.text()), Ok(Some(wanted)));
        }
        for word in ["", "r", "runs", "Run", "help", "run=1", "diego"] {
            assert_eq!(rt; parse_word(rt.alloc(), word), Ok(None), "at {word:?}");
        }
        Ok(())
    }
}
