//! The words that the program knows, with their texts.
ghost use Rattle.std.specs.Prelude.{◌≡◌, find};
ghost use Rattle.std.specs.Str.{bytes_eq};
ghost use Rattle.program_tools.specs.Words.{text_for, word_of};

/// A word behind the program's name.
#[derive(Clone, Copy, Debug, PartialEq, Eq)]
pub(crate) enum Word {
    Run,
    Routes,
    Locks,
    Prepare,
    Records,
    Check,
    Generate,
    Large,
}

impl Word {
    /// All words that the program knows.
    pub(crate) const ALL: [Word; 8] = [
        Word::Run,
        Word::Routes,
        Word::Locks,
        Word::Prepare,
        Word::Records,
        Word::Check,
        Word::Generate,
        Word::Large,
    ];

    pub(crate) fn text(self) -> &'static str
        ensures { result.now ≡ text_for self }
    {
        match self {
            Word::Run => "run",
            Word::Routes => "routes",
            Word::Locks => "locks",
            Word::Prepare => "prepare",
            Word::Records => "records",
            Word::Check => "check",
            Word::Generate => "generate",
            Word::Large => "large",
        }
    }
}

/// The first of these that has this text.
fn first_by_text(words: &[Word], text: &str) -> Option<Word>
    ensures { result ≡ find (λ word. bytes_eq text.now (text_for word)) words.now }
{
    words.iter().copied().find(|word| text == word.text())
}

/// The word that a text is, by a look through the table, which takes no memory.
pub(crate) fn look_up(text: &str) -> Option<Word>
    ensures { result ≡ word_of text.now }
{
    first_by_text(&Word::ALL, text)
}
