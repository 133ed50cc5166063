//! A number among the words.
ghost use Rattle.std.specs.Prelude.{◌≡◌};
ghost use Rattle.program_tools.specs.Numbers.{begins_as_number, is_digits, number_of};

fn begins_as_number(text: &[u8]) -> bool
    ensures { result ≡ begins_as_number text.now }
{
    match text {
        [] => false,
        [_] => true,
        [first, ..] => *first != b'0',
    }
}

fn is_digits(text: &[u8]) -> bool
    ensures { result ≡ is_digits text.now }
{
    text.iter().all(|byte| byte.is_ascii_digit())
}

/// The number that a text is, in digits without a zero in front. It takes no memory.
pub(crate) fn number_of(text: &str) -> Option<u32>
    ensures { result ≡ number_of text.now }
{
    let bytes = text.as_bytes();
    if !begins_as_number(bytes) || !is_digits(bytes) {
        return None;
    }
    text.parse::<u32>().ok()
}
