//! The words of a line, and decimal numbers.
ghost use Rattle.std.specs.Prelude.{◌≡◌, ◌<◌, ◌==◌};
ghost use Rattle.std.specs.List.{after_first, before_first};
ghost use Rattle.jobs.specs.LineParts.{behind, is_digits, number_of};

/// The text before the first `mark`, an ASCII character; the whole text if there is none.
pub(crate) fn before_first(text: &str, mark: char) -> &str
    requires { mark < 128 }
    ensures { result.now ≡ before_first (λ char. char == mark) text.now }
{
    match text.split_once(mark) {
        Some((front, _)) => front,
        None => text,
    }
}

/// The text after the first `mark`, an ASCII character; empty if there is none.
pub(crate) fn after_first(text: &str, mark: char) -> &str
    requires { mark < 128 }
    ensures { result.now ≡ after_first (λ char. char == mark) text.now }
{
    match text.split_once(mark) {
        Some((_, rest)) => rest,
        None => "",
    }
}

/// The text after the first blank; empty if there is no blank.
pub fn behind(text: &str) -> &str
    ensures { result.now ≡ behind text.now }
{
    after_first(text, ' ')
}

/// Whether a word consists of decimal digits, at least one.
fn is_digits(word: &str) -> bool
    ensures { result ≡ is_digits word.now }
{
    for digit in word.as_bytes() {
        if !digit.is_ascii_digit() {
            return false;
        }
    }
    !word.is_empty()
}

/// The value of a decimal number of any length, at most `usize::MAX`; None if the word isn't decimal digits.
pub fn number_of(word: &str) -> Option<usize>
    ensures { result ≡ number_of word.now }
{
    if !is_digits(word) {
        return None;
    }
    // Digits fail to parse only if the number is too large.
    Some(word.parse::<usize>().unwrap_or(usize::MAX))
}
