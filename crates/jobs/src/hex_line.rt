//! Lines of hexadecimal.
ghost use Rattle.std.specs.Prelude.{◌≡◌, IfOk, MatchOption, Some, None};
ghost use Rattle.jobs.specs.HexLines.{bytes_of_word, bytes_of_line};

use std::alloc::{AllocError, Global};

/// The bytes of a word of pairs of hexadecimal digits; Ok(None) if it isn't such a word. An error if memory is refused.
fn bytes_of_word(alloc: Global, word: &str) -> Result<Option<Vec<u8>>, AllocError>
    ensures { IfOk result (λ found. MatchOption found (bytes_of_word word.now ≡ None)
        (λ bytes. bytes_of_word word.now ≡ Some bytes.items)) }
{
    match hex::decode(alloc, word) {
        Ok(bytes) => Ok(Some(bytes)),
        Err(hex::FromHexError::OutOfMemory) => Err(AllocError),
        Err(_) => Ok(None),
    }
}

/// The bytes of a line of pairs of hexadecimal digits in either case, with blanks before, between and after them;
/// Ok(None) if it isn't such a line. An error if memory is refused.
pub fn bytes_of_line(alloc: Global, line: &str) -> Result<Option<Vec<u8>>, AllocError>
    ensures { IfOk result (λ found. MatchOption found (bytes_of_line line.now ≡ None)
        (λ bytes. bytes_of_line line.now ≡ Some bytes.items)) }
{
    let mut bytes = Vec::new(alloc);
    for word in line.split(' ') {
        let Some(pairs) = bytes_of_word(alloc, word)? else {
            return Ok(None);
        };
        bytes.extend_from_slice(pairs.as_slice())?;
    }
    Ok(Some(bytes))
}
