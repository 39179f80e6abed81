//! Inputs that have a panel text and, after a line `%%`, something else.
ghost use Rattle.std.specs.Prelude.{◌≡◌, true, drop};
ghost use Rattle.std.specs.Str.{IsCharBoundary};
ghost use Rattle.panels.specs.PanelText.{is_at_mark, mark_place, panel_text};

/// Whether the text begins with a line `%%`.
fn is_at_mark(text: &[u8]) -> bool
    ensures { result ≡ is_at_mark text.now }
{
    text == b"%%".as_slice() || text.starts_with(b"%%\n".as_slice())
}

/// The index, in bytes, of the first line `%%`; the text's length if there is no such line.
fn mark_place(text: &[u8]) -> usize
    ensures place { result ≡ mark_place true text.now }
    ensures boundary { IsCharBoundary text.now result }
{
    let mut begins = true;
    for (place, letter) in text.iter().enumerate() {
        if begins && is_at_mark(&text[place..]) {
            return place;
        }
        begins = *letter == b'\n';
    }
    text.len()
}

/// The panel text of an input, which is everything before the first line `%%`, and what is there from this line on.
pub fn split_input(input: &str) -> (&str, &str)
    ensures panels { result.0.now ≡ panel_text input.now }
    ensures rest { result.1.now ≡ drop (mark_place true input.now) input.now }
{
    input.split_at(mark_place(input.as_bytes()))
}
