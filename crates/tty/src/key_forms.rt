//! Which bytes belong to a keystroke, and which is its last.
ghost use Rattle.std.specs.Prelude.{◌≡◌, []};
ghost use Rattle.tty.specs.KeyForms.{begins_mouse, completes, completes_escaped, completes_csi, goes_on_csi, goes_on_escaped, is_continuation, is_final, is_late, may_continue, opens_string, outlasts, utf8_length};

/// The byte that begins an escape sequence.
pub(crate) const ESC: u8 = 0x1B;

/// TAB; ESC and TAB are the Linux console's Shift-Tab.
const TAB: u8 = 0x09;

/// The number of bytes of a character in UTF-8, by its first byte (RFC 3629); 1 if no character begins with it.
fn utf8_length(first: u8) -> usize
    ensures { result ≡ utf8_length first }
{
    match first {
        0xC2..=0xDF => 2,
        0xE0..=0xEF => 3,
        0xF0..=0xF4 => 4,
        _ => 1,
    }
}

/// Whether a byte is one after the first of a character in UTF-8 (RFC 3629).
fn is_continuation(byte: u8) -> bool
    ensures { result ≡ is_continuation byte }
{
    matches!(byte, 0x80..=0xBF)
}

/// Whether a byte is the last one of a control sequence (ECMA-48).
fn is_final(byte: u8) -> bool
    ensures { result ≡ is_final byte }
{
    matches!(byte, 0x40..=0x7E)
}

/// Whether a byte after ESC opens a control string: OSC or DCS (ECMA-48).
fn opens_string(byte: u8) -> bool
    ensures { result ≡ opens_string byte }
{
    matches!(byte, b']' | b'P')
}

/// Whether the bytes after CSI begin a report of the mouse.
fn begins_mouse(kept: &[u8]) -> bool
    ensures { result ≡ begins_mouse kept.now }
{
    matches!(kept, [b'M', ..])
}

/// Whether a byte may follow the bytes `kept` of a keystroke.
pub(crate) fn may_continue(kept: &[u8], byte: u8) -> bool
    ensures { result ≡ may_continue kept.now byte }
{
    match kept {
        [] => true,
        [ESC, rest @ ..] => goes_on_escaped(rest, byte),
        [_, ..] => is_continuation(byte),
    }
}

/// Whether a byte may follow ESC and the bytes `kept`.
fn goes_on_escaped(kept: &[u8], byte: u8) -> bool
    ensures { result ≡ goes_on_escaped kept.now byte }
{
    match kept {
        [] => byte == TAB || !byte.is_ascii_control(),
        [b'[', rest @ ..] => goes_on_csi(rest, byte),
        [b'O', ..] => matches!(byte, 0x20..=0x7E),
        [first, ..] => {
            if opens_string(*first) {
                !byte.is_ascii_control()
            } else {
                is_continuation(byte)
            }
        }
    }
}

/// Whether a byte may follow CSI and the bytes `kept`.
fn goes_on_csi(kept: &[u8], byte: u8) -> bool
    ensures { result ≡ goes_on_csi kept.now byte }
{
    if begins_mouse(kept) {
        byte >= 0x20
    } else {
        matches!(byte, 0x20..=0x7E)
    }
}

/// Whether a byte is the last of a keystroke, after the bytes `kept`.
pub(crate) fn completes(kept: &[u8], byte: u8) -> bool
    ensures { result ≡ completes kept.now byte }
{
    match kept {
        [] => byte != ESC && utf8_length(byte) == 1,
        [ESC, rest @ ..] => completes_escaped(rest, byte),
        [first, rest @ ..] => rest.len() + 2 == utf8_length(*first),
    }
}

/// Whether a byte after ESC is the last of a keystroke.
fn completes_alone(byte: u8) -> bool
    ensures { result ≡ completes_escaped [] byte }
{
    byte != b'[' && byte != b'O' && !opens_string(byte) && utf8_length(byte) == 1
}

/// Whether a byte is the last of a keystroke, after ESC and the bytes `kept`.
fn completes_escaped(kept: &[u8], byte: u8) -> bool
    ensures { result ≡ completes_escaped kept.now byte }
{
    match kept {
        [] => completes_alone(byte),
        [b'O', ..] => true,
        [b'[', rest @ ..] => completes_csi(rest, byte),
        [first, rest @ ..] => !opens_string(*first) && rest.len() + 2 == utf8_length(*first),
    }
}

/// Whether a byte is the last of a control sequence, after ESC, `[` and the bytes `kept`.
fn completes_csi(kept: &[u8], byte: u8) -> bool
    ensures { result ≡ completes_csi kept.now byte }
{
    match kept {
        [] => byte != b'[' && byte != b'M' && is_final(byte),
        [b'[', ..] => true,
        [b'M', rest @ ..] => rest.len() == 2,
        [_, ..] => is_final(byte),
    }
}

/// Whether a pause has ended a lone ESC.
pub(crate) fn is_late(kept: &[u8]) -> bool
    ensures { result ≡ is_late kept.now }
{
    matches!(kept, [ESC, ESC])
}

/// Whether a pause keeps these bytes, of which the rest may come late.
pub(crate) fn outlasts(kept: &[u8]) -> bool
    ensures { result ≡ outlasts kept.now }
{
    matches!(kept, [ESC, b'[' | b'O', ..])
}
