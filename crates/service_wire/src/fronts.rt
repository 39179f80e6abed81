//! Places in bytes, and bytes at the front of others.
ghost use Rattle.std.specs.Prelude.{◌≡◌, ◌++◌, ◌≤◌, ◌<◌, ◌==◌, List, ℕ, IfSome, length, position, take, MatchOption, true};
ghost use Rattle.service_wire.specs.Fronts.{IsPartOf};

/// What follows the mark at the front of the bytes; None if they don't begin with it.
pub(crate) fn after<'a>(bytes: &'a [u8], mark: &[u8]) -> Option<&'a [u8]>
    ensures { MatchOption result ((rest : List ℕ)
        → ¬ (bytes.now ≡ mark.now ++ rest)) (λ rest. bytes.now ≡ mark.now ++ rest.now) }
{
    if bytes.starts_with(mark) {
        Some(&bytes[mark.len()..])
    } else {
        None
    }
}

/// Whether the bytes are a front of the mark, and not all of it.
pub(crate) fn is_part_of(bytes: &[u8], mark: &[u8]) -> bool
    ensures part { result ≡ true → IsPartOf bytes.now mark.now }
    ensures only { IsPartOf bytes.now mark.now → result ≡ true }
{
    bytes.len() < mark.len() && mark.starts_with(bytes)
}

/// The place of the first byte that is `sought`.
pub(crate) fn place_of(sought: u8, bytes: &[u8]) -> Option<usize>
    ensures place { result ≡ position (λ byte. byte == sought) bytes.now }
    ensures inside { IfSome result (λ place. place < length bytes.now) }
{
    bytes.iter().position(|byte| *byte == sought)
}

/// The first `room` bytes, or all if there are fewer.
pub(crate) fn front_of(bytes: &[u8], room: usize) -> &[u8]
    ensures front { result.now ≡ take room bytes.now }
    ensures short { length result.now ≤ room }
{
    if bytes.len() < room {
        bytes
    } else {
        &bytes[..room]
    }
}
