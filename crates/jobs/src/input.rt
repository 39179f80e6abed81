//! Reads the whole input as text.
ghost use Rattle.std.specs.Prelude.{◌≡◌, ℕ, List, IfOk, IfErr, IsUtf8, OnErr, OnOk, string_bytes};
ghost use Rattle.jobs.specs.Runs.{InPieces, IsInput, RefusesInput};
ghost use Rattle.jobs.specs.declared.fault.Fault.TheVariants.{InputNotRead};

use crate::fault::Fault;
use crate::streams::{Answer, CHUNK, Source, read_chunk};
use std::alloc::Global;

/// The most bytes of an input.
pub const MOST_BYTES: usize = 1_048_576;

/// The most reads of an input, including the one that finds the end.
pub const MOST_READS: u32 = 65_536;

/// The text of UTF-8 bytes; InputNotRead if they aren't UTF-8.
fn text_of(bytes: Vec<u8>) -> Result<String, Fault>
    ensures text { IfOk result (λ text. string_bytes text ≡ bytes.items) }
    ensures utf8 { OnOk result (IsUtf8 bytes.items) }
    ensures fault { IfErr result (λ fault. fault ≡ InputNotRead) }
    ensures no_text { OnErr result (IsUtf8 bytes.items → ⊥) }
{
    match String::from_utf8(bytes) {
        Ok(text) => Ok(text),
        Err(_) => Err(Fault::InputNotRead),
    }
}

/// The whole input as text. InputNotRead if a read fails, if there are more than `MOST_BYTES` bytes or it takes more
/// than `MOST_READS` reads, or if the bytes aren't UTF-8; NoMemory if memory is refused. Each read asks for 4,096
/// bytes.
pub fn read_whole<I: Source>(alloc: Global, input: &mut I) -> Result<String, Fault>
    ensures whole { IfOk result (λ text. IsInput (I.seen input.old) (I.seen input.new) (string_bytes text)) }
    ensures fault { IfErr result (λ fault. RefusesInput fault (I.seen input.old) (I.seen input.new)) }
    ensures pieces { IfOk result (λ text. InPieces I.gave input.old input.new (string_bytes text)) }
    ensures refused_in_pieces { OnErr result ((bytes : List ℕ) × InPieces I.gave input.old input.new bytes) }
{
    let mut bytes = Vec::new(alloc);
    let mut chunk = [0u8; CHUNK];
    for _ in 0..MOST_READS {
        match read_chunk(input, &mut chunk) {
            Answer::Ended => return text_of(bytes),
            Answer::Gave(count) => {
                if bytes.len().saturating_add(count) > MOST_BYTES {
                    return Err(Fault::InputNotRead);
                }
                if bytes.extend_from_slice(&chunk[..count]).is_err() {
                    return Err(Fault::NoMemory);
                }
            }
            Answer::Interrupted => {}
            Answer::Failed => return Err(Fault::InputNotRead),
        }
    }
    Err(Fault::InputNotRead)
}
