//! The connections of a host, as it reads and writes them.
ghost use Rattle.std.specs.Prelude.{◌≡◌, ◌≤◌, ℕ, List, [], length, take, IfNone, IfSome};
ghost use Rattle.host_core.specs.Serves.{GoesOn, GotWithin, TookWithin, ReadCounts, WriteCounts, ReceiveCounts, SendCounts, bytes_got, taken_by};

/// What a read of a connection gave.
#[derive(Clone, Copy, Debug, PartialEq, Eq)]
pub enum LinkRead {
    /// This number of bytes, now at the front of the buffer; at most its length.
    Got(usize),
    /// No byte for now.
    NotNow,
    /// The peer has ended its side: it sends no more.
    Ended,
    /// The connection failed.
    Failed,
}

impl LinkRead {
    /// The number of bytes got; None if the connection is over.
    pub(crate) fn count(self) -> Option<usize>
        ensures goes_on { IfSome result (λ count. GoesOn self) }
        ensures over { IfNone result (GoesOn self → ⊥) }
        ensures got { (buffer : List ℕ) → IfSome result (λ count. bytes_got self buffer ≡ take count buffer) }
        ensures none { (buffer : List ℕ) → IfNone result (bytes_got self buffer ≡ []) }
        ensures within { (room : ℕ) → GotWithin self room → IfSome result (λ count. count ≤ room) }
        ensures counts { (conn : ℕ) (ends ends_after failures failures_after : ℕ → ℕ)
            → ReadCounts conn self ends ends_after failures failures_after
            → ReceiveCounts conn result ends ends_after failures failures_after }
    {
        match self {
            LinkRead::Got(count) => Some(count),
            LinkRead::NotNow => Some(0),
            LinkRead::Ended => None,
            LinkRead::Failed => None,
        }
    }
}

/// What a write to a connection took.
#[derive(Clone, Copy, Debug, PartialEq, Eq)]
pub enum LinkWrite {
    /// This number of bytes, from the front of those that it was handed.
    Took(usize),
    /// No byte for now.
    NotNow,
    /// The connection failed.
    Failed,
}

impl LinkWrite {
    /// The number of bytes taken; None if the connection failed.
    pub(crate) fn count(self) -> Option<usize>
        ensures taken { IfSome result (λ count. count ≡ taken_by self) }
        ensures none { IfNone result (taken_by self ≡ 0) }
        ensures within { (given : ℕ) → TookWithin self given → IfSome result (λ count. count ≤ given) }
        ensures counts { (conn : ℕ) (ends ends_after failures failures_after : ℕ → ℕ)
            → WriteCounts conn self ends ends_after failures failures_after
            → SendCounts conn result ends ends_after failures failures_after }
    {
        match self {
            LinkWrite::Took(count) => Some(count),
            LinkWrite::NotNow => Some(0),
            LinkWrite::Failed => None,
        }
    }
}

/// The connections that a host serves, by their numbers.
///
/// Contracts see how often each connection ended or failed, and what an implementation says of its reads and writes.
/// `gave` relates the links before a read, the number, the length of the buffer, the bytes got, the answer, and the
/// links after. `took` relates the links before a write, the number, the bytes handed in, the answer, and the links
/// after. An implementation whose count can't rise any more answers NotNow instead of Ended or Failed.
pub trait Links {
    ghost use Rattle.host_core.specs.declared.links.LinkRead.{LinkRead};
    ghost use Rattle.host_core.specs.declared.links.LinkWrite.{LinkWrite};

    ghost ends: { Self → ℕ → ℕ };

    ghost failures: { Self → ℕ → ℕ };

    ghost gave: { Self → ℕ → ℕ → List ℕ → LinkRead → Self → Type 0 };

    ghost took: { Self → ℕ → List ℕ → LinkWrite → Self → Type 0 };

    /// Reads a connection once, into this buffer.
    fn read(&mut self, conn: usize, buffer: &mut [u8]) -> LinkRead
        ensures within { GotWithin result (length buffer.new) }
        ensures counts { ReadCounts conn result (ends self.old) (ends self.new) (failures self.old)
            (failures self.new) }
        ensures gave { gave self.old conn (length buffer.new) (bytes_got result buffer.new) result self.new };

    /// Hands bytes over to be sent on a connection, once; it may take fewer.
    fn write(&mut self, conn: usize, bytes: &[u8]) -> LinkWrite
        ensures within { TookWithin result (length bytes.now) }
        ensures counts { WriteCounts conn result (ends self.old) (ends self.new) (failures self.old)
            (failures self.new) }
        ensures took { took self.old conn bytes.now result self.new };
}
