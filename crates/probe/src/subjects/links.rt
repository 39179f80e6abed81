//! The connection of a turn, in memory: the results of its reads and its writes.
ghost use Rattle.std.specs.Prelude.{⊤, ◌≡◌, false, true, slice_index_or};
ghost use Rattle.host_core.specs.Serves.{Rises};

use crate::talk::Words;
use host_core::{LinkRead, LinkWrite, Links};

#[derive(Drop)]
pub(crate) struct Link {
    read: LinkRead,
    write: LinkWrite,
    said: Vec<u8>,
    pub(crate) heard: Vec<u8>,
    pub(crate) reads: usize,
    pub(crate) writes: usize,
    ends: [u64; 2],
    failures: [u64; 2],
}

/// Raises the count of a connection, unless it is at its greatest value. Answers whether it did.
fn raise(counts: &mut [u64; 2], conn: usize) -> bool
    ensures raised { result ≡ true
        → Rises conn (λ it. slice_index_or counts.old it 0) (λ it. slice_index_or counts.new it 0) }
    ensures not { result ≡ false → counts.new ≡ counts.old }
{
    let can = conn < counts.len() && counts[conn] < u64::MAX;
    if can {
        counts[conn] += 1;
    }
    can
}

impl Link {
    /// The connection that the words TAKES GIVES describe. TAKES is how many bytes a write takes, `-` for none this
    /// time, or `fails`; GIVES is the bytes that a read returns, `-` for none this time, `ends` or `fails`.
    pub(crate) fn read_from(words: &mut Words<'_>) -> Link {
        let write = match words.word() {
            "fails" => LinkWrite::Failed,
            "-" => LinkWrite::NotNow,
            word => LinkWrite::Took(word.parse().unwrap_or(0)),
        };
        let (read, said) = match words.word() {
            "ends" => (LinkRead::Ended, "-"),
            "fails" => (LinkRead::Failed, "-"),
            "-" => (LinkRead::NotNow, "-"),
            word => (LinkRead::Got(0), word),
        };
        Link {
            read,
            write,
            said: words.bytes_of(said),
            heard: Vec::new(words.alloc),
            reads: 0,
            writes: 0,
            ends: [0; 2],
            failures: [0; 2],
        }
    }
}

impl Links for Link {
    ghost ends = { λ link conn. slice_index_or link.ends conn 0 };

    ghost failures = { λ link conn. slice_index_or link.failures conn 0 };

    ghost gave = { λ before conn room bytes answer after. ⊤ };

    ghost took = { λ before conn bytes answer after. ⊤ };

    fn read(&mut self, conn: usize, buffer: &mut [u8]) -> LinkRead {
        self.reads = self.reads.saturating_add(1);
        match self.read {
            LinkRead::Got(_) => {
                let count = self.said.len().min(buffer.len());
                buffer[..count].copy_from_slice(&self.said.as_slice()[..count]);
                LinkRead::Got(count)
            }
            LinkRead::Ended if raise(&mut self.ends, conn) => LinkRead::Ended,
            LinkRead::Failed if raise(&mut self.failures, conn) => LinkRead::Failed,
            _ => LinkRead::NotNow,
        }
    }

    fn write(&mut self, conn: usize, bytes: &[u8]) -> LinkWrite {
        self.writes = self.writes.saturating_add(1);
        match self.write {
            LinkWrite::Took(most) => {
                let count = most.min(bytes.len());
                match self.heard.extend_from_slice(&bytes[..count]) {
                    Ok(()) => LinkWrite::Took(count),
                    Err(_) => LinkWrite::NotNow,
                }
            }
            LinkWrite::Failed if raise(&mut self.failures, conn) => LinkWrite::Failed,
            _ => LinkWrite::NotNow,
        }
    }
}
