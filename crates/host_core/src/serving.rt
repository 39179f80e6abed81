//! Serving connections, a turn at a time.
ghost use Rattle.std.specs.Prelude.{◌≡◌, ◌≢◌, ◌<◌, ◌↔◌};
ghost use Rattle.host_core.specs.Serves.{Serves, IsClosed, IsLost, OthersCount};
ghost use Rattle.host_core.specs.State.{most_connections, state_at, phase_of};
ghost use Rattle.host_core.specs.declared.serving.Served.TheVariants as served;

use crate::acted::Acted;
use crate::host::Host;
use crate::links::Links;
use crate::phase::Phase;
use tn3270e_msg::Stop;

/// The length of the buffer that [`serve_turn`] reads into, in bytes (our profile).
pub const READ_ROOM: usize = 4096;

/// What became of a connection in a turn of serving (our profile).
#[derive(Clone, Copy, Debug, PartialEq, Eq)]
pub enum Served {
    /// The connection goes on.
    Going,
    /// The connection ended, failed or was closed: the caller may free its number by [`Host::closed`].
    Lost,
    /// Memory was refused: the bytes that were read and not taken are lost.
    Memory,
}

impl Served {
    /// What became of a connection in this phase: it goes on, or it was closed.
    fn after(phase: Phase) -> Served
        ensures lost { (result ≡ served.Lost) ↔ IsClosed phase }
        ensures sound { result ≢ served.Memory }
    {
        match phase {
            Phase::Closed(_) => Served::Lost,
            Phase::Free | Phase::Talking | Phase::Bound(_) => Served::Going,
        }
    }
}

/// Serves a connection, whose number must be below 64, for a turn: reads it once, into a buffer of [`READ_ROOM`] bytes,
/// feeds the host, lets it act, and hands the output to one write. If the read ended or failed, nothing else is done.
///
/// Lost if the read or the write ended or failed, or if the connection is closed. After Memory, bytes that were read
/// and not taken are lost. No other connection changes.
pub fn serve_turn<L: Links>(host: &mut Host, links: &mut L, conn: usize) -> Served
    requires number { conn < most_connections }
    ensures serves { Serves L.gave L.took conn host.old links.old result host.new links.new }
    ensures lost { result ≢ served.Memory → (result ≡ served.Lost) ↔ IsLost conn (L.ends links.old) (L.ends links.new)
        (L.failures links.old) (L.failures links.new) (phase_of (state_at conn host.new)) }
    ensures ends { OthersCount conn (L.ends links.old) (L.ends links.new) }
    ensures failures { OthersCount conn (L.failures links.old) (L.failures links.new) }
{
    let mut buffer = [0; READ_ROOM];
    let Some(count) = links.read(conn, &mut buffer).count() else {
        return Served::Lost;
    };
    if let Stop::Memory = host.feed(conn, &buffer[..count]).stop {
        return Served::Memory;
    }
    if let Acted::Memory = host.act(conn) {
        return Served::Memory;
    }
    host.keep_asked(conn);
    if host.out(conn).is_empty() {
        return Served::after(host.phase(conn));
    }
    let Some(count) = links.write(conn, host.out(conn)).count() else {
        return Served::Lost;
    };
    host.sent(conn, count);
    Served::after(host.phase(conn))
}
