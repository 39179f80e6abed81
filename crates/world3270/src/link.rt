//! The bytes in flight on a connection, in each direction.
ghost use Rattle.std.specs.Prelude.{◌≡◌, [], drop, take};
ghost use Rattle.world3270.specs.model.ByteWorld.{came, cut, is_live, is_senders, sender_gone, under_way, begun_transits, unused_transits};
ghost use Rattle.world3270.specs.model.ByteWorld.Transit.{Live as StaysLive, SenderGone as HasSenderGone};

use std::alloc::Global;
use std::marker::Model;

/// The bytes in flight in one direction. `Live`: all that the sender has to send. `Cut`, on a lost
/// connection: the first ones of these, this many. `SenderGone`: these bytes; the sender has left.
#[derive(Drop)]
pub(crate) enum InFlight {
    Live,
    Cut(usize),
    SenderGone(Vec<u8>),
}

/// One direction of a connection.
#[derive(Drop)]
pub(crate) struct Direction {
    in_flight: InFlight,
}

impl Model for Direction {
    ghost use Rattle.world3270.specs.model.ByteWorld.{Transit};
    ghost use Rattle.world3270.specs.model.InFlight.{transit_of};

    ghost Value = { Transit };

    ghost view = { λ direction. transit_of direction.in_flight };
}

impl Direction {
    /// Nothing is under way, and there is no sender.
    pub(crate) fn unused(alloc: Global) -> Direction
        ensures { result ≡ HasSenderGone [] }
    {
        Direction {
            in_flight: InFlight::SenderGone(Vec::new(alloc)),
        }
    }

    /// FirstPaint: all that the sender will have to send is under way.
    pub(crate) fn begin(&mut self)
        ensures { self.new ≡ StaysLive }
    {
        self.in_flight = InFlight::Live;
    }

    /// Whether the connection isn't lost.
    pub(crate) fn is_live(&self) -> bool
        ensures { result ≡ is_live self.now }
    {
        match &self.in_flight {
            InFlight::Live => true,
            InFlight::Cut(_) => false,
            InFlight::SenderGone(_) => false,
        }
    }

    /// Whether the bytes in flight are still the sender's.
    pub(crate) fn is_senders(&self) -> bool
        ensures { result ≡ is_senders self.now }
    {
        match &self.in_flight {
            InFlight::Live => true,
            InFlight::Cut(_) => true,
            InFlight::SenderGone(_) => false,
        }
    }

    /// The bytes under way, if the sender has these to send.
    pub(crate) fn under_way<'a>(&'a self, out: &'a [u8]) -> &'a [u8]
        ensures { result.now ≡ under_way self.now out.now }
    {
        match &self.in_flight {
            InFlight::Live => out,
            InFlight::Cut(kept) => first(out, *kept),
            InFlight::SenderGone(bytes) => bytes.as_slice(),
        }
    }

    /// Removes the first `count` bytes, which were delivered. A live sender drops them itself.
    pub(crate) fn came(&mut self, count: usize)
        ensures { self.new ≡ came count self.old }
    {
        match &mut self.in_flight {
            InFlight::Live => {}
            InFlight::Cut(kept) => *kept = kept.saturating_sub(count),
            InFlight::SenderGone(bytes) => drop_first(bytes, count),
        }
    }

    /// The connection is lost while the sender has `count` bytes to send.
    pub(crate) fn cut(&mut self, count: usize)
        ensures { self.new ≡ cut count self.old }
    {
        if self.is_live() {
            self.in_flight = InFlight::Cut(count);
        }
    }

    /// The sender leaves while it has these bytes to send.
    pub(crate) fn leave(&mut self, out: Vec<u8>)
        ensures { self.new ≡ sender_gone out.items self.old }
    {
        match &self.in_flight {
            InFlight::Live => self.in_flight = InFlight::SenderGone(out),
            InFlight::Cut(kept) => {
                let mut out = out;
                out.truncate(*kept);
                self.in_flight = InFlight::SenderGone(out);
            }
            InFlight::SenderGone(_) => {}
        }
    }
}

/// The first `count` bytes, or all if there are fewer.
pub(crate) fn first(bytes: &[u8], count: usize) -> &[u8]
    ensures { result.now ≡ take count bytes.now }
{
    if count < bytes.len() {
        &bytes[..count]
    } else {
        bytes
    }
}

/// Drops the first `count` bytes, or all if there are fewer.
fn drop_first(bytes: &mut Vec<u8>, count: usize)
    ensures { bytes.new.items ≡ drop count bytes.old.items }
{
    if count < bytes.len() {
        let rest = bytes.len() - count;
        bytes.rotate_left(count);
        bytes.truncate(rest);
    } else {
        bytes.clear();
    }
}

/// Both directions of a connection.
#[derive(Drop)]
pub(crate) struct Link {
    pub(crate) down: Direction,
    pub(crate) up: Direction,
}

impl Model for Link {
    ghost use Rattle.world3270.specs.model.ByteWorld.{Transits};

    ghost Value = { Transits };

    ghost view = { λ link. record { down = link.down; up = link.up } };
}

impl Link {
    /// A connection that was never used.
    pub(crate) fn unused(alloc: Global) -> Link
        ensures { result ≡ unused_transits }
    {
        Link {
            down: Direction::unused(alloc),
            up: Direction::unused(alloc),
        }
    }

    /// FirstPaint a connection.
    pub(crate) fn begin(&mut self)
        ensures { self.new ≡ begun_transits }
    {
        self.down.begin();
        self.up.begin();
    }

    /// The connection is lost while the host has `down` bytes to send, and the terminal `up` bytes.
    pub(crate) fn cut(&mut self, down: usize, up: usize)
        ensures { self.new ≡ record { down = cut down self.old.down; up = cut up self.old.up } }
    {
        self.down.cut(down);
        self.up.cut(up);
    }

    /// The host leaves while it has the bytes `unsent` to send, and the terminal `up` bytes; the connection is lost.
    pub(crate) fn host_leaves(&mut self, unsent: Vec<u8>, up: usize)
        ensures { self.new ≡ record { down = sender_gone unsent.items self.old.down; up = cut up self.old.up } }
    {
        self.down.leave(unsent);
        self.up.cut(up);
    }

    /// The terminal leaves while it has the bytes `unsent` to send, and the host `down` bytes; the connection is lost.
    pub(crate) fn terminal_leaves(&mut self, down: usize, unsent: Vec<u8>)
        ensures { self.new ≡ record { down = cut down self.old.down; up = sender_gone unsent.items self.old.up } }
    {
        self.down.cut(down);
        self.up.leave(unsent);
    }

    /// Whether the connection isn't lost.
    pub(crate) fn is_live(&self) -> bool
        ensures { result ≡ is_live self.now.down }
    {
        self.down.is_live()
    }

    /// Removes the first `count` bytes under way to the terminal, which were delivered.
    pub(crate) fn came_down(&mut self, count: usize)
        ensures { self.new ≡ record self.old { down = came count self.old.down } }
    {
        self.down.came(count);
    }

    /// Removes the first `count` bytes under way to the host, which were delivered.
    pub(crate) fn came_up(&mut self, count: usize)
        ensures { self.new ≡ record self.old { up = came count self.old.up } }
    {
        self.up.came(count);
    }
}
