//! Whether the system can take bytes for a descriptor.
use mio::unix::SourceFd;
use mio::{Events, Interest, Poll, Token};
use std::alloc::{AllocError, Global};
use std::net::Net;
use std::os::fd::RawFd;
use std::time::Duration;

/// The poll token of the descriptor.
const OUTPUT: Token = Token(0);

/// Says whether a descriptor can be written to without a wait.
#[derive(Drop)]
pub(crate) struct Gate {
    descriptor: RawFd,
    /// None if the system can't wait for the descriptor: then it never has to, as for a file.
    poll: Option<Poll>,
    events: Events,
}

/// A poll of a descriptor; None if the system can't poll it.
fn poll_of(net: &impl Net, descriptor: RawFd) -> Option<Poll> {
    let poll = Poll::new(net).ok()?;
    poll.registry()
        .register(&mut SourceFd(&descriptor), OUTPUT, Interest::WRITABLE)
        .ok()?;
    Some(poll)
}

impl Gate {
    /// It fails if it gets no memory.
    pub(crate) fn new(
        net: &impl Net,
        alloc: Global,
        descriptor: RawFd,
    ) -> Result<Gate, AllocError> {
        let events = Events::with_capacity(alloc, 1)?;
        Ok(Gate {
            descriptor,
            poll: poll_of(net, descriptor),
            events,
        })
    }

    /// Whether the descriptor can be written to, now or within this time.
    pub(crate) fn opens_within(&mut self, time: Duration) -> bool {
        let Some(poll) = &mut self.poll else {
            return true;
        };
        // mio tells of a change alone; by registering the descriptor again it tells how it is.
        let source = &mut SourceFd(&self.descriptor);
        let registered = poll
            .registry()
            .reregister(source, OUTPUT, Interest::WRITABLE);
        let polled = poll.poll(&mut self.events, Some(time));
        registered.is_ok() && polled.is_ok() && !self.events.is_empty()
    }
}
