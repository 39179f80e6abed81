//! A closed system in memory: one host, its 64 connections and 1 to 16 terminals, with the contracts that say what
//! always holds between them (our profile). [`World`] is for proofs, simulation and tests.
//!
//! In: a panel set, a pool of LUs and the terminals' models ([`World::new`]), then one [`Event`] after another: a key,
//! bytes delivered on a connection, an act or answer of the host, a loss, a restart. Out: [`Stepped`] for each event,
//! and the world after it. Bytes that an end has to send are under way until `Up` or `Down` delivers them.
//!
//! The contract of each call says that the headline holds (`specs/statement/Headline`): each LU has at most one live
//! session, and whenever the host may decide, its belief is true of the operator's screen. It is proved of a world over
//! messages (`specs/model/World`, `Steps`) and carried over to the bytes (`specs/refinement/Refines`). Proofs use the
//! [`laws`].
//!
//! Not here: sockets (`jobs`), the host (`host_core`), the terminal (`term_core`), keys (`keyboard`), the
//! host's belief (`shadow`), the data stream (`datastream`), and negotiation and headers (`tn3270e_msg`).
#![tactic(auto)]

mod event;
pub mod laws;
mod link;
mod network;
mod note_text;
mod terminal_slot;
mod world;

pub use event::{Event, Ran, Stepped};
pub use note_text::NoteText;
pub use world::World;
