//! An open connection as the host has it, apart from its stream.
ghost use Rattle.std.specs.Prelude.{◌≡◌, IfOk};
ghost use Rattle.host_core.specs.Application.{application_of};
ghost use Rattle.host_core.specs.Session.{agreed_lu, model_in, new_conn, is_agreed};
ghost use Rattle.host_core.specs.Sound.{IsShownOn};
ghost use Rattle.tn3270e_msg.specs.HostTable.{model_asked};

use crate::pending::Pending;
use crate::room::RECORD_ROOM;
use crate::terminals::Terminals;
use crate::turn::Turn;
use crate::turn_reason::TurnReason;
use crate::unheard::Unheard;
use codes3270::{Addr, Model as TerminalModel, Size};
use panels::{Message, PanelSet, Values};
use shadow::Shadow;
use std::alloc::Global;
use std::marker::Model;
use telnet_wire::Memory;
use tn3270e_msg::{HostTalk, Lu};

/// The negotiation, the size of the terminal's screen, whose turn it is, the command that waits for its answer, what
/// is believed of the screen, and what is shown there.
///
/// Contracts see these parts; the command that waits for its answer is the one whose bytes were sent last.
#[derive(Drop)]
pub(crate) struct Session {
    pub(crate) talk: HostTalk,
    // As the host's last erase set it.
    pub(crate) size: Size,
    pub(crate) turn: Turn,
    pub(crate) pending: Pending,
    pub(crate) next_seq: u16,
    pub(crate) shadow: Shadow,
    pub(crate) panel: usize,
    pub(crate) message: Message,
    pub(crate) values: Values,
    pub(crate) turn_reason: TurnReason,
    // The cursor's buffer address when the terminal last sent data.
    pub(crate) cursor: Addr,
    // What may have happened to the screen since the host last heard of it.
    pub(crate) unheard: Unheard,
    // Whether the screen is read before a key is answered, to see that the terminal keeps the rules.
    pub(crate) verifies: bool,
    // How many times in a row, without a key that was believed, the screen was painted over.
    pub(crate) restored: u8,
    // The record that was sent last, with its header; its capacity is that of the largest record.
    pub(crate) sent: Vec<u8>,
}

impl Model for Session {
    ghost use Rattle.std.specs.Prelude.{◌≤◌, vec_capacity};
    ghost use Rattle.host_core.specs.Representation.{BelievesTheSize, IsKept, pending_in};
    ghost use Rattle.host_core.specs.Rooms.{record_room};
    ghost use Rattle.shadow.specs.Storable.{CanBeStored};
    ghost use Rattle.host_core.specs.Session.{Session as SessionValue};

    ghost Value = { SessionValue };

    ghost view = { λ s. record {
      talk = s.talk;
      size = s.size;
      turn = s.turn;
      pending = pending_in s.size s.pending s.sent.items;
      next_seq = s.next_seq;
      shadow = s.shadow;
      panel = s.panel;
      message = s.message;
      values = s.values;
      turn_reason = s.turn_reason;
      cursor = s.cursor;
      unheard = s.unheard;
      verifies = s.verifies;
      restored = s.restored;
    } };

    ghost invariant = { λ s. IsKept s.size s.pending s.sent.items × (record_room ≤ vec_capacity s.sent)
        × CanBeStored s.shadow × BelievesTheSize s.size s.pending s.sent.items s.shadow };
}

impl Session {
    /// A session at the beginning of a connection to terminals of this kind, when TN3270E is offered. It allocates
    /// the buffer for the records that it will send.
    pub(crate) fn new(
        alloc: Global,
        terminals: Terminals,
        panels: &PanelSet,
    ) -> Result<Session, Memory>
        ensures begins { IfOk result (λ session. session ≡ new_conn terminals (application_of panels.now)) }
        ensures panel { IfOk result (λ session. IsShownOn panels.now session) }
    {
        panels.panels_are_sound();
        let sent = Vec::with_capacity(alloc, RECORD_ROOM)?;
        Ok(Session {
            talk: HostTalk::new(),
            size: Size::base(),
            turn: Turn::Host,
            pending: Pending::Nothing,
            next_seq: 0,
            shadow: Shadow::blank(),
            panel: panels.shown(panels.start(), TerminalModel::M2),
            message: Message::Fresh,
            values: Values::new(alloc),
            turn_reason: TurnReason::Agreement,
            cursor: Addr::first(),
            unheard: terminals.unheard(),
            verifies: terminals.are_verified(),
            restored: 0,
            sent,
        })
    }

    /// Whether both ends agreed on a session.
    pub(crate) fn agreed(&self) -> bool
        ensures { result ≡ is_agreed self.now.talk.state }
    {
        self.talk.is_agreed()
    }

    /// The LU that both ends agreed on.
    pub(crate) fn lu(&self) -> Option<Lu>
        ensures { result ≡ agreed_lu self.now.talk.state }
    {
        self.talk.agreed_lu()
    }

    /// The terminal's model, once it has asked for a device type.
    pub(crate) fn model(&self) -> Option<TerminalModel>
        ensures { result ≡ model_asked self.now.talk.state }
    {
        self.talk.model()
    }

    /// The model for which panels are chosen: the terminal's, or model 2 before it has asked for a device type.
    pub(crate) fn shown_model(&self) -> TerminalModel
        ensures { result ≡ model_in self.now }
    {
        self.model().unwrap_or(TerminalModel::M2)
    }
}
