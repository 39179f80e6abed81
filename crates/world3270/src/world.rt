//! The world: a host, connections and terminals, with the headline as a contract of every event.
ghost use Rattle.std.specs.Prelude.{◌≡◌, ◌<◌, length, IfOk};
ghost use Rattle.host_core.specs.State.{most_connections};
ghost use Rattle.host_core.specs.declared.terminals.Terminals.TheVariants.{Waiting};
ghost use Rattle.world3270.specs.statement.Asked.{WhatIsAskedIsSeen};
ghost use Rattle.world3270.specs.model.ByteRuns.{Runs, refused_at};
ghost use Rattle.world3270.specs.model.ByteSteps.{Steps};
ghost use Rattle.world3270.specs.model.ByteWorld.{IsTerminalCount, down_of, new_byte_world, slot_at, up_of};
ghost use Rattle.world3270.specs.statement.Headline.{Headline};
ghost use Rattle.world3270.specs.statement.ProtocolErrors.{HasNoProtocolError, MakeNoProtocolErrors, MakesNoProtocolError};
ghost use Rattle.world3270.specs.refinement.Refines.{IsReached, RunOverMessages, StepOverMessages};
ghost use Rattle.world3270.specs.statement.ScreensFound.{DecisionsAreShown};
ghost use Rattle.world3270.specs.statement.ByteObservation.{seen_bytes};
ghost use Rattle.world3270.specs.statement.Shown.{WhatIsAnsweredIsShown};
ghost use Rattle.world3270.specs.statement.ShownSince.{AnswersAreShown, PanelsStay};

use crate::event::{Event, Ran, Stepped, all_events_are_real, events_are_real};
use crate::laws::{
    bytes_follow_messages, no_protocol_errors, what_is_answered_is_shown, what_is_asked_is_seen,
    what_is_shown_stays,
};
use crate::network::Network;
use codes3270::Model as TerminalModel;
use host_core::{Host, Terminals};
use lu_pool::Pool;
use panels::PanelSet;
use presentation::Screen;
use std::alloc::Global;
use std::marker::Model;
use telnet_wire::Memory;
use term_core::Terminal;

/// A host that serves panels, the 64 connections to it, and 1 to 16 terminals. Bytes that an end has to
/// send are under way until an event delivers them; on a lost connection they may never be delivered.
///
/// The headline (`specs/Headline`) holds of it after each event: each call that changes it says so.
#[derive(Drop)]
pub struct World {
    network: Network,
}

impl Model for World {
    ghost use Rattle.world3270.specs.model.ByteWorld.{ByteWorld};
    ghost use Rattle.world3270.specs.refinement.Refines.{IsReached};

    ghost Value = { ByteWorld };

    ghost view = { λ world. world.network };

    ghost invariant = { λ world. IsReached world.network };
}

/// The number of bytes after which memory was refused; None if it wasn't.
fn refused_at(answer: Stepped) -> Option<usize>
    ensures { result ≡ refused_at answer }
{
    match answer {
        Stepped::Done => None,
        Stepped::Refused(_) => None,
        Stepped::Skipped => None,
        Stepped::Part(taken) => Some(taken),
        Stepped::Memory => Some(0),
    }
}

impl World {
    /// A new world, with one terminal for each of the 1 to 16 `models`. No LU is held, and no terminal is
    /// connected. The host serves [`Terminals::Waiting`], as these terminals are. Fails if memory is refused.
    pub fn new(
        alloc: Global,
        panels: PanelSet,
        pool: Pool,
        models: &[TerminalModel],
    ) -> Result<World, Memory>
        requires { IsTerminalCount (length models.now) }
        ensures begins { IfOk result (λ world. world ≡ new_byte_world Waiting panels pool models.now) }
        ensures headline { IfOk result (λ world. Headline (seen_bytes world)) }
        ensures no_error { IfOk result (λ world. HasNoProtocolError world) }
    {
        World::serving(alloc, Terminals::Waiting, panels, pool, models)
    }

    /// A new world as by [`World::new`], with a host that serves the terminals `serves`. The world's terminals
    /// wait in any case, but the host need not rely on it.
    pub fn serving(
        alloc: Global,
        serves: Terminals,
        panels: PanelSet,
        pool: Pool,
        models: &[TerminalModel],
    ) -> Result<World, Memory>
        requires { IsTerminalCount (length models.now) }
        ensures begins { IfOk result (λ world. world ≡ new_byte_world serves panels pool models.now) }
        ensures headline { IfOk result (λ world. Headline (seen_bytes world)) }
        ensures no_error { IfOk result (λ world. HasNoProtocolError world) }
    {
        bytes_follow_messages();
        panels.panels_are_sound();
        pool.lus_are_listed_once();
        let network = Network::new(alloc, serves, panels, pool, models)?;
        let world = World { network };
        world.headline_holds();
        world.has_no_protocol_error();
        Ok(world)
    }

    /// The host, to read its state.
    pub fn host(&self) -> &Host
        ensures { result.now ≡ self.now.host }
    {
        self.network.host()
    }

    /// How many terminals there are, 1 to 16.
    pub fn terminals(&self) -> usize
        ensures { result ≡ length self.now.slots }
    {
        self.network.terminals()
    }

    /// A terminal, by its number, which must be below [`World::terminals`].
    pub fn terminal(&self, terminal: usize) -> &Terminal
        requires { terminal < length self.now.slots }
        ensures { result.now.terminal ≡ (slot_at terminal self.now).tracked.terminal }
    {
        self.network.terminal(terminal)
    }

    /// The screen that a terminal had just after the last write that restored its keyboard, on its latest
    /// connection; a blank one before the first such write. Part (d) of the headline speaks of it.
    pub fn last_restored(&self, terminal: usize) -> &Screen
        requires { terminal < length self.now.slots }
        ensures { result.now.screen ≡ (slot_at terminal self.now).tracked.history.last_restored }
    {
        self.network.last_restored(terminal)
    }

    /// Whether Erase Input was done at a terminal since the write of [`World::last_restored`].
    pub fn erased(&self, terminal: usize) -> bool
        requires { terminal < length self.now.slots }
        ensures { result ≡ (slot_at terminal self.now).tracked.history.erased }
    {
        self.network.erased(terminal)
    }

    /// The bytes under way to the host on connection `conn`, which must be below 64.
    pub fn queued_up(&self, conn: usize) -> &[u8]
        requires { conn < most_connections }
        ensures { result.now ≡ up_of conn self.now }
    {
        self.network.queued_up(conn)
    }

    /// The bytes under way to the terminal on connection `conn`, which must be below 64.
    pub fn queued_down(&self, conn: usize) -> &[u8]
        requires { conn < most_connections }
        ensures { result.now ≡ down_of conn self.now }
    {
        self.network.queued_down(conn)
    }

    /// Law: the headline holds of this world, after any events.
    pub fn headline_holds(&self)
        ensures { Headline (seen_bytes self.now) }
    {
        // For the contract: by the invariant, a list of events leads to this world.
        let _network = &self.network;
        bytes_follow_messages();
    }

    /// Law: the application is asked what the operator sees, after any events. A question that [`Host::question`]
    /// returns has the key that the operator pressed, the LU that the terminal is bound to, the cursor address, and for
    /// each field of the panel the text that the screen shows in that field, nulls removed: the field is there, at its
    /// address and with its length. At connect, when no key was pressed, and after Clear neither the question nor the
    /// screen has a field. Else the question names the connection's panel, and the screen that the host's last restoring
    /// write left shows it. The application decides on the key on that panel, at connect on the first one, and after Enter
    /// no required field is left blank. At connect the terminal may still have to be bound. The protected part of the
    /// screen is as the host's last restoring write left it, but for the row of messages. This part holds of each
    /// attached terminal, unless Clear was pressed last.
    pub fn what_is_asked_is_seen(&self)
        ensures { WhatIsAskedIsSeen self.now }
    {
        // For the contract: by the invariant, a list of events leads to this world.
        let _network = &self.network;
        what_is_asked_is_seen();
    }

    /// Law: a panel whose paint is answered is on the screen, after any events. If a panel was shown on a connection
    /// and its paint is answered, the screen that the host left on the terminal is a wanted screen of the connection's
    /// panel, with the connection's values and message (`specs/Showing`). Each field of the panel is on it, at its
    /// address and with its length. A field that was written has the panel's attribute, and the host's value or fill,
    /// cut to its length or filled up with nulls. A field that was kept, if the panel is shown again, has the attribute
    /// and the text that were on the screen when the paint arrived, and that text without nulls is the host's value
    /// (`specs/ShownFields`). [`World::decisions_are_shown`] says which screen the paint found.
    pub fn what_is_answered_is_shown(&self)
        ensures { WhatIsAnsweredIsShown self.now }
    {
        // For the contract: by the invariant, a list of events leads to this world.
        let _network = &self.network;
        what_is_answered_is_shown();
    }

    /// Law: an application's answer is shown until the host decides again, after any events. If an answer
    /// was taken and the host has decided nothing on that connection since, the connection's panel,
    /// values, message and cursor field are those of the answer; and after the paint is answered, the
    /// screen that the host left on the terminal shows them.
    pub fn answers_are_shown(&self)
        ensures { AnswersAreShown self.now }
    {
        what_is_shown_stays();
    }

    /// Law: a panel is painted over the screen on which the host decided to show it, after any events. If the host
    /// decided to show a panel on a connection, by itself or by an application's answer, and has decided nothing there
    /// since: after the paint is answered, the terminal is the one that was there at the decision, and a field that is
    /// kept has, cell by cell, the attribute and the text that this terminal's screen had in it at the decision.
    /// The panel is the one to which the key leads that was pressed on that screen, or the answer's (`specs/Leading`).
    pub fn decisions_are_shown(&self)
        ensures { DecisionsAreShown self.now }
    {
        what_is_shown_stays();
    }

    /// Law: there is no protocol error in this world, after any events. Neither end has closed a connection for a
    /// cause; no negative response is under way; and none is the reason why the host has the turn.
    pub fn has_no_protocol_error(&self)
        ensures { HasNoProtocolError self.now }
    {
        // For the contract: by the invariant, a list of events leads to this world.
        let _network = &self.network;
        no_protocol_errors();
    }

    /// Law: the bytes of this world represent a world over messages to which some list of events leads.
    /// The laws of [`bytes_follow_messages`] apply to it.
    pub fn represents_messages(&self)
        ensures { IsReached self.now }
    {
        // For the contract: by the invariant, a list of events leads to this world.
        let _network = &self.network;
    }

    /// An event happens, or is skipped if it can't happen. The bytes represent a world over messages
    /// before it and after it.
    fn happen(&mut self, event: &Event) -> Stepped
        ensures steps { Steps event.now self.old result self.new }
        ensures messages { StepOverMessages event.now self.old result self.new }
        ensures panels { PanelsStay event.now self.old self.new }
    {
        bytes_follow_messages();
        what_is_shown_stays();
        events_are_real(event);
        self.network.happen(event)
    }

    /// An event happens, or is skipped if it can't happen. All laws of this type hold of the new world.
    pub fn step(&mut self, event: Event) -> Stepped
        ensures steps { Steps event self.old result self.new }
        ensures messages { StepOverMessages event self.old result self.new }
        ensures headline { Headline (seen_bytes self.new) }
        ensures asked { WhatIsAskedIsSeen self.new }
        ensures shown { WhatIsAnsweredIsShown self.new }
        ensures panels { PanelsStay event self.old self.new }
        ensures answers { AnswersAreShown self.new }
        ensures decisions { DecisionsAreShown self.new }
        ensures no_error { HasNoProtocolError self.new }
        ensures no_error_made { MakesNoProtocolError event self.old self.new }
    {
        no_protocol_errors();
        events_are_real(&event);
        let stepped = self.happen(&event);
        self.headline_holds();
        self.what_is_asked_is_seen();
        self.what_is_answered_is_shown();
        self.answers_are_shown();
        self.decisions_are_shown();
        self.has_no_protocol_error();
        stepped
    }

    /// Events happen one after another, up to the first for which memory is refused. All laws of this
    /// type hold of the new world.
    pub fn run(&mut self, events: &[Event]) -> Ran
        ensures runs { Runs events.now self.old result self.new }
        ensures messages { RunOverMessages events.now self.old result self.new }
        ensures headline { Headline (seen_bytes self.new) }
        ensures asked { WhatIsAskedIsSeen self.new }
        ensures shown { WhatIsAnsweredIsShown self.new }
        ensures answers { AnswersAreShown self.new }
        ensures decisions { DecisionsAreShown self.new }
        ensures no_error { HasNoProtocolError self.new }
        ensures no_errors_made { MakeNoProtocolErrors events.now self.old }
    {
        no_protocol_errors();
        all_events_are_real(events);
        self.represents_messages();
        for (whole, event) in events.iter().enumerate() {
            match refused_at(self.happen(event)) {
                None => {}
                Some(part) => {
                    self.headline_holds();
                    self.what_is_asked_is_seen();
                    self.what_is_answered_is_shown();
                    self.answers_are_shown();
                    self.decisions_are_shown();
                    self.has_no_protocol_error();
                    return Ran { whole, part };
                }
            }
        }
        self.headline_holds();
        self.what_is_asked_is_seen();
        self.what_is_answered_is_shown();
        self.answers_are_shown();
        self.decisions_are_shown();
        self.has_no_protocol_error();
        Ran {
            whole: events.len(),
            part: 0,
        }
    }
}
