//! The host's turn: what it decides, and how it acts on that.
ghost use Rattle.std.specs.Prelude.{◌≡◌, ◌≤◌, ◌<◌, ℕ, false, true, Some, OnOk, OnErr, length};
ghost use Rattle.std.specs.List.{list_any};
ghost use Rattle.std.specs.Vec.{vec_capacity};
ghost use Rattle.codes3270.specs.Size.{cells_in};
ghost use Rattle.panels.specs.Keys.{IsKey};
ghost use Rattle.panels.specs.Panel.{Panels};
ghost use Rattle.panels.specs.declared.message.Message.TheVariants.{Fresh};
ghost use Rattle.panels.specs.declared.next.Next.TheVariants.{Go};
ghost use Rattle.host_core.specs.Acts.{Act as ActValue, Decision as DecisionValue, acted, after_key, decision_in, first_panel, is_in_doubt as in_doubt, is_to_be_read, next_after, on_empty, on_key, may_act, once_filled_in, repeated, screen_restored, check_required};
ghost use Rattle.shadow.specs.Belief.{IsOfSize};
ghost use Rattle.host_core.specs.Application.{Application, application_of, panel_at};
ghost use Rattle.host_core.specs.Choices.{CanBeDone, decision_of, values_with};
ghost use Rattle.host_core.specs.Does.{Grow};
ghost use Rattle.host_core.specs.Representation.{DoesOn};
ghost use Rattle.host_core.specs.Learning.{HaveFields};
ghost use Rattle.host_core.specs.Session.{Session as SessionValue, is_agreed};
ghost use Rattle.host_core.specs.Sound.{IsShownOn};
ghost use Rattle.host_core.specs.declared.acting.Decision.TheVariants.{Show};

use crate::acted::Acted;
use crate::learning::{first_missing, is_in_doubt, learn_all};
use crate::pending::Pending;
use crate::room::COMMAND_ROOM;
use crate::sending::panel_in;
use crate::session::Session;
use crate::turn::Turn;
use crate::turn_reason::TurnReason;
use codes3270::Aid;
use panels::{Field, Message, MessageText, Next, PanelSet};
use shadow::Shadow;
use telnet_wire::Memory;

/// What the host is to show: a panel, its message, and whether fields keep what the operator left in them.
#[derive(Clone, Copy)]
pub(crate) struct Shown {
    /// The panel's number, 0-based.
    pub(crate) panel: usize,
    pub(crate) message: Message,
    pub(crate) keep: bool,
}

/// What the host decides in its turn.
#[derive(Clone, Copy)]
pub(crate) enum Decision {
    /// It does nothing: it isn't its turn, the session isn't agreed, or a command isn't answered yet.
    Nothing,
    /// It reads the whole screen.
    Read,
    /// It asks the application, and does nothing until the application has answered.
    Ask,
    /// It shows a panel. With `learn`, the texts that are known become the values of their fields first.
    Show { shown: Shown, learn: bool },
}

/// Whether the text of some of these fields isn't known.
fn is_some_in_doubt(shadow: &Shadow, fields: &[Field]) -> bool
    requires { HaveFields shadow.now fields.now }
    ensures { result ≡ list_any (in_doubt shadow.now) fields.now }
{
    for field in fields {
        if is_in_doubt(shadow, field) {
            return true;
        }
    }
    false
}

/// The message that a panel is shown again with after a refusal: a fresh panel's becomes plain.
fn repeated(message: Message) -> Message
    ensures { result ≡ repeated message }
{
    match message {
        Message::Fresh | Message::Plain => Message::Plain,
        Message::KeyNotActive => Message::KeyNotActive,
        Message::Required(field) => Message::Required(field),
        Message::Told(text, field) => Message::Told(text, field),
    }
}

/// The message of a panel that is shown again since the data of a key couldn't be believed.
fn screen_restored() -> Message
    ensures { result ≡ screen_restored }
{
    Message::Told(MessageText::new(b"SCREEN RESTORED"), None)
}

/// The decision to show a panel fresh: no field keeps what the operator left in it.
fn fresh(panel: usize, learn: bool) -> Decision
    ensures decision { (app : Application) (conn : SessionValue) →
        decision_of app conn result
        ≡ Some (DecisionValue.Do (ActValue.Show panel Fresh false (values_with app conn learn))) }
    ensures can_be_done { (panels : Panels) (conn : SessionValue) → panel < length panels.panels →
        IsOfSize (cells_in conn.size) conn.shadow → CanBeDone panels conn result }
{
    Decision::Show {
        shown: Shown {
            panel,
            message: Message::Fresh,
            keep: false,
        },
        learn,
    }
}

/// Law: the number of a PF or PA key is in range.
fn aid_is_real(aid: &Aid)
    ensures { IsKey aid.now }
{
    match aid {
        Aid::Pf(key) => {
            // For the contract: the number is in range.
            let _number = key.get();
        }
        Aid::Pa(key) => {
            // For the contract: the number is in range.
            let _number = key.get();
        }
        Aid::NoAid | Aid::Enter | Aid::Clear => {}
    }
}

/// Where a key leads from a panel.
fn next_of(panels: &PanelSet, panel: usize, aid: &Aid) -> Next
    requires { panel < length panels.now.panels }
    ensures next { result ≡ (application_of panels.now).next panel aid.now }
    ensures target { (target : ℕ) → result ≡ Go target → target < length panels.now.panels }
{
    aid_is_real(aid);
    panel_in(panels, panel).next(*aid)
}

impl Session {
    /// Whether the screen must be read before a key is answered: after PA and keys without a meaning, if some field of
    /// the panel is in doubt, or if the host verifies that the terminal keeps the rules.
    fn is_to_be_read(&self, panels: &PanelSet, aid: &Aid) -> bool
        requires panel { self.now.panel < length panels.now.panels }
        requires fields { HaveFields self.now.shadow (panel_at panels.now self.now.panel).fields }
        ensures { result ≡ is_to_be_read (application_of panels.now) self.now aid.now }
    {
        match aid {
            Aid::NoAid | Aid::Pa(_) => true,
            Aid::Enter | Aid::Clear | Aid::Pf(_) => {
                self.is_verified()
                    || is_some_in_doubt(&self.shadow, panel_in(panels, self.panel).fields())
            }
        }
    }

    /// The number of the first required field that isn't filled in, if the key is Enter.
    fn missing_after(&self, panels: &PanelSet, aid: &Aid) -> Option<usize>
        requires panel { self.now.panel < length panels.now.panels }
        requires fields { HaveFields self.now.shadow (panel_at panels.now self.now.panel).fields }
        ensures { (decision : DecisionValue) →
            once_filled_in (application_of panels.now) self.now decision
            (values_with (application_of panels.now) self.now true) aid.now
            ≡ check_required self.now.panel decision (values_with (application_of panels.now) self.now true) result }
    {
        panels.panels_are_sound();
        match aid {
            Aid::Enter => {
                let fields = panel_in(panels, self.panel).fields();
                first_missing(&self.values, &self.shadow, fields)
            }
            Aid::NoAid | Aid::Clear | Aid::Pf(_) | Aid::Pa(_) => None,
        }
    }

    /// The decision to show the same panel again, with this message and what the operator left in its fields.
    fn again(&self, message: Message) -> Decision
        ensures { result ≡ Show (record { panel = self.now.panel; message = message; keep = true }) true }
    {
        Decision::Show {
            shown: Shown {
                panel: self.panel,
                message,
                keep: true,
            },
            learn: true,
        }
    }

    /// The given decision; but after Enter, if a required field isn't filled in, the same panel again.
    fn once_filled_in(&self, panels: &PanelSet, aid: &Aid, decision: Decision) -> Decision
        requires panel { IsShownOn panels.now self.now }
        requires known { IsOfSize (cells_in self.now.size) self.now.shadow }
        requires can_be_done { CanBeDone panels.now self.now decision }
        ensures decision { (decided : DecisionValue) →
            decision_of (application_of panels.now) self.now decision ≡ Some decided →
            decision_of (application_of panels.now) self.now result
            ≡ Some (once_filled_in (application_of panels.now) self.now decided
            (values_with (application_of panels.now) self.now true) aid.now) }
        ensures can_be_done { CanBeDone panels.now self.now result }
    {
        self.fields_are_believed(panels);
        match self.missing_after(panels, aid) {
            None => decision,
            Some(field) => self.again(Message::Required(field)),
        }
    }

    /// The decision for a key that leads to `next`. A key that leads nowhere isn't active.
    fn on_key(&self, panels: &PanelSet, aid: &Aid, next: Next) -> Decision
        requires panel { IsShownOn panels.now self.now }
        requires known { IsOfSize (cells_in self.now.size) self.now.shadow }
        requires target { (target : ℕ) → next ≡ Go target → target < length panels.now.panels }
        ensures decision { decision_of (application_of panels.now) self.now result
            ≡ Some (on_key (application_of panels.now) self.now
            (values_with (application_of panels.now) self.now true) aid.now next) }
        ensures can_be_done { CanBeDone panels.now self.now result }
    {
        match next {
            Next::Again => self.again(Message::KeyNotActive),
            Next::Go(target) => self.once_filled_in(panels, aid, fresh(target, true)),
            Next::Ask => self.once_filled_in(panels, aid, Decision::Ask),
        }
    }

    /// Where a key leads from the panel that is shown. One without a meaning leads nowhere.
    fn next_after(&self, panels: &PanelSet, aid: &Aid) -> Next
        requires { self.now.panel < length panels.now.panels }
        ensures next { result ≡ next_after (application_of panels.now) self.now.panel aid.now }
        ensures target { (target : ℕ) → result ≡ Go target → target < length panels.now.panels }
    {
        match aid {
            Aid::NoAid => Next::Again,
            Aid::Enter | Aid::Clear | Aid::Pf(_) | Aid::Pa(_) => next_of(panels, self.panel, aid),
        }
    }

    /// The decision while no panel is on the screen, after agreement or Clear: this panel, or the one to which that
    /// leads, is shown fresh; or the application is asked.
    fn on_empty(&self, panels: &PanelSet, panel: usize, next: Next) -> Decision
        requires known { IsOfSize (cells_in self.now.size) self.now.shadow }
        requires panel { panel < length panels.now.panels }
        requires target { (target : ℕ) → next ≡ Go target → target < length panels.now.panels }
        ensures decision { decision_of (application_of panels.now) self.now result
            ≡ Some (on_empty panel self.now.values next) }
        ensures can_be_done { CanBeDone panels.now self.now result }
    {
        match next {
            Next::Again => fresh(panel, false),
            Next::Go(target) => fresh(target, false),
            Next::Ask => Decision::Ask,
        }
    }

    /// The number of the first panel, in the form for the terminal's model.
    pub(crate) fn first_panel(&self, panels: &PanelSet) -> usize
        ensures panel { result ≡ first_panel (application_of panels.now) self.now }
        ensures there { result < length panels.now.panels }
    {
        panels.panels_are_sound();
        panels.shown(panels.start(), self.shown_model())
    }

    /// The decision after a key; `buffered` says whether the screen was read since.
    fn after_key(&self, panels: &PanelSet, aid: &Aid, buffered: bool) -> Decision
        requires panel { IsShownOn panels.now self.now }
        requires known { IsOfSize (cells_in self.now.size) self.now.shadow }
        ensures decision { decision_of (application_of panels.now) self.now result
            ≡ Some (after_key (application_of panels.now) self.now aid.now buffered) }
        ensures can_be_done { CanBeDone panels.now self.now result }
    {
        self.fields_are_believed(panels);
        match aid {
            Aid::Clear => self.on_empty(panels, self.panel, next_of(panels, self.panel, aid)),
            Aid::NoAid | Aid::Enter | Aid::Pf(_) | Aid::Pa(_) => {
                if self.is_to_be_read(panels, aid) && !buffered {
                    return Decision::Read;
                }
                self.on_key(panels, aid, self.next_after(panels, aid))
            }
        }
    }

    /// The decision to show the same panel again, whole, with this message.
    fn whole(&self, message: Message) -> Decision
        ensures { result ≡ Show (record { panel = self.now.panel; message = message; keep = false }) false }
    {
        Decision::Show {
            shown: Shown {
                panel: self.panel,
                message,
                keep: false,
            },
            learn: false,
        }
    }

    /// The host's decision now: Nothing unless it may act. After agreement it shows the first panel, or asks, if that
    /// panel asks at connect; after a refusal, or to restore the screen, it shows the same panel, whole.
    pub(crate) fn decide(&self, panels: &PanelSet) -> Decision
        requires { IsShownOn panels.now self.now }
        ensures decision { decision_of (application_of panels.now) self.now result
            ≡ decision_in (application_of panels.now) self.now }
        ensures can_be_done { CanBeDone panels.now self.now result }
    {
        if !self.may_act() {
            return Decision::Nothing;
        }
        match self.turn_reason {
            TurnReason::Agreement => {
                let next = next_of(panels, self.first_panel(panels), &Aid::NoAid);
                self.on_empty(panels, panels.start(), next)
            }
            TurnReason::Key(aid, buffered) => self.after_key(panels, &aid, buffered),
            TurnReason::Refusal => self.whole(repeated(self.message)),
            TurnReason::Restoration => self.whole(screen_restored()),
        }
    }

    /// If `learn` is set, sets the known texts of fields as their values. Only values that grow need memory.
    fn learn(&mut self, panels: &PanelSet, learn: bool) -> Result<(), Memory>
        requires panel { self.old.panel < length panels.now.panels }
        requires fields { HaveFields self.old.shadow (panel_at panels.now self.old.panel).fields }
        ensures values { OnOk result
            (self.new ≡ record self.old { values = values_with (application_of panels.now) self.old learn }) }
        ensures memory { OnErr result (Grow self.old.values (values_with (application_of panels.now) self.old learn)) }
        ensures err { OnErr result (self.new ≡ self.old) }
    {
        if !learn {
            return Ok(());
        }
        panels.panels_are_sound();
        let fields = panel_in(panels, self.panel).fields();
        learn_all(&mut self.values, &self.shadow, fields)
    }

    /// Whether the host may act: it is its turn, the ends agreed, and no command waits for its answer.
    fn may_act(&self) -> bool
        ensures may { result ≡ may_act self.now.turn self.now.pending (is_agreed self.now.talk.state) }
        // No command waits for its answer then, so the belief has the size of the screen.
        ensures known { result ≡ true → IsOfSize (cells_in self.now.size) self.now.shadow }
    {
        match self.turn {
            Turn::Terminal => false,
            Turn::Host => match self.pending {
                Pending::Nothing => self.agreed(),
                Pending::Writing(_) | Pending::Reading(_) | Pending::Noting(_) => false,
            },
        }
    }

    /// Law: the believed screen has the attribute cells of the panel's fields, since it has the panel's size.
    pub(crate) fn fields_are_believed(&self, panels: &PanelSet)
        requires panel { IsShownOn panels.now self.now }
        requires known { IsOfSize (cells_in self.now.size) self.now.shadow }
        ensures { HaveFields self.now.shadow (panel_at panels.now self.now.panel).fields }
    {
        panels.panels_are_sound();
    }

    /// Acts on what is decided now. Memory is needed only if the value of some field has to grow, or if the command
    /// may not fit into the output's room; if it is refused, nothing has changed.
    pub(crate) fn act(&mut self, panels: &PanelSet, out: &mut Vec<u8>) -> Acted
        requires panel { IsShownOn panels.now self.old }
        ensures acted { DoesOn (acted (application_of panels.now) self.old) self.old out.old result self.new out.new }
        ensures panel { IsShownOn panels.now self.new }
        ensures capacity { vec_capacity out.old ≤ vec_capacity out.new }
    {
        match self.decide(panels) {
            Decision::Nothing | Decision::Ask => Acted::Nothing,
            Decision::Read => self.read(out),
            Decision::Show { shown, learn } => {
                if out.reserve(COMMAND_ROOM).is_err() {
                    return Acted::Memory;
                }
                self.fields_are_believed(panels);
                panels.panels_are_sound();
                if self.learn(panels, learn).is_err() {
                    return Acted::Memory;
                }
                self.show(panels, shown, out);
                Acted::Sent
            }
        }
    }
}
