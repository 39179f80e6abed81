//! Questions to the application, and what the host does with an answer.
ghost use Rattle.std.specs.Prelude.{◌≡◌, OnOk, OnErr, ◌≤◌, ◌<◌, true, length, ◌≢◌, [], IfOk, IfSome};
ghost use Rattle.std.specs.Vec.{vec_capacity};
ghost use Rattle.shadow.specs.Storable.{CanBeStored};
ghost use Rattle.panels.specs.Panel.{HaveNumbersApart};
ghost use Rattle.panels.specs.Values.{without_fields, without_values};
ghost use Rattle.host_core.specs.Acts.{learned};
ghost use Rattle.host_core.specs.Application.{application_of, panel_at};
ghost use Rattle.host_core.specs.Does.{Grow, ValuesMayWantMemory};
ghost use Rattle.host_core.specs.Learning.{HaveFields};
ghost use Rattle.host_core.specs.Questions.{has_its_panel, has_value_of, key_of, HasTexts, act_by, answered_in, answered_on, cursor_asked, is_asking, named_fields, named_values, panel_asked, panel_for, question_in, texts_asked, ticket_of, values_for};
ghost use Rattle.host_core.specs.Choices.{CanBeShown, act_of};
ghost use Rattle.host_core.specs.Representation.{AnswersOn};
ghost use Rattle.host_core.specs.Sound.{IsShownOn};

use crate::acted::Acted;
use crate::acting::{Decision, Shown};
use crate::learning::{learn_all, texts_known};
use crate::question::{Answer, Question, Ticket, is_screen_empty, is_ticket};
use crate::room::COMMAND_ROOM;
use crate::sending::panel_in;
use crate::session::Session;
use crate::turn_reason::TurnReason;
use codes3270::{Addr, Aid};
use panels::{Field, Message, PanelSet, Value, Values};
use shadow::Shadow;
use telnet_wire::Memory;

/// The key that gave the host the turn; NoAid if none did, as at connect.
pub(crate) fn key_of(turn_reason: TurnReason) -> Aid
    ensures { result ≡ key_of turn_reason }
{
    match turn_reason {
        TurnReason::Agreement | TurnReason::Refusal | TurnReason::Restoration => Aid::NoAid,
        TurnReason::Key(aid, _) => aid,
    }
}

/// Whether some of these fields has a value in `values`.
pub(crate) fn has_value_of(fields: &[Field], values: &Values) -> bool
    ensures { result ≡ has_value_of fields.now values.now }
{
    fields
        .iter()
        .any(|field| values.get(field.number).is_some())
}

/// Removes the values of these fields.
fn remove_fields(values: &mut Values, fields: &[Field])
    ensures { values.new ≡ without_fields fields.now values.old }
{
    for field in fields {
        values.remove(field.number);
    }
}

/// Removes what these values of a panel have.
pub(crate) fn remove_values(values: &mut Values, shown: &[Value])
    ensures { values.new ≡ without_values shown.now values.old }
{
    for value in shown {
        values.remove(value.number);
    }
}

/// Sets the known texts of fields as their values, and then removes the values of `others` and `shown`. Memory is
/// needed only if a text is longer than the field's value; if it is refused, nothing changes.
pub(crate) fn learn_without(
    values: &mut Values,
    shadow: &Shadow,
    fields: &[Field],
    others: &[Field],
    shown: &[Value],
) -> Result<(), Memory>
    requires stored { CanBeStored shadow.now }
    requires there { HaveFields shadow.now fields.now }
    requires numbers { HaveNumbersApart fields.now }
    ensures values { OnOk result (values.new
        ≡ without_values shown.now (without_fields others.now (learned shadow.now fields.now values.old))) }
    ensures memory { OnErr result (Grow values.old (learned shadow.now fields.now values.old)) }
    ensures err { OnErr result (values.new ≡ values.old) }
{
    learn_all(values, shadow, fields)?;
    remove_fields(values, others);
    remove_values(values, shown);
    Ok(())
}

/// Whether the panel that an answer names exists, if it names one.
pub(crate) fn has_its_panel(panels: &PanelSet, answer: &Answer) -> bool
    ensures has { result ≡ has_its_panel (application_of panels.now) answer.now }
{
    match answer.panel {
        Some(panel) => panel < panels.len(),
        None => true,
    }
}

impl Session {
    /// Whether a question is open.
    pub(crate) fn is_asking(&self, panels: &PanelSet) -> bool
        requires { IsShownOn panels.now self.now }
        ensures asking { result ≡ is_asking (application_of panels.now) self.now }
        ensures fields { result ≡ true → HaveFields self.now.shadow (panel_at panels.now self.now.panel).fields }
    {
        match self.decide(panels) {
            Decision::Ask => {
                self.fields_are_believed(panels);
                true
            }
            Decision::Nothing | Decision::Read | Decision::Show { .. } => false,
        }
    }

    /// The known texts of the panel's fields; none while no panel is on the screen. Memory is needed only if there is
    /// one.
    fn texts_asked(&self, panels: &PanelSet) -> Result<Values, Memory>
        requires panel { self.now.panel < length panels.now.panels }
        requires fields { HaveFields self.now.shadow (panel_at panels.now self.now.panel).fields }
        ensures texts { IfOk result (λ texts. texts ≡ texts_asked (application_of panels.now) self.now) }
        ensures memory { OnErr result (texts_asked (application_of panels.now) self.now ≢ []) }
    {
        if is_screen_empty(key_of(self.turn_reason)) {
            return Ok(Values::new(*self.sent.allocator()));
        }
        panels.panels_are_sound();
        let fields = panel_in(panels, self.panel).fields();
        texts_known(*self.sent.allocator(), &self.shadow, fields)
    }

    /// The number of the panel of a question: the one that was shown last; at connect the first one.
    fn panel_asked(&self, panels: &PanelSet) -> usize
        requires { self.now.panel < length panels.now.panels }
        ensures panel { result ≡ panel_asked (application_of panels.now) self.now self.now.turn_reason }
        ensures there { result < length panels.now.panels }
    {
        match self.turn_reason {
            TurnReason::Agreement => self.first_panel(panels),
            TurnReason::Key(_, _) | TurnReason::Refusal | TurnReason::Restoration => self.panel,
        }
    }

    /// The cursor of a question: the terminal's when it last sent data; 0 while no panel is on the screen.
    fn cursor_asked(&self) -> Addr
        ensures { result ≡ cursor_asked self.now }
    {
        if is_screen_empty(key_of(self.turn_reason)) {
            Addr::first()
        } else {
            self.cursor
        }
    }

    /// The question that is open, if one is. Memory is needed only for its texts.
    pub(crate) fn question(
        &self,
        panels: &PanelSet,
        session: u64,
    ) -> Result<Option<Question>, Memory>
        requires { IsShownOn panels.now self.now }
        ensures question { IfOk result
            (λ question. question ≡ question_in (application_of panels.now) session self.now) }
        ensures memory { OnErr result (HasTexts (question_in (application_of panels.now) session self.now)) }
    {
        if !self.is_asking(panels) {
            return Ok(None);
        }
        let Some(lu) = self.lu() else {
            return Ok(None);
        };
        let values = self.texts_asked(panels)?;
        Ok(Some(Question {
            ticket: self.ticket(session),
            lu,
            panel: self.panel_asked(panels),
            aid: key_of(self.turn_reason),
            cursor: self.cursor_asked(),
            values,
        }))
    }

    /// The ticket of a question that is open now.
    fn ticket(&self, session: u64) -> Ticket
        ensures { result ≡ ticket_of session self.now }
    {
        Ticket {
            session,
            turn: self.next_seq,
        }
    }

    /// The panel that an answer shows whole: the one that it names; if it names none and no panel is on the screen, the
    /// question's.
    fn panel_for(&self, panels: &PanelSet, answer: &Answer) -> Option<usize>
        requires panel { self.now.panel < length panels.now.panels }
        requires there { has_its_panel (application_of panels.now) answer.now ≡ true }
        ensures panel { result ≡ panel_for (application_of panels.now) self.now answer.now }
        ensures there { IfSome result (λ panel. panel < length panels.now.panels) }
    {
        match answer.panel {
            Some(panel) => Some(panel),
            None => {
                if is_screen_empty(key_of(self.turn_reason)) {
                    Some(self.panel_asked(panels))
                } else {
                    None
                }
            }
        }
    }

    /// The fields of a panel that is shown whole, in the form for the terminal's model; none if none is.
    fn named_fields<'a>(&self, panels: &'a PanelSet, whole: Option<usize>) -> &'a [Field]
        requires { IfSome whole (λ panel. panel < length panels.now.panels) }
        ensures { result.now ≡ named_fields (application_of panels.now) self.now whole }
    {
        match whole {
            None => &[],
            Some(panel) => panel_in(panels, panels.shown(panel, self.shown_model())).fields(),
        }
    }

    /// The values of a panel that is shown whole, in the form for the terminal's model; none if none is.
    fn named_values<'a>(&self, panels: &'a PanelSet, whole: Option<usize>) -> &'a [Value]
        requires { IfSome whole (λ panel. panel < length panels.now.panels) }
        ensures { result.now ≡ named_values (application_of panels.now) self.now whole }
    {
        match whole {
            None => &[],
            Some(panel) => panel_in(panels, panels.shown(panel, self.shown_model())).values(),
        }
    }

    /// A copy of the values of all fields, after the known texts and the answer's values are set.
    fn values_for(
        &self,
        panels: &PanelSet,
        answer: &Answer,
        whole: Option<usize>,
    ) -> Result<Values, Memory>
        requires panel { self.now.panel < length panels.now.panels }
        requires fields { HaveFields self.now.shadow (panel_at panels.now self.now.panel).fields }
        requires there { IfSome whole (λ panel. panel < length panels.now.panels) }
        ensures { IfOk result
            (λ values. values ≡ values_for (application_of panels.now) self.now answer.now whole) }
    {
        panels.panels_are_sound();
        let mut values = self.values.clone()?;
        let fields = panel_in(panels, self.panel).fields();
        let named = self.named_fields(panels, whole);
        let shown = self.named_values(panels, whole);
        learn_without(&mut values, &self.shadow, fields, named, shown)?;
        values.set_all(&answer.values)?;
        Ok(values)
    }

    /// Sets the known texts as values, for an answer without values. Memory is needed only if a value has to grow.
    fn keep_known(
        &mut self,
        panels: &PanelSet,
        answer: &Answer,
        whole: Option<usize>,
    ) -> Result<(), Memory>
        requires panel { self.old.panel < length panels.now.panels }
        requires fields { HaveFields self.old.shadow (panel_at panels.now self.old.panel).fields }
        requires there { IfSome whole (λ panel. panel < length panels.now.panels) }
        requires none { answer.now.values ≡ [] }
        ensures values { OnOk result (self.new ≡ record self.old {
          values = values_for (application_of panels.now) self.old answer.now whole;
        }) }
        ensures memory { OnErr result (Grow self.old.values
            (learned self.old.shadow (panel_at panels.now self.old.panel).fields self.old.values)) }
        ensures err { OnErr result (self.new ≡ self.old) }
    {
        panels.panels_are_sound();
        let fields = panel_in(panels, self.panel).fields();
        let named = self.named_fields(panels, whole);
        let shown = self.named_values(panels, whole);
        learn_without(&mut self.values, &self.shadow, fields, named, shown)
    }

    /// Sets the known texts and the answer's values as values of their fields. Memory is needed only if a value has
    /// to grow, or if the answer has values; if it is refused, nothing changes.
    fn set_values(
        &mut self,
        panels: &PanelSet,
        answer: &Answer,
        whole: Option<usize>,
    ) -> Result<(), Memory>
        requires panel { self.old.panel < length panels.now.panels }
        requires fields { HaveFields self.old.shadow (panel_at panels.now self.old.panel).fields }
        requires there { IfSome whole (λ panel. panel < length panels.now.panels) }
        ensures values { OnOk result (self.new ≡ record self.old {
          values = values_for (application_of panels.now) self.old answer.now whole;
        }) }
        ensures memory { OnErr result (ValuesMayWantMemory (application_of panels.now) answer.now self.old) }
        ensures err { OnErr result (self.new ≡ self.old) }
    {
        if answer.values.is_empty() {
            return self.keep_known(panels, answer, whole);
        }
        self.values = self.values_for(panels, answer, whole)?;
        Ok(())
    }

    /// What an answer shows, after the values of fields are set.
    fn shown_by(&self, panels: &PanelSet, answer: &Answer, whole: Option<usize>) -> Shown
        requires panel { self.now.panel < length panels.now.panels }
        requires there { IfSome whole (λ panel. panel < length panels.now.panels) }
        ensures act { act_of (values_for (application_of panels.now) self.now answer.now whole) result
            ≡ act_by (application_of panels.now) self.now answer.now whole }
        ensures can_be_done { CanBeShown (length panels.now.panels) result }
    {
        let message = Message::Told(answer.message, answer.cursor);
        match whole {
            None => Shown {
                panel: self.panel,
                message,
                keep: !has_value_of(panel_in(panels, self.panel).fields(), &answer.values),
            },
            Some(panel) => Shown {
                panel,
                message,
                keep: false,
            },
        }
    }

    /// Takes the answer to the open question, and shows what it says. Nothing if no question is open or the answer's
    /// panel doesn't exist. It may need memory; if that is refused, nothing has changed.
    fn answer(&mut self, panels: &PanelSet, answer: &Answer, out: &mut Vec<u8>) -> Acted
        requires panel { IsShownOn panels.now self.old }
        ensures answered { AnswersOn (application_of panels.now) answer.now
            (answered_on (application_of panels.now) self.old answer.now) self.old out.old result self.new out.new }
        ensures panel { IsShownOn panels.now self.new }
        ensures capacity { vec_capacity out.old ≤ vec_capacity out.new }
    {
        if !self.is_asking(panels) || !has_its_panel(panels, answer) {
            return Acted::Nothing;
        }
        if out.reserve(COMMAND_ROOM).is_err() {
            return Acted::Memory;
        }
        let whole = self.panel_for(panels, answer);
        let shown = self.shown_by(panels, answer, whole);
        if self.set_values(panels, answer, whole).is_err() {
            return Acted::Memory;
        }
        self.show(panels, shown, out);
        Acted::Sent
    }

    /// Takes an answer, if its ticket is that of the open question.
    pub(crate) fn answer_to(
        &mut self,
        panels: &PanelSet,
        session: u64,
        ticket: Ticket,
        answer: &Answer,
        out: &mut Vec<u8>,
    ) -> Acted
        requires panel { IsShownOn panels.now self.old }
        ensures answered { AnswersOn (application_of panels.now) answer.now (answered_in (application_of panels.now)
            session ticket answer.now self.old) self.old out.old result self.new out.new }
        ensures panel { IsShownOn panels.now self.new }
        ensures capacity { vec_capacity out.old ≤ vec_capacity out.new }
    {
        if !is_ticket(ticket, self.ticket(session)) {
            return Acted::Nothing;
        }
        self.answer(panels, answer, out)
    }
}
