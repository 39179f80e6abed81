//! What an application is asked, and what it answers.
ghost use Rattle.std.specs.Prelude.{◌≡◌};
ghost use Rattle.host_core.specs.Questions.{fields_asked, is_screen_empty, is_ticket};

use codes3270::{Addr, Aid};
use panels::{Field, MessageText, Panel, Values};
use tn3270e_msg::Lu;

/// Names the question that an answer is to. Connection numbers and record numbers are used again, session numbers are
/// not: so a late answer reaches no other question.
#[derive(Clone, Copy, Debug, PartialEq, Eq)]
pub struct Ticket {
    /// The number of the session: the host counts all that it opened, from 0, in 64 bits.
    pub session: u64,
    /// The sequence number of the record that will answer the operator, `0..=32_767`.
    pub turn: u16,
}

/// A question to the application, after a key that the panel asks about, or at connect. It describes the screen as it
/// is now. At connect and after Clear no panel is on the screen: then it has no texts.
#[derive(Drop)]
pub struct Question {
    /// Names this question; its answer must come with this ticket.
    pub ticket: Ticket,
    /// The LU that the terminal is bound to.
    pub lu: Lu,
    /// The number of the panel that was shown last, 0-based; at connect that of the first one, in the form for the
    /// terminal's model.
    pub panel: usize,
    /// The key that was pressed; NoAid at connect.
    pub aid: Aid,
    /// The cursor's buffer address when the terminal last sent data; 0 at connect and after Clear.
    pub cursor: Addr,
    /// The known text of each of the panel's fields, without nulls, by the field's number in the whole panel text.
    pub values: Values,
}

/// The application's answer to a question.
#[derive(Drop)]
pub struct Answer {
    /// The number of the panel to show, 0-based; if there is none, the question's panel.
    pub panel: Option<usize>,
    /// Texts of fields, by their numbers in the whole panel text. The fields of a panel that `panel` names have these
    /// texts and no others, and so have those of the question's panel at connect and after Clear. Else, on the same
    /// panel, fields without one keep what the operator left in them.
    pub values: Values,
    /// The text of the message in the last row.
    pub message: MessageText,
    /// The number of the field that the cursor goes to; if there is none, or the panel doesn't have it, the cursor
    /// goes to the panel's own place.
    pub cursor: Option<usize>,
}

impl Question {
    /// The fields that it has, of those of its panel: none at connect and after Clear, when no panel is on the screen.
    pub fn fields<'a>(&self, panel: &'a Panel) -> &'a [Field]
        ensures { result.now ≡ fields_asked self.now.aid panel.now.fields }
    {
        if is_screen_empty(self.aid) {
            &[]
        } else {
            panel.fields()
        }
    }
}

/// Whether no panel is on the screen when the application decides on a key: at connect, without a key, none was shown
/// yet, and Clear has erased it.
pub(crate) fn is_screen_empty(aid: Aid) -> bool
    ensures { result ≡ is_screen_empty aid }
{
    match aid {
        Aid::NoAid | Aid::Clear => true,
        Aid::Enter | Aid::Pf(_) | Aid::Pa(_) => false,
    }
}

/// Whether two tickets are the same.
pub(crate) fn is_ticket(one: Ticket, other: Ticket) -> bool
    ensures { result ≡ is_ticket one other }
{
    one.session == other.session && one.turn == other.turn
}
