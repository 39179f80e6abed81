//! The commands that are sent in the host's turn.
ghost use Rattle.std.specs.Prelude.{◌≡◌, ◌<◌, ◌≤◌, ◌+◌, ◌*◌, ◌++◌, ◌∷◌, [], ℕ, length, vec_len, replicate, true};
ghost use Rattle.std.specs.Vec.{vec_capacity};
ghost use Rattle.codes3270.specs.declared.attention.Aid.{Aid as AidValue};
ghost use Rattle.codes3270.specs.Size.{cells_in};
ghost use Rattle.telnet_wire.specs.Items.{Record, sent_bytes};
ghost use Rattle.tn3270e_msg.specs.Header.{always_response, spelling};
ghost use Rattle.datastream.specs.Wanted.{IsScreen};
ghost use Rattle.datastream.specs.declared.wanted.Want.TheVariants.{Char};
ghost use Rattle.shadow.specs.Belief.{IsOfSize};
ghost use Rattle.shadow.specs.Fits.{is_paintable};
ghost use Rattle.panels.specs.Keys.{IsKey};
ghost use Rattle.panels.specs.Panel.{IsLaidOut, target_of, size_of};
ghost use Rattle.host_core.specs.Application.{panel_at, application_of, Application};
ghost use Rattle.host_core.specs.Rooms.{HasRoomFor, record_room, command_room};
ghost use Rattle.host_core.specs.Says.{command_header, read_buffer_bytes};
ghost use Rattle.host_core.specs.Session.{model_in};
ghost use Rattle.host_core.specs.Sound.{IsShownOn};
ghost use Rattle.host_core.specs.Representation.{DoesOn, IsSentOn};
ghost use Rattle.host_core.specs.Acts.{Act as ActValue, done, may_keep, values_shown, wanted_by, when_shown};
ghost use Rattle.host_core.specs.Choices.{CanBeShown, act_of};

use crate::acted::Acted;
use crate::acting::Shown;
use crate::asking::remove_values;
use crate::laws::panels_are_shown;
use crate::pending::Pending;
use crate::room::READ_BUFFER_ROOM;
use crate::session::Session;
use crate::turn::Turn;
use crate::unheard::Unheard;
use codes3270::Wcc;
use datastream::{CommandCode, CommandWriter, Want, Wanted};
use panels::{Message, Panel, PanelSet, Values};
use shadow::Shadow;
use shadow::laws::{what_is_in_doubt_is_allowed, what_is_wanted_is_painted};
use telnet_wire::put_record;
use tn3270e_msg::{ALWAYS_RESPONSE, DataType, ERROR_RESPONSE, Header, header_bytes, next_seq};

/// The panel with this number, 0-based.
pub(crate) fn panel_in(panels: &PanelSet, number: usize) -> &Panel
    requires { number < length panels.now.panels }
    ensures panel { result.now ≡ panel_at panels.now number }
    // It is laid out on the screen of its model.
    ensures laid_out { IsLaidOut result.now }
    // Its keys lead to panels that exist.
    ensures targets { (aid : AidValue) (target : ℕ) → IsKey aid → target_of result.now aid ≡ Some target
        → target < length panels.now.panels }
{
    panels.panels_are_sound();
    match panels.panel(number) {
        Some(panel) => panel,
        None => unreachable!(),
    }
}

/// Begins a command's record with its header, in place of the buffer's contents.
pub(crate) fn begin_record(bytes: &mut Vec<u8>, flag: u8, number: u16)
    requires flag { flag ≤ always_response }
    requires room { record_room ≤ vec_capacity bytes.old }
    ensures begun { bytes.new.items ≡ spelling (command_header flag number) }
    ensures capacity { vec_capacity bytes.old ≤ vec_capacity bytes.new }
{
    let header = Header {
        kind: DataType::Data3270,
        request: 0,
        flag,
        seq: number,
    };
    bytes.clear();
    bytes.extend_from_slice(&header_bytes(&header)).unwrap();
}

/// Appends a command's record to the output.
pub(crate) fn send_record(bytes: &[u8], out: &mut Vec<u8>)
    requires { HasRoomFor (2 * length bytes.now + 2) out.old }
    ensures sent { out.new.items ≡ out.old.items ++ sent_bytes (Record bytes.now ∷ []) }
    ensures capacity { vec_capacity out.old ≤ vec_capacity out.new }
{
    put_record(out, bytes).unwrap();
}

/// Appends the command Read Buffer.
pub(crate) fn put_read_buffer(bytes: &mut Vec<u8>)
    requires { vec_len bytes.old + 1 ≤ vec_capacity bytes.old }
    ensures appended { bytes.new.items ≡ bytes.old.items ++ read_buffer_bytes }
    ensures capacity { vec_capacity bytes.old ≤ vec_capacity bytes.new }
{
    // A read has no write control character.
    let none = Wcc {
        alarm: false,
        restore: false,
        reset: false,
    };
    let mut writer = CommandWriter::new(bytes);
    writer.begin(CommandCode::ReadBuffer, none).unwrap();
}

impl Session {
    /// Sends Read Buffer, if there is room for it; the whole screen is awaited.
    pub(crate) fn read(&mut self, out: &mut Vec<u8>) -> Acted
        requires known { IsOfSize (cells_in self.old.size) self.old.shadow }
        ensures acted { (app : Application)
            → DoesOn (Some (done app self.old ActValue.Read)) self.old out.old result self.new out.new }
        ensures panel { self.new.panel ≡ self.old.panel }
        ensures size { self.new.size ≡ self.old.size }
        ensures capacity { vec_capacity out.old ≤ vec_capacity out.new }
    {
        if out.reserve(READ_BUFFER_ROOM).is_err() {
            return Acted::Memory;
        }
        begin_record(&mut self.sent, ERROR_RESPONSE, self.next_seq);
        put_read_buffer(&mut self.sent);
        send_record(self.sent.as_slice(), out);
        self.pending = Pending::Reading(self.next_seq);
        self.next_seq = next_seq(self.next_seq);
        Acted::Sent
    }

    /// What is asked for, with the panel in the form for the terminal's model: the panel itself, or its `otherwise`.
    fn for_model(&self, panels: &PanelSet, asked: Shown) -> Shown
        requires { CanBeShown (length panels.now.panels) asked }
        ensures shown { result
            ≡ record asked { panel = (application_of panels.now).shown (model_in self.now) asked.panel } }
        ensures can_be_shown { CanBeShown (length panels.now.panels) result }
    {
        Shown {
            panel: panels.shown(asked.panel, self.shown_model()),
            message: asked.message,
            keep: asked.keep,
        }
    }

    /// Whether a wanted screen may keep fields: it fits the belief, and the host relies on the terminal's wait.
    fn may_keep(&self, wanted: &Wanted) -> bool
        ensures { result ≡ may_keep self.now wanted.now }
    {
        !self.unheard.may_have_changed() && self.shadow.fits(wanted)
    }

    /// Fills a wanted screen of nulls: with kept fields, if that is asked for and may be, else whole.
    fn put_wanted(&self, wanted: &mut Wanted, panels: &PanelSet, shown: &Shown, values: &Values)
        requires shown { CanBeShown (length panels.now.panels) shown.now }
        requires size { wanted.old.size ≡ size_of (panel_at panels.now shown.now.panel) }
        requires nulls { wanted.old.cells ≡ replicate (cells_in wanted.old.size) (Char 0) }
        ensures { wanted.new ≡ wanted_by
            (application_of panels.now) self.now shown.now.panel shown.now.message shown.now.keep values.now }
    {
        let panel = panel_in(panels, shown.panel);
        panel.put_wanted(wanted, values, shown.message, shown.keep);
        if shown.keep && !self.may_keep(wanted) {
            panel.put_values(wanted, values, shown.message);
        }
    }

    /// Fills a wanted screen of nulls. It then fits the belief or keeps no cell, and is one of our profile.
    fn put_fitting(&self, wanted: &mut Wanted, panels: &PanelSet, shown: &Shown, values: &Values)
        requires shown { CanBeShown (length panels.now.panels) shown.now }
        requires size { wanted.old.size ≡ size_of (panel_at panels.now shown.now.panel) }
        requires nulls { wanted.old.cells ≡ replicate (cells_in wanted.old.size) (Char 0) }
        ensures wanted { wanted.new ≡ wanted_by
            (application_of panels.now) self.now shown.now.panel shown.now.message shown.now.keep values.now }
        ensures fits { is_paintable self.now.shadow wanted.new ≡ true }
        ensures screen { IsScreen wanted.new }
        ensures size { wanted.new.size ≡ size_of (panel_at panels.now shown.now.panel) }
    {
        panels_are_shown();
        panels.panels_are_sound();
        self.put_wanted(wanted, panels, shown, values);
        // For the contract: there is a want for each cell, and two bytes hold each address.
        let _cells = wanted.cells();
        let _size = wanted.size();
        // For the contract: the cursor is on the screen.
        let _cursor = wanted.cursor();
    }

    /// Drops from the belief what may have changed unheard, before a panel is shown.
    fn forget_unheard(&mut self)
        ensures { self.new ≡ when_shown self.old }
    {
        what_is_in_doubt_is_allowed();
        match self.unheard {
            Unheard::Nothing => {}
            Unheard::Input => self.shadow.doubt(),
            Unheard::Clear => {
                self.shadow = Shadow::blank();
                self.unheard = Unheard::Input;
            }
        }
    }

    /// Drops a panel's own values if it is shown fresh, so that it shows nothing of an earlier time.
    fn drop_values(&mut self, panels: &PanelSet, shown: &Shown)
        requires { shown.now.panel < length panels.now.panels }
        ensures { self.new ≡ record self.old {
          values = values_shown (application_of panels.now) shown.now.panel
              shown.now.message self.old.values;
        } }
    {
        match shown.message {
            Message::Fresh => {
                let own = panel_in(panels, shown.panel).values();
                remove_values(&mut self.values, own);
            }
            Message::Plain | Message::KeyNotActive | Message::Required(_) | Message::Told(_, _) =>
                {}
        }
    }

    /// Shows a panel, in the form for the terminal's model, with a message and the values of fields. The session has
    /// that panel's size from then on, before the command is answered.
    pub(crate) fn show(&mut self, panels: &PanelSet, asked: Shown, out: &mut Vec<u8>)
        requires asked { CanBeShown (length panels.now.panels) asked }
        requires room { HasRoomFor command_room out.old }
        ensures sent { IsSentOn (done (application_of panels.now) self.old (act_of self.old.values asked)) out.old
            out.new self.new }
        ensures panel { IsShownOn panels.now self.new }
        ensures capacity { vec_capacity out.old ≤ vec_capacity out.new }
    {
        self.forget_unheard();
        what_is_wanted_is_painted();
        let shown = self.for_model(panels, asked);
        self.drop_values(panels, &shown);
        let size = panel_in(panels, shown.panel).size();
        let mut wanted = Wanted::filled(Want::Char(0), size);
        self.put_fitting(&mut wanted, panels, &shown, &self.values);
        begin_record(&mut self.sent, ALWAYS_RESPONSE, self.next_seq);
        self.shadow.paint(&mut self.sent, &wanted).unwrap();
        send_record(self.sent.as_slice(), out);
        self.size = size;
        self.turn = Turn::Terminal;
        self.pending = Pending::Writing(self.next_seq);
        self.next_seq = next_seq(self.next_seq);
        self.panel = shown.panel;
        self.message = shown.message;
    }
}
