//! How the host takes a terminal's records: data and responses.
ghost use Rattle.std.specs.Prelude.{◌≡◌, ◌≢◌, ◌≤◌, length, true, drop, unwrap_or};
ghost use Rattle.codes3270.specs.Size.{cells_in};
ghost use Rattle.codes3270.specs.declared.attention.Aid.TheVariants.{Clear};
ghost use Rattle.datastream.specs.Escapes.{without_escapes};
ghost use Rattle.datastream.specs.Grammar.{IsSpelt};
ghost use Rattle.datastream.specs.InboundText.{IsNoInbound};
ghost use Rattle.datastream.specs.declared.inbound_part.Form.TheVariants.{Buffer};
ghost use Rattle.datastream.specs.declared.inbound_part.InboundFault.{InboundFault};
ghost use Rattle.shadow.specs.Belief.{IsOfSize};
ghost use Rattle.shadow.specs.Exactness.{is_erase};
ghost use Rattle.shadow.specs.Stores.{is_plain};
ghost use Rattle.tn3270e_msg.specs.Header.{header_length, record_limit};
ghost use Rattle.host_core.specs.Items.{TakesAnyData, TakesData, TakesRecord, begins_with_other_aid, is_other_key, may_be_second_key, second_key_size, verdict_of, with_known_aid, with_replaced};
ghost use Rattle.host_core.specs.Representation.{IsPlainWrite, command_in, silent, step_of};
ghost use Rattle.host_core.specs.Parts.{IsNoPaint, IsWrite, write_of};
ghost use Rattle.host_core.specs.declared.after_record.AfterRecord.TheVariants.{GoesOn};
ghost use Rattle.host_core.specs.declared.unheard.Unheard.TheVariants as UnheardValue;
ghost use Rattle.host_core.specs.Takes.{believed, buffer_came, buffer_heard, clear_came, data_came, dropping, form_awaited, hears, is_after_pa, is_read_believed, is_unread, is_verified, once_read, other_key_came, out_of_turn, paint_verdict_came, painted_over, rule_broken_by, second_key, refused, response_came, unbelieved, verdict_came};

use crate::after_record::AfterRecord;
use crate::disbelief::Disbelief;
use crate::pending::Pending;
use crate::session::Session;
use crate::turn::Turn;
use crate::turn_reason::TurnReason;
use crate::unheard::Unheard;
use arrayvec::ArrayVec;
use codes3270::{Addr, Aid, Size, aid_byte, aid_from_byte};
use datastream::laws::escapes_are_replaced;
use datastream::{
    Command, CommandCode, Form, Inbound, WithoutEscapes, has_escapes, read_command, read_inbound,
};
use shadow::laws::{
    what_is_believed_can_be_stored, what_is_believed_has_a_size, what_is_in_doubt_is_allowed,
};
use shadow::{Rule, RuleBreak, Shadow};
use tn3270e_msg::{Cause, DataType, HEADER_LENGTH, Header, POSITIVE, RECORD_LIMIT, read_header};

/// The most times in a row, without a key that is believed, that a screen is painted over.
const MOST_RESTORED: u8 = 8;

/// The rule that data breaks if it has no form, or contradicts the belief.
const SENDS_WRONG: RuleBreak = RuleBreak {
    rule: Rule::Sends,
    cell: 0,
};

/// The reason for the turn after a Read Buffer is answered: the last key's screen was read.
fn once_read(turn_reason: TurnReason) -> TurnReason
    ensures { result ≡ once_read turn_reason }
{
    match turn_reason {
        TurnReason::Key(aid, _) => TurnReason::Key(aid, true),
        TurnReason::Agreement => TurnReason::Agreement,
        TurnReason::Refusal => TurnReason::Refusal,
        TurnReason::Restoration => TurnReason::Restoration,
    }
}

/// Whether the last key was PA, which sends no fields, or one without a meaning.
fn is_after_pa(turn_reason: TurnReason) -> bool
    ensures { result ≡ is_after_pa turn_reason }
{
    matches!(turn_reason, TurnReason::Key(Aid::NoAid | Aid::Pa(_), _))
}

/// Whether the last key was PA, or one without a meaning, and the screen wasn't read since.
fn is_unread(turn_reason: TurnReason) -> bool
    ensures { result ≡ is_unread turn_reason }
{
    matches!(turn_reason, TurnReason::Key(Aid::NoAid | Aid::Pa(_), false))
}

/// Whether the first byte of data isn't an AID that this host knows.
fn begins_with_other_aid(body: &[u8]) -> bool
    ensures { result ≡ begins_with_other_aid body.now }
{
    match body {
        [] => false,
        [first, ..] => aid_from_byte(*first).is_none(),
    }
}

/// Data as it is read: SUB for each character that comes by Graphic Escape, and `NoAid` for an AID without a meaning.
fn plain_data(body: &[u8]) -> ArrayVec<u8, RECORD_LIMIT>
    requires { length body.now ≤ record_limit }
    ensures { result.items ≡ with_known_aid (without_escapes body.now) }
{
    escapes_are_replaced();
    let mut plain = ArrayVec::new();
    for byte in WithoutEscapes::new(body) {
        plain.push(byte);
    }
    if begins_with_other_aid(plain.as_slice()) {
        plain[0] = aid_byte(Aid::NoAid);
    }
    plain
}

/// The cursor's buffer address after data: the one in the data, or the previous one if the data has none.
fn cursor_after(inbound: &Inbound<'_>, cursor: Addr) -> Addr
    ensures { result ≡ unwrap_or inbound.now.cursor cursor }
{
    inbound.cursor().unwrap_or(cursor)
}

/// The write in the record that was sent, after the header. It leaves a screen of this size.
fn write_in(sent: &[u8], size: Size) -> Command<'_>
    requires { IsPlainWrite size (drop header_length sent.now) }
    ensures command { result ≡ command_in size (drop header_length sent.now) }
    ensures plain { is_plain result ≡ true }
    ensures size { result.size ≡ size }
    ensures encoded { IsSpelt result }
{
    read_command(&sent[HEADER_LENGTH..], size, size).unwrap()
}

/// Whether a write erases the screen first (Erase/Write or Erase/Write Alternate).
fn is_erase(code: CommandCode) -> bool
    ensures { result ≡ is_erase code }
{
    matches!(
        code,
        CommandCode::EraseWrite | CommandCode::EraseWriteAlternate
    )
}

impl Session {
    /// Takes a record, after the ends agreed; also answers whether characters were replaced in its data.
    pub(crate) fn take_record(&mut self, bytes: &[u8]) -> (AfterRecord, bool)
        requires { length bytes.now ≤ record_limit }
        ensures taken { TakesRecord self.old bytes.now (with_replaced result.1 (step_of self.new result.0)) }
        ensures talk { self.new.talk ≡ self.old.talk }
        ensures panel { self.new.panel ≡ self.old.panel }
        ensures size { self.new.size ≡ self.old.size }
    {
        let Ok((header, body)) = read_header(bytes) else {
            return (AfterRecord::Closes(Cause::BadRecord), false);
        };
        match header.kind {
            DataType::Data3270 => self.take_any_data(body),
            DataType::Response => (AfterRecord::of(self.take_response(&header)), false),
            _ => (AfterRecord::GoesOn, false),
        }
    }

    /// Takes data, also that of a key without a meaning; also answers whether characters were replaced in it.
    fn take_any_data(&mut self, body: &[u8]) -> (AfterRecord, bool)
        requires { length body.now ≤ record_limit }
        ensures taken { TakesAnyData (is_other_key self.old body.now) self.old body.now
            (with_replaced result.1 (step_of self.new result.0)) }
        ensures talk { self.new.talk ≡ self.old.talk }
        ensures panel { self.new.panel ≡ self.old.panel }
        ensures size { self.new.size ≡ self.old.size }
    {
        if self.is_other_key(body) {
            return (self.take_other_key(), false);
        }
        if self.unheard.may_have_changed() {
            let plain = plain_data(body);
            (self.take_data(plain.as_slice()), has_escapes(body))
        } else {
            (self.take_data(body), false)
        }
    }

    /// Whether data is that of a key without a meaning.
    fn is_other_key(&self, body: &[u8]) -> bool
        ensures { result ≡ is_other_key self.now body.now }
    {
        self.unheard.may_have_changed()
            && !matches!(self.pending, Pending::Reading(_))
            && begins_with_other_aid(body)
    }

    /// Takes a key without a meaning: in the terminal's turn the host has the turn, as after PA. Else it is dropped.
    fn take_other_key(&mut self) -> AfterRecord
        ensures came { step_of self.new result ≡ other_key_came self.old }
        ensures talk { self.new.talk ≡ self.old.talk }
        ensures panel { self.new.panel ≡ self.old.panel }
        ensures size { self.new.size ≡ self.old.size }
    {
        if self.verifies {
            return AfterRecord::Breaks(SENDS_WRONG);
        }
        match (self.turn, self.pending) {
            (Turn::Terminal, Pending::Nothing | Pending::Noting(_)) => {
                what_is_in_doubt_is_allowed();
                self.shadow.doubt();
                self.turn = Turn::Host;
                self.turn_reason = TurnReason::Key(Aid::NoAid, false);
                AfterRecord::GoesOn
            }
            _ => AfterRecord::Drops(Aid::NoAid),
        }
    }

    /// Takes data: it is heard, if it has the awaited form, or else may be a second key's.
    fn take_data(&mut self, body: &[u8]) -> AfterRecord
        ensures taken { TakesData self.old body.now (step_of self.new result) }
        ensures talk { self.new.talk ≡ self.old.talk }
        ensures panel { self.new.panel ≡ self.old.panel }
        ensures size { self.new.size ≡ self.old.size }
    {
        match read_inbound(body, self.form_awaited(), self.size) {
            Ok(inbound) => self.hear(&inbound),
            Err(_) => self.take_second_key(body),
        }
    }

    /// Whether data that isn't in the awaited form may be a second key's.
    fn may_be_second_key(&self) -> bool
        ensures { result ≡ may_be_second_key self.now }
    {
        self.unheard.may_have_changed() && self.pending.is_paint_or_read()
    }

    /// Takes data that isn't in the awaited form: a second key's is dropped, any other can't be believed.
    fn take_second_key(&mut self, body: &[u8]) -> AfterRecord
        requires { (fault : InboundFault) × IsNoInbound self.old.size (form_awaited self.old.pending) fault body.now }
        ensures taken { TakesData self.old body.now (step_of self.new result) }
        ensures talk { self.new.talk ≡ self.old.talk }
        ensures panel { self.new.panel ≡ self.old.panel }
        ensures size { self.new.size ≡ self.old.size }
    {
        if !self.may_be_second_key() {
            return self.drop_unbelieved(Disbelief::Unreadable);
        }
        match read_inbound(body, Form::Modified, self.second_key_size()) {
            Ok(inbound) => self.drop_key(&inbound),
            Err(_) => self.drop_unbelieved(Disbelief::Unreadable),
        }
    }

    /// The size by which a second key's data is read: while a paint is pending, the screen before may have been larger.
    fn second_key_size(&self) -> Size
        ensures { result ≡ second_key_size self.now self.now.pending }
    {
        match self.pending {
            Pending::Writing(_) => self.shown_model().alternate(),
            Pending::Nothing | Pending::Reading(_) | Pending::Noting(_) => self.size,
        }
    }

    /// The form in which data is read: the whole screen while Read Buffer waits for its answer, else modified fields.
    fn form_awaited(&self) -> Form
        ensures { result ≡ form_awaited self.now.pending }
    {
        match self.pending {
            Pending::Reading(_) => Form::Buffer,
            Pending::Nothing | Pending::Writing(_) | Pending::Noting(_) => Form::Modified,
        }
    }

    // ---- data

    /// Takes data in the awaited form: the answer to a read, a key's in the terminal's turn, or data out of turn.
    fn hear(&mut self, inbound: &Inbound<'_>) -> AfterRecord
        requires { inbound.now.size ≡ self.old.size }
        ensures came { step_of self.new result ≡ data_came inbound.now self.old.turn self.old.pending self.old }
        ensures talk { self.new.talk ≡ self.old.talk }
        ensures panel { self.new.panel ≡ self.old.panel }
        ensures size { self.new.size ≡ self.old.size }
    {
        match self.pending {
            Pending::Reading(_) => match inbound.form() {
                Form::Buffer => self.take_buffer(inbound),
                Form::Modified | Form::All => self.hear_out_of_turn(inbound),
            },
            Pending::Writing(_) => self.hear_out_of_turn(inbound),
            Pending::Nothing | Pending::Noting(_) => match self.turn {
                Turn::Host => self.hear_out_of_turn(inbound),
                Turn::Terminal => match inbound.form() {
                    Form::Modified => match inbound.aid() {
                        Aid::NoAid => self.drop_unbelieved(Disbelief::NoKey),
                        aid => self.believe(inbound, TurnReason::Key(aid, false)),
                    },
                    Form::All | Form::Buffer => AfterRecord::Closes(Cause::BadInbound),
                },
            },
        }
    }

    /// Takes data out of turn: a second key's is dropped, unless the host relies on the terminal's wait.
    fn hear_out_of_turn(&mut self, inbound: &Inbound<'_>) -> AfterRecord
        requires { inbound.now.size ≡ self.old.size }
        ensures came { step_of self.new result ≡ out_of_turn inbound.now self.old }
        ensures talk { self.new.talk ≡ self.old.talk }
        ensures panel { self.new.panel ≡ self.old.panel }
        ensures size { self.new.size ≡ self.old.size }
    {
        if !self.unheard.may_have_changed() {
            return AfterRecord::Closes(Cause::BadInbound);
        }
        match inbound.form() {
            Form::Modified => self.drop_key(inbound),
            Form::All => AfterRecord::Closes(Cause::BadInbound),
            Form::Buffer => AfterRecord::Closes(Cause::BadInbound),
        }
    }

    /// Drops the data of a second key. Data without a key can't be believed.
    fn drop_key(&mut self, inbound: &Inbound<'_>) -> AfterRecord
        requires size { IsNoPaint self.old.pending → inbound.now.size ≡ self.old.size }
        ensures came { step_of self.new result ≡ second_key inbound.now inbound.now.aid self.old.pending self.old }
        ensures talk { self.new.talk ≡ self.old.talk }
        ensures panel { self.new.panel ≡ self.old.panel }
        ensures size { self.new.size ≡ self.old.size }
    {
        let aid = inbound.aid();
        match aid {
            Aid::NoAid => self.drop_unbelieved(Disbelief::NoKey),
            Aid::Enter => AfterRecord::Drops(aid),
            Aid::Pf(_) => AfterRecord::Drops(aid),
            Aid::Pa(_) => AfterRecord::Drops(aid),
            Aid::Clear => match self.pending {
                Pending::Writing(_) => self.drop_clear(),
                Pending::Nothing => self.take_clear(inbound),
                Pending::Reading(_) => self.take_clear(inbound),
                Pending::Noting(_) => self.take_clear(inbound),
            },
        }
    }

    /// Takes a Clear key in the host's turn. After PA it counts in place of PA, if the screen wasn't read yet, since
    /// the texts that would be read are gone; else it is dropped.
    fn take_clear(&mut self, inbound: &Inbound<'_>) -> AfterRecord
        requires size { inbound.now.size ≡ self.old.size }
        requires known { IsOfSize (cells_in self.old.size) self.old.shadow }
        ensures came { step_of self.new result ≡ clear_came inbound.now self.old }
        ensures talk { self.new.talk ≡ self.old.talk }
        ensures panel { self.new.panel ≡ self.old.panel }
        ensures size { self.new.size ≡ self.old.size }
    {
        if is_unread(self.turn_reason) {
            self.believe(inbound, TurnReason::Key(Aid::Clear, false))
        } else {
            self.drop_clear()
        }
    }

    /// Drops a Clear key: nothing is believed of the screen when a panel is shown next.
    fn drop_clear(&mut self) -> AfterRecord
        ensures came { step_of self.new result ≡ dropping Clear (record self.old { unheard = UnheardValue.Clear }) }
        ensures talk { self.new.talk ≡ self.old.talk }
        ensures panel { self.new.panel ≡ self.old.panel }
        ensures size { self.new.size ≡ self.old.size }
    {
        self.unheard = Unheard::Clear;
        AfterRecord::Drops(Aid::Clear)
    }

    /// Takes the answer to Read Buffer, after which no command waits, unless it shows that the terminal broke a rule. It
    /// is believed if it counts.
    fn take_buffer(&mut self, inbound: &Inbound<'_>) -> AfterRecord
        requires form { inbound.now.form ≡ Buffer }
        requires size { inbound.now.size ≡ self.old.size }
        requires known { IsOfSize (cells_in self.old.size) self.old.shadow }
        ensures came { step_of self.new result ≡ buffer_came inbound.now Buffer self.old }
        ensures talk { self.new.talk ≡ self.old.talk }
        ensures panel { self.new.panel ≡ self.old.panel }
        ensures size { self.new.size ≡ self.old.size }
    {
        match self.rule_broken_by(inbound) {
            Some(broken) => AfterRecord::Breaks(broken),
            None => self.hear_buffer(inbound),
        }
    }

    /// Takes the answer to Read Buffer, after which no command waits. It is believed if it counts.
    fn hear_buffer(&mut self, inbound: &Inbound<'_>) -> AfterRecord
        requires form { inbound.now.form ≡ Buffer }
        requires size { inbound.now.size ≡ self.old.size }
        requires known { IsOfSize (cells_in self.old.size) self.old.shadow }
        ensures came { step_of self.new result ≡ buffer_heard inbound.now self.old }
        ensures talk { self.new.talk ≡ self.old.talk }
        ensures panel { self.new.panel ≡ self.old.panel }
        ensures size { self.new.size ≡ self.old.size }
    {
        let turn_reason = once_read(self.turn_reason);
        if !self.is_read_believed() {
            self.turn = Turn::Host;
            self.turn_reason = turn_reason;
            self.pending = Pending::Nothing;
            return AfterRecord::GoesOn;
        }
        let after = self.believe(inbound, turn_reason);
        if let AfterRecord::GoesOn = after {
            self.pending = Pending::Nothing;
        }
        after
    }

    /// Whether the answer to Read Buffer counts: the host relies on the terminal's wait, the key was PA, or the text
    /// of some field isn't known. Else it only verifies, so that nothing counts that was typed in the wait.
    fn is_read_believed(&self) -> bool
        ensures { result ≡ is_read_believed self.now }
    {
        !self.unheard.may_have_changed()
            || is_after_pa(self.turn_reason)
            || !self.shadow.is_settled()
    }

    /// Whether the host verifies that the terminal keeps the rules: not after the screen was cleared out of turn.
    pub(crate) fn is_verified(&self) -> bool
        ensures { result ≡ is_verified self.now }
    {
        self.verifies && self.unheard.may_be_read()
    }

    /// The rule that the answer to Read Buffer shows to be broken, if the host verifies that.
    fn rule_broken_by(&self, inbound: &Inbound<'_>) -> Option<RuleBreak>
        requires form { inbound.now.form ≡ Buffer }
        requires size { inbound.now.size ≡ self.now.size }
        requires known { IsOfSize (cells_in self.now.size) self.now.shadow }
        ensures { result ≡ rule_broken_by inbound.now self.now }
    {
        if self.is_verified() {
            self.shadow.rule_break(inbound)
        } else {
            None
        }
    }

    /// Believes inbound data, and makes the turn the host's for this reason. What is pending stays so.
    fn believe(&mut self, inbound: &Inbound<'_>, turn_reason: TurnReason) -> AfterRecord
        requires size { inbound.now.size ≡ self.old.size }
        requires known { IsOfSize (cells_in self.old.size) self.old.shadow }
        ensures came { step_of self.new result
            ≡ believed turn_reason self.old.pending inbound.now.cursor self.old (hears inbound.now self.old) }
        ensures talk { self.new.talk ≡ self.old.talk }
        ensures panel { self.new.panel ≡ self.old.panel }
        ensures size { self.new.size ≡ self.old.size }
        ensures known { result ≡ GoesOn → IsOfSize (cells_in self.new.size) self.new.shadow }
    {
        // What is sent can be stored, and so what is believed of it; and that has its size.
        what_is_believed_can_be_stored();
        what_is_believed_has_a_size();
        let cursor = cursor_after(inbound, self.cursor);
        // For the contract: the data has a form that terminals send.
        let _is_sent = inbound.form();
        if self.shadow.heard(inbound).is_err() {
            return self.drop_unbelieved(Disbelief::Contradicts);
        }
        self.turn = Turn::Host;
        self.turn_reason = turn_reason;
        self.cursor = cursor;
        self.restored = 0;
        AfterRecord::GoesOn
    }

    /// Drops data that can't be believed, and sees to it that what can't be believed of the screen is painted over. A
    /// host that relies on the terminal's wait closes the connection; so does one that verifies, for the broken rule;
    /// and so does any after too many times in a row.
    fn drop_unbelieved(&mut self, why: Disbelief) -> AfterRecord
        ensures came { step_of self.new result ≡ unbelieved why self.old }
        ensures talk { self.new.talk ≡ self.old.talk }
        ensures panel { self.new.panel ≡ self.old.panel }
        ensures size { self.new.size ≡ self.old.size }
        ensures dropped { result ≢ GoesOn }
    {
        if !self.unheard.may_have_changed() {
            return AfterRecord::Closes(Cause::BadInbound);
        }
        if self.verifies {
            return AfterRecord::Breaks(SENDS_WRONG);
        }
        if self.restored >= MOST_RESTORED {
            return AfterRecord::Closes(Cause::BadInbound);
        }
        self.restored += 1;
        self.paint_over();
        AfterRecord::Restores(why)
    }

    /// Sees to it that what can't be believed of the screen is painted over.
    fn paint_over(&mut self)
        ensures { self.new ≡ painted_over self.old.turn self.old.pending self.old }
    {
        match (self.turn, self.pending) {
            (_, Pending::Reading(_)) | (Turn::Terminal, Pending::Nothing) => {
                self.refuse();
                self.turn_reason = TurnReason::Restoration;
            }
            (Turn::Terminal, Pending::Noting(_)) => {
                self.shadow = Shadow::blank();
                self.turn = Turn::Host;
                self.turn_reason = TurnReason::Restoration;
            }
            (_, Pending::Writing(_)) | (Turn::Host, Pending::Nothing | Pending::Noting(_)) => {
                self.unheard = Unheard::Clear;
            }
        }
    }

    // ---- responses

    /// Takes a response, which must answer the pending command; to a read it can only be a refusal.
    fn take_response(&mut self, header: &Header) -> Option<Cause>
        ensures came { silent self.new result
            ≡ response_came header.now.seq (verdict_of header.now.flag) self.old.pending self.old }
        ensures talk { self.new.talk ≡ self.old.talk }
        ensures panel { self.new.panel ≡ self.old.panel }
        ensures size { self.new.size ≡ self.old.size }
    {
        match self.pending {
            Pending::Nothing => Some(Cause::BadResponse),
            Pending::Writing(number) => {
                if header.seq != number {
                    return Some(Cause::BadResponse);
                }
                self.take_paint_verdict(header.flag)
            }
            Pending::Noting(number) => {
                if header.seq != number {
                    return Some(Cause::BadResponse);
                }
                self.take_verdict(header.flag)
            }
            Pending::Reading(number) => {
                if header.seq != number || header.flag == POSITIVE {
                    return Some(Cause::BadResponse);
                }
                self.refuse();
                None
            }
        }
    }

    /// Takes the response to the pending paint. If Clear was pressed before the terminal carried out a paint that
    /// doesn't erase, what that left isn't the panel, so the panel is shown again.
    fn take_paint_verdict(&mut self, flag: u8) -> Option<Cause>
        requires { IsWrite self.old.pending }
        ensures came { silent self.new result
            ≡ paint_verdict_came (write_of self.old.pending) (verdict_of flag) self.old }
        ensures talk { self.new.talk ≡ self.old.talk }
        ensures panel { self.new.panel ≡ self.old.panel }
        ensures size { self.new.size ≡ self.old.size }
    {
        if flag == POSITIVE && !self.unheard.may_be_read() {
            if !is_erase(write_in(&self.sent, self.size).code()) {
                self.refuse();
                return None;
            }
            self.unheard = Unheard::Input;
        }
        self.take_verdict(flag)
    }

    /// Takes the response to the pending write.
    fn take_verdict(&mut self, flag: u8) -> Option<Cause>
        requires { IsWrite self.old.pending }
        ensures came { silent self.new result ≡ verdict_came (write_of self.old.pending) (verdict_of flag) self.old }
        ensures talk { self.new.talk ≡ self.old.talk }
        ensures panel { self.new.panel ≡ self.old.panel }
        ensures size { self.new.size ≡ self.old.size }
    {
        what_is_believed_can_be_stored();
        let command = write_in(&self.sent, self.size);
        if flag == POSITIVE {
            self.shadow.sent_taken(&command);
            self.pending = Pending::Nothing;
            return None;
        }
        if is_erase(command.code()) {
            return Some(Cause::Negative);
        }
        self.refuse();
        None
    }

    /// Handles the refusal of the pending command: nothing of the screen is known, and the turn is the host's.
    fn refuse(&mut self)
        ensures { self.new ≡ refused self.old }
    {
        self.shadow = Shadow::blank();
        self.turn = Turn::Host;
        self.pending = Pending::Nothing;
        self.turn_reason = TurnReason::Refusal;
    }
}
