//! Laws of worlds over messages and over bytes. Each is the contract of a function that does nothing. Proofs use them,
//! also those of other crates; no program calls them, and the root doesn't export them.
ghost use Rattle.world3270.specs.statement.Always.{Always, AlwaysOf, HeadlineHolds, NoCommandIsRejected};
ghost use Rattle.world3270.specs.statement.Asked.{AskedIsSeen, AskedIsSeenOverBytes, FieldsAreSeen, KeysAreAsked, OtherPanelsAreNotAsked, PanelsAreAsked, ScreensAreAsLeft};
ghost use Rattle.world3270.specs.statement.EveryTerminal.{EveryTerminal};
ghost use Rattle.world3270.specs.statement.EveryTerminalBytes.{EveryTerminalOverBytes};
ghost use Rattle.world3270.specs.statement.Instances.{ConnectionsAreMoved, WorldsBeginOverBytes, WorldsGoOnOverBytes};
ghost use Rattle.world3270.specs.examples.Example.{TheRunsEndSo};
ghost use Rattle.world3270.specs.examples.ExampleBytes.{ABeginIsThere};
ghost use Rattle.world3270.specs.examples.ExampleServing.{ATurnIsThere};
ghost use Rattle.world3270.specs.statement.Forms.{FormsAreAwaited};
ghost use Rattle.world3270.specs.statement.Leading.{KeysLeadToOne};
ghost use Rattle.world3270.specs.refinement.LowerLaws.{LowerLaws};
ghost use Rattle.world3270.specs.model.Steps.{RunsCompose};
ghost use Rattle.world3270.specs.statement.History.{HostsHistoryIsKept, TerminalsHistoryIsKept};
ghost use Rattle.world3270.specs.refinement.MessageLaws.{MessageLaws};
ghost use Rattle.world3270.specs.statement.Losses.{LostTakesNothing};
ghost use Rattle.world3270.specs.statement.Numbers.{NumbersFit};
ghost use Rattle.world3270.specs.statement.TurnReasons.{ActsOnTheKey, KnowsTheCleared, LeavesNothingOpen};
ghost use Rattle.world3270.specs.statement.OneOutcome.{EventsAreOne, RunsAreOne, StepsAreOne};
ghost use Rattle.world3270.specs.statement.RuleLaws.{TerminalsKeepTheRules};
ghost use Rattle.world3270.specs.model.Places.{EndsAgree, UpIsHeld, HoldersAreHere, LinksStay, HoldersStay, PoolIsSound};
ghost use Rattle.world3270.specs.refinement.Refines.{BeginIsReached, HeadlineIsSeen, RunsAreSimulated, SameSkips, StepsAreSimulated};
ghost use Rattle.world3270.specs.model.TrackedTerminals.{HistoryFollows};
ghost use Rattle.world3270.specs.statement.Agreeing.{BytesNegotiate, OnlyNegotiates, TurnsNegotiate};
ghost use Rattle.world3270.specs.statement.Serving.{EveryTerminalServed, TurnsAreElsewhere, TurnsAreMoves};
ghost use Rattle.world3270.specs.statement.WorldMoves.{EventsAreMoves, WorldsMoveOverBytes};
ghost use Rattle.world3270.specs.refinement.Sendable.{AlwaysTyped, DataCanBeSpelt, PaintsAreScreens, PaintsAreSpelt, ScreensAreSendable, ScreensHaveASize, ValuesAreTexts};
ghost use Rattle.world3270.specs.statement.Shown.{FieldsAreShown, PanelIsShown, PanelIsShownOverBytes};
ghost use Rattle.world3270.specs.statement.ShownFields.{OtherTextsAreNot};
ghost use Rattle.world3270.specs.statement.ScreensFound.{DecisionsAreShownOverBytes, OtherTextsAreNotShown, PaintsFindTheScreen, TurnsKeepTheScreen, TurnsKeepTheScreenOverBytes};
ghost use Rattle.world3270.specs.statement.ShownSince.{AnswersAreShownOverBytes, StepsKeepPanels, WaitingKeepsTheScreen};
ghost use Rattle.world3270.specs.refinement.Sizes.{AllSizesAgree};
ghost use Rattle.world3270.specs.statement.Skipped.{SkippedChangesNothing};
ghost use Rattle.world3270.specs.refinement.Represents.{RepresentsDown, RepresentsUp, all_items, without_nops};
ghost use Rattle.world3270.specs.refinement.RepresentsEnds.{NopHasNoEffect, PaintRepresents, TakesKeepSendable, TermPresses, TermTakes, WritesAreMarked};
ghost use Rattle.world3270.specs.statement.ProtocolErrors.{EventsMakeNoProtocolErrors, RefusalsAreNegative, WorldsHaveNoProtocolError};
ghost use Rattle.world3270.specs.statement.Unbroken.{DeliveriesCloseNothing, NobodyCloses, NobodyHasRefused, NothingIsRefused, TerminalsRefuseNothing, UnderWayRefusesNothing};
ghost use Rattle.world3270.specs.refinement.RepresentsLinks.{BeginRepresents, BytesAreMarked, DownIsNotRefused, DownRepresents, HostLeaves, HostSends, LossRepresents, NopRepresents, NothingRepresents, PressRepresents, RepresentsCompose, RepresentsGoOn, TermLeaves, UpRepresents, WhatComesMayCome};

use datastream::laws::{fields_both_ways, kept_since_the_write, sent_is_read, what_a_note_keeps};
use host_core::Links;
use host_core::laws::{
    notes_are_written, panels_are_shown, what_is_served_is_marked, what_is_shown_fits,
};
use keyboard::laws::{keys_keep_what_was_left, sent_keys_wait, what_keys_leave_can_be_sent};
use lu_pool::laws::the_pool_is_a_map;
use panels::laws::{
    fields_are_on_the_screen, fields_are_written, kept_fields_are_whole, texts_are_written,
};
use shadow::laws::{
    painted_fields_are_there, rules_are_not_broken, what_a_note_leaves,
    what_is_believed_has_a_size, what_is_exact_is_so, what_is_in_doubt_is_allowed,
    what_is_known_is_exact, what_is_protected_is_exact, what_is_read_is_heard,
    what_is_sent_is_heard, what_is_wanted_is_painted, what_is_written_is_taken,
    what_leaves_nothing_open, what_returns_input_is_settled,
};
use tn3270e_msg::laws::one_reading;

/// Law: what the crates below promise by their own laws.
fn what_is_given()
    ensures { LowerLaws }
{
    what_is_sent_is_heard();
    what_is_read_is_heard();
    rules_are_not_broken();
    what_is_wanted_is_painted();
    what_is_known_is_exact();
    what_is_protected_is_exact();
    what_is_exact_is_so();
    keys_keep_what_was_left();
    what_keys_leave_can_be_sent();
    kept_since_the_write();
    one_reading();
    what_is_shown_fits();
    the_pool_is_a_map();
    what_is_written_is_taken();
    what_leaves_nothing_open();
    what_returns_input_is_settled();
    what_is_in_doubt_is_allowed();
    what_a_note_keeps();
    what_a_note_leaves();
    notes_are_written();
}

/// Law: the headline. It holds after any list of events on a new world, with any application and pool of LUs, up to 16
/// terminals of any models, and a host that may or may not rely on their wait. No two live sessions have the same LU.
/// If a terminal is bound to an LU, the host agreed on it, and its connection holds it in the pool. Whenever the host
/// has the turn and its last command is answered, its belief is true of the screen; and after Enter or a PF key it has
/// the text of each field that was returned, and each unmodified input field has the text that the host left there, or
/// nulls if Erase Input was pressed. Also, a run in pieces is one run.
pub fn the_headline_holds()
    ensures headline { Always HeadlineHolds }
    ensures pieces { RunsCompose }
{
    what_is_given();
}

/// Law: after any list of events no terminal has ever rejected a command, no negative response is the
/// reason of the host's turn, and neither end has ever closed a connection for a cause.
pub fn nobody_refuses()
    ensures { Always NoCommandIsRejected }
{
    what_is_given();
}

/// Law: after any list of events, when the host decides, it acts on the key that was pressed last. After
/// Clear it believes that the screen is unformatted and all nulls, but for notes written since. After
/// Enter or a PF key, if it relies on the terminals' wait, it knows the text of each unprotected field,
/// or that the field has either that text or all nulls.
pub fn what_was_pressed_is_acted_on()
    ensures key { Always ActsOnTheKey }
    ensures cleared { Always KnowsTheCleared }
    ensures unopened { Always LeavesNothingOpen }
{
    what_is_given();
}

/// Law: the application is asked what the operator sees. After any list of events, on each connection with both ends
/// attached, an open question has the key whose AID the terminal's screen has, the LU that the terminal is bound to,
/// the cursor address, and for no field another text than the screen shows, nulls removed. If each screen that the
/// application asks for has its panel's fields, the question has a text for each field of the panel, and the field is
/// on the screen, at its address and with its length. At connect, when no key was pressed, the message that binds the
/// terminal may still be under way. At connect and after Clear the question has no field, nor has the screen. Else it
/// names the connection's panel, which the screen that the host's last restoring write left shows; so it names no panel
/// of which a character isn't on that screen. The application decides on the key on that panel, at connect on the first
/// one, and after Enter no required field is left blank. All this holds of each world over bytes that represents one over
/// messages, since the screens of panels have their fields.
/// Unless Clear was pressed last, the protected part of an attached terminal's screen is as the host's last restoring
/// write left it, but for the row of messages.
pub fn what_is_asked_is_seen()
    ensures messages { AlwaysOf AskedIsSeen }
    ensures fields { AlwaysOf FieldsAreSeen }
    ensures panels { AlwaysOf PanelsAreAsked }
    ensures screens { Always ScreensAreAsLeft }
    ensures keys { AlwaysOf KeysAreAsked }
    ensures bytes { AskedIsSeenOverBytes }
    ensures others { OtherPanelsAreNotAsked }
{
    what_is_given();
    panels_are_shown();
    fields_are_on_the_screen();
    what_is_answered_is_shown();
}

/// Law: a panel whose paint is answered is on the screen. After any list of events, on each connection with both ends
/// attached, if a panel was shown there and its paint is answered: the screen that the host's last restoring write left
/// is a wanted screen of the connection's panel, with the connection's values and message (`Showing`), painted on a
/// screen that meets the host's belief. If each screen that the application asks for has its panel's fields, it shows
/// each field of the panel, at its address and with its length: with the panel's attribute and the host's value or
/// fill, or as it was before, if the panel is shown again (`ShownFields`). All this holds of each world over bytes that
/// represents one over messages, since the screens of panels have their fields. A screen with another text in a field
/// doesn't show the panel.
pub fn what_is_answered_is_shown()
    ensures messages { AlwaysOf PanelIsShown }
    ensures fields { AlwaysOf FieldsAreShown }
    ensures bytes { PanelIsShownOverBytes }
    ensures others { OtherTextsAreNot }
{
    what_is_given();
    panels_are_shown();
    painted_fields_are_there();
    fields_are_written();
    texts_are_written();
    kept_fields_are_whole();
    fields_are_on_the_screen();
}

/// Law: after any list of events the next inbound data has the form that the host awaits: the whole
/// buffer while a Read Buffer is pending, else modified fields. It is from a screen of the size by which
/// the host reads it. (The bytes of inbound data say neither.)
pub fn what_comes_is_awaited()
    ensures { Always FormsAreAwaited }
{
    what_is_given();
}

/// Law: after any list of events a terminal is at a connection exactly if it holds that connection's end,
/// so that the display there is its own; a connection that isn't lost has both ends attached; and no LU
/// is held by a connection that the host has left.
pub fn the_ends_agree()
    ensures agree { Always EndsAgree }
    ensures up { Always UpIsHeld }
    ensures holders { Always HoldersAreHere }
{
    what_is_given();
}

/// Law: after any list of events the size that the host set last and the size of the terminal's screen
/// are sizes of the terminal's model. They are equal unless a paint waits for its answer.
pub fn the_sizes_agree()
    ensures { AlwaysOf AllSizesAgree }
{
    what_is_given();
}

/// Law: after any list of events each SEQ-NUMBER is below 2^15: of commands and responses under way, of
/// the pending command and of the next one (RFC 1647, section 8.1; 15 bits are our profile).
pub fn numbers_have_15_bits()
    ensures { Always NumbersFit }
{
    what_is_given();
}

/// Law: after any list of events each terminal's screen has one of the two sizes of its model. If also
/// all keys are keys of the keyboard and the application asks for screens of our profile, each
/// terminal's screen can be sent; data, paints and notes under way can be encoded as bytes; what is
/// painted is a screen that can be sent; and the host's values are characters.
pub fn screens_can_be_sent()
    ensures size { AlwaysOf ScreensHaveASize }
    ensures screens { AlwaysTyped ScreensAreSendable }
    ensures data { AlwaysTyped DataCanBeSpelt }
    ensures paints { AlwaysTyped PaintsAreScreens }
    ensures encoded { AlwaysTyped PaintsAreSpelt }
    ensures values { AlwaysTyped ValuesAreTexts }
{
    what_is_given();
    sent_is_read();
}

/// Law: an event leaves each connection that it doesn't concern as it is. In any world with a sound pool
/// such a connection holds the same LUs as before. After any list of events the pool is sound.
pub fn the_others_stay()
    ensures links { LinksStay }
    ensures holders { HoldersStay }
    ensures sound { Always PoolIsSound }
{
    what_is_given();
}

/// Law: an event that is skipped leaves each part of the world as it was.
pub fn what_is_skipped_changes_nothing()
    ensures { SkippedChangesNothing }
{}

/// Law: each cause for which an end closes a connection, and the verdict of each response that a terminal
/// sends, is added to the history.
pub fn the_history_is_kept()
    ensures host { HostsHistoryIsKept }
    ensures terminal { TerminalsHistoryIsKept }
{}

/// Law: a lost connection delivers only what was under way: no event adds to either queue.
pub fn a_lost_connection_takes_nothing()
    ensures { LostTakesNothing }
{}

/// Law: examples, runs of a small host that are computed to their ends. A required field is left out, asked for and
/// filled in; a connection is lost, and its LU is refused until the host sees the loss; the screen is read after PA1,
/// and if a field is in doubt; Clear, a terminal that restarts, and a host that restarts; notes, two of which cross a
/// key; a PF key and Clear that lead to other panels; an application that is asked, and answers twice; what a loss
/// leaves under way. The second panel has more rows than the first, so the size of the screen changes on the way there
/// and back. When the host decides, it knows what was typed. Also runs of one connection: of a terminal whose Reset
/// ends the wait, with a host that serves any terminal, and with one that relies on the wait, whose panel keeps what
/// was typed meanwhile; of one whose second Enter the host drops, from which it learns nothing; of one whose Clear the
/// host drops, before or after it sends a panel; of four terminals that break one rule each; and of one that keeps all
/// rules.
pub fn the_runs_end_so()
    ensures { TheRunsEndSo }
{}

/// Law: what holds if bytes represent messages. A terminal does with the bytes what it does with the
/// messages, and a connection over bytes represents one over messages after each step.
pub fn bytes_stand_for_messages()
    // A paint that fits the belief represents the wanted screen.
    ensures paint { PaintRepresents }
    // A terminal does with an item, and with a key, what it does over messages; it ignores NOP. An item
    // is marked as a write exactly if it represents a paint and the terminal is bound. There is a history
    // of any bytes that a terminal takes.
    ensures takes { TermTakes }
    ensures nop { NopHasNoEffect }
    ensures marks { WritesAreMarked }
    ensures history { HistoryFollows }
    ensures sendable { TakesKeepSendable }
    ensures presses { TermPresses }
    // Bytes represent messages however they are cut, as they are sent and as they are taken.
    ensures down_empty { NothingRepresents without_nops RepresentsDown }
    ensures up_empty { NothingRepresents all_items RepresentsUp }
    ensures down_more { RepresentsCompose without_nops RepresentsDown }
    ensures up_more { RepresentsCompose all_items RepresentsUp }
    ensures down_taken { RepresentsGoOn without_nops RepresentsDown }
    ensures up_taken { RepresentsGoOn all_items RepresentsUp }
    // A connection that begins represents one over messages that begins. It still does so after a key,
    // a delivery in either direction, a message or NOP from the host, a loss, and after an end has left
    // it. A byte to the terminal is marked as a write exactly if it completes such a paint.
    ensures begin { BeginRepresents }
    ensures press { PressRepresents }
    ensures down { DownRepresents }
    ensures down_marked { BytesAreMarked }
    ensures not_refused { DownIsNotRefused }
    ensures host_sends { HostSends }
    ensures nop_sent { NopRepresents }
    ensures up { UpRepresents }
    ensures loss { LossRepresents }
    ensures host_leaves { HostLeaves }
    ensures term_leaves { TermLeaves }
    // In a world each message to a terminal arrives as these steps require.
    ensures coming { AlwaysOf WhatComesMayCome }
{
    what_is_given();
    what_is_wanted_is_painted();
    what_is_believed_has_a_size();
    sent_is_read();
    fields_both_ways();
    one_reading();
    telnet_wire::laws::one_reading();
}

/// Law: what the laws above, and those of the crates below, promise of worlds, of connections over
/// bytes, and of how bytes are read.
fn what_is_known()
    ensures { MessageLaws }
{
    what_is_given();
    the_headline_holds();
    nobody_refuses();
    the_ends_agree();
    what_comes_is_awaited();
    numbers_have_15_bits();
    screens_can_be_sent();
    bytes_stand_for_messages();
    panels_are_shown();
    what_is_wanted_is_painted();
    telnet_wire::laws::one_reading();
    one_reading();
    datastream::laws::one_reading();
}

/// Law: how the world over bytes follows the world over messages. Callers can apply it to a world by
/// [`World::represents_messages`]. A new world represents a new world over messages. After an event it
/// represents the world after further events over messages: for a delivery, one for each item (NOPs
/// apart) that the bytes complete at the receiver; none for keeping a connection alive; else that one
/// event. An event is skipped exactly if it is skipped over messages, unless it delivers NOPs alone. The
/// headline holds of each such world. No delivery closes a connection; no end ever closes one for a
/// cause; and no response rejects a command, even one under way to a host that has left.
pub fn bytes_follow_messages()
    ensures begin { BeginIsReached }
    ensures steps { StepsAreSimulated }
    ensures runs { RunsAreSimulated }
    ensures skipped { SameSkips }
    ensures headline { HeadlineIsSeen }
    ensures close_nothing { DeliveriesCloseNothing }
    ensures nobody_closes { NobodyCloses }
    ensures history { NobodyHasRefused }
    ensures none_refused { NothingIsRefused }
    ensures say_no_refusal { TerminalsRefuseNothing }
    ensures under_way_refuses_nothing { UnderWayRefusesNothing }
{
    what_is_known();
}

/// Law: only the host's decisions change what is shown on a connection. An event by which the host decides nothing
/// there leaves the connection's panel, values and message. So an application's answer is shown until the host decides
/// again: after the paint is answered, panel, values, message and cursor field are those of the answer. A key that is
/// pressed while the keyboard is locked for the host changes no screen. While the host has the turn and no note is
/// under way, a screen stays until the host decides; and a paint finds the screen that the terminal had when the host
/// decided to show the panel, and shows the decision of then. So a field that is kept has the text that the operator had
/// in it at the decision; a screen with another text in a field doesn't show the decision. The panel is the one to which
/// the key leads that was pressed on the screen (`Leading`): the target in `keys` of the panel that was on it, in the
/// form for the model; the same panel, if the key isn't in `keys` or a required field was left blank; or the answer's.
/// A key leads to one panel, with one message.
pub fn what_is_shown_stays()
    ensures steps { StepsKeepPanels }
    ensures answers { AnswersAreShownOverBytes }
    ensures waiting { WaitingKeepsTheScreen }
    ensures turns { AlwaysOf TurnsKeepTheScreen }
    ensures turns_over_bytes { TurnsKeepTheScreenOverBytes }
    ensures found { AlwaysOf PaintsFindTheScreen }
    ensures decisions { DecisionsAreShownOverBytes }
    ensures keys { KeysLeadToOne }
    ensures others { OtherTextsAreNotShown }
{
    what_is_given();
    panels_are_shown();
    fields_are_on_the_screen();
    bytes_follow_messages();
    what_is_answered_is_shown();
}

/// Law: there is no protocol error in a world over bytes, and no event makes one. Neither end closes a
/// connection for a cause; no terminal sends a negative response, none is under way, and a host has
/// received none. (Each response by which a terminal would reject a command is a negative one.)
pub fn no_protocol_errors()
    ensures worlds { WorldsHaveNoProtocolError }
    ensures events { EventsMakeNoProtocolErrors }
    ensures refusals { RefusalsAreNegative }
{
    what_is_known();
    bytes_follow_messages();
}

/// Law: a world over bytes is deterministic while memory isn't refused. An event has one outcome, and
/// leads to one world; so do lists of events, and runs of them.
pub fn one_machine()
    ensures step { StepsAreOne }
    ensures events { EventsAreOne }
    ensures runs { RunsAreOne }
{
    host_core::laws::one_machine();
    term_core::laws::one_machine();
}

/// Law: these terminals keep the rules that `every_terminal` requires of a terminal: ours, whose keys
/// edit input or send what it displays; one like it whose Reset ends the wait for the host; one that
/// stores any character in a numeric field; and one at which a text is pasted into a field.
pub fn terminals_keep_the_rules()
    ensures { TerminalsKeepTheRules }
{
    keys_keep_what_was_left();
    kept_since_the_write();
    sent_keys_wait();
}

/// Law: one connection between a host that serves any terminal and any terminal that keeps the rules, from the host's
/// agreement on an LU on, after deliveries, acts, answers of the application, notes, keys and a loss in any order. The
/// rules: the terminal is bound to the LU that the host granted, and begins with a blank screen; it applies each write
/// whole and in order, sends a positive response, and answers Read Buffer with the whole screen; its operator changes
/// only unprotected cells, their MDT and the cursor, with MDT on after any change but Erase Input; and it sends a
/// key's AID with exactly the modified fields. The application marks its input fields, as `Host` does for such
/// terminals. Then it is bound to that LU alone. Whenever the host decides, parts (b) to (d) of the headline hold of
/// what it was told: the screen when the first key since the last paint was pressed, or, if that was PA, as it was
/// read since. So after any other key nothing that is typed in the wait counts. And the present screen has the
/// attributes and the protected characters that the host believes. Each open question has the key, the cursor and the
/// fields of what the host was told, and names the panel that the screen shows as the last paint left it, on which the
/// application decides on the key. If the host itself decides what to show, it is where the key leads on that screen.
/// After a paint is answered, the screen that it left shows the panel, whatever was typed before. Neither end closes
/// the connection for a cause. The terminal need not wait for the host: meanwhile its operator may type, and press any
/// key. But Clear isn't pressed between PA and the answer to the Read Buffer. After Clear the present screen isn't what
/// the host believes, until the next panel, which is painted whole. A panel that was written without an erase, and that
/// Clear crossed, is shown again.
pub fn every_terminal()
    ensures { EveryTerminal }
{
    what_is_given();
    painted_fields_are_there();
}

/// Law: `every_terminal` over bytes, in terms of the calls of `Host`, whatever other clients do. The host
/// is fed the inbound bytes in pieces of any length; it hands over outbound bytes, acts, is answered by
/// the application, and sends notes and NOPs; memory may be refused for these. It reports events. The
/// terminal takes each byte as RFC 1647 and GA23-0059 say, and may spell what it sends in any way that the
/// host reads alike. It may also send what the host ignores, or answers by refusing an option: commands,
/// options but WONT TN3270E, subnegotiations of other options, and records of other types. The bytes
/// represent a connection over messages after moves that keep the rules, for which `every_terminal` holds. Clear may be
/// pressed in the wait, but not after PA; after that, no key sends as many characters in the wait as the screen has cells.
pub fn every_terminal_over_bytes()
    ensures { EveryTerminalOverBytes }
{
    what_is_known();
    what_is_believed_has_a_size();
    bytes_stand_for_messages();
    sent_is_read();
    painted_fields_are_there();
    telnet_wire::laws::one_reading();
}

/// Law: the host's half of a begin. Until the host has agreed on an LU it sends nothing by itself, and its session is as at
/// the begin of the connection, but for the negotiation. So it is at the byte by which the host agrees, as `FirstPaint`
/// requires it; and what a turn of serving does after that byte is moves.
pub fn hosts_agree_so<L: Links>()
    ensures negotiate { BytesNegotiate }
    ensures only { OnlyNegotiates }
    ensures turns { TurnsNegotiate L.gave L.took }
{}

/// Law: a turn of serving a connection, as `host_core::serve_turn` promises it, is moves of `every_terminal_over_bytes`
/// there: the host is fed the bytes that the read got, acts, keeps the event that it asks, and hands over what the write
/// took. For each other connection it happens elsewhere. So that theorem holds after any turns of serving, with any moves
/// between them, as long as no turn is refused memory.
pub fn a_turn_is_moves<L: Links>()
    ensures moves { TurnsAreMoves L.gave L.took }
    ensures elsewhere { TurnsAreElsewhere L.gave L.took }
    ensures served { EveryTerminalServed L.gave L.took }
{
    what_is_given();
    every_terminal_over_bytes();
}

/// Law: the premises of `every_terminal_over_bytes` can be met. Just after the host has agreed on an LU on a connection of
/// a world that isn't lost, and if it doesn't rely on the terminal's wait, host, terminal and the bytes under way are a
/// begin as that theorem requires it. Also, a begin is there: of a host with one panel, and a terminal that is bound, from
/// where moves lead on, and a turn of serving; a run of a world in which the host agrees; and a world over bytes just after
/// agreement, which goes on.
/// What happens then on the connection, until it is lost, are moves over messages that keep the rules; so `every_terminal`
/// holds of each such connection of a world. In a world over bytes its bytes represent it. And each event over bytes that
/// neither loses nor closes the connection is moves over bytes there; so `every_terminal_over_bytes` holds of it after any
/// such events.
pub fn worlds_begin_so()
    ensures worlds { WorldsBeginOverBytes }
    ensures example { ABeginIsThere }
    ensures turn { ATurnIsThere }
    ensures moves { AlwaysOf ConnectionsAreMoved }
    ensures bytes { WorldsGoOnOverBytes }
    ensures events { EventsAreMoves }
    ensures runs { WorldsMoveOverBytes }
{
    what_is_known();
    what_is_believed_has_a_size();
    sent_is_read();
    what_is_given();
    panels_are_shown();
    what_is_served_is_marked();
    every_terminal();
    every_terminal_over_bytes();
    terminals_keep_the_rules();
    sent_keys_wait();
    bytes_stand_for_messages();
    bytes_follow_messages();
    telnet_wire::laws::one_reading();
}
