//! Laws of keys: each is the contract of a function that does nothing. Proofs of
//! other crates use them; no program calls them, and the root doesn't export them.
ghost use Rattle.keyboard.specs.Laws.{KeysLeave, KeysKeep, EraseInputIsWalked, KeysStayOnTheScreen, RefusalsSetTheLockAlone, ResetAloneActsUnderALock, NoKeyEndsWait, NearestOnward, NearestBackward, NoneOnward, NoneBackward, HomeIsTabFromTheEnd, EditsMarkTheirField, EditsWithoutFieldsMarkNothing, EditsRewriteTheText, FirstNullMakesRoom, NoNullNoRoom, DeleteBringsInANull, NamesReadBack, CharactersHaveNoName};
ghost use Rattle.keyboard.specs.Sendable.{IsKey, KeysKeepSendable};
ghost use Rattle.keyboard.specs.Sending.{SendingWaits, ClearEmptiesTheScreen, SilentKeysKeepTheAid, SilentKeysBeginNoWait, NothingIsSentAtALock};

use crate::Key;
use datastream::laws::kept_since_the_write;

/// Law: what keys keep of the cells, both of those before the key and of those that the last write left. A key that
/// sends nothing keeps protected cells, unprotected fields with MDT off, and all attributes except MDT of unprotected
/// fields; but Erase Input stores nulls in the unprotected cells and resets their MDT. Enter, PF and PA keep all cells,
/// and Clear stores nulls in all. No key moves the cursor off the screen.
pub fn keys_keep_what_was_left()
    ensures leave { KeysLeave }
    ensures keep { KeysKeep }
    ensures erase_input { EraseInputIsWalked }
    ensures on_screen { KeysStayOnTheScreen }
{
    kept_since_the_write();
}

/// Law: a key keeps a screen sendable.
pub fn what_keys_leave_can_be_sent()
    ensures { KeysKeepSendable }
{
    keys_keep_what_was_left();
}

/// Law: the number in a PF or PA key is in its range, so a terminal has the key.
pub fn keys_are_real(key: &Key)
    ensures { IsKey key.now }
{
    match key {
        Key::Pf(number) => {
            // For the contract: the number is in range.
            let _in_range = number.get();
        }
        Key::Pa(number) => {
            // For the contract: the number is in range.
            let _in_range = number.get();
        }
        _ => {}
    }
}

/// Law: a refused key changes at most the lock. While the lock isn't `Free`, only Reset acts, and it
/// doesn't end `Wait`.
pub fn locks_hold()
    ensures refused { RefusalsSetTheLockAlone }
    ensures reset_alone { ResetAloneActsUnderALock }
    ensures wait { NoKeyEndsWait }
{}

/// Law: after a key that sends, the screen has its AID and the lock is `Wait`, and Clear has cleared the screen. A key
/// that sends nothing keeps the AID and doesn't set the lock to `Wait`. While the lock isn't `Free`, no key sends.
pub fn sent_keys_wait()
    ensures sends { SendingWaits }
    ensures clears { ClearEmptiesTheScreen }
    ensures keeps { SilentKeysKeepTheAid }
    ensures begins_no_wait { SilentKeysBeginNoWait }
    ensures locked { NothingIsSentAtALock }
{}

/// Law: Tab, Back Tab, New Line and autoskip go to the nearest cell that they search for, wrapping round at the end and
/// testing the cell where they begin last. They go to 0 if there is none. Home goes where Tab goes from the last cell.
pub fn keys_go_to_the_nearest()
    ensures onward { NearestOnward }
    ensures backward { NearestBackward }
    ensures none_onward { NoneOnward }
    ensures none_backward { NoneBackward }
    ensures home { HomeIsTabFromTheEnd }
{}

/// Law: an edit replaces characters from the cursor on by as many others, and keeps the rest of the field after them.
/// It changes no other cell, except that it sets MDT in the attribute that governs the cursor's cell, if there is one.
/// An inserted character takes the room of the first null, and Delete brings in a null at the end.
pub fn edits_rewrite_the_text()
    ensures rewritten { EditsRewriteTheText }
    ensures marked { EditsMarkTheirField }
    ensures unformatted { EditsWithoutFieldsMarkNothing }
    ensures inserted { FirstNullMakesRoom }
    ensures full { NoNullNoRoom }
    ensures deleted { DeleteBringsInANull }
{}

/// Law: [`Key::named`] reads a key's printed name as that key. It reads a printed character, which has
/// no name, as no key.
pub fn names_read_back()
    ensures keys { NamesReadBack }
    ensures characters { CharactersHaveNoName }
{}
