//! The index of an entry in a pool.
ghost use Rattle.std.specs.Prelude.{◌≡◌, Some, None, Err, IfOk, IfErr, is_none, position, slice_get, slice_set, ◌<◌, vec_len};
ghost use Rattle.std.specs.Option.{option_copied};
ghost use Rattle.std.specs.Str.{bytes_eq};
ghost use Rattle.lu_pool.specs.declared.entry.Entry.{Entry};
ghost use Rattle.lu_pool.specs.Pool.{entry, is_held_by};
ghost use Rattle.lu_pool.specs.Asking.{answer_to, answer_to_lu, IsFreePlace};
ghost use Rattle.lu_pool.specs.Holders.{all_free};

use crate::entry::Entry;
use tn3270e_msg::{Lu, Reason};

/// The index of this LU's entry.
pub fn place_of(entries: &[Entry], lu: Lu) -> Option<usize>
    ensures { result ≡ position (λ at. bytes_eq at.lu lu) entries.now }
{
    entries.iter().position(|entry| entry.is_of(lu))
}

/// The index of the first entry whose LU no connection holds.
pub fn free_place(entries: &[Entry]) -> Option<usize>
    ensures { result ≡ position (λ at. is_none at.holder) entries.now }
{
    entries.iter().position(|entry| entry.is_free())
}

/// The index of the entry whose LU this connection holds.
pub fn place_held_by(entries: &[Entry], conn: usize) -> Option<usize>
    ensures { result ≡ position (λ at. is_held_by conn at.holder) entries.now }
{
    entries.iter().position(|entry| entry.is_held_by(conn))
}

/// The index of the entry to be granted to a connection that asks for this name, or for any LU if there is none. The
/// error is INV-NAME if the pool has no such LU, and DEVICE-IN-USE if that LU is held, or if each is.
pub fn place_for(entries: &[Entry], name: Option<&[u8]>) -> Result<usize, Reason>
    ensures granted { IfOk result (IsFreePlace entries.now (answer_to entries.now (option_copied name.entry))) }
    ensures refused { IfErr result (λ reason. answer_to entries.now (option_copied name.entry) ≡ Err reason) }
{
    match name {
        Some(name) => place_named(entries, name),
        None => any_place(entries),
    }
}

/// The index of the first free entry, or DEVICE-IN-USE.
fn any_place(entries: &[Entry]) -> Result<usize, Reason>
    ensures granted { IfOk result (IsFreePlace entries.now (answer_to entries.now None)) }
    ensures refused { IfErr result (λ reason. answer_to entries.now None ≡ Err reason) }
{
    free_place(entries).ok_or(Reason::DEVICE_IN_USE)
}

/// The index of the entry with this name, or INV-NAME if there is none, or DEVICE-IN-USE if it is held.
fn place_named(entries: &[Entry], name: &[u8]) -> Result<usize, Reason>
    ensures granted { IfOk result (IsFreePlace entries.now (answer_to entries.now (Some name.now))) }
    ensures refused { IfErr result (λ reason. answer_to entries.now (Some name.now) ≡ Err reason) }
{
    match Lu::read(name) {
        Some(lu) => place_of_lu(entries, lu),
        None => Err(Reason::INV_NAME),
    }
}

/// The index of this LU's entry, or INV-NAME if there is none, or DEVICE-IN-USE if it is held.
fn place_of_lu(entries: &[Entry], lu: Lu) -> Result<usize, Reason>
    ensures granted { IfOk result (IsFreePlace entries.now (answer_to_lu entries.now (Some lu))) }
    ensures refused { IfErr result (λ reason. answer_to_lu entries.now (Some lu) ≡ Err reason) }
{
    match place_of(entries, lu) {
        Some(place) => {
            if entries[place].is_free() {
                Ok(place)
            } else {
                Err(Reason::DEVICE_IN_USE)
            }
        }
        None => Err(Reason::INV_NAME),
    }
}

/// Sets the holder of the LU at an index, and returns that LU.
pub fn set_holder(entries: &mut Vec<Entry>, place: usize, holder: Option<usize>) -> Lu
    requires { place < vec_len entries.old }
    ensures lu { (at : Entry) → slice_get entries.old.items place ≡ Some at → result ≡ at.lu }
    ensures changed { entries.new.items ≡ slice_set entries.old.items place (entry result holder) }
{
    let lu = entries[place].lu;
    entries[place] = Entry { lu, holder };
    lu
}

/// Sets all LUs free.
pub fn free_each(entries: &mut [Entry])
    ensures { entries.new ≡ all_free entries.old }
{
    for entry in entries.iter_mut() {
        *entry = entry.freed();
    }
}
