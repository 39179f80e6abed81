//! All faults of a list of names.
ghost use Rattle.std.specs.Prelude.{◌≡◌, ◌↔◌, ◌+◌, ◌<◌, ◌≤◌, length, map, IfOk, IfSome, OnOk, IsTrue, Some};
ghost use Rattle.tn3270e_msg.specs.Lu.{lu_of};
ghost use Rattle.lu_pool.specs.Faults.{AreFaultsBefore, IsReadBefore};
ghost use Rattle.lu_pool.specs.Reading.{AreFaultsOf, HasFault};
ghost use Rattle.lu_pool.specs.declared.fault.PoolFault.TheVariants.{BadName, Twice};

use crate::fault::PoolFault;
use crate::pool::is_count;
use std::alloc::{AllocError, Global};
use tn3270e_msg::Lu;

/// The LU that each of these texts names; `None` for a text that is no LU name.
fn lus_of(alloc: Global, names: &[&str]) -> Result<Vec<Option<Lu>>, AllocError>
    ensures { IfOk result (λ lus. lus.items ≡ map lu_of (map (λ name. name.now) names.now)) }
{
    let mut lus = Vec::new(alloc);
    for name in names {
        lus.push(Lu::read(name.as_bytes()))?;
    }
    Ok(lus)
}

fn is_read_as(read: Option<Lu>, lu: Lu) -> bool
    ensures { IsTrue result ↔ (read ≡ Some lu) }
{
    match read {
        Some(other) => other == lu,
        None => false,
    }
}

/// Whether a text before the one at an index names this LU.
fn is_read_before(lus: &[Option<Lu>], place: usize, lu: Lu) -> bool
    requires { place ≤ length lus.now }
    ensures { IsTrue result ↔ IsReadBefore lus.now place lu }
{
    for earlier in 0..place {
        if is_read_as(lus[earlier], lu) {
            return true;
        }
    }
    false
}

/// The fault of the text at an index, if it has one.
fn fault_at(lus: &[Option<Lu>], place: usize) -> Option<PoolFault>
    requires { place < length lus.now }
    ensures fault { IfSome result (HasFault lus.now) }
    ensures bad_name { HasFault lus.now (BadName place) → result ≡ Some (BadName place) }
    ensures twice { HasFault lus.now (Twice place) → result ≡ Some (Twice place) }
{
    match lus[place] {
        None => Some(PoolFault::BadName(place)),
        Some(lu) => is_read_before(lus, place, lu).then_some(PoolFault::Twice(place)),
    }
}

/// Adds the fault of the text at an index, if it has one.
fn add_fault_at(
    faults: &mut Vec<PoolFault>,
    lus: &[Option<Lu>],
    place: usize,
) -> Result<(), AllocError>
    requires there { place < length lus.now }
    requires before { AreFaultsBefore place lus.now faults.old.items }
    ensures { OnOk result (AreFaultsBefore (place + 1) lus.now faults.new.items) }
{
    if let Some(fault) = fault_at(lus, place) {
        faults.push(fault)?;
    }
    Ok(())
}

/// The faults of texts that name these LUs.
fn faults_of(alloc: Global, lus: &[Option<Lu>]) -> Result<Vec<PoolFault>, AllocError>
    ensures { IfOk result (λ faults. AreFaultsOf lus.now faults.items) }
{
    let mut faults = Vec::new(alloc);
    if !is_count(lus.len()) {
        faults.push(PoolFault::BadCount)?;
        return Ok(faults);
    }
    for place in 0..lus.len() {
        add_fault_at(&mut faults, lus, place)?;
    }
    Ok(faults)
}

/// All faults for which these texts name the LUs of no pool: `BadCount` alone unless there are 1 to 64 texts, else the
/// fault of each text that has one. [`Pool::read`](crate::Pool::read) fails with the first.
///
/// Err only if memory is refused.
pub fn faults(alloc: Global, names: &[&str]) -> Result<Vec<PoolFault>, AllocError>
    ensures { IfOk result (λ faults. AreFaultsOf (map lu_of (map (λ name. name.now) names.now)) faults.items) }
{
    faults_of(alloc, &lus_of(alloc, names)?)
}
