//! What a panel text defines: its panels, a pool of their LUs, and a host that serves them.
ghost use Rattle.std.specs.Prelude.{◌≡◌, IfOk, IfErr};
ghost use Rattle.applications.specs.PanelHosts.{DefinesNoHost, IsApplicationOf, IsHostOf, of_panels, of_pool};

use host_core::{Host, Terminals};
use jobs::Fault;
use lu_pool::{Pool, PoolFault};
use panels::{PanelFault, PanelSet};
use std::alloc::Global;

/// The job's fault for a fault of a panel text. It is NoMemory exactly if the fault is Memory.
fn of_panels(fault: PanelFault) -> Fault
    ensures { result ≡ of_panels fault }
{
    match fault {
        PanelFault::Memory => Fault::NoMemory,
        PanelFault::NotToml | PanelFault::Tree(_, _) => Fault::Panels(fault),
    }
}

/// The job's fault for a fault of the LU names. It is NoMemory exactly if the fault is Memory.
fn of_pool(fault: PoolFault) -> Fault
    ensures { result ≡ of_pool fault }
{
    match fault {
        PoolFault::Memory => Fault::NoMemory,
        PoolFault::BadName(_) | PoolFault::Twice(_) | PoolFault::BadCount => Fault::Pool(fault),
    }
}

/// The panels of a panel text, and a pool of their LUs. Its faults are those of [`host_of`].
pub fn application_of(alloc: Global, text: &str) -> Result<(PanelSet, Pool), Fault>
    ensures application { IfOk result (λ parts. IsApplicationOf text.now parts.0 parts.1) }
    ensures fault { IfErr result (DefinesNoHost text.now) }
{
    let panels = match PanelSet::read(alloc, text) {
        Ok(panels) => panels,
        Err(fault) => return Err(of_panels(fault)),
    };
    let pool = match Pool::read(alloc, panels.lus()) {
        Ok(pool) => pool,
        Err(fault) => return Err(of_pool(fault)),
    };
    Ok((panels, pool))
}

/// The host of a panel text, for these terminals: it serves the text's panels, with a pool of their LUs.
///
/// Panels if the text defines no panels, Pool if their LUs are no pool, and NoMemory if memory is refused.
pub fn host_of(alloc: Global, terminals: Terminals, text: &str) -> Result<Host, Fault>
    ensures host { IfOk result (IsHostOf terminals text.now) }
    ensures fault { IfErr result (DefinesNoHost text.now) }
{
    let (panels, pool) = application_of(alloc, text)?;
    match Host::serving(alloc, terminals, panels, pool) {
        Ok(host) => Ok(host),
        Err(_) => Err(Fault::NoMemory),
    }
}
