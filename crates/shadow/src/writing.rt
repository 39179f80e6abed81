//! What a plain write stores.
ghost use Rattle.std.specs.Prelude.{◌≡◌};
ghost use Rattle.std.specs.List.{list_all};
ghost use Rattle.shadow.specs.AfterReadBuffer.{mark_seen as mark_read};
ghost use Rattle.shadow.specs.Stores.{is_plain, is_plain_order as is_plain_one, stores_unplaced as any_unplaced};
ghost use Rattle.shadow.specs.Taken.{resets as resets_marks};

use crate::mdt_state::MdtState;
use codes3270::Wcc;
use datastream::{Command, Order, Orders};

fn is_plain_order(order: Order) -> bool
    ensures { result ≡ is_plain_one order }
{
    match order {
        Order::Sf(_) => true,
        Order::Sba(_) => true,
        Order::Ic => true,
        Order::Char(_) => true,
        Order::Pt => false,
        Order::Ra(_, _) => false,
        Order::Eua(_) => false,
    }
}

fn are_plain(orders: Orders<'_>) -> bool
    ensures { result ≡ list_all is_plain_one orders.entry }
{
    for order in orders {
        if !is_plain_order(order) {
            return false;
        }
    }
    true
}

/// Whether a command is a plain write (our profile): a Write or an erase whose orders are only SBA, SF, IC and data.
pub fn plain(command: &Command<'_>) -> bool
    ensures { result ≡ is_plain command.now }
{
    command.code().has_orders() && are_plain(command.orders())
}

/// Whether a cell is stored before the first SBA.
pub(crate) fn stores_unplaced(orders: Orders<'_>) -> bool
    ensures { result ≡ any_unplaced orders.entry }
{
    for order in orders {
        match order {
            Order::Sba(_) => return false,
            Order::Sf(_) => return true,
            Order::Char(_) => return true,
            Order::Ic => {}
            Order::Pt => {}
            Order::Ra(_, _) => {}
            Order::Eua(_) => {}
        }
    }
    false
}

/// Whether the WCC resets each MDT.
pub(crate) fn resets(wcc: Option<Wcc>) -> bool
    ensures { result ≡ resets_marks wcc }
{
    match wcc {
        Some(wcc) => wcc.reset,
        None => false,
    }
}

pub(crate) fn mark_seen(mdt: bool) -> MdtState
    ensures { result ≡ mark_read mdt }
{
    if mdt { MdtState::On } else { MdtState::Off }
}
