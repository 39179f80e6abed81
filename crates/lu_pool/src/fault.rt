//! Why a list of names is no pool.
ghost use Rattle.std.specs.Prelude.{◌≡◌};
ghost use Rattle.lu_pool.specs.declared.fault.PoolFault.TheVariants.{Memory};

use std::alloc::AllocError;
use std::error::Error;
use std::fmt;

/// Why a list of names is no pool. Indexes count from 0.
#[derive(Clone, Copy, Debug, PartialEq, Eq)]
pub enum PoolFault {
    /// 1: the text at this index is no LU name.
    BadName(usize),
    /// 2: the text at this index names an LU that an earlier text names.
    Twice(usize),
    /// 3: there are no texts, or more than 64.
    BadCount,
    /// Memory for the pool was refused.
    Memory,
}

impl fmt::Display for PoolFault {
    ghost use Rattle.std.specs.Prelude.{Some};
    ghost use Rattle.lu_pool.specs.Messages.{fault_text};

    ghost output = { λ fault. Some (fault_text fault) };

    fn fmt<W: fmt::Write>(&self, f: &mut fmt::Formatter<W>) -> fmt::Result {
        match self {
            PoolFault::BadName(place) => write!(f, "lu {place}: BadName"),
            PoolFault::Twice(place) => write!(f, "lu {place}: Twice"),
            PoolFault::BadCount => f.write_str("lu: BadCount"),
            PoolFault::Memory => f.write_str("no memory"),
        }
    }
}

impl Error for PoolFault {}

impl From<AllocError> for PoolFault {
    ghost from_gives = { λ _ fault. fault ≡ Memory };

    fn from(_: AllocError) -> PoolFault {
        PoolFault::Memory
    }
}
