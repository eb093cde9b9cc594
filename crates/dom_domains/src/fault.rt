//! Why a variable has no domain.
use dom_core::VarId;
use std::alloc::{AllocError, AllocFailed};
use thiserror::Error;

/// Why a variable has no domain.
#[derive(Clone, Copy, Debug, PartialEq, Eq, Drop, Error)]
pub enum DomainFault {
    #[error("empty domain")]
    Empty { var: VarId },
    #[error("unbounded variable")]
    Unbounded { var: VarId },
    #[error("domain has {count} values")]
    TooLarge { var: VarId, count: u64 },
    #[error("out of memory")]
    Memory,
}

impl From<AllocError> for DomainFault {
    ghost use Rattle.std.specs.Prelude.{◌≡◌};
    ghost use Rattle.dom_domains.specs.declared.fault.DomainFault.TheVariants.{Memory};

    ghost from_gives = { λ _ e. e ≡ Memory };

    fn from(_error: AllocError) -> DomainFault {
        DomainFault::Memory
    }
}

impl<T: Drop> From<AllocFailed<T>> for DomainFault {
    ghost use Rattle.std.specs.Prelude.{◌≡◌};
    ghost use Rattle.dom_domains.specs.declared.fault.DomainFault.TheVariants.{Memory};

    ghost from_gives = { λ _ e. e ≡ Memory };

    fn from(_error: AllocFailed<T>) -> DomainFault {
        DomainFault::Memory
    }
}
