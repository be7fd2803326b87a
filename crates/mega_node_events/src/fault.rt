//! Why a node does not step.
ghost use Rattle.std.specs.Prelude.{◌≡◌};
ghost use Rattle.mega_node_events.specs.Faults.{fault_of, taking_fault_of};

use mega_actions::mega_answers::ActFault;
use mega_base::NoMemory;
use mega_step_parts::mega_leases::TakeFault;

/// Why a node did not step. After any of these it is not used again.
#[derive(Clone, Copy, PartialEq, Eq, Debug, Drop)]
pub enum StepFault {
    /// A device of the rows failed, and its count of faults rose.
    DiskFault,
    /// A device file would have this length, more than 2^40.
    Full { length: u64 },
    /// The bytes that were read of this run are none of the format.
    BadRecord { number: u64 },
    /// A batch of more than 16 transactions was asked for.
    Unserved,
    /// The message is of a node that is none of 1 to 9, or asks about one.
    Stranger,
    /// The message grants a lease that would end at 2^64 or later.
    Late,
    /// An allocation was refused.
    NoMemory,
}

impl From<NoMemory> for StepFault {
    ghost use Rattle.mega_node_events.specs.declared.fault.StepFault.TheVariants.{NoMemory as OutOfMemory};

    ghost from_gives = { λ _ fault. fault ≡ OutOfMemory };

    fn from(_refused: NoMemory) -> StepFault {
        StepFault::NoMemory
    }
}

impl From<ActFault> for StepFault {
    ghost from_gives = { λ refused fault. fault ≡ fault_of refused };

    fn from(refused: ActFault) -> StepFault {
        match refused {
            ActFault::DiskFault => StepFault::DiskFault,
            ActFault::Full { length } => StepFault::Full { length },
            ActFault::BadRecord { number } => StepFault::BadRecord { number },
            ActFault::Unserved => StepFault::Unserved,
            ActFault::NoMemory => StepFault::NoMemory,
        }
    }
}

impl From<TakeFault> for StepFault {
    ghost from_gives = { λ refused fault. fault ≡ taking_fault_of refused };

    fn from(refused: TakeFault) -> StepFault {
        match refused {
            TakeFault::Stranger => StepFault::Stranger,
            TakeFault::Late => StepFault::Late,
            TakeFault::NoMemory => StepFault::NoMemory,
        }
    }
}
