//! Why an event does not happen in a world.
ghost use Rattle.std.specs.Prelude.{◌≡◌, Some, None, false};
ghost use Rattle.mega_durable.specs.of_core.Faults.{of_store};
ghost use Rattle.mega_places.specs.Faults.{fault_of, is_strange, log_fault_of};

use mega_base::NoMemory;
use mega_durable::mega_core::StepFault;
use mega_wal::LogFault;

/// Why an event did not happen.
#[derive(Clone, Copy, PartialEq, Eq, Debug, Drop)]
pub enum WorldFault {
    /// The run refuses it, and the world is as it was: 6, there is no such node; 3, no message of that number was sent; 4, it was
    /// dropped; 1, the node, or the message's receiver, is down; 2, the node to be started is up; 5, its clock showed a later time; 7,
    /// the request names no group or index.
    Refused { why: u8 },
    /// A node that started 4,294,967,295 times was to start again. After this and what follows the world is not used again.
    Limit,
    /// An allocation was refused.
    NoMemory,
}

impl From<NoMemory> for WorldFault {
    ghost use Rattle.mega_places.specs.declared.fault.WorldFault.TheVariants.{NoMemory as OutOfMemory};

    ghost from_gives = { λ _ fault. fault ≡ OutOfMemory };

    fn from(_refused: NoMemory) -> WorldFault {
        WorldFault::NoMemory
    }
}

/// The fault of a world where a node of it did not step; its rows did not fail, and what it was given is of its cluster.
pub fn fault_of(fault: StepFault) -> WorldFault
    requires rows { of_store fault ≡ None }
    requires own { is_strange fault ≡ false }
    ensures { fault_of fault ≡ Some result }
{
    match fault {
        StepFault::NoMemory => WorldFault::NoMemory,
        StepFault::Unserved
        | StepFault::Stranger
        | StepFault::Late
        | StepFault::DiskFault
        | StepFault::Full { .. }
        | StepFault::BadRecord { .. } => { unreachable!() }
    }
}

/// The fault of a world where the log of a node did not keep a record, whose device did not fail.
pub fn log_fault_of(fault: LogFault) -> WorldFault
    requires { fault ≡ LogFault.NoMemory }
    ensures { log_fault_of fault ≡ Some result }
{
    match fault {
        LogFault::NoMemory => WorldFault::NoMemory,
        LogFault::DiskFault
        | LogFault::Full { .. }
        | LogFault::Spent
        | LogFault::BadRecord { .. } => unreachable!(),
    }
}
