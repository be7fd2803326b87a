//! Why a node that is served did not step.
ghost use Rattle.std.specs.Prelude.{◌≡◌};
ghost use Rattle.mega_server.specs.Causes.{fault_of, log_fault_of, step_fault_of};

use mega_durable::UpFault;
use mega_durable::mega_core::StepFault;
use mega_serve::NodeFault;
use mega_wal::LogFault;

/// Why the record of a step was not kept.
fn log_fault_of(fault: LogFault) -> NodeFault
    ensures { result ≡ log_fault_of fault }
{
    match fault {
        LogFault::DiskFault => NodeFault::DiskFault,
        LogFault::Full { length } => NodeFault::Full { length },
        LogFault::Spent => NodeFault::Spent,
        LogFault::BadRecord { number } => NodeFault::BadRecord { number },
        LogFault::NoMemory => NodeFault::NoMemory,
    }
}

/// Why a step did not come about.
fn step_fault_of(fault: StepFault) -> NodeFault
    ensures { result ≡ step_fault_of fault }
{
    match fault {
        StepFault::DiskFault => NodeFault::DiskFault,
        StepFault::Full { length } => NodeFault::Full { length },
        StepFault::BadRecord { number } => NodeFault::BadRecord { number },
        StepFault::Unserved | StepFault::Stranger | StepFault::Late => NodeFault::Unformed,
        StepFault::NoMemory => NodeFault::NoMemory,
    }
}

/// Why a node did not step.
pub(crate) fn fault_of(fault: UpFault) -> NodeFault
    ensures { result ≡ fault_of fault }
{
    match fault {
        UpFault::Step(fault) => step_fault_of(fault),
        UpFault::Cut(_) => NodeFault::DiskFault,
        UpFault::Log(fault) => log_fault_of(fault),
        UpFault::Unformed => NodeFault::Unformed,
    }
}
