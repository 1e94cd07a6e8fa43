// The program's fault for a fault of its parts.
ghost use Rattle.std.specs.Prelude.{◌≡◌, ◌≢◌, Some};
ghost use Rattle.cns_program.specs.Faults.{of_pack, of_run};

use cns_desk::RunFault;
use cns_shell::Fault;
use cns_statements::PackFault;

/// The fault of a run over 1 to 64 files.
pub fn run_fault(fault: RunFault) -> Fault
    requires { fault ≢ RunFault.Workers }
    ensures { of_run fault ≡ Some result }
{
    match fault {
        RunFault::Workers => unreachable!(),
        RunFault::Spawn => Fault::Spawn,
        RunFault::NoMemory => Fault::NoMemory,
        RunFault::Mismatch => Fault::Mismatch,
    }
}

/// The fault of a packing by 1 to 64 workers.
pub fn pack_fault(fault: PackFault) -> Fault
    requires { fault ≢ PackFault.Workers }
    ensures { of_pack fault ≡ Some result }
{
    match fault {
        PackFault::Workers => unreachable!(),
        PackFault::Spawn => Fault::Spawn,
        PackFault::NoMemory => Fault::NoMemory,
    }
}
