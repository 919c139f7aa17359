//! Faults of nodes as faults of their federation.
ghost use Rattle.std.specs.Prelude.{◌≡◌};
ghost use Rattle.co_cluster.specs.Served.{of_node};

use co_durable::WorldFault;
use co_log::NodeFault;

/// A fault of one node ends the run of its federation.
pub(crate) fn of_node(fault: NodeFault) -> WorldFault
    ensures { result ≡ of_node fault }
{
    match fault {
        NodeFault::Device { spot } => WorldFault::Device { spot },
        NodeFault::Differs {
            spot,
            at,
            kept,
            read,
        } => WorldFault::Differs {
            spot,
            at,
            kept,
            read,
        },
        NodeFault::Full { spot } => WorldFault::Full { spot },
        NodeFault::Memory => WorldFault::Memory,
    }
}
