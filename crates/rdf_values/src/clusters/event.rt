// What happens to a slot.
use crate::results::Fault;

/// A slot claims a cluster, finishes it, faults in it, passes it over and ends, or ends with no cluster left.
#[derive(Clone, Copy, Debug, PartialEq, Eq)]
pub enum Event {
    Claim {
        slot: u32,
        cluster: u32,
    },
    Finish {
        slot: u32,
        cluster: u32,
    },
    Fault {
        slot: u32,
        cluster: u32,
        fault: Fault,
    },
    Skip {
        slot: u32,
        cluster: u32,
    },
    End {
        slot: u32,
    },
}

/// Why an event can't happen.
#[derive(Clone, Copy, Debug, PartialEq, Eq)]
pub enum StepCause {
    /// There is no such slot, but `slots` of them.
    NoSlot { slots: u32 },
    /// The slot ended or faulted.
    Stopped { slot: u32 },
    /// The slot still holds that cluster.
    Busy { cluster: u32 },
    /// The slot holds another cluster, or none.
    NotHeld { held: Option<u32> },
    /// The cluster that the slot holds lies below the bar.
    NotBarred { bar: u32 },
    /// Another cluster is next, or none is left.
    NotNext { next: u32 },
    /// The next cluster isn't claimed yet.
    NotOver { next: u32 },
}
