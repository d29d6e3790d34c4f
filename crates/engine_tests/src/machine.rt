// The machine of events, which no loop runs. What each step answers is computed beside its definition (`rdf_values`).
use merge_core::{ReplayRefusal, replay};
use rdf_values::{Event, StepCause};

#[test]
fn events_are_replayed_up_to_the_first_that_is_refused(rt: HostRuntime) {
    let events = [
        Event::Claim {
            slot: 0,
            cluster: 0,
        },
        Event::Claim {
            slot: 1,
            cluster: 1,
        },
        Event::Finish {
            slot: 1,
            cluster: 1,
        },
        Event::Finish {
            slot: 0,
            cluster: 0,
        },
        Event::End { slot: 1 },
        Event::End { slot: 0 },
        Event::End { slot: 0 },
    ];
    assert!(rt; replay(rt.alloc(), &events[..6], 2, 2).is_ok());
    let wanted = ReplayRefusal::At {
        place: 6,
        cause: StepCause::Stopped { slot: 0 },
    };
    assert_eq!(rt; replay(rt.alloc(), &events, 2, 2).err(), Some(wanted));
}
