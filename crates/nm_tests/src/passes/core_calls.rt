//! Single steps of the core that no schedule of the file formats can make.
use nm_core::{Core, Event, Field, NewError, Refused, Reply};
use nm_edge::{NodeId, Side};
use nm_model::Nodes;
use std::test::Fail;

/// Worker 1 resigns after it has given its slot back, and worker 0 then holds its ledger.
#[test]
fn a_worker_resigns(rt: HostRuntime) -> Result<(), Fail> {
    let mut core = Core::new(rt.alloc(), 7, 2)?;
    assert!(rt; matches!(core.apply(0, Event::Join(2)), Err(Refused::NoWorker)));
    assert!(rt; matches!(core.apply(0, Event::Join(0)), Err(Refused::NoWorker)));
    assert!(rt; matches!(core.apply(1, Event::Claim(6))?, Reply::Claimed(6)));
    assert!(rt; matches!(core.apply(0, Event::Join(1)), Err(Refused::NotReady)));
    assert!(rt; matches!(core.apply(1, Event::Give(6))?, Reply::Returned(6)));
    let Reply::Joined(ledgers) = core.apply(0, Event::Join(1))? else {
        assert!(rt; false, "not joined");
        return Ok(());
    };
    assert!(rt; ledgers.get(0).is_none());
    assert!(rt;
        ledgers
            .get(1)
            .is_some_and(|ledger| ledger.queue.as_slice().is_empty())
    );
    assert!(rt; matches!(core.apply(1, Event::Sight), Err(Refused::NoWorker)));
    assert!(rt; matches!(core.apply(2, Event::Sight), Err(Refused::NoWorker)));
    assert_eq!(rt; core.holder(1), Some(0));
    assert_eq!(rt; core.holder(2), None);
    assert!(rt; core.ledger(2).is_none());
    Ok(())
}

#[test]
fn sizes_out_of_range_are_refused(rt: HostRuntime) {
    assert_eq!(rt; Core::new(rt.alloc(), 6, 65).err(), Some(NewError::Nodes));
    assert_eq!(rt;
        Core::new(rt.alloc(), 1_048_577, 1).err(),
        Some(NewError::Nodes)
    );
    assert_eq!(rt; Core::new(rt.alloc(), 7, 0).err(), Some(NewError::Workers));
    assert_eq!(rt; Core::new(rt.alloc(), 7, 65).err(), Some(NewError::Workers));
}

/// A run's trace has each event with its worker, and the nodes of a reply are a vector.
#[test]
fn a_trace_has_events_and_nodes_are_a_vector(rt: HostRuntime) -> Result<(), Fail> {
    let mut core = Core::new(rt.alloc(), 7, 2)?;
    let trace = core.run(Vec::from_slice(rt.alloc(), &[(1, Event::Advance)])?)?;
    let turns = trace.as_slice();
    assert_eq!(rt; turns.len(), 1);
    assert_eq!(rt; turns[0].worker, 1);
    assert_eq!(rt; turns[0].event, Event::Advance);
    assert!(rt; matches!(turns[0].outcome, Err(Refused::NotReady)));
    let node = NodeId { slot: 6, birth: 1 };
    let nodes = Nodes::from_vec(Vec::from_slice(rt.alloc(), &[node])?);
    assert_eq!(rt; nodes.as_slice().first(), Some(&node));
    assert_eq!(rt; nodes.into_vec().len(), 1);
    assert!(rt; Field::Edge(Side::Left).is_edge());
    Ok(())
}
