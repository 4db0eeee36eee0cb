//! Cores of radix trees by single steps. A plain core, which no schedule can ask for, does not
//! check where a key belongs; an ordered one does.
use nm_core::{Core, Event, Field, Op, Refused, Reply};
use nm_edge::{Key, Layout, NodeId, Side};
use std::alloc::Global;
use std::test::Fail;

/// Two nodes: an internal one with this router above two slots, one of which is a leaf with this
/// key.
#[derive(Clone, Copy)]
struct Fork {
    key: u64,
    router: u64,
    left: u32,
    right: u32,
}

/// 5 beside the fixed slot 3: the range of router 2^63 has all numbers in it.
const FIRST: Fork = Fork {
    key: 5,
    router: 1 << 63,
    left: 7,
    right: 3,
};

/// 6 beside slot 7, which has 5.
const SECOND: Fork = Fork {
    key: 6,
    router: 6,
    left: 7,
    right: 9,
};

/// 12 beside slot 8, which has router 6, and so the keys from 4 to 7 below it. Slot 10 has the
/// range from 0 to 15, with slot 8 in its lower half and slot 11 in its upper half.
const RIGHT: Fork = Fork {
    key: 12,
    router: 8,
    left: 8,
    right: 11,
};

/// 7, which belongs below slot 8.
const ABOVE_ITS_RANGE: Fork = Fork {
    key: 7,
    router: 7,
    left: 8,
    right: 11,
};

/// The range of router 12 is from 8 to 15, and does not have 6 in it.
const TOO_SMALL: Fork = Fork {
    key: 12,
    router: 12,
    left: 8,
    right: 11,
};

/// The range of router 16 is from 0 to 31, with 6 and 12 in its lower half.
const TOO_GREAT: Fork = Fork {
    key: 12,
    router: 16,
    left: 8,
    right: 11,
};

/// The two sides are exchanged.
const CHANGED: Fork = Fork {
    key: 12,
    router: 8,
    left: 11,
    right: 8,
};

/// Lets worker 0 make these steps.
fn take(core: &mut Core, steps: &[Event]) -> Result<(), Refused> {
    for step in steps {
        core.apply(0, *step)?;
    }
    Ok(())
}

/// Returns a look at the key of a slot.
fn key(slot: u32) -> Event {
    Event::Look(slot, Field::Key)
}

/// Returns a look at the edge of a slot on a side.
fn edge(slot: u32, side: Side) -> Event {
    Event::Look(slot, Field::Edge(side))
}

/// Begins the insert of a key, and looks at the first edge.
fn begin(core: &mut Core, number: u64) -> Result<(), Fail> {
    let Some(number) = Key::new(number) else {
        return Ok(());
    };
    let called = Event::SightFor(Op::Insert, number);
    take(core, &[Event::Announce, called, edge(2, Side::Left)])?;
    Ok(())
}

/// Fills two slots of the pool with these nodes.
fn fill(core: &mut Core, new: u32, leaf: u32, fork: Fork) -> Result<(), Refused> {
    take(
        core,
        &[
            Event::Claim(new),
            Event::Fill(new, Field::Birth, 1),
            Event::Claim(leaf),
            Event::Fill(leaf, Field::Birth, 1),
            Event::Fill(new, Field::Key, fork.router),
            Event::Fill(new, Field::Edge(Side::Left), u64::from(fork.left)),
            Event::Fill(new, Field::Edge(Side::Right), u64::from(fork.right)),
            Event::Fill(leaf, Field::Key, fork.key),
            Event::Fill(leaf, Field::Edge(Side::Left), 0),
            Event::Fill(leaf, Field::Edge(Side::Right), 0),
        ],
    )
}

/// Inserts 5 into an empty core, with slots 6 and 7.
fn insert_5(core: &mut Core) -> Result<(), Fail> {
    core.apply(0, Event::Sight)?;
    begin(core, FIRST.key)?;
    take(core, &[key(3), edge(3, Side::Left)])?;
    fill(core, 6, 7, FIRST)?;
    let link = Event::Link(2, Side::Left, 3, 6);
    take(core, &[link, Event::LeaveWith(true)])?;
    Ok(())
}

/// Inserts 6 beside it, with slots 8 and 9.
fn insert_6(core: &mut Core) -> Result<(), Fail> {
    begin(core, SECOND.key)?;
    let left = edge(6, Side::Left);
    take(core, &[key(6), left, key(7), edge(7, Side::Right)])?;
    fill(core, 8, 9, SECOND)?;
    let link = Event::Link(6, Side::Left, 7, 8);
    take(core, &[link, Event::LeaveWith(true)])?;
    Ok(())
}

/// Returns the answer of a core with 5 and 6 to a link of these nodes above slot 8, an internal
/// node.
fn linked(
    alloc: Global,
    layout: Layout,
    is_ordered: bool,
    fork: Fork,
) -> Result<Result<Reply, Refused>, Fail> {
    let mut core = Core::of(alloc, layout, is_ordered)?;
    insert_5(&mut core)?;
    insert_6(&mut core)?;
    begin(&mut core, fork.key)?;
    take(&mut core, &[key(6), edge(6, Side::Left), key(8)])?;
    fill(&mut core, 10, 11, fork)?;
    Ok(core.apply(0, Event::Link(6, Side::Left, 8, 10)))
}

/// Returns whether an answer is that slot 10 is linked.
fn is_won(answer: &Result<Reply, Refused>) -> bool {
    matches!(answer, Ok(Reply::Linked(NodeId { slot: 10, birth: 1 })))
}

#[test]
fn an_ordered_core_asks_where_a_key_belongs(rt: HostRuntime) -> Result<(), Fail> {
    let layout = Layout::new(16, 1)?.in_radix();
    assert!(rt; is_won(&linked(rt.alloc(), layout, true, RIGHT)?));
    for wrong in [ABOVE_ITS_RANGE, TOO_SMALL, TOO_GREAT, CHANGED] {
        let answer = linked(rt.alloc(), layout, true, wrong)?;
        assert!(rt; matches!(answer, Err(Refused::NotOrdered)));
    }
    Ok(())
}

#[test]
fn a_plain_core_does_not(rt: HostRuntime) -> Result<(), Fail> {
    let layout = Layout::new(16, 1)?.in_radix();
    for any in [RIGHT, ABOVE_ITS_RANGE, TOO_SMALL, TOO_GREAT, CHANGED] {
        assert!(rt; is_won(&linked(rt.alloc(), layout, false, any)?));
    }
    Ok(())
}

/// In the other shape a link must be above a slot that the worker knows as a leaf. In a radix tree
/// the same holds for a fixed slot.
#[test]
fn what_is_not_known_as_a_leaf_stays_in_place(rt: HostRuntime) -> Result<(), Fail> {
    let layout = Layout::new(16, 1)?;
    let answer = linked(rt.alloc(), layout, false, RIGHT)?;
    assert!(rt; matches!(answer, Err(Refused::NotHeld)));
    let mut core = Core::of(rt.alloc(), layout.in_radix(), false)?;
    core.apply(0, Event::Sight)?;
    begin(&mut core, FIRST.key)?;
    fill(&mut core, 6, 7, FIRST)?;
    let answer = core.apply(0, Event::Link(2, Side::Left, 3, 6));
    assert!(rt; matches!(answer, Err(Refused::NotHeld)));
    Ok(())
}
