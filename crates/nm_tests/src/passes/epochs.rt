//! Pins, and advances of the epoch.
ghost use Rattle.nm_steps.specs.Steps.{IsOf, IsSamePass};
ghost use Rattle.nm_epoch.specs.Resting.{IsResting};

use super::both;
use nm_edge::Layout;
use nm_epoch::{Advance, Behind, Moved, advance, behind, pin, unpin};
use nm_steps::{Pass, Shared};
use std::test::Fail;
use std::thread::{Threads, join};

const NODES: u32 = 7;

const WORKERS: u32 = 2;

const ROUNDS: u32 = 1000;

/// Pins, advances the epoch and unpins; returns whether it was pinned.
fn round(shared: &Shared, pass: &mut Pass) -> bool
    requires own { IsOf shared.now pass.old }
    requires rests { IsResting pass.old }
    ensures same { IsSamePass pass.old pass.new }
    ensures rests { IsResting pass.new }
{
    match pin(shared, pass, 4) {
        Ok(_) => {
            let _ = advance(shared, pass);
            unpin(shared, pass);
            true
        }
        Err(_) => {
            let _ = advance(shared, pass);
            false
        }
    }
}

fn rounds(shared: &Shared, mut pass: Pass) -> (Pass, u32)
    requires own { IsOf shared.now pass }
    requires rests { IsResting pass }
    ensures own { IsOf shared.now result.0 }
    ensures rests { IsResting result.0 }
{
    let mut pinned = 0;
    for _round in 0..ROUNDS {
        if round(shared, &mut pass) {
            pinned += 1;
        }
    }
    (pass, pinned)
}

fn by_two<R: Threads + Sync>(
    rt: &R,
    shared: &Shared,
    one: Pass,
    two: Pass,
) -> ((Pass, u32), (Pass, u32))
    requires one { IsOf shared.now one }
    requires one_rests { IsResting one }
    requires two { IsOf shared.now two }
    requires two_rests { IsResting two }
    ensures one { IsOf shared.now result.0.0 }
    ensures two { IsOf shared.now result.1.0 }
    ensures two_rests { IsResting result.1.0 }
{
    join(
        rt,
        move || -> (Pass, u32)
            requires own { IsOf shared.now one }
            requires rests { IsResting one }
            ensures { IsOf shared.entry.now result.0 }
        { rounds(shared, one) },
        move || -> (Pass, u32)
            requires own { IsOf shared.now two }
            requires rests { IsResting two }
            ensures own { IsOf shared.entry.now result.0 }
            ensures rests { IsResting result.0 }
        { rounds(shared, two) },
    )
}

#[test]
fn a_pin_holds_the_epoch_back(rt: HostRuntime) -> Result<(), Fail> {
    let layout = Layout::new(NODES, WORKERS)?;
    let (shared, passes) = Shared::new(rt.alloc(), layout)?;
    let (mut first, mut second) = both(&shared, passes);
    let Ok(pinned) = pin(&shared, &mut second, 4) else {
        panic!(rt; "the epoch moved on by itself")
    };
    assert_eq!(rt; pinned, 0);
    assert_eq!(rt; advance(&shared, &mut first), Advance::Moved { epoch: 1 });
    assert_eq!(rt;
        advance(&shared, &mut first),
        Advance::Held {
            worker: 1,
            epoch: 0
        }
    );
    assert_eq!(rt; behind(&shared, &mut first), Behind { epoch: 1, mask: 2 });
    assert_eq!(rt; pin(&shared, &mut first, 0), Err(Moved { epoch: 1 }));
    assert_eq!(rt; behind(&shared, &mut second), Behind { epoch: 1, mask: 2 });
    unpin(&shared, &mut second);
    assert_eq!(rt; advance(&shared, &mut first), Advance::Moved { epoch: 2 });
    assert_eq!(rt; behind(&shared, &mut second), Behind { epoch: 2, mask: 0 });
    Ok(())
}

#[test]
fn two_threads_pin_and_advance(rt: HostRuntime) -> Result<(), Fail> {
    let layout = Layout::new(NODES, WORKERS)?;
    let (shared, passes) = Shared::new(rt.alloc(), layout)?;
    let (first, second) = both(&shared, passes);
    let ((mut first, one), (second, two)) = by_two(&rt, &shared, first, second);
    assert!(rt; one <= ROUNDS && two <= ROUNDS);
    let found = behind(&shared, &mut first);
    assert!(rt; found.epoch > 0);
    assert_eq!(rt; found.mask, 0);
    assert_eq!(rt; second.number(), 1);
    Ok(())
}
