//! Claims by a placement: first fit and next fit.
use super::only;
use nm_edge::{Fit, Layout, NodeId, Placement};
use nm_pool::{claim_by, give};
use nm_steps::Shared;
use std::test::Fail;

/// Eight nodes: slots 6, 7 and 8 are in the pool.
const NODES: u32 = 8;

/// 67 nodes: slots 6 to 67 are in the pool, the last three of them in a second row.
const TWO_ROWS: u32 = 67;

/// Returns the first node in a slot.
fn first_of(slot: u32) -> Option<NodeId> {
    Some(NodeId { slot, birth: 1 })
}

/// Returns the second node in a slot.
fn second_of(slot: u32) -> Option<NodeId> {
    Some(NodeId { slot, birth: 2 })
}

#[test]
fn a_near_claim_takes_the_lowest_of_its_row_and_goes_round(rt: HostRuntime) -> Result<(), Fail> {
    let (shared, passes) = Shared::new(rt.alloc(), Layout::new(TWO_ROWS, 1)?)?;
    let mut pass = only(&shared, passes);
    let mut near = Placement::new(Fit::NextFit, 67);
    assert!(rt; near.fit() == Fit::NextFit);
    assert_eq!(rt; claim_by(&shared, &mut pass, &mut near), first_of(65));
    let Some(node) = claim_by(&shared, &mut pass, &mut Placement::new(Fit::NextFit, 66)) else {
        panic!(rt; "slot 66 is in the pool")
    };
    assert_eq!(rt; claim_by(&shared, &mut pass, &mut near), first_of(67));
    assert_eq!(rt; claim_by(&shared, &mut pass, &mut near), first_of(6));
    give(&shared, &mut pass, node);
    assert_eq!(rt; claim_by(&shared, &mut pass, &mut near), first_of(7));
    Ok(())
}

#[test]
fn a_near_claim_tries_the_slot_given_back_last(rt: HostRuntime) -> Result<(), Fail> {
    let (shared, passes) = Shared::new(rt.alloc(), Layout::new(TWO_ROWS, 1)?)?;
    let mut pass = only(&shared, passes);
    let mut near = Placement::new(Fit::NextFit, 6);
    near.keep(67);
    near.keep(7);
    near.keep(66);
    assert_eq!(rt; claim_by(&shared, &mut pass, &mut near), first_of(66));
    assert_eq!(rt; claim_by(&shared, &mut pass, &mut near), first_of(7));
    assert_eq!(rt; claim_by(&shared, &mut pass, &mut near), first_of(67));
    Ok(())
}

#[test]
fn a_search_goes_on_where_the_last_one_ended(rt: HostRuntime) -> Result<(), Fail> {
    let (shared, passes) = Shared::new(rt.alloc(), Layout::new(TWO_ROWS, 1)?)?;
    let mut pass = only(&shared, passes);
    let mut near = Placement::new(Fit::NextFit, 67);
    assert_eq!(rt; claim_by(&shared, &mut pass, &mut near), first_of(65));
    near.keep(8);
    assert_eq!(rt; claim_by(&shared, &mut pass, &mut near), first_of(8));
    assert_eq!(rt; claim_by(&shared, &mut pass, &mut near), first_of(66));
    Ok(())
}

#[test]
fn a_slot_that_another_claimed_first_is_passed_over(rt: HostRuntime) -> Result<(), Fail> {
    let (shared, passes) = Shared::new(rt.alloc(), Layout::new(TWO_ROWS, 1)?)?;
    let mut pass = only(&shared, passes);
    let mut near = Placement::new(Fit::NextFit, 6);
    near.keep(6);
    assert_eq!(rt;
        claim_by(&shared, &mut pass, &mut Placement::new(Fit::NextFit, 6)),
        first_of(6)
    );
    assert_eq!(rt; claim_by(&shared, &mut pass, &mut near), first_of(7));
    Ok(())
}

#[test]
fn the_129th_slot_given_back_is_not_remembered(rt: HostRuntime) -> Result<(), Fail> {
    let (shared, passes) = Shared::new(rt.alloc(), Layout::new(TWO_ROWS, 1)?)?;
    let mut pass = only(&shared, passes);
    let mut near = Placement::new(Fit::NextFit, 6);
    for _slot in 0..128 {
        near.keep(66);
    }
    near.keep(67);
    assert_eq!(rt; claim_by(&shared, &mut pass, &mut near), first_of(66));
    Ok(())
}

#[test]
fn a_near_claim_begins_at_slot_6_where_it_knows_no_other(rt: HostRuntime) -> Result<(), Fail> {
    let (shared, passes) = Shared::new(rt.alloc(), Layout::new(NODES, 1)?)?;
    let mut pass = only(&shared, passes);
    let mut near = Placement::new(Fit::NextFit, 9);
    assert_eq!(rt; claim_by(&shared, &mut pass, &mut near), first_of(6));
    near.keep(5);
    assert_eq!(rt; claim_by(&shared, &mut pass, &mut near), first_of(7));
    Ok(())
}

#[test]
fn nothing_is_found_only_where_all_are_taken(rt: HostRuntime) -> Result<(), Fail> {
    let (shared, passes) = Shared::new(rt.alloc(), Layout::new(NODES, 1)?)?;
    let mut pass = only(&shared, passes);
    let mut near = Placement::new(Fit::NextFit, 0);
    let Some(node) = claim_by(&shared, &mut pass, &mut near) else {
        panic!(rt; "slot 6 is in the pool")
    };
    assert_eq!(rt; claim_by(&shared, &mut pass, &mut near), first_of(7));
    assert_eq!(rt; claim_by(&shared, &mut pass, &mut near), first_of(8));
    assert_eq!(rt; claim_by(&shared, &mut pass, &mut near), None);
    give(&shared, &mut pass, node);
    assert_eq!(rt; claim_by(&shared, &mut pass, &mut near), second_of(6));
    assert_eq!(rt; claim_by(&shared, &mut pass, &mut near), None);
    Ok(())
}

#[test]
fn the_lowest_placement_claims_the_lowest(rt: HostRuntime) -> Result<(), Fail> {
    let (shared, passes) = Shared::new(rt.alloc(), Layout::new(NODES, 1)?)?;
    let mut pass = only(&shared, passes);
    let mut lowest = Placement::new(Fit::FirstFit, 8);
    lowest.keep(7);
    assert!(rt; lowest.fit() == Fit::FirstFit);
    assert_eq!(rt; claim_by(&shared, &mut pass, &mut lowest), first_of(6));
    assert_eq!(rt; claim_by(&shared, &mut pass, &mut lowest), first_of(7));
    Ok(())
}
