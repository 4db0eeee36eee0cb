//! Sets whose members are all given out when they are made.
ghost use Rattle.std.specs.Prelude.{◌≡◌, ◌↔◌, [], length, IfErr, IfOk, IfSome, IsErrOf};
ghost use Rattle.std.specs.Arc.{arc_value};
ghost use Rattle.nm_edge.specs.Layouts.{IsLayoutFault, in_radix, spaced};
ghost use Rattle.nm_tree.specs.Workers.{AreNew, HaveFit};
ghost use Rattle.nm_set.specs.Seats.{AreNewMembers, site_in};
ghost use Rattle.nm_set.specs.States.{IsNewSet, open_set};

use crate::contents::Contents;
use crate::home::{Home, Site};
use crate::member::Member;
use crate::set::Set;
use nm_edge::{Layout, LayoutError, MOST_SPACED_NODES};
use nm_tree::{Fit, NewError, Worker};
use std::alloc::Global;
use std::sync::Arc;

impl<V: Contents> Set<V> {
    /// Makes the empty set that `new` makes, with all its members, in the order of their numbers,
    /// which have done nothing yet. So only code that gets a member from the caller has a worker of
    /// the set, until a member is closed. (Proved: there are as many members as workers, and all
    /// are new.)
    ///
    /// Errors: `Nodes`, `Workers`: as of `new`. `NoMemory`: nothing is kept.
    pub fn with_members(
        alloc: Global,
        nodes: u32,
        workers: u32,
    ) -> Result<(Set<V>, Vec<Member<V>>), NewError>
        ensures open { IfOk result
            (λ r. IsNewSet (in_radix (spaced nodes workers)) Fit.NextFit r.0) }
        ensures count { IfOk result (λ r. length r.1.items ≡ workers) }
        ensures new { IfOk result (λ r. AreNewMembers r.0.tree r.0.fit 0 r.1.items) }
        ensures nodes { IsErrOf result NewError.Nodes
            ↔ IsLayoutFault MOST_SPACED_NODES nodes workers LayoutError.Nodes }
        ensures workers { IsErrOf result NewError.Workers
            ↔ IsLayoutFault MOST_SPACED_NODES nodes workers LayoutError.Workers }
    {
        let layout = Layout::spaced(nodes, workers)?.in_radix();
        let (tree, all) = V::tree(alloc, layout, Fit::NextFit)?;
        let site = Site {
            tree,
            fit: Fit::NextFit,
        };
        give_out(alloc, site, all, workers)
    }
}

/// Makes a set of a new tree with this many seats, and a member for each of its workers.
fn give_out<V: Contents>(
    alloc: Global,
    site: Site,
    workers: Vec<Worker>,
    seats: u32,
) -> Result<(Set<V>, Vec<Member<V>>), NewError>
    requires contents { V.fits site.tree }
    requires new { AreNew site.tree 0 workers.items }
    requires all { length workers.items ≡ seats }
    requires each { site.tree.layout.workers ≡ seats }
    requires fit { HaveFit site.fit workers.items }
    ensures set { IfOk result (λ r. r.0 ≡ open_set site []) }
    ensures count { IfOk result (λ r. length r.1.items ≡ seats) }
    ensures new { IfOk result (λ r. AreNewMembers site.tree site.fit 0 r.1.items) }
    ensures memory { IfErr result (λ e. e ≡ NewError.NoMemory) }
{
    let Ok(home) = Home::of(alloc, site, workers, seats) else {
        return Err(NewError::NoMemory);
    };
    let Ok(home) = Arc::new(alloc, home) else {
        return Err(NewError::NoMemory);
    };
    match members_of(alloc, &home, seats) {
        Some(members) => Ok((Set::of(alloc, home), members)),
        None => Err(NewError::NoMemory),
    }
}

/// Makes a member for each worker of a new home, in the order of their numbers, after it has asked
/// for the room of all. Returns `None` if the room was refused, or if the home has as many members
/// as can be counted, which 64 are not. (No other party has the home, so each worker is on its seat;
/// no clause says so.)
fn members_of<V: Contents>(
    alloc: Global,
    home: &Arc<Home, Global>,
    workers: u32,
) -> Option<Vec<Member<V>>>
    requires contents { V.fits (arc_value home.now).tree }
    ensures count { IfSome result (λ ms. length ms.items ≡ workers) }
    ensures new { IfSome result
        (λ ms. AreNewMembers (arc_value home.now).tree (arc_value home.now).fit 0 ms.items) }
{
    let Ok(mut members) = Vec::with_capacity(alloc, workers as usize) else {
        return None;
    };
    for number in 0..workers {
        let Ok(home) = Arc::try_clone(home) else {
            return None;
        };
        let (sealed, way_back) = home.take_first(number)?;
        members.push_reserved(Member::of(home, sealed, way_back));
    }
    Some(members)
}
