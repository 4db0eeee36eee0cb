//! A reader of the stamp of another member, each in a thread of its own, proved from the clauses of
//! `nm_set`, the law of stamps and the page.
ghost use Rattle.std.specs.Prelude.{◌≡◌, true, IfSome};
ghost use Rattle.nm_walks.specs.WonCounts.{won_flags, won_links};
ghost use Rattle.nm_callers.specs.Letters.{HasLookedBehind, HasWritten};
ghost use Rattle.nm_callers.specs.Meanwhile.{NoneDeleted};

use nm_edge::Key;
use nm_set::{Member, Options, Stamp, letters_are_in_order};
use std::thread::{Threads, join};

/// A member that has inserted a key, and the stamp that it published then; `None` if the insert did
/// not return true, or no stamp was published.
#[derive(Drop)]
pub struct Written {
    pub member: Member,
    pub stamp: Option<Stamp>,
}

/// Inserts a key, and publishes a stamp.
fn insert_and_publish(mut member: Member, key: Key, options: &Options) -> Written
    ensures tree { result.member.tree ≡ member.tree }
    ensures written { IfSome result.stamp (HasWritten key member.worker result.member.worker) }
{
    let told = member.insert(key, options);
    member.know_run();
    let stamp = member.publish();
    match told {
        Ok(true) => Written { member, stamp },
        _ => Written {
            member,
            stamp: None,
        },
    }
}

/// A member that has observed a stamp, and whether it then found the key; `None` if the stamp shows
/// no inserted key, or a call returned an error.
#[derive(Drop)]
pub struct Reading {
    pub member: Member,
    pub found: Option<bool>,
}

/// Observes the stamp of the worker of a number, and looks up a key if the stamp shows an inserted
/// key.
fn read_and_look(member: &mut Member, writer: u32, key: Key, options: &Options) -> Option<bool>
    ensures tree { member.new.tree ≡ member.old.tree }
    ensures found { IfSome result (HasLookedBehind writer key member.new.worker) }
{
    match member.observe(writer) {
        Ok(Some(told)) if told.inserted > 0 => member.contains(key, options).ok(),
        _ => None,
    }
}

/// Does both at once, each in a thread of its own.
fn write_and_read<R: Threads + Sync>(
    rt: &R,
    first: Member,
    second: Member,
    key: Key,
    options: Options,
) -> (Written, Reading)
    ensures first { result.0.member.tree ≡ first.tree }
    ensures second { result.1.member.tree ≡ second.tree }
    ensures written { IfSome result.0.stamp (HasWritten key first.worker result.0.member.worker) }
    ensures found { IfSome result.1.found
        (HasLookedBehind first.worker.pass.view.number key result.1.member.worker) }
{
    let writer = first.number();
    join(
        rt,
        move || -> Written
            ensures tree { result.member.tree ≡ first.tree }
            ensures written { IfSome result.stamp (HasWritten key first.worker result.member.worker) }
        { insert_and_publish(first, key, &options) },
        move || -> Reading
            ensures tree { result.member.tree ≡ second.tree }
            ensures found { IfSome result.found (HasLookedBehind writer key result.member.worker) }
        {
            let mut member = second;
            let found = read_and_look(&mut member, writer, key, &options);
            Reading { member, found }
        },
    )
}

/// Inserts a key by a member that has done nothing yet, which then publishes a stamp. Meanwhile
/// another member observes the stamp, and looks up the key if the stamp shows an inserted key.
/// `None`: it shows none, or a call returned an error. Proved: otherwise the key is found, unless a
/// delete of it took effect after all that the first member had seen before.
pub fn insert_while_read<R: Threads + Sync>(
    rt: &R,
    first: Member,
    second: Member,
    key: Key,
    options: Options,
) -> Reading
    requires same { first.tree ≡ second.tree }
    requires unlinked { won_links first.worker.pass.view.log ≡ 0 }
    requires unflagged { won_flags first.worker.pass.view.log ≡ 0 }
    ensures found { NoneDeleted first.worker.pass.view.layout first.worker.pass.view.past
        result.member.worker.pass.view.past key → IfSome result.found (λ b. b ≡ true) }
{
    let (written, reading) = write_and_read(rt, first, second, key, options);
    let Written {
        member: mut first,
        stamp,
    } = written;
    let Reading {
        member: mut second,
        found,
    } = reading;
    first.know_run();
    second.know_run();
    let note = first.note();
    second.hear(note);
    second.know_run();
    letters_are_in_order();
    match stamp {
        Some(_) => Reading {
            member: second,
            found,
        },
        None => Reading {
            member: second,
            found: None,
        },
    }
}
