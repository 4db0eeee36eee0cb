//! Look-ups of several keys by one call of a member.
use nm_edge::Key;
use nm_set::{CallFault, Fit, Map, PinnedGetFault, Query, Set};
use std::process::Abort;
use std::test::Fail;

/// The number of tries of each call.
const TRIES: u32 = 100;

/// Returns a number as a key.
fn key(rt: &impl Abort, number: u64) -> Key {
    let Some(key) = Key::new(number) else {
        panic!(rt; "{number} is no key")
    };
    key
}

/// Of 60 numbers each third one was inserted, and 9 was deleted again.
#[test]
fn each_key_is_found_that_is_there(rt: HostRuntime) -> Result<(), Fail> {
    let set = Set::unbalanced(rt.alloc(), 256, 1, Fit::NextFit)?;
    let mut member = set.member(0)?;
    let mut queries = Vec::new(rt.alloc());
    for number in 0..60u64 {
        if number % 3 == 0 {
            assert_eq!(rt; member.try_insert(key(&rt, number), TRIES), Ok(true));
        }
        queries.push(Query::new(key(&rt, number)))?;
    }
    assert_eq!(rt; member.try_remove(key(&rt, 9), TRIES), Ok(true));
    assert_eq!(rt; member.contains_many(queries.as_mut_slice(), TRIES), Ok(()));
    for query in &queries {
        let number = query.key.get();
        assert_eq!(rt; query.found, number % 3 == 0 && number != 9);
    }
    Ok(())
}

#[test]
fn keys_are_not_looked_up_where_nobody_may_be_asked(rt: HostRuntime) -> Result<(), Fail> {
    let set = Set::unbalanced(rt.alloc(), 64, 1, Fit::NextFit)?;
    let mut member = set.member(0)?;
    let mut queries = [Query::new(key(&rt, 5)), Query::new(key(&rt, 6))];
    assert_eq!(rt; member.contains_many(&mut queries, 0), Err(CallFault::Busy));
    assert_eq!(rt; member.contains_many(&mut [], TRIES), Ok(()));
    let _ = member.pin(TRIES)?;
    assert_eq!(rt;
        member.contains_many(&mut queries, TRIES),
        Err(CallFault::Pinned)
    );
    assert_eq!(rt; member.unpin(), Ok(()));
    assert_eq!(rt; member.contains_many(&mut queries, TRIES), Ok(()));
    assert_eq!(rt; (queries[0].found, queries[1].found), (false, false));
    Ok(())
}

/// Under the caller's pin the values of several keys are found, and without a pin none is looked up.
#[test]
fn values_are_found_together_under_a_pin(rt: HostRuntime) -> Result<(), Fail> {
    let map = Map::new(rt.alloc(), 64, 1)?;
    let mut member = map.attach()?;
    for number in 5..8u64 {
        let inserted = member.try_insert(key(&rt, number), 10 * number, TRIES);
        assert_eq!(rt; inserted, Ok(true));
    }
    let mut queries = [
        Query::new(key(&rt, 7)),
        Query::new(key(&rt, 4)),
        Query::new(key(&rt, 5)),
    ];
    assert_eq!(rt;
        member.get_many_pinned(&mut queries),
        Err(PinnedGetFault::NotPinned)
    );
    let _ = member.pin(TRIES)?;
    assert_eq!(rt; member.get_many_pinned(&mut queries), Ok(()));
    assert_eq!(rt; (queries[0].found, queries[0].value), (true, 70));
    assert_eq!(rt; queries[1].found, false);
    assert_eq!(rt; (queries[2].found, queries[2].value), (true, 50));
    assert_eq!(rt; member.unpin(), Ok(()));
    Ok(())
}
