//! Scans of ranges and bounded pops by a member, with each answer compared.
use nm_edge::Key;
use nm_set::{CallFault, Keys, Member, Options, Scanned, Set};
use std::process::Abort;
use std::test::Fail;

/// The number of tries of each call.
const TRIES: u32 = 100;

/// The first number that is no key.
const NO_KEY: u64 = 18_446_744_073_709_551_613;

/// Returns a number as a key.
fn key(rt: &impl Abort, number: u64) -> Key {
    let Some(key) = Key::new(number) else {
        panic!(rt; "{number} is no key")
    };
    key
}

/// Inserts 7, 10, 13 and so on: this many keys.
fn insert_thirds(rt: &impl Abort, member: &mut Member, keys: u64) {
    for index in 0..keys {
        let number = index.wrapping_mul(3).wrapping_add(7);
        assert_eq!(rt; member.try_insert(key(rt, number), TRIES), Ok(true));
    }
}

/// Returns what a scan returns that stops at this key, or has finished its range.
fn scanned(count: usize, next: Option<Key>) -> Result<Scanned, CallFault> {
    Ok(Scanned { count, next })
}

#[test]
fn a_range_is_read_in_order(rt: HostRuntime) -> Result<(), Fail> {
    let set = Set::<Keys>::new(rt.alloc(), 4096, 1)?;
    let mut member = set.member(0)?;
    insert_thirds(&rt, &mut member, 200);
    let mut out = [1; 4];
    let from = key(&rt, 0);
    assert_eq!(rt; member.scan(from, 17, &mut out, TRIES), scanned(4, None));
    assert_eq!(rt; out, [7, 10, 13, 16]);
    let Ok(found) = member.scan(from, 20, &mut out, TRIES) else {
        panic!(rt; "the scan was not answered")
    };
    assert_eq!(rt; (found.count, out), (4, [7, 10, 13, 16]));
    let Some(next) = found.next else {
        panic!(rt; "the scan is not finished")
    };
    assert!(rt; 16 < next.get());
    assert_eq!(rt; member.scan(next, 20, &mut out, TRIES), scanned(1, None));
    assert_eq!(rt; out, [19, 10, 13, 16]);
    assert_eq!(rt;
        member.scan(key(&rt, 599), NO_KEY, &mut out, TRIES),
        scanned(2, None)
    );
    assert_eq!(rt; out, [601, 604, 13, 16]);
    assert_eq!(rt;
        member.scan(key(&rt, 605), NO_KEY, &mut out, TRIES),
        scanned(0, None)
    );
    assert_eq!(rt;
        member.scan(key(&rt, 9), 9, &mut out, TRIES),
        scanned(0, None)
    );
    assert_eq!(rt; member.scan(from, 17, &mut out, 0), Err(CallFault::Busy));
    Ok(())
}

#[test]
fn a_range_is_read_back(rt: HostRuntime) -> Result<(), Fail> {
    let set = Set::<Keys>::new(rt.alloc(), 4096, 1)?;
    let mut member = set.member(0)?;
    insert_thirds(&rt, &mut member, 200);
    let mut out = [1; 3];
    assert_eq!(rt;
        member.scan_back(key(&rt, 13), 7, &mut out, TRIES),
        scanned(3, None)
    );
    assert_eq!(rt; out, [13, 10, 7]);
    let last = key(&rt, NO_KEY.wrapping_sub(1));
    let Ok(found) = member.scan_back(last, 0, &mut out, TRIES) else {
        panic!(rt; "the scan was not answered")
    };
    assert_eq!(rt; (found.count, out), (3, [604, 601, 598]));
    let Some(next) = found.next else {
        panic!(rt; "the scan is not finished")
    };
    assert_eq!(rt;
        member.scan_back(next, 592, &mut out, TRIES),
        scanned(2, None)
    );
    assert_eq!(rt; out, [595, 592, 598]);
    assert_eq!(rt;
        member.scan_back(key(&rt, 6), 0, &mut out, TRIES),
        scanned(0, None)
    );
    assert_eq!(rt;
        member.scan_back(key(&rt, 6), 7, &mut out, TRIES),
        scanned(0, None)
    );
    Ok(())
}

#[test]
fn scans_go_on_where_the_last_one_stopped(rt: HostRuntime) -> Result<(), Fail> {
    let set = Set::<Keys>::new(rt.alloc(), 8192, 1)?;
    let mut member = set.member(0)?;
    insert_thirds(&rt, &mut member, 1500);
    let mut out = [0; 64];
    let mut from = key(&rt, 0);
    let mut wanted = 7u64;
    for _scan in 0..40 {
        let Ok(found) = member.scan(from, NO_KEY, &mut out, 2) else {
            panic!(rt; "the scan was not answered")
        };
        for &number in out.iter().take(found.count) {
            assert_eq!(rt; number, wanted);
            wanted = wanted.wrapping_add(3);
        }
        let Some(next) = found.next else {
            assert_eq!(rt; wanted, 4507);
            return Ok(());
        };
        from = next;
    }
    panic!(rt; "the range is not finished")
}

#[test]
fn no_scan_returns_more_than_1024_keys(rt: HostRuntime) -> Result<(), Fail> {
    let set = Set::<Keys>::new(rt.alloc(), 8192, 1)?;
    let mut member = set.member(0)?;
    insert_thirds(&rt, &mut member, 1500);
    let mut out = [0; 1500];
    let Ok(found) = member.scan(key(&rt, 0), NO_KEY, &mut out, TRIES) else {
        panic!(rt; "the scan was not answered")
    };
    assert_eq!(rt; found.count, 1024);
    assert_eq!(rt; (out[1023], out[1024]), (3076, 0));
    Ok(())
}

#[test]
fn a_key_is_popped_only_up_to_its_bound(rt: HostRuntime) -> Result<(), Fail> {
    let options = Options::default();
    let set = Set::<Keys>::new(rt.alloc(), 4096, 1)?;
    let mut member = set.member(0)?;
    insert_thirds(&rt, &mut member, 4);
    assert_eq!(rt; member.pop_first_below(7, &options), Ok(None));
    assert_eq!(rt; member.pop_first_below(8, &options), Ok(Some(key(&rt, 7))));
    assert_eq!(rt; member.pop_first_below(10, &options), Ok(None));
    assert_eq!(rt; member.pop_last_from(17, &options), Ok(None));
    assert_eq!(rt; member.pop_last_from(16, &options), Ok(Some(key(&rt, 16))));
    assert_eq!(rt;
        member.pop_first_below(NO_KEY, &options),
        Ok(Some(key(&rt, 10)))
    );
    assert_eq!(rt; member.pop_last_from(0, &options), Ok(Some(key(&rt, 13))));
    assert_eq!(rt; member.pop_last_from(0, &options), Ok(None));
    Ok(())
}
