ghost use Rattle.std.specs.Prelude.{◌≡◌, ◌<◌, length};

use kv_base::{Bytes, NoMemory};
use kv_fold::{AnyFold, First, Fold};
use kv_scan::{Refusal, Scans};
use std::alloc::Global;
use std::test::Fail;

// Prepares a scan of all keys; false where the session has one.
fn prepare(alloc: Global, scans: &mut Scans<AnyFold>, session: u32) -> Result<bool, NoMemory>
    requires { session < length scans.old }
    ensures { length scans.new ≡ length scans.old }
{
    if scans.has_scan(session) {
        return Ok(false);
    }
    let fold = AnyFold::First(First::new(alloc, 9));
    let (low, high) = (Bytes::copy(alloc, b"")?, Bytes::copy(alloc, b"")?);
    scans.prepare(session, fold, low, high);
    Ok(true)
}

// Starts a scan; false where the session has none that is prepared.
fn start(scans: &mut Scans<AnyFold>, session: u32, at: u64) -> Result<bool, NoMemory>
    requires { session < length scans.old }
    ensures { length scans.new ≡ length scans.old }
{
    if !scans.is_prepared(session) {
        return Ok(false);
    }
    scans.start(session, at)?;
    Ok(true)
}

#[test]
fn a_failed_batch_ends_each_scan_with_its_own_refusal(rt: HostRuntime) -> Result<(), Fail> {
    let alloc = rt.alloc();
    let mut scans = Scans::new(alloc, 3)?;
    assert!(rt; prepare(alloc, &mut scans, 0)?);
    assert!(rt; prepare(alloc, &mut scans, 1)?);
    assert!(rt; start(&mut scans, 1, 5)?);
    scans.overwritten(b"a", 2, 6, b"1")?;
    assert_eq!(rt; scans.held(0), 1, "a prepared scan holds it");
    assert_eq!(rt; scans.held(1), 0, "a started scan folds it");
    scans.end_all(Refusal::NoMemory);
    assert_eq!(rt; scans.held(0), 0, "an ended scan holds nothing");
    assert!(rt; !scans.wants(b"b"), "an ended scan wants nothing");
    assert!(rt;
        scans.is_prepared(0) && scans.is_started(1),
        "each as it was"
    );
    assert!(rt; prepare(alloc, &mut scans, 2)?);
    assert!(rt; scans.wants(b"b"), "a scan behind that batch runs");
    scans.end_all(Refusal::DiskFault);
    assert_eq!(rt;
        scans.refused(0),
        Some(Refusal::NoMemory),
        "the first refusal stays"
    );
    assert_eq!(rt;
        scans.refused(1),
        Some(Refusal::NoMemory),
        "the first refusal stays"
    );
    assert_eq!(rt; scans.refused(2), Some(Refusal::DiskFault));
    assert_eq!(rt; scans.refused(2), None, "the entry is gone");
    assert!(rt; !scans.has_scan(0));
    assert!(rt; prepare(alloc, &mut scans, 0)?, "a session may scan again");
    scans.drop_scan(0);
    assert!(rt; !scans.has_scan(0));
    Ok(())
}

// Walks a key of a scan, where it is one of its range.
fn walk(
    scans: &mut Scans<AnyFold>,
    session: u32,
    key: u8,
    stamp: u64,
    value: u8,
) -> Result<bool, NoMemory>
    requires { session < length scans.old }
    ensures { length scans.new ≡ length scans.old }
{
    if !scans.is_started(session) || !scans.in_range(session, &[key]) {
        return Ok(false);
    }
    scans.walked(session, &[key], stamp, &[value])?;
    Ok(true)
}

#[test]
fn first_items_come_by_key_however_they_came(rt: HostRuntime) -> Result<(), Fail> {
    let alloc = rt.alloc();
    let mut scans = Scans::new(alloc, 1)?;
    assert!(rt; prepare(alloc, &mut scans, 0)?);
    // Held and folded at the start, held and dropped there, walked, folded ahead, and too late.
    scans.overwritten(b"b", 1, 6, b"2")?;
    scans.overwritten(b"c", 2, 4, b"9")?;
    assert!(rt; start(&mut scans, 0, 5)?);
    assert!(rt; walk(&mut scans, 0, b'a', 3, b'1')?);
    scans.overwritten(b"e", 5, 7, b"5")?;
    assert!(rt; walk(&mut scans, 0, b'c', 4, b'3')?);
    assert!(rt; walk(&mut scans, 0, b'd', 6, b'4')?);
    assert!(rt; scans.is_started(0));
    assert_eq!(rt; scans.cursor(0), b"d\0".as_slice());
    assert!(rt; !scans.wants(b"d"), "it was walked");
    scans.at_end(0);
    let Some(fold) = scans.finished(0) else {
        assert!(rt; false, "its end was told");
        return Ok(());
    };
    let result = fold.result(alloc)?;
    // Four items of a key's length, the key, a value's length and the value.
    let items = b"\x04\0\x01a\x01\0\0\01\x01b\x01\0\0\02\x01c\x01\0\0\03\x01e\x01\0\0\05";
    assert_eq!(rt; result.as_slice(), items.as_slice());
    assert!(rt; !scans.has_scan(0), "the entry is gone");
    Ok(())
}
