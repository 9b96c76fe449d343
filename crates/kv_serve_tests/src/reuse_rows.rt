use crate::row_run::FLUSH;
use crate::test_run::{Left, new_disk, serve};
use kv_disk::Disk;
use std::alloc::Global;
use std::sync::Wait;
use std::test::Fail;
use std::thread::Threads;

// 200 frames, each of these bytes and a number.
fn push_frames(all: &mut Vec<u8>, begin: &[u8], end: &[u8]) -> Result<(), Fail> {
    for number in 0..200u8 {
        all.extend_from_slice(begin)?;
        all.push(number)?;
        all.extend_from_slice(end)?;
    }
    Ok(())
}

// Puts of 200 keys and then, where they are wanted, their deletes and puts of 200 other keys.
fn puts(alloc: Global, again: bool) -> Result<Vec<u8>, Fail> {
    let mut input = Vec::new(alloc);
    push_frames(&mut input, b"\x05\0\0\0\x01\x02k", b"v")?;
    if again {
        input.extend_from_slice(FLUSH.0)?;
        push_frames(&mut input, b"\x03\0\0\0\x03k", b"")?;
        input.extend_from_slice(FLUSH.0)?;
        push_frames(&mut input, b"\x05\0\0\0\x01\x02m", b"v")?;
    }
    Ok(input)
}

// The bytes that go out, and the length of file 1 behind them.
fn lengths<R: Threads + Wait + Copy + Send + 'static>(
    rt: R,
    alloc: Global,
    input: &[u8],
) -> Result<(usize, u32), Fail> {
    let Left {
        output,
        mut disk,
        ..
    } = serve(rt, alloc, new_disk(alloc, &[])?, input, &[])?;
    Ok((output.len(), disk.length(1)?))
}

#[test]
fn freed_slots_are_used_again(rt: HostRuntime) -> Result<(), Fail> {
    let alloc = rt.alloc();
    // Replies of 13 bytes, and slots of 64.
    assert_eq!(rt; lengths(rt, alloc, &puts(alloc, false)?)?, (2_600, 4));
    assert_eq!(rt; lengths(rt, alloc, &puts(alloc, true)?)?, (7_800, 4));
    Ok(())
}
