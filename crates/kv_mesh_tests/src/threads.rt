use crate::asks::Ask;
use crate::drawn::{draw_asks, find_wrong};
use crate::ended::take_apart;
use crate::meeting::Meeting;
use crate::meeting_disk::MeetingDisk;
use crate::meeting_source::MeetingSource;
use crate::plain::PlainMap;
use crate::replies::Told;
use crate::stores::{
    Client, left_now, make_client, make_parties, make_sink, make_source, new_disk, new_disks,
};
use rand_pcg::Lcg64Xsh32;
use std::alloc::Global;
use std::sync::Arc;
use std::sync::atomic::AtomicU64;
use std::test::Fail;

#[test]
fn sessions_and_workers_on_threads_answer_as_one_map(rt: HostRuntime) -> Result<(), Fail> {
    let alloc = rt.alloc();
    let mut draws = Lcg64Xsh32::new(1, 1);
    let mut disks = new_disks(alloc, 4)?;
    let mut map = PlainMap::new();
    for run in 0..5 {
        let mut scripts = Vec::new(alloc);
        let mut clients = Vec::new(alloc);
        for _ in 0..4 {
            let asks = draw_asks(alloc, &mut draws, 100)?;
            clients.push(make_client(alloc, &asks, 40)?)?;
            scripts.push(asks)?;
        }
        let mesh = make_parties(alloc, left_now(alloc, &disks, 0)?, clients)?;
        let left = take_apart(alloc, mesh.run(&rt))?;
        assert!(rt; left.well && !left.unsure, "run {run}");
        let wrong = find_wrong(alloc, &scripts, &left.replies, &mut map)?;
        assert!(rt; wrong.is_none(), "run {run}: {wrong:?}");
        disks = left.disks;
    }
    Ok(())
}

// The disks of two workers, each of which meets the others.
fn meeting_disks(alloc: Global, inside: &Arc<AtomicU64, Global>) -> Result<Vec<MeetingDisk>, Fail> {
    let mut disks = Vec::new(alloc);
    for _ in 0..2 {
        let meeting = Meeting::new(Arc::try_clone(inside)?);
        disks.push(MeetingDisk::new(new_disk(alloc, &[])?, meeting))?;
    }
    Ok(disks)
}

// A client that meets nobody.
fn putting_client(alloc: Global, key: u8) -> Result<Client<MeetingSource>, Fail> {
    let source = make_source(alloc, &[Ask::Put(key, 1)], 4_096)?;
    Ok((MeetingSource::new(source, None), make_sink(alloc)?))
}

// A client that meets the others, and sends nothing.
fn meeting_client(
    alloc: Global,
    inside: &Arc<AtomicU64, Global>,
) -> Result<Client<MeetingSource>, Fail> {
    let meeting = Meeting::new(Arc::try_clone(inside)?);
    let source = make_source(alloc, &[], 4_096)?;
    Ok((MeetingSource::new(source, Some(meeting)), make_sink(alloc)?))
}

// Whether both puts are stored, by the stamps 1 and 2, and the other two sessions are told nothing.
fn are_stored(replies: &[Vec<Told>]) -> bool {
    match replies {
        [first, second, third, fourth] => {
            let stamps = match (first.as_slice(), second.as_slice()) {
                ([Told::Stored(a)], [Told::Stored(b)]) => (*a, *b),
                _ => (0, 0),
            };
            (stamps == (1, 2) || stamps == (2, 1)) && third.is_empty() && fourth.is_empty()
        }
        _ => false,
    }
}

#[test]
fn four_parties_are_inside_a_call_at_once(rt: HostRuntime) -> Result<(), Fail> {
    let alloc = rt.alloc();
    let inside = Arc::new(alloc, AtomicU64::new(0))?;
    let mut clients = Vec::new(alloc);
    clients.push(putting_client(alloc, b'a')?)?;
    clients.push(putting_client(alloc, b'b')?)?;
    clients.push(meeting_client(alloc, &inside)?)?;
    clients.push(meeting_client(alloc, &inside)?)?;
    let mesh = make_parties(alloc, meeting_disks(alloc, &inside)?, clients)?;
    let left = take_apart(alloc, mesh.run(&rt))?;
    assert!(rt; left.well && !left.unsure, "all inputs ended");
    assert!(rt; are_stored(&left.replies), "{:?}", left.replies);
    Ok(())
}
