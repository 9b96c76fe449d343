use crate::asks::Ask;
use crate::ended::{Ended, take_apart, values};
use crate::events::{Event, first_wrong, sort, take_session};
use crate::plain::PlainMap;
use crate::replies::Told;
use crate::stores::{left_at, make_client, make_parties, new_disks};
use kv_disk::MemDisk;
use std::alloc::Global;
use std::test::Fail;

const KEYS: &[u8] = b"abc";

// What two clients send. Of two workers, 0 owns a and c, and 1 owns b.
const CLIENTS: [&[Ask]; 2] = [
    &[
        Ask::Put(b'a', 1),
        Ask::Put(b'b', 2),
        Ask::Flush,
        Ask::Put(b'a', 3),
        Ask::Delete(b'b'),
        Ask::Flush,
        Ask::Delete(b'c'),
        Ask::Get(b'a'),
    ],
    &[
        Ask::Put(b'a', 4),
        Ask::Put(b'c', 5),
        Ask::Flush,
        Ask::Delete(b'a'),
        Ask::Put(b'b', 6),
        Ask::Put(b'c', 7),
    ],
];

// Both workers write for both clients in one turn, and for one client alone.
static TURNS: [u16; 22] = [
    2, 0, 3, 1, 0, 2, 2, 3, 3, 1, 0, 2, 3, 2, 1, 0, 2, 2, 3, 3, 0, 1,
];

// Makes so many turns, and stops.
fn go(alloc: Global, turns: usize) -> Result<Ended<MemDisk>, Fail> {
    let mut clients = Vec::new(alloc);
    for asks in CLIENTS {
        clients.push(make_client(alloc, asks, 4_096)?)?;
    }
    let mut mesh = make_parties(alloc, new_disks(alloc, 2)?, clients)?;
    mesh.run_turns(TURNS.get(..turns).unwrap_or(&TURNS));
    take_apart(alloc, mesh.finish())
}

// The requests that have replies, in the order of their stamps.
fn events_of(alloc: Global, replies: &[Vec<Told>]) -> Result<Vec<Event>, Fail> {
    let mut events = Vec::new(alloc);
    match replies {
        [first, second] => {
            take_session(CLIENTS[0], first, &mut events)?;
            take_session(CLIENTS[1], second, &mut events)?;
        }
        _ => return Err(Fail::new("two sessions")),
    }
    sort(&mut events)?;
    Ok(events)
}

// The value that the key has behind the request, where that writes it.
fn written(ask: Ask, key: u8) -> Option<Option<u8>> {
    match ask {
        Ask::Put(k, value) if k == key => Some(Some(value)),
        Ask::Delete(k) if k == key => Some(None),
        _ => None,
    }
}

// The greatest stamp of a write of the key among these requests, 0 where there is none.
fn last_write(events: &[Event], key: u8) -> u64 {
    let mut last = 0;
    for event in events {
        if written(event.ask, key).is_some() {
            last = event.stamp.max(last);
        }
    }
    last
}

// Whether the key has this value behind a prefix of its writes that holds all that are answered.
fn is_behind(all: &[Event], answered: &[Event], key: u8, found: Option<u8>) -> bool {
    let last = last_write(answered, key);
    if last == 0 && found.is_none() {
        return true;
    }
    for event in all {
        if event.stamp >= last && written(event.ask, key) == Some(found) {
            return true;
        }
    }
    false
}

// Whether the key is told to have such a value, with a stamp above all writes that are answered.
fn is_left(all: &[Event], answered: &[Event], key: u8, told: Told) -> bool {
    let (stamp, found) = match told {
        Told::Found(stamp, value) => (stamp, Some(value)),
        Told::Missing(stamp) => (stamp, None),
        _ => return false,
    };
    stamp > last_write(answered, key) && is_behind(all, answered, key, found)
}

// Opens what a crash leaves of the one disk at the moment, and of the others now. The first key that
// isn't left so.
fn first_wrong_left(
    alloc: Global,
    disks: &[MemDisk],
    place: usize,
    moment: u32,
    all: &[Event],
    answered: &[Event],
) -> Result<Option<Told>, Fail> {
    for choice in [0, 1] {
        let left = left_at(alloc, disks, place, moment, choice)?;
        let values = values(alloc, left, KEYS)?;
        if values.len() != KEYS.len() {
            return Ok(Some(Told::Other));
        }
        for at in 0..KEYS.len() {
            if !is_left(all, answered, KEYS[at], values[at]) {
                return Ok(Some(values[at]));
            }
        }
    }
    Ok(None)
}

// All requests, in the order of their stamps, which one plain map answers so.
fn events_of_all(alloc: Global) -> Result<Vec<Event>, Fail> {
    let left = go(alloc, TURNS.len())?;
    let all = events_of(alloc, &left.replies)?;
    match first_wrong(&all, &mut PlainMap::new()) {
        None => Ok(all),
        Some(_) => Err(Fail::new("one plain map")),
    }
}

// Stops a turn at each moment of a disk, from its begin on, when this was answered, to its end. The
// first key that isn't left as it has to be.
fn first_wrong_stop(
    alloc: Global,
    left: &Ended<MemDisk>,
    place: usize,
    from: u32,
    all: &[Event],
    answered: &[Event],
) -> Result<Option<Told>, Fail> {
    let to = match left.disks.get(place) {
        Some(disk) => disk.calls(),
        None => return Err(Fail::new("two disks")),
    };
    for moment in from..to {
        let wrong = first_wrong_left(alloc, &left.disks, place, moment, all, answered)?;
        if wrong.is_some() {
            return Ok(wrong);
        }
    }
    let answered = events_of(alloc, &left.replies)?;
    first_wrong_left(alloc, &left.disks, place, to, all, &answered)
}

// The number of calls of each disk.
fn calls_of(disks: &[MemDisk]) -> [u32; 2] {
    match disks {
        [first, second] => [first.calls(), second.calls()],
        _ => [0, 0],
    }
}

#[test]
fn a_stop_leaves_a_prefix_that_holds_what_was_answered(rt: HostRuntime) -> Result<(), Fail> {
    let alloc = rt.alloc();
    let all = events_of_all(alloc)?;
    assert_eq!(rt; all.len(), 11, "all requests are answered");
    let mut calls = [0, 0];
    let mut answered = Vec::new(alloc);
    for turns in 0..=TURNS.len() {
        let left = go(alloc, turns)?;
        for place in 0..2 {
            let wrong = first_wrong_stop(alloc, &left, place, calls[place], &all, &answered)?;
            assert!(rt; wrong.is_none(), "{turns} turns, disk {place}: {wrong:?}");
        }
        calls = calls_of(&left.disks);
        answered = events_of(alloc, &left.replies)?;
    }
    Ok(())
}
