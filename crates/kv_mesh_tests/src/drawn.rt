use crate::asks::Ask;
use crate::ended::{take_apart, turn_to_end};
use crate::events::{Event, first_wrong, is_answered, sort, take_session};
use crate::plain::PlainMap;
use crate::replies::Told;
use crate::stores::{left_now, make_client, make_parties, new_disks};
use kv_disk::MemDisk;
use rand_core::utils::NextWord;
use rand_pcg::Lcg64Xsh32;
use std::alloc::Global;
use std::test::Fail;

// Of three workers 0 owns c and f, 1 owns a and b, and 2 owns g and m.
static KEYS: [u8; 6] = [b'a', b'b', b'c', b'f', b'g', b'm'];

// A number below this one, or 0.
fn draw(draws: &mut Lcg64Xsh32, limit: u32) -> u32 {
    if limit == 0 {
        return 0;
    }
    draws.next_word() % limit
}

// One of the keys.
fn draw_key(draws: &mut Lcg64Xsh32) -> u8 {
    KEYS[draws.next_word() as usize % 6]
}

// A request.
fn draw_ask(draws: &mut Lcg64Xsh32) -> Ask {
    match draws.next_word() % 16 {
        0..6 => Ask::Put(draw_key(draws), (draws.next_word() % 256) as u8),
        6..9 => Ask::Get(draw_key(draws)),
        9..12 => Ask::Delete(draw_key(draws)),
        12..15 => Ask::Flush,
        _ => Ask::After(u64::from(draws.next_word() % 200)),
    }
}

/// So many requests.
pub fn draw_asks(alloc: Global, draws: &mut Lcg64Xsh32, count: u32) -> Result<Vec<Ask>, Fail> {
    let mut asks = Vec::new(alloc);
    for _ in 0..count {
        asks.push(draw_ask(draws))?;
    }
    Ok(asks)
}

// One of six parties.
fn draw_party(draws: &mut Lcg64Xsh32) -> u16 {
    (draws.next_word() % 6) as u16
}

// Turns of three of six parties, or of fewer.
fn draw_turns(alloc: Global, draws: &mut Lcg64Xsh32) -> Result<Vec<u16>, Fail> {
    let mut turns = Vec::new(alloc);
    let three = [draw_party(draws), draw_party(draws), draw_party(draws)];
    for _ in 0..12 {
        turns.push(three[draws.next_word() as usize % 3])?;
    }
    Ok(turns)
}

/// A store whose disks are opened again and again, and the plain map beside it.
#[derive(Drop)]
pub struct Twins {
    pub disks: Vec<MemDisk>,
    pub map: PlainMap,
}

/// The first event that the plain map answers otherwise, or a session whose replies are out of
/// order.
pub fn find_wrong(
    alloc: Global,
    scripts: &[Vec<Ask>],
    replies: &[Vec<Told>],
    map: &mut PlainMap,
) -> Result<Option<Wrong>, Fail> {
    let mut events = Vec::new(alloc);
    if scripts.len() != replies.len() {
        return Ok(Some(Wrong::Session(scripts.len())));
    }
    for session in 0..scripts.len() {
        let (asks, replies) = (&scripts[session], &replies[session]);
        if !is_answered(asks, replies) || !take_session(asks, replies, &mut events)? {
            return Ok(Some(Wrong::Session(session)));
        }
    }
    sort(&mut events)?;
    Ok(first_wrong(&events, map).map(Wrong::Event))
}

/// What isn't as it has to be.
#[derive(Clone, Copy, Debug)]
pub enum Wrong {
    /// A session isn't answered, or not in its order.
    Session(usize),
    /// A request isn't answered as the plain map does.
    Event(Event),
    /// Parties haven't ended.
    Ended,
}

// Makes drawn turns of three sessions with drawn requests, and then all turns that are left.
fn go(alloc: Global, draws: &mut Lcg64Xsh32, twins: &mut Twins) -> Result<Option<Wrong>, Fail> {
    let mut scripts = Vec::new(alloc);
    let mut clients = Vec::new(alloc);
    for _ in 0..3 {
        let count = draw(draws, 20);
        let asks = draw_asks(alloc, draws, count)?;
        let piece = draw(draws, 60);
        clients.push(make_client(alloc, &asks, piece)?)?;
        scripts.push(asks)?;
    }
    let disks = left_now(alloc, &twins.disks, 0)?;
    let mut mesh = make_parties(alloc, disks, clients)?;
    for _ in 0..16 {
        mesh.run_turns(&draw_turns(alloc, draws)?);
    }
    turn_to_end(&mut mesh);
    if !mesh.ended() {
        return Ok(Some(Wrong::Ended));
    }
    let left = take_apart(alloc, mesh.finish())?;
    if left.unsure || !left.well {
        return Ok(Some(Wrong::Ended));
    }
    twins.disks = left.disks;
    find_wrong(alloc, &scripts, &left.replies, &mut twins.map)
}

#[test]
fn drawn_schedules_answer_as_one_map(rt: HostRuntime) -> Result<(), Fail> {
    let alloc = rt.alloc();
    for store in 0..60 {
        let mut draws = Lcg64Xsh32::new(store, 1);
        let mut twins = Twins {
            disks: new_disks(alloc, 3)?,
            map: PlainMap::new(),
        };
        for schedule in 0..5 {
            let wrong = go(alloc, &mut draws, &mut twins)?;
            assert!(rt;
                wrong.is_none(),
                "store {store} schedule {schedule}: {wrong:?}"
            );
        }
    }
    Ok(())
}
