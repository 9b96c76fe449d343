use crate::asks::Ask;
use crate::plain::PlainMap;
use crate::replies::Told;
use std::test::Fail;

/// A request of a key that was answered with a stamp.
#[derive(Clone, Copy, Debug)]
pub struct Event {
    pub stamp: u64,
    pub ask: Ask,
    pub told: Told,
}

// The stamp of a reply to a request of a key, 0 where it has none.
fn stamp_of(told: Told) -> u64 {
    match told {
        Told::Stored(stamp)
        | Told::Found(stamp, _)
        | Told::Missing(stamp)
        | Told::Removed(stamp)
        | Told::Absent(stamp) => stamp,
        _ => 0,
    }
}

// Where the next stamp of a session has to be: above those of earlier groups, and above the last one
// of its key.
#[derive(Drop)]
struct Order {
    groups: u64,
    group: u64,
    keys: [u64; 256],
}

impl Order {
    fn new() -> Order {
        Order {
            groups: 0,
            group: 0,
            keys: [0; 256],
        }
    }

    // A group ended, and this number was noted.
    fn end_group(&mut self, noted: u64) {
        self.groups = self.groups.max(self.group).max(noted);
        self.group = 0;
    }

    // Takes the next stamp. Whether it is in order.
    fn take(&mut self, key: u8, stamp: u64) -> bool {
        let fits = stamp > self.groups && stamp > self.keys[key as usize];
        self.keys[key as usize] = stamp;
        self.group = self.group.max(stamp);
        fits
    }

    // Takes an After with its reply. Whether that may be one.
    fn after(&mut self, stamp: u64, told: Told) -> bool {
        self.end_group(0);
        match told {
            Told::Noted => {
                self.end_group(stamp);
                true
            }
            Told::Ahead(number) => number <= stamp && number > self.groups,
            _ => false,
        }
    }
}

/// Puts the requests of a session with their replies behind the events, as far as there are
/// replies. Whether each stamp of a request is above those of the groups before it, of requests of
/// its key, and of what was noted, and each After has a reply that it may have.
pub fn take_session(asks: &[Ask], replies: &[Told], events: &mut Vec<Event>) -> Result<bool, Fail> {
    let mut order = Order::new();
    let mut left = replies;
    for ask in asks {
        if let Ask::Flush = *ask {
            order.end_group(0);
            continue;
        }
        match left {
            [told, rest @ ..] => {
                left = rest;
                if !take_reply(&mut order, *ask, *told, events)? {
                    return Ok(false);
                }
            }
            [] => return Ok(true),
        }
    }
    Ok(left.is_empty())
}

/// Whether there is a reply to each request.
pub fn is_answered(asks: &[Ask], replies: &[Told]) -> bool {
    let flushes = asks.iter().filter(|ask| **ask == Ask::Flush).count();
    asks.len().saturating_sub(flushes) == replies.len()
}

// Takes a request and its reply.
fn take_reply(
    order: &mut Order,
    ask: Ask,
    told: Told,
    events: &mut Vec<Event>,
) -> Result<bool, Fail> {
    match ask {
        Ask::Put(key, _) | Ask::Get(key) | Ask::Delete(key) => {
            let stamp = stamp_of(told);
            events.push(Event { stamp, ask, told })?;
            Ok(order.take(key, stamp))
        }
        Ask::After(stamp) => Ok(order.after(stamp, told)),
        Ask::Flush => Ok(true),
    }
}

/// Brings the events into the order of their stamps.
pub fn sort(events: &mut Vec<Event>) -> Result<(), Fail> {
    events.sort_by_key(|event| event.stamp)?;
    Ok(())
}

/// The first of the sorted events that the plain map answers otherwise, or whose stamp isn't above
/// that of the one before it and of all values at the beginning.
pub fn first_wrong(events: &[Event], map: &mut PlainMap) -> Option<Event> {
    let mut last = map.newest();
    for event in events {
        if event.stamp <= last || map.answer(event.ask, event.stamp) != event.told {
            return Some(*event);
        }
        last = event.stamp;
    }
    None
}
