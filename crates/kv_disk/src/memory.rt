ghost use Rattle.std.specs.Prelude.{◌≡◌, ℕ, ◌+◌, ◌-◌, ◌^◌, ◌≤◌, ◌<◌, ◌↔◌, ◌⊎◌, is_ok, IsErr, ◌∷◌};
ghost use Rattle.std.specs.Prelude.{◌++◌, [], true, false, refl, not, nat_le, min, is_some, List};
ghost use Rattle.std.specs.Prelude.{length, vec_len, vec_capacity, Option, IsTrue, IsOk, IsNone};
ghost use Rattle.std.specs.Prelude.{IfOk, IfSome, IfNone, OnOk, OnErr, if◌then◌else◌};
ghost use Rattle.kv_base.specs.Fault.{HasCause, Counted};
ghost use Rattle.kv_base.specs.Image.{zero_page, with_page};
ghost use Rattle.kv_base.specs.Crash.{MayLeave, Only, NoMore, Same, Adds, WrittenOrNot, Advances};
ghost use Rattle.kv_disk.specs.Plain.{content_at};
ghost use Rattle.kv_disk.specs.Replay.{place_in, spot, length_in, IsNoWrite};
ghost use Rattle.kv_disk.specs.Memory.{image_of, choices_of, spots_of, is_full, with_held, crashed};
ghost use Rattle.kv_disk.specs.Memory.{Keeps, IsPast, IsListed, RecordsLook, RecordsSync, RecordsWrite, IsRecordedDisk};
ghost use Rattle.kv_disk.specs.Told.{seen_is_left};
ghost use Rattle.kv_disk.specs.declared.call.Call.TheVariants.{Sync, Idle};

use crate::call::{Call, Held, Spot, Write};
use crate::{Disk, replay};
use kv_base::{Calls, Failed, NoMemory};
use std::alloc::Global;
use std::marker::Model;

static ZEROS: [u8; 4096] = [0; 4096];

/// A disk in memory that keeps its calls, tells what it reads, and can be crashed at each moment.
/// It fails exactly at the calls on its list and where a room is spent. Only `new` and `crash` take
/// memory.
#[derive(Drop)]
pub struct MemDisk {
    alloc: Global,
    start: Vec<Held>,
    spots: Vec<Spot>,
    contents: Vec<[u8; 4096]>,
    log: Vec<Call>,
    page_room: u32,
    call_room: u32,
    failing: Calls,
    calls: u64,
    faults: u64,
}

impl Model for MemDisk {
    ghost use Rattle.kv_disk.specs.Memory.{RecordedDisk};
    ghost use Rattle.kv_disk.specs.MemoryFields.{IsMemory};

    ghost Value = { RecordedDisk };

    ghost view = { λ d. record {
      pages = d.start.items;
      log = d.log.items;
      page_room = d.page_room;
      call_room = d.call_room;
      failing = d.failing;
      calls = d.calls;
      faults = d.faults;
    } };

    ghost invariant = { λ d. IsMemory d.start d.spots d.contents d.log d.page_room d.call_room
        d.calls };
}

// Keeps a call where there is room.
fn note(log: &mut Vec<Call>, room: u32, call: Call)
    requires { room ≤ vec_capacity log.old }
    ensures items { log.new.items ≡ (if nat_le room (length log.old.items) then log.old.items
        else log.old.items ++ call ∷ []) }
    ensures capacity { vec_capacity log.old ≤ vec_capacity log.new }
{
    if log.len() < room as usize {
        log.push(call).unwrap();
    }
}

// The place of a page, which is put behind the others with zeros where it is new and there is room.
fn hold(
    spots: &mut Vec<Spot>,
    contents: &mut Vec<[u8; 4096]>,
    room: u32,
    file: u8,
    page: u32,
) -> Option<usize>
    requires spots { room ≤ vec_capacity spots.old }
    requires contents { room ≤ vec_capacity contents.old }
    requires as_many { length contents.old.items ≡ length spots.old.items }
    ensures none { IsNone result ↔ (IsNone (place_in spots.old.items file page)
        × (room ≤ length spots.old.items)) }
    ensures kept { IfNone result ((spots.new.items ≡ spots.old.items)
        × (contents.new.items ≡ contents.old.items)) }
    ensures place { IfSome result (λ place. place_in spots.new.items file page ≡ Some place) }
    ensures held { IfSome result (λ _. spots.new.items
        ≡ (if is_some (place_in spots.old.items file page) then spots.old.items
        else spots.old.items ++ spot file page ∷ [])) }
    ensures reads { (f p : ℕ) → content_at contents.new.items (place_in spots.new.items f p)
        ≡ content_at contents.old.items (place_in spots.old.items f p) }
    ensures as_many { length contents.new.items ≡ length spots.new.items }
    ensures spots_room { vec_capacity spots.old ≤ vec_capacity spots.new }
    ensures contents_room { vec_capacity contents.old ≤ vec_capacity contents.new }
{
    if let Some(place) = replay::find(spots, file, page) {
        return Some(place);
    }
    let place = spots.len();
    if place >= room as usize {
        return None;
    }
    spots.push(Spot { file, page }).unwrap();
    contents.push([0; 4096]).unwrap();
    Some(place)
}

impl MemDisk {
    /// A disk of zeros with room for so many different pages and for so many calls, which it takes
    /// at once. A call past its room fails and changes the counts alone; so does a write of a page
    /// past the room for pages. A write at a call on the list fails, and a crash may leave its
    /// content.
    pub fn new(alloc: Global, pages: u32, calls: u32, failing: Calls) -> Result<MemDisk, NoMemory>
        ensures ok { IfOk result (λ disk. disk ≡ record {
          pages = [];
          log = [];
          page_room = pages;
          call_room = calls;
          failing = failing;
          calls = 0;
          faults = 0;
        }) }
        ensures durable { IfOk result (λ disk. Only (image_of disk) (choices_of disk disk.calls)) }
        ensures some { IfOk result (λ disk. MayLeave (choices_of disk disk.calls) (image_of disk)) }
    {
        Ok(MemDisk {
            alloc,
            start: Vec::with_capacity(alloc, pages as usize)?,
            spots: Vec::with_capacity(alloc, pages as usize)?,
            contents: Vec::with_capacity(alloc, pages as usize)?,
            log: Vec::with_capacity(alloc, calls as usize)?,
            page_room: pages,
            call_room: calls,
            failing,
            calls: 0,
            faults: 0,
        })
    }

    /// The number of calls so far; it stays at the greatest `u32`.
    pub fn calls(&self) -> u32
        ensures { result ≡ min self.now.calls (2 ^ 32 - 1) }
    {
        self.calls.min(u64::from(u32::MAX)) as u32
    }

    // Makes a call other than a write.
    fn make(&mut self, call: Call) -> Result<(), Failed>
        requires { IsNoWrite call }
        ensures failed { IsErr result ↔ (IsPast self.old ⊎ IsListed self.old) }
        ensures kept { Keeps (if is_ok result then call else Idle) self.old self.new result }
        ensures recorded { IsRecordedDisk self.old }
    {
        self.calls = self.calls.saturating_add(1);
        if self.log.len() >= self.call_room as usize || self.failing.has(self.calls) {
            note(&mut self.log, self.call_room, Call::Idle);
            self.faults = self.faults.saturating_add(1);
            return Err(Failed);
        }
        note(&mut self.log, self.call_room, call);
        Ok(())
    }

    // Makes a write.
    fn put(&mut self, file: u8, page: u32, content: &[u8; 4096]) -> Result<(), Failed>
        requires { page < 2 ^ 32 - 1 }
        ensures writes { RecordsWrite file page content.now self.old self.new result }
        ensures recorded { IsRecordedDisk self.old }
    {
        self.calls = self.calls.saturating_add(1);
        if self.log.len() >= self.call_room as usize {
            self.faults = self.faults.saturating_add(1);
            return Err(Failed);
        }
        let Some(place) = hold(
            &mut self.spots,
            &mut self.contents,
            self.page_room,
            file,
            page,
        ) else {
            note(&mut self.log, self.call_room, Call::Idle);
            self.faults = self.faults.saturating_add(1);
            return Err(Failed);
        };
        let mut write = Write {
            file,
            page,
            content: *content,
            done: false,
        };
        if self.failing.has(self.calls) {
            note(&mut self.log, self.call_room, Call::Write(write));
            self.faults = self.faults.saturating_add(1);
            return Err(Failed);
        }
        write.done = true;
        self.contents[place] = *content;
        note(&mut self.log, self.call_room, Call::Write(write));
        Ok(())
    }

    // What a page reads as.
    #[tactic(auto, unfolding(kv_base::specs::Image::zero_page))]
    fn content(&self, file: u8, page: u32) -> &[u8; 4096]
        ensures { result.now ≡ image_of self.now file page }
    {
        match replay::find(&self.spots, file, page) {
            Some(place) => &self.contents[place],
            None => &ZEROS,
        }
    }

    /// What a page reads as: 4,096 bytes, zeros where it was never written.
    pub fn page(&self, file: u8, page: u32) -> &[u8]
        ensures value { result.now ≡ image_of self.now file page }
        ensures len { length result.now ≡ 4096 }
    {
        self.content(file, page)
    }

    // One past the last page of a file that it holds, and 0 where there is none.
    fn longest(&self, file: u8) -> u32
        ensures value { result ≡ length_in (spots_of self.now) file }
        ensures rest { (p : ℕ) → result ≤ p → image_of self.now file p ≡ zero_page }
    {
        replay::length_of(&self.spots, file)
    }

    /// Puts the content on a page, synced at once and counted as no call. Only before the first
    /// call. False exactly where the page isn't held and the room for pages is spent; then all
    /// stays.
    pub fn set_page(&mut self, file: u8, page: u32, content: &[u8; 4096]) -> bool
        requires file { file ≤ 13 }
        requires page { page < 2 ^ 32 - 1 }
        requires unused { self.old.calls ≡ 0 }
        ensures held { result ≡ not (is_full self.old file page) }
        ensures put { IsTrue result → self.new ≡ with_held self.old file page content.now }
        ensures kept { result ≡ false → self.new ≡ self.old }
        ensures written { IsTrue result → image_of self.new ≡ with_page (image_of self.old) file
            page content.now }
        ensures durable { Only (image_of self.new) (choices_of self.new self.new.calls) }
        ensures some { MayLeave (choices_of self.new self.new.calls) (image_of self.new) }
    {
        let Some(place) = hold(
            &mut self.spots,
            &mut self.contents,
            self.page_room,
            file,
            page,
        ) else {
            return false;
        };
        self.contents[place] = *content;
        let held = Held {
            file,
            page,
            content: *content,
        };
        if place < self.start.len() {
            self.start[place] = held;
        } else {
            self.start.push(held).unwrap();
        }
        true
    }

    /// The disk that a crash at the moment leaves: over the pages with writes since the last sync
    /// before it, by file and page, the j-th page gets its synced content where choice j, cut to
    /// their number, is 0, and else its m-th such write. A choice that isn't there is 0. The new
    /// disk has the same rooms, no failing calls and no call so far. The moment is at most the
    /// number of calls.
    pub fn crash(&self, moment: u32, choice: &[u32]) -> Result<MemDisk, NoMemory>
        requires { moment ≤ self.now.calls }
        ensures ok { IfOk result (λ disk. disk ≡ crashed self.now moment choice.now) }
        ensures left { IfOk result (λ disk. MayLeave (choices_of self.now moment) (image_of disk)) }
        ensures durable { IfOk result (λ disk. Only (image_of disk) (choices_of disk disk.calls)) }
        ensures some { IfOk result (λ disk. MayLeave (choices_of disk disk.calls) (image_of disk)) }
    {
        self.replay(moment, choice)
    }

    // The disk that a crash at the moment leaves.
    fn replay(&self, moment: u32, choice: &[u32]) -> Result<MemDisk, NoMemory>
        ensures { IfOk result (λ disk. disk ≡ crashed self.now moment choice.now) }
    {
        let log = &self.log[..(moment as usize).min(self.log.len())];
        let room = self.page_room as usize;
        let spots = replay::spots_held(self.alloc, &self.start, log, room)?;
        let waiting = replay::waiting(self.alloc, &self.start, log, &spots)?;
        let start = replay::settled(self.alloc, &self.start, log, &spots, &waiting, choice, room)?;
        let contents = replay::contents_of(self.alloc, &start, room)?;
        Ok(MemDisk {
            alloc: self.alloc,
            start,
            spots,
            contents,
            log: Vec::with_capacity(self.alloc, self.call_room as usize)?,
            page_room: self.page_room,
            call_room: self.call_room,
            failing: Calls::none(),
            calls: 0,
            faults: 0,
        })
    }
}

impl Disk for MemDisk {
    ghost tells = { true };

    ghost seen = { image_of };

    ghost leaves = { choices_of };

    ghost calls = { λ d. d.calls };

    ghost faults = { λ d. d.faults };

    ghost told = { λ d t f p c _. (refl, seen_is_left d d.calls) };

    fn read(&mut self, file: u8, page: u32, buf: &mut [u8; 4096]) -> Result<(), Failed>
        requires file { file ≤ 13 }
        requires page { page < 2 ^ 32 - 1 }
        ensures content { IsTrue true → OnOk result (buf.new ≡ image_of self.old file page) }
        ensures seen { IsTrue true → image_of self.new ≡ image_of self.old }
        ensures crash { Same (choices_of self.old self.old.calls)
            (choices_of self.new self.new.calls) }
        ensures past { Advances self.old.calls self.new.calls (choices_of self.old)
            (choices_of self.new) }
        ensures cause { HasCause self.old.faults self.new.faults result }
        ensures counted { Counted self.old.faults self.new.faults result }

        // exactly when it fails, and what stays
        ensures exact { RecordsLook self.old self.new result }
    {
        self.make(Call::Idle)?;
        *buf = *self.content(file, page);
        Ok(())
    }

    fn write(&mut self, file: u8, page: u32, content: &[u8; 4096]) -> Result<(), Failed>
        requires file { file ≤ 13 }
        requires page { page < 2 ^ 32 - 1 }
        ensures written { IsTrue true
            → OnOk result (image_of self.new ≡ with_page (image_of self.old) file page content.now) }
        ensures seen { IsTrue true → WrittenOrNot file page content.now (image_of self.old)
            (image_of self.new) }
        ensures crash { Adds file page content.now result (choices_of self.old self.old.calls)
            (choices_of self.new self.new.calls) }
        ensures past { Advances self.old.calls self.new.calls (choices_of self.old)
            (choices_of self.new) }
        ensures cause { HasCause self.old.faults self.new.faults result }
        ensures counted { Counted self.old.faults self.new.faults result }

        // exactly when it fails, and what stays
        ensures exact { RecordsWrite file page content.now self.old self.new result }
    {
        self.put(file, page, content)
    }

    fn sync(&mut self) -> Result<(), Failed>
        ensures seen { IsTrue true → image_of self.new ≡ image_of self.old }
        ensures durable { OnOk result (Only (image_of self.new)
            (choices_of self.new self.new.calls)) }
        ensures undone { OnErr result (Same (choices_of self.old self.old.calls)
            (choices_of self.new self.new.calls)) }
        ensures crash { NoMore (choices_of self.old self.old.calls)
            (choices_of self.new self.new.calls) }
        ensures past { Advances self.old.calls self.new.calls (choices_of self.old)
            (choices_of self.new) }
        ensures cause { HasCause self.old.faults self.new.faults result }
        ensures counted { Counted self.old.faults self.new.faults result }

        // exactly when it fails, and what stays
        ensures exact { RecordsSync self.old self.new result }
    {
        self.make(Call::Sync)
    }

    fn length(&mut self, file: u8) -> Result<u32, Failed>
        requires { file ≤ 13 }
        ensures rest { IsTrue true → IfOk result (λ pages. (p : ℕ) → pages ≤ p
            → image_of self.old file p ≡ zero_page) }
        ensures seen { IsTrue true → image_of self.new ≡ image_of self.old }
        ensures crash { Same (choices_of self.old self.old.calls)
            (choices_of self.new self.new.calls) }
        ensures past { Advances self.old.calls self.new.calls (choices_of self.old)
            (choices_of self.new) }
        ensures cause { HasCause self.old.faults self.new.faults result }
        ensures counted { Counted self.old.faults self.new.faults result }

        // exactly when it fails, what it answers, and what stays
        ensures exact { RecordsLook self.old self.new result }
        ensures value { IfOk result (λ pages. pages ≡ length_in (spots_of self.old) file) }
    {
        self.make(Call::Idle)?;
        Ok(self.longest(file))
    }
}
