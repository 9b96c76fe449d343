ghost use Rattle.std.specs.Prelude.{◌≡◌, ℕ, ◌+◌, ◌-◌, ◌^◌, ◌≤◌, ◌<◌, true, [], ◌∷◌, ◌++◌, length};
ghost use Rattle.std.specs.Prelude.{vec_len, vec_capacity, IsTrue, IsOk, IfOk, OnOk, OnErr};
ghost use Rattle.kv_base.specs.Fault.{HasCause, Counted};
ghost use Rattle.kv_base.specs.Image.{zero_page, with_page};
ghost use Rattle.kv_base.specs.Crash.{Only, NoMore, Same, Adds, WrittenOrNot, Advances};
ghost use Rattle.std.specs.HashMap.{hash_map_len, spare};
ghost use Rattle.kv_disk.specs.PlainFields.{Places};
ghost use Rattle.kv_disk.specs.Plain.{place_of, image_of, no_choices, Counts, EndsAt};
ghost use Rattle.kv_disk.specs.Plain.{PlainWrites};

use crate::Disk;
use kv_base::{Failed, NoMemory};
use std::alloc::Global;
use std::collections::HashMap;
use std::marker::Model;

/// A disk in memory that keeps its pages alone and tells what it reads. It tells nothing of
/// crashes. It fails exactly where its room for pages is spent. No call takes memory.
#[derive(Drop)]
pub struct PlainDisk {
    places: HashMap<(u8, u32), usize>,
    contents: Vec<[u8; 4096]>,
    lengths: [u32; 14],
    room: u32,
    calls: u64,
    faults: u64,
}

impl Model for PlainDisk {
    ghost use Rattle.kv_disk.specs.Plain.{Plain};

    ghost Value = { Plain };

    ghost use Rattle.kv_disk.specs.PlainFields.{IsPlain};

    ghost view = { λ d. record {
      places = d.places.entries;
      contents = d.contents.items;
      room = d.room;
      calls = d.calls;
      faults = d.faults;
    } };

    ghost invariant = { λ d. IsPlain d.places d.contents d.lengths d.room };
}

impl PlainDisk {
    /// A disk of zeros with room for so many different pages, which it takes at once.
    pub fn new(alloc: Global, pages: u32) -> Result<PlainDisk, NoMemory>
        ensures ok { IfOk result (λ disk. disk ≡ record {
          places = [];
          contents = [];
          room = pages;
          calls = 0;
          faults = 0;
        }) }
        ensures durable { IfOk result (λ disk. Only (image_of disk) (no_choices disk.calls)) }
    {
        Ok(PlainDisk {
            places: HashMap::with_capacity(alloc, pages as usize)?,
            contents: Vec::with_capacity(alloc, pages as usize)?,
            lengths: [0; 14],
            room: pages,
            calls: 0,
            faults: 0,
        })
    }
}

// Puts a page that is new behind the others.
fn put_new(
    places: &mut HashMap<(u8, u32), usize>,
    contents: &mut Vec<[u8; 4096]>,
    file: u8,
    page: u32,
    content: &[u8; 4096],
)
    requires absent { place_of places.old.entries file page ≡ None }
    requires places { 0 < spare places.old }
    requires contents { vec_len contents.old < vec_capacity contents.old }
    ensures placed { Places (place_of places.old.entries) (place_of places.new.entries) file page
        (length contents.old.items) }
    ensures put { contents.new.items ≡ contents.old.items ++ content.now ∷ [] }
    ensures places_len { hash_map_len places.new ≡ hash_map_len places.old + 1 }
    ensures contents_len { vec_len contents.new ≡ vec_len contents.old + 1 }
    ensures spare { spare places.old ≤ spare places.new + 1 }
    ensures capacity { vec_capacity contents.old ≤ vec_capacity contents.new }
{
    let place = contents.len();
    contents.push(*content).unwrap();
    let put: Result<_, _> = places.insert((file, page), place);
    put.unwrap();
}

impl Disk for PlainDisk {
    ghost tells = { true };

    ghost seen = { λ d. image_of d };

    ghost leaves = { λ _. no_choices };

    ghost calls = { λ d. d.calls };

    ghost faults = { λ d. d.faults };

    ghost told = { λ d t f p c none. absurd none };

    #[tactic(auto, unfolding(kv_base::specs::Image::zero_page))]
    fn read(&mut self, file: u8, page: u32, buf: &mut [u8; 4096]) -> Result<(), Failed>
        requires file { file ≤ 13 }
        requires page { page < 2 ^ 32 - 1 }
        ensures content { IsTrue true → OnOk result (buf.new ≡ image_of self.old file page) }
        ensures seen { IsTrue true → image_of self.new ≡ image_of self.old }
        ensures crash { Same (no_choices self.old.calls) (no_choices self.new.calls) }
        ensures past { Advances self.old.calls self.new.calls no_choices no_choices }
        ensures cause { HasCause self.old.faults self.new.faults result }
        ensures counted { Counted self.old.faults self.new.faults result }

        // it never fails
        ensures ok { IsOk result }
        ensures kept { Counts self.old self.new }
    {
        self.calls = self.calls.saturating_add(1);
        match self.places.get(&(file, page)) {
            Some(place) => *buf = self.contents[*place],
            None => *buf = [0; 4096],
        }
        Ok(())
    }

    fn write(&mut self, file: u8, page: u32, content: &[u8; 4096]) -> Result<(), Failed>
        requires file { file ≤ 13 }
        requires page { page < 2 ^ 32 - 1 }
        ensures written { IsTrue true
            → OnOk result (image_of self.new ≡ with_page (image_of self.old) file page content.now) }
        ensures seen { IsTrue true → WrittenOrNot file page content.now (image_of self.old)
            (image_of self.new) }
        ensures crash { Adds file page content.now result (no_choices self.old.calls)
            (no_choices self.new.calls) }
        ensures past { Advances self.old.calls self.new.calls no_choices no_choices }
        ensures cause { HasCause self.old.faults self.new.faults result }
        ensures counted { Counted self.old.faults self.new.faults result }

        // exactly when it fails
        ensures exact { PlainWrites file page self.old self.new result }
    {
        self.calls = self.calls.saturating_add(1);
        if let Some(place) = self.places.get(&(file, page)).copied() {
            self.contents[place] = *content;
            return Ok(());
        }
        if self.contents.len() >= self.room as usize {
            self.faults = self.faults.saturating_add(1);
            return Err(Failed);
        }
        put_new(&mut self.places, &mut self.contents, file, page, content);
        self.lengths[file as usize] = self.lengths[file as usize].max(page + 1);
        Ok(())
    }

    fn sync(&mut self) -> Result<(), Failed>
        ensures seen { IsTrue true → image_of self.new ≡ image_of self.old }
        ensures durable { OnOk result (Only (image_of self.new) (no_choices self.new.calls)) }
        ensures undone { OnErr result (Same (no_choices self.old.calls) (no_choices self.new.calls)) }
        ensures crash { NoMore (no_choices self.old.calls) (no_choices self.new.calls) }
        ensures past { Advances self.old.calls self.new.calls no_choices no_choices }
        ensures cause { HasCause self.old.faults self.new.faults result }
        ensures counted { Counted self.old.faults self.new.faults result }

        // it never fails
        ensures ok { IsOk result }
        ensures kept { Counts self.old self.new }
    {
        self.calls = self.calls.saturating_add(1);
        Ok(())
    }

    fn length(&mut self, file: u8) -> Result<u32, Failed>
        requires { file ≤ 13 }
        ensures rest { IsTrue true → IfOk result (λ pages. (p : ℕ) → pages ≤ p
            → image_of self.old file p ≡ zero_page) }
        ensures seen { IsTrue true → image_of self.new ≡ image_of self.old }
        ensures crash { Same (no_choices self.old.calls) (no_choices self.new.calls) }
        ensures past { Advances self.old.calls self.new.calls no_choices no_choices }
        ensures cause { HasCause self.old.faults self.new.faults result }
        ensures counted { Counted self.old.faults self.new.faults result }

        // it never fails, and gives the least such number
        ensures ok { IsOk result }
        ensures value { IfOk result (EndsAt self.old file) }
        ensures kept { Counts self.old self.new }
    {
        self.calls = self.calls.saturating_add(1);
        Ok(self.lengths[file as usize])
    }
}
