ghost use Rattle.std.specs.Prelude.{◌≡◌, ◌+◌, ◌^◌, ◌<◌, ◌≤◌, ◌∷◌, ◌++◌, [], Some, IfOk, OnErr};
ghost use Rattle.std.specs.Prelude.{MatchOption, length};
ghost use Rattle.std.specs.Option.{ForSome};
ghost use Rattle.kv_base.specs.Image.{Image};
ghost use Rattle.kv_model.specs.Layout.{all_classes, class_of, slot_size};
ghost use Rattle.kv_model.specs.Reading.{page_of};
ghost use Rattle.kv_model.specs.SlotBytes.{item_bytes, tombstone_bytes};
ghost use Rattle.kv_slot.specs.Overwrite.{overwritten};
ghost use Rattle.kv_slab.specs.Images.{Sets};
ghost use Rattle.kv_slab.specs.Moves.{IsSlabPlace};
ghost use Rattle.kv_slab.specs.Pages.{over, AreApart, ArePages, Missing, HasAt};

use crate::page::Page;
use crate::read::place_spot;
use kv_base::{NoMemory, Place};
use kv_slot::{put_item, put_tombstone};
use std::alloc::Global;
use std::collections::HashMap;
use std::marker::Model;

/// The pages that are planned for a round, each found by its file and its page. Contracts see the
/// list.
#[derive(Drop)]
pub struct Round {
    pages: Vec<Page>,
    places: HashMap<(u8, u32), usize>,
}

impl Model for Round {
    ghost use Rattle.std.specs.Prelude.{List};
    ghost use Rattle.kv_slab.specs.declared.page.Page.{Page as Paged};
    ghost use Rattle.kv_slab.specs.Pages.{AreLocated};

    ghost Value = { List Paged };

    ghost view = { λ r. r.pages.items };

    ghost invariant = { λ r. AreLocated r.places r.pages.items };
}

impl Round {
    /// No page yet.
    pub fn new(alloc: Global) -> Round
        ensures { result ≡ [] }
    {
        Round {
            pages: Vec::new(alloc),
            places: HashMap::new(alloc),
        }
    }

    /// Where a page is in the list. `None` exactly where it isn't there.
    pub fn find(&self, file: u8, page: u32) -> Option<usize>
        ensures { MatchOption result (Missing file page self.now)
            (λ at. HasAt self.now at file page) }
    {
        self.places.get(&(file, page)).copied()
    }

    /// What a page is to be. `None` exactly where it isn't there.
    pub fn content(&self, file: u8, page: u32) -> Option<&[u8; 4096]>
        ensures { MatchOption result (Missing file page self.now) (λ content. (image : Image)
            → AreApart self.now → content.now ≡ over image self.now file page) }
    {
        match self.find(file, page) {
            Some(at) => Some(&self.pages[at].content),
            None => None,
        }
    }

    /// Appends a page that isn't there, and answers where it is. The one error is want of memory.
    pub fn push(&mut self, held: Page) -> Result<usize, NoMemory>
        requires { Missing held.file held.page self.old }
        ensures at { IfOk result (λ at. at ≡ length self.old) }
        ensures ok { IfOk result (λ _. self.new ≡ self.old ++ held ∷ []) }
        ensures err { OnErr result (self.new ≡ self.old) }
    {
        let at = self.pages.len();
        let spot = (held.file, held.page);
        self.pages.push(held)?;
        match self.places.insert(spot, at) {
            Ok(_) => Ok(at),
            Err(_) => {
                let _ = self.pages.pop();
                Err(NoMemory)
            }
        }
    }

    /// Puts an item of the classes 1 to 7 into its page, which is in the list.
    pub fn put_item(&mut self, at: usize, place: Place, stamp: u64, key: &[u8], value: &[u8])
        requires place { IsSlabPlace place }
        requires small { place.class ≤ 7 }
        requires item { class_of all_classes (length key.now) (length value.now)
            ≡ Some place.class }
        requires at { HasAt self.old at place.class (page_of place.class place.slot) }
        requires pages { ArePages self.old }
        ensures set { (image : Image) → Sets place.class place.slot
            (item_bytes place.class stamp key.now value.now) (over image self.old)
            (over image self.new) }
        ensures pages { ArePages self.new }
        ensures count { length self.new ≡ length self.old }
    {
        let (_, offset) = place_spot(place);
        let held = &mut self.pages[at];
        item_into(&mut held.content, place.class, offset, stamp, key, value);
    }

    /// Puts a tombstone of the classes 1 to 7 into its page, which is in the list.
    pub fn put_tombstone(&mut self, at: usize, place: Place, stamp: u64, link: Option<u32>)
        requires place { IsSlabPlace place }
        requires small { place.class ≤ 7 }
        requires link { ForSome link (λ slot. slot < 2 ^ 24) }
        requires at { HasAt self.old at place.class (page_of place.class place.slot) }
        requires pages { ArePages self.old }
        ensures set { (image : Image) → Sets place.class place.slot
            (tombstone_bytes place.class stamp link) (over image self.old) (over image self.new) }
        ensures pages { ArePages self.new }
        ensures count { length self.new ≡ length self.old }
    {
        let (_, offset) = place_spot(place);
        let held = &mut self.pages[at];
        tombstone_into(&mut held.content, place.class, offset, stamp, link);
    }

    /// The pages alone.
    pub fn into_pages(self) -> Vec<Page>
        ensures { result.items ≡ self }
    {
        let Round { pages, .. } = self;
        pages
    }
}

fn item_into(page: &mut [u8; 4096], class: u8, offset: u32, stamp: u64, key: &[u8], value: &[u8])
    requires class { (1 ≤ class) × (class ≤ 7) }
    requires within { offset + slot_size class ≤ 4096 }
    requires item { class_of all_classes (length key.now) (length value.now) ≡ Some class }
    ensures bytes { page.new ≡ overwritten page.old offset (item_bytes class stamp key.now
        value.now) }
    ensures size { length page.old ≡ 4096 }
{
    put_item(page, class, offset, stamp, key, value);
}

fn tombstone_into(page: &mut [u8; 4096], class: u8, offset: u32, stamp: u64, link: Option<u32>)
    requires class { (1 ≤ class) × (class ≤ 7) }
    requires within { offset + slot_size class ≤ 4096 }
    requires link { ForSome link (λ slot. slot < 2 ^ 24) }
    ensures bytes { page.new ≡ overwritten page.old offset (tombstone_bytes class stamp link) }
    ensures size { length page.old ≡ 4096 }
{
    put_tombstone(page, class, offset, stamp, link);
}
