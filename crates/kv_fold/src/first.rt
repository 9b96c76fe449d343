ghost use Rattle.std.specs.Prelude.{◌≡◌, ◌≤◌, IfOk, IfSome, IsNone, OnOk, All, Some, true};
ghost use Rattle.std.specs.FinMap.{empty};
ghost use Rattle.kv_model.specs.Fold.{TakingFirst, item_size, most_bytes};
ghost use Rattle.kv_fold.specs.Bags.{IsItem};
ghost use Rattle.kv_fold.specs.States.{first_state, state_of};
ghost use Rattle.kv_fold.specs.Prefixes.{is_past, accept, accept_all, close};
ghost use Rattle.kv_fold.specs.Places.{HasPlace, IsPlace, IsLeftOut, placed};

use crate::Fold;
use crate::items::{drop_from, find_gap, make_room};
use crate::result_bytes::write_items;
use kv_base::{Bytes, NoMemory};
use std::alloc::Global;
use std::marker::Model;

/// The first items by rising key: as many as the fold is to take, and at most 60,000 bytes of them,
/// where an item has 5 bytes, those of its key and those of its value. An item that doesn't fit any
/// more is never copied. Contracts see the items, and the least key that no longer fitted.
#[derive(Debug, Drop)]
pub struct First {
    alloc: Global,
    most: u16,
    items: Vec<(Bytes, Bytes)>,
    bytes: usize,
    cut: Option<Bytes>,
}

impl Model for First {
    ghost use Rattle.kv_fold.specs.Firsts.{FirstItems, first_items_code, AreFirst};

    ghost Value = { FirstItems };

    ghost coded = { first_items_code };

    ghost view = { λ s. record {
      most = s.most;
      first = record { items = s.items.items; cut = s.cut };
    } };

    ghost invariant = { λ s. AreFirst s.most s.bytes s.items.items };
}

impl First {
    /// The fold of no item, which takes at most `most`. It takes no memory, and keeps the allocator
    /// for the items that it copies.
    pub fn new(alloc: Global, most: u16) -> First
        ensures most { result.most ≡ most }
        ensures empty { first_state most result.first ≡ state_of (TakingFirst most) empty }
    {
        First {
            alloc,
            most,
            items: Vec::new(alloc),
            bytes: 0,
            cut: None,
        }
    }

    // Whether the key is above the least that didn't fit.
    fn is_past(&self, key: &[u8]) -> bool
        ensures { result ≡ is_past self.now.first.cut key.now }
    {
        match &self.cut {
            None => false,
            Some(cut) => cut.as_slice().cmp(key).is_lt(),
        }
    }

    // Makes the place of an item of this key and size, and answers it. `None` where there is none,
    // and then the item needn't be kept.
    fn make_place(&mut self, key: &[u8], size: usize) -> Result<Option<usize>, NoMemory>
        requires { size ≤ 65405 }
        ensures most { self.new.most ≡ self.old.most }
        ensures place { IfOk result (λ place. IfSome place (λ at. IsPlace self.old.most at size
            key.now self.old.first self.new.first)) }
        ensures none { IfOk result (λ place. IsNone place → IsLeftOut self.old.most size
            key.now self.old.first self.new.first) }
    {
        if self.is_past(key) {
            return Ok(None);
        }
        let Some(place) = find_gap(&self.items, key) else {
            return Ok(None);
        };
        let fits = make_room(
            self.most,
            &mut self.items,
            &mut self.bytes,
            &mut self.cut,
            place,
            size,
        );
        if fits {
            return Ok(Some(place));
        }
        self.cut = Some(Bytes::copy(self.alloc, key)?);
        Ok(None)
    }

    // Inserts an item at the place that was made for it.
    fn insert(&mut self, place: usize, key: Bytes, value: Bytes) -> Result<(), NoMemory>
        requires item { IsItem key value }
        requires place { HasPlace self.old.most place (item_size (key, value)) key
            self.old.first.items }
        ensures most { self.new.most ≡ self.old.most }
        ensures ok { OnOk result (self.new.first ≡ placed true place key value self.old.first) }
    {
        let size = 5 + key.len() + value.len();
        self.items.insert(place, (key, value))?;
        self.bytes += size;
        Ok(())
    }

    // Takes an item in.
    fn accept(&mut self, key: Bytes, value: Bytes) -> Result<(), NoMemory>
        requires { IsItem key value }
        ensures most { self.new.most ≡ self.old.most }
        ensures ok { OnOk result (self.new.first
            ≡ accept self.old.most most_bytes key value self.old.first) }
    {
        let size = 5 + key.len() + value.len();
        let Some(place) = self.make_place(key.as_slice(), size)? else {
            return Ok(());
        };
        self.insert(place, key, value)?;
        Ok(())
    }

    // Takes items in.
    fn accept_all(&mut self, items: Vec<(Bytes, Bytes)>) -> Result<(), NoMemory>
        requires { All (λ item. IsItem item.0 item.1) items.items }
        ensures most { self.new.most ≡ self.old.most }
        ensures ok { OnOk result (self.new.first
            ≡ accept_all self.old.most most_bytes items.items self.old.first) }
    {
        for (key, value) in items {
            self.accept(key, value)?;
        }
        Ok(())
    }

    // Drops the items from another fold's cut on.
    fn close(&mut self, cut: Bytes)
        ensures most { self.new.most ≡ self.old.most }
        ensures first { self.new.first ≡ close (Some cut) self.old.first }
    {
        if self.is_past(cut.as_slice()) {
            return;
        }
        self.bytes = drop_from(&mut self.items, self.bytes, cut.as_slice());
        self.cut = Some(cut);
    }

    // Drops the items from another fold's cut on, where it has one.
    fn close_at(&mut self, cut: Option<Bytes>)
        ensures most { self.new.most ≡ self.old.most }
        ensures first { self.new.first ≡ close cut self.old.first }
    {
        match cut {
            None => {}
            Some(cut) => self.close(cut),
        }
    }

    // The most items.
    fn most(&self) -> u16
        ensures { result ≡ self.now.most }
    {
        self.most
    }

    // What it keeps.
    fn into_parts(self) -> (Vec<(Bytes, Bytes)>, Option<Bytes>)
        ensures items { result.0.items ≡ self.first.items }
        ensures cut { result.1 ≡ self.first.cut }
        ensures each { All (λ item. IsItem item.0 item.1) result.0.items }
    {
        (self.items, self.cut)
    }
}

impl Fold for First {
    ghost state = { λ s. first_state s.most s.first };

    fn add(&mut self, key: &[u8], value: &[u8]) -> Result<(), NoMemory> {
        let size = 5 + key.len() + value.len();
        let Some(place) = self.make_place(key, size)? else {
            return Ok(());
        };
        let key = Bytes::copy(self.alloc, key)?;
        let value = Bytes::copy(self.alloc, value)?;
        self.insert(place, key, value)?;
        Ok(())
    }

    fn merge(&mut self, other: Self) -> Result<(), NoMemory> {
        if self.most() != other.most() {
            return Ok(());
        }
        let (items, cut) = other.into_parts();
        self.accept_all(items)?;
        self.close_at(cut);
        Ok(())
    }

    fn result(&self, alloc: Global) -> Result<Bytes, NoMemory> {
        let _most = self.most;
        let bytes = write_items(alloc, &self.items, 2 + self.bytes)?;
        Ok(Bytes::from_vec(bytes))
    }
}
