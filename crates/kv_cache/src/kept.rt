ghost use Rattle.std.specs.Prelude.{◌≡◌, ◌≤◌, [], Some, None, true, false, IfOk, OnOk, OnErr};
ghost use Rattle.std.specs.Prelude.{if◌then◌else◌};
ghost use Rattle.kv_cache.specs.Kept.{IsKept, with_pages, content_of, without, to_front, renewed};
ghost use Rattle.kv_cache.specs.Kept.{with_new};

use kv_base::NoMemory;
use lru::LruCache;
use std::alloc::{AllocFailed, Global};
use std::marker::Model;
use std::num::NonZeroUsize;

/// Contents of pages by file and page, the most recently used first. Contracts see the capacity and
/// the list.
#[derive(Drop)]
pub struct KeptPages {
    alloc: Global,
    copies: LruCache<(u8, u32), Box<[u8; 4096]>>,
    // The memory of the page that went last, for the next that comes.
    spare: Option<Box<[u8; 4096]>>,
}

impl Model for KeptPages {
    ghost use Rattle.std.specs.Prelude.{map};
    ghost use Rattle.kv_cache.specs.Kept.{Kept, IsKept};
    ghost use Rattle.kv_cache.specs.Copies.{kept_of};

    ghost Value = { Kept };

    ghost view = { λ k. kept_of k.copies };

    ghost invariant = { λ k. IsKept (kept_of k.copies) };
}

impl KeptPages {
    /// No page yet. The one error is want of memory.
    pub fn new(alloc: Global, capacity: u32) -> Result<KeptPages, NoMemory>
        requires { (1 ≤ capacity) × (capacity ≤ 1024) }
        ensures ok { IfOk result (λ kept. kept ≡ record { capacity = capacity; pages = [] }) }
    {
        let most = NonZeroUsize::new(capacity as usize).unwrap();
        Ok(KeptPages {
            alloc,
            copies: LruCache::new(alloc, most)?,
            spare: None,
        })
    }

    /// The most pages that it keeps.
    pub fn capacity(&self) -> u32
        ensures capacity { result ≡ self.now.capacity }
        ensures valid { IsKept self.now }
    {
        self.copies.cap().get() as u32
    }

    /// Copies the content of a page that is kept, which comes to the front, and answers whether it
    /// is.
    pub fn copy(&mut self, file: u8, page: u32, out: &mut [u8; 4096]) -> bool
        ensures content { content_of self.old.pages file page ≡ (if result then Some out.new
            else None) }
        ensures pages { self.new ≡ (if result
            then with_pages self.old (to_front self.old.pages file page out.new) else self.old) }
    {
        let Some(content) = self.copies.get(&(file, page)) else {
            return false;
        };
        *out = **content;
        true
    }

    /// Puts a page that isn't kept at the front; where it was full, the last one goes. The one
    /// error is want of memory, and then all stays as before.
    pub fn keep(&mut self, file: u8, page: u32, content: &[u8; 4096]) -> Result<(), NoMemory>
        requires { content_of self.old.pages file page ≡ None }
        ensures ok { OnOk result (self.new
            ≡ with_pages self.old (with_new self.old.capacity self.old.pages file page content.now)) }
        ensures err { OnErr result (self.new ≡ self.old) }
    {
        // The copy is made before the list changes, so that want of memory loses no page.
        let copy = copied(self.alloc, self.spare.take(), content)?;
        match self.copies.push((file, page), copy) {
            Ok(Some((_, last))) => {
                self.spare = Some(last);
                Ok(())
            }
            Ok(None) => Ok(()),
            Err(
                AllocFailed {
                    value: (_, copy),
                    ..
                },
            ) => {
                self.spare = Some(copy);
                Err(NoMemory)
            }
        }
    }

    /// Gives a page that is kept this content and moves it to the front.
    pub fn renew(&mut self, file: u8, page: u32, content: &[u8; 4096])
        ensures { self.new ≡ with_pages self.old (renewed self.old.pages file page content.now) }
    {
        let Some(copy) = self.copies.get_mut(&(file, page)) else {
            return;
        };
        **copy = *content;
    }

    /// Drops a page.
    pub fn remove(&mut self, file: u8, page: u32)
        ensures { self.new ≡ with_pages self.old (without self.old.pages file page) }
    {
        let _ = self.copies.pop(&(file, page));
    }
}

// The content in memory of its own, for which the spare page is used where there is one.
fn copied(
    alloc: Global,
    spare: Option<Box<[u8; 4096]>>,
    content: &[u8; 4096],
) -> Result<Box<[u8; 4096]>, NoMemory>
    ensures { IfOk result (λ copy. copy.value ≡ content.now) }
{
    match spare {
        Some(mut copy) => {
            *copy = *content;
            Ok(copy)
        }
        None => Ok(Box::new(alloc, *content)?),
    }
}
