use crate::asked::{Told, found};
use crate::cases::{Held, Value};
use kv_base::NoMemory;
use kv_disk::MemDisk;
use kv_lanes::is_zero;
use kv_model::{PlainImage, Stored};
use std::alloc::Global;
use std::test::Fail;

/// How many pages of each file are looked at. Of a disk with more of them an item or the floor is
/// missed.
pub const PAGES: [u16; 12] = [1, 1, 1, 1, 1, 1, 1, 2, 6, 8, 0, 0];

/// What the plain reader finds on a disk: what each key has, how many items are kept, and the
/// greatest number at the head of a page of a slot.
#[derive(Drop)]
pub struct Plain {
    pub values: Vec<Value>,
    pub count: usize,
    pub floor: u64,
}

// Copies the page into the image, if it has a byte other than zero.
fn copy_page(image: &mut PlainImage, file: u8, number: u16, page: &[u8]) -> Result<(), NoMemory> {
    if page.len() == 4096 && !is_zero(page) {
        let mut content = [0; 4096];
        content.copy_from_slice(page);
        image.write_page(file, number, &content)?;
    }
    Ok(())
}

// What the disk reads as, so far as the files of the classes go.
fn image_of(alloc: Global, disk: &MemDisk) -> Result<PlainImage, NoMemory> {
    let mut image = PlainImage::new(alloc);
    for file in 1..12 {
        for number in 0..PAGES[file as usize] {
            copy_page(&mut image, file, number, disk.page(file, u32::from(number)))?;
        }
    }
    Ok(image)
}

// A value that is a byte so often. No key of the tables has the one that stands for all others.
fn value_of(value: &[u8]) -> Value {
    match found(value) {
        Told::Found(byte, count) => (byte, count),
        _ => (0, usize::MAX),
    }
}

// What the items give the key.
fn value_in(kept: &[Stored], key: &[u8]) -> Value {
    match kept.iter().find(|item| item.key.as_slice() == key) {
        Some(item) => value_of(item.value.as_slice()),
        None => (0, 0),
    }
}

// What the items give each of the keys.
fn values_in(alloc: Global, kept: &[Stored], keys: &[Held]) -> Result<Vec<Value>, NoMemory> {
    let mut values = Vec::new(alloc);
    for held in keys {
        values.push(value_in(kept, held.0))?;
    }
    Ok(values)
}

/// Reads the disk of worker 0 of 1.
pub fn read(alloc: Global, disk: &MemDisk, keys: &[Held]) -> Result<Plain, Fail> {
    let image = image_of(alloc, disk)?;
    let kept = image.kept(0, 1)?;
    Ok(Plain {
        values: values_in(alloc, &kept, keys)?,
        count: kept.len(),
        floor: image.floor()?,
    })
}

// How many of the keys have a value.
fn count_of(values: &[Value]) -> usize {
    values.iter().filter(|value| value.1 != 0).count()
}

/// Whether the plain reader finds these values, no other item and this floor.
pub fn is_told(plain: &Plain, values: &[Value], floor: u64) -> bool {
    plain.values.as_slice() == values && plain.count == count_of(values) && plain.floor == floor
}
