ghost use Rattle.std.specs.Prelude.{◌≡◌, ◌-◌, ◌≤◌, length};

use kv_base::{NoMemory, Place};
use kv_slot::{
    HeadRead, Large, PageList, Slot, class_of, large_slots_read_again, link_of, page_stamp,
    put_fitting, put_head, put_item, put_large, put_tombstone, read_fitting, read_head, read_large,
    read_slot, slots_read_again, slots_stay_in_place, spot,
};
use std::alloc::Global;
use std::test::*;

fn page_full_of(byte: u8) -> [u8; 4096]
    ensures { length result ≡ 4096 }
{
    [byte; 4096]
}

fn part(bytes: &[u8], begin: usize, end: usize) -> &[u8]
    requires order { begin ≤ end }
    requires within { end ≤ length bytes.now }
    ensures { length result.now ≡ end - begin }
{
    &bytes[begin..end]
}

fn is_full_of(bytes: &[u8], byte: u8) -> bool {
    bytes.iter().all(|there| *there == byte)
}

fn same(bytes: &[u8], others: &[u8]) -> bool {
    bytes == others
}

#[test]
fn classes_and_places_are_those_of_the_table(rt: HostRuntime) {
    let classes = [
        (0, 5, None, "no key"),
        (1, 0, Some(1), "a key alone"),
        (1, 46, Some(1), "47 bytes"),
        (1, 47, Some(1), "48 bytes"),
        (1, 48, Some(2), "49 bytes"),
        (1, 4_079, Some(7), "4,080 bytes"),
        (1, 4_080, Some(8), "4,081 bytes"),
        (255, 65_145, Some(11), "65,400 bytes"),
        (255, 65_146, None, "65,401 bytes"),
        (256, 0, None, "a key of 256"),
        (1, usize::MAX, None, "a sum past the type"),
    ];
    for (key_len, value_len, class, message) in classes {
        assert!(rt; class_of(key_len, value_len) == class, "{message}");
    }
    let places = [
        (1, 65, 1, 64, "64 slots a page"),
        (2, 33, 1, 128, "32 slots a page"),
        (6, 3, 1, 2_048, "2 slots a page"),
        (7, 5, 5, 0, "a slot a page"),
        (8, 5, 10, 0, "2 pages a slot"),
        (11, 16_777_215, 268_435_440, 0, "16 pages a slot"),
    ];
    for (class, slot, page, offset, message) in places {
        assert!(rt; class >= 1 && class <= 11 && slot < 16_777_216, "{message}");
        assert!(rt; spot(Place { class, slot }) == (page, offset), "{message}");
    }
}

#[test]
fn a_small_slot_is_written_byte_by_byte(rt: HostRuntime) {
    // stamp 0x0102030405060708, kind 1, key length 3, value length 5, least byte first
    let front = b"\x08\x07\x06\x05\x04\x03\x02\x01\x01\x00\x03\x00\x05\x00\x00\x00keyvalue";
    let mut page = page_full_of(0xff);
    put_item(&mut page, 1, 64, 0x0102_0304_0506_0708, b"key", b"value");
    assert!(rt; same(part(&page, 64, 88), front), "header, key and value");
    assert!(rt;
        is_full_of(part(&page, 88, 128), 0),
        "zeros to the slot's end"
    );
    assert!(rt; is_full_of(part(&page, 0, 64), 0xff), "the slot before");
    assert!(rt;
        is_full_of(part(&page, 128, 4096), 0xff),
        "the slots behind"
    );
    assert!(rt;
        is_item(
            &read_slot(&page, 1, 64),
            0x0102_0304_0506_0708,
            b"key",
            b"value"
        ),
        "read again"
    );
}

#[test]
fn the_largest_small_item_fills_its_page(rt: HostRuntime) {
    // 4,079 is 0x0fef
    let front = b"\x09\x00\x00\x00\x00\x00\x00\x00\x01\x00\x01\x00\xef\x0f\x00\x00k";
    let source = page_full_of(b'v');
    let value = part(&source, 0, 4_079);
    let mut page = page_full_of(0xff);
    put_item(&mut page, 7, 0, 9, b"k", value);
    assert!(rt; same(part(&page, 0, 17), front));
    assert!(rt;
        is_full_of(part(&page, 17, 4096), b'v'),
        "the value to the page's end"
    );
    assert!(rt; page_stamp(&page) == 9);
}

fn is_item(slot: &Slot, stamp: u64, key: &[u8], value: &[u8]) -> bool {
    *slot == Slot::Item { stamp, key, value }
}

/// The page with these six bytes of a header, from the kind on, in its second class 1 slot.
fn page_with(header: [u8; 6]) -> [u8; 4096] {
    let mut page = page_full_of(0);
    page[64] = 9;
    page[72..78].copy_from_slice(&header);
    page[80] = b'k';
    page[81] = b'v';
    page
}

/// What the slot reads as: the variant, and the link's number or the lengths.
fn told(slot: &Slot) -> (char, usize, usize) {
    match slot {
        Slot::Never { .. } => ('n', 0, 0),
        Slot::Item { key, value, .. } => ('i', key.len(), value.len()),
        Slot::Tombstone { link: None, .. } => ('t', 0, 0),
        Slot::Tombstone {
            link: Some(slot),
            ..
        } => ('l', *slot as usize, 0),
        Slot::Bad { .. } => ('b', 0, 0),
    }
}

#[test]
fn kind_and_lengths_decide_what_a_slot_reads_as(rt: HostRuntime) {
    let cases = [
        ([0, 0, 1, 0, 1, 0], ('n', 0, 0), "kind 0"),
        ([2, 0, 0, 0, 0, 0], ('t', 0, 0), "kind 2, no link"),
        ([2, 0, 7, 7, 1, 0], ('l', 0, 0), "kind 2, slot 0"),
        ([2, 0, 0, 0, 0, 1], ('l', 255, 0), "kind 2, slot 255"),
        ([7, 0, 1, 0, 1, 0], ('b', 0, 0), "kind 7"),
        ([1, 1, 1, 0, 1, 0], ('b', 0, 0), "kind 257"),
        ([1, 0, 1, 0, 1, 0], ('i', 1, 1), "an item"),
        ([1, 0, 48, 0, 0, 0], ('i', 48, 0), "a key to the slot's end"),
        (
            [1, 0, 1, 0, 47, 0],
            ('i', 1, 47),
            "a value to the slot's end",
        ),
        ([1, 0, 0, 0, 1, 0], ('b', 0, 0), "no key"),
        ([1, 0, 255, 0, 0, 0], ('b', 0, 0), "a key past the slot"),
        ([1, 0, 0, 1, 0, 0], ('b', 0, 0), "a key of 256"),
        ([1, 0, 1, 0, 48, 0], ('b', 0, 0), "a value past the slot"),
        ([1, 0, 1, 0, 0, 255], ('b', 0, 0), "a value past the page"),
    ];
    for (header, slot, message) in cases {
        let page = page_with(header);
        assert!(rt; told(&read_slot(&page, 1, 64)) == slot, "{message}");
        assert!(rt;
            told(&read_fitting(&page, 1, 64)) == slot,
            "{message}, in a store of one class"
        );
    }
}

#[test]
fn an_item_stands_in_its_least_class(rt: HostRuntime) {
    let source = page_full_of(b'v');
    let value = part(&source, 0, 48);
    let mut page = page_full_of(0);
    put_item(&mut page, 2, 128, 6, b"k", value);
    assert!(rt;
        is_item(&read_slot(&page, 2, 128), 6, b"k", value),
        "49 bytes at class 2"
    );

    // 48 bytes fit class 2, but class 1 holds them
    let value = part(&source, 0, 47);
    put_fitting(&mut page, 2, 128, 7, b"k", value);
    assert!(rt; is_item(&read_fitting(&page, 2, 128), 7, b"k", value));
    assert!(rt; read_slot(&page, 2, 128) == Slot::Bad { stamp: 7 });
}

#[test]
fn a_tombstone_keeps_its_link(rt: HostRuntime) {
    let bytes = b"\x03\x00\x00\x00\x00\x00\x00\x00\x02\x00\x00\x00\x05\x00\x00\x00";
    let mut page = page_full_of(0xff);
    put_tombstone(&mut page, 1, 128, 3, Some(4));
    assert!(rt; same(part(&page, 128, 144), bytes));
    assert!(rt; is_full_of(part(&page, 144, 192), 0));
    assert!(rt; is_full_of(part(&page, 0, 128), 0xff) && is_full_of(part(&page, 192, 4096), 0xff));
    assert!(rt; link_of(&page, 1, 128) == Some(4));
    put_tombstone(&mut page, 8, 0, 4, None);
    assert!(rt;
        is_full_of(part(&page, 16, 4096), 0),
        "the first page of a large slot"
    );
    assert!(rt; link_of(&page, 8, 0) == None);
    slots_read_again();
    slots_stay_in_place();
}

/// A head page with another byte at the place.
fn head_with(place: usize, byte: u8) -> [u8; 4096] {
    let mut page = page_full_of(0xff);
    put_head(&mut page, 2, 3);
    if let Some(there) = page.get_mut(place) {
        *there = byte;
    }
    page
}

#[test]
fn a_head_page_names_its_worker(rt: HostRuntime) {
    let head = head_with(4096, 0);
    assert!(rt; same(part(&head, 0, 14), b"KVPAGED1\x01\x00\x02\x00\x03\x00"));
    assert!(rt; is_full_of(part(&head, 14, 4096), 0));
    assert!(rt;
        read_head(&head)
            == HeadRead::Head {
                worker: 2,
                workers: 3
            }
    );
    assert!(rt; read_head(&page_full_of(0)) == HeadRead::Zero);
    let others = [
        (0, b'X', "another first letter"),
        (8, 2, "another format"),
        (9, 1, "a format of two bytes"),
        (10, 3, "a worker past the last"),
        (12, 17, "17 workers"),
        (12, 0, "no worker"),
        (14, 1, "a byte behind the numbers"),
        (4_095, 1, "a byte at the end"),
    ];
    for (place, byte, message) in others {
        assert!(rt;
            read_head(&head_with(place, byte)) == HeadRead::Other,
            "{message}"
        );
    }
}

/// The pages of an item, where its class is a large one.
fn pages_of(
    alloc: Global,
    stamp: u64,
    key: &[u8],
    value: &[u8],
) -> Result<Option<PageList>, NoMemory> {
    match class_of(key.len(), value.len()) {
        Some(class) if class >= 8 => Ok(Some(put_large(alloc, class, stamp, key, value)?)),
        _ => Ok(None),
    }
}

/// What the pages of a slot of the class read as: the variant, and whether it has this key and
/// value.
fn told_large(
    alloc: Global,
    pages: &[[u8; 4096]],
    class: u8,
    key: &[u8],
    value: &[u8],
) -> (char, bool) {
    let count = match class {
        8 => 2,
        11 => 16,
        _ => return ('?', false),
    };
    if pages.len() != count {
        return ('?', false);
    }
    match read_large(alloc, pages, class) {
        Ok(Large::Never { .. }) => ('n', false),
        Ok(
            Large::Item {
                key: read_key,
                value: read_value,
                ..
            },
        ) => (
            'i',
            same(read_key.as_slice(), key) && same(read_value.as_slice(), value),
        ),
        Ok(Large::Tombstone { link, .. }) => ('t', link == Some(4_079)),
        Ok(Large::Bad { .. }) => ('b', false),
        Ok(Large::Torn { .. }) => ('o', false),
        Err(NoMemory) => ('m', false),
    }
}

#[test]
fn a_large_item_is_read_again_and_torn_by_another_stamp(rt: HostRuntime) -> Result<(), Fail> {
    // 4,081 bytes: 4,080 in the first page, 1 in the second; 4,080 is 0x0ff0
    let front = b"\x09\x00\x00\x00\x00\x00\x00\x00\x01\x00\x01\x00\xf0\x0f\x00\x00k";
    let source = page_full_of(b'v');
    let value = part(&source, 0, 4_080);
    let alloc = rt.alloc();
    let pages = pages_of(alloc, 9, b"k", value)
        .ok()
        .flatten()
        .ok_or("class 8")?;
    let [first, second] = pages.as_slice() else {
        return Err("2 pages".into());
    };
    assert!(rt; same(part(first, 0, 17), front));
    assert!(rt; is_full_of(part(first, 17, 4096), b'v'));
    assert!(rt; same(part(second, 0, 9), b"\x09\x00\x00\x00\x00\x00\x00\x00v"));
    assert!(rt; is_full_of(part(second, 9, 4096), 0));
    assert!(rt; told_large(alloc, &[*first, *second], 8, b"k", value) == ('i', true));

    // another stamp in the second page, and then another header
    let mut other = *second;
    other[0] = 8;
    assert!(rt; told_large(alloc, &[*first, other], 8, b"k", value) == ('o', false));
    let mut bad = *first;
    bad[10] = 0;
    assert!(rt; told_large(alloc, &[bad, other], 8, b"k", value) == ('b', false));
    bad[8] = 2;
    assert!(rt; told_large(alloc, &[bad, other], 8, b"k", value) == ('t', true));
    bad[8] = 0;
    assert!(rt; told_large(alloc, &[bad, other], 8, b"k", value) == ('n', false));
    large_slots_read_again();
    Ok(())
}

#[test]
fn the_largest_item_has_16_pages(rt: HostRuntime) -> Result<(), Fail> {
    let alloc = rt.alloc();
    let key = vec![in alloc; b'k'; 255]?;
    let value = vec![in alloc; b'v'; 65_146]?;
    let pages = pages_of(alloc, 1, &key, &value[..65_145])
        .ok()
        .flatten()
        .ok_or("class 11")?;
    assert!(rt; told_large(alloc, pages.as_slice(), 11, &key, &value[..65_145]) == ('i', true));
    let none = pages_of(alloc, 1, &key, &value).ok().flatten();
    assert!(rt; none.is_none(), "no class holds one more byte");
    Ok(())
}
