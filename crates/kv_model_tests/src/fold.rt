use kv_base::{Bytes, NoMemory};
use kv_fold::{AnyFold, ByteSum, CountItems, First, Fold, ValueLengths};
use rand_pcg::Pcg32;
use rand_pcg::rand_core::Rng;
use std::alloc::Global;
use std::test::Fail;

// The folds by the number that a request gives them.
fn fold_of(alloc: Global, number: u32, most: u16) -> AnyFold {
    match number {
        0 => AnyFold::Count(CountItems::new()),
        1 => AnyFold::ValueLengths(ValueLengths::new()),
        2 => AnyFold::ByteSum(ByteSum::new()),
        _ => AnyFold::First(First::new(alloc, most)),
    }
}

// Adds an item, if it has the sizes of one.
fn add<F: Fold>(fold: &mut F, key: &[u8], value: &[u8]) -> Result<(), NoMemory> {
    if key.is_empty() || key.len() > 255 || value.len() > 65145 {
        return Ok(());
    }
    fold.add(key, value)
}

// The result over a list by rising key, worked out item by item.
fn plain(
    alloc: Global,
    number: u32,
    most: u16,
    items: &[(Bytes, Bytes)],
) -> Result<Vec<u8>, NoMemory> {
    let mut total = 0u64;
    let mut count = 0u16;
    let mut room = 60000usize;
    let mut open = true;
    let mut body = Vec::new(alloc);
    for item in items {
        let (key, value) = (item.0.as_slice(), item.1.as_slice());
        let mut sum = 0u64;
        for byte in value {
            sum = sum.wrapping_add(u64::from(*byte));
        }
        let part = match number {
            0 => 1,
            1 => value.len() as u64,
            _ => sum,
        };
        total = total.wrapping_add(part);
        let size = key.len().saturating_add(value.len()).saturating_add(5);
        open = open && count < most && size <= room;
        if open {
            count = count.wrapping_add(1);
            room = room.saturating_sub(size);
            body.push((key.len() % 256) as u8)?;
            body.extend_from_slice(key)?;
            body.extend_from_slice(&((value.len() % 4294967296) as u32).to_le_bytes())?;
            body.extend_from_slice(value)?;
        }
    }
    let mut bytes = Vec::new(alloc);
    if number < 3 {
        bytes.extend_from_slice(&total.to_le_bytes())?;
    } else {
        bytes.extend_from_slice(&count.to_le_bytes())?;
        bytes.extend_from_slice(&body)?;
    }
    Ok(bytes)
}

// The result of three shares, among which the items are drawn in an order that is drawn, and which
// are merged in one of two ways.
fn drawn_result<F: Fold>(
    alloc: Global,
    draw: &mut Pcg32,
    shares: (F, F, F),
    items: &[(Bytes, Bytes)],
) -> Result<Bytes, NoMemory> {
    let (mut one, mut two, mut three) = shares;
    let mut left = Vec::new(alloc);
    for place in 0..items.len() {
        left.push(place)?;
    }
    for _ in 0..items.len() {
        if left.is_empty() {
            break;
        }
        let place = left.swap_remove(draw.next_u32() as usize % left.len());
        if let Some(item) = items.get(place) {
            let (key, value) = (item.0.as_slice(), item.1.as_slice());
            match draw.next_u32() % 3 {
                0 => add(&mut one, key, value)?,
                1 => add(&mut two, key, value)?,
                _ => add(&mut three, key, value)?,
            }
        }
    }
    if draw.next_u32() % 2 == 0 {
        one.merge(two)?;
        one.merge(three)?;
        one.result(alloc)
    } else {
        three.merge(one)?;
        two.merge(three)?;
        two.result(alloc)
    }
}

// Items with the keys `a`, `b` and so on, whose values have these lengths.
fn lettered(alloc: Global, lengths: &[usize]) -> Result<Vec<(Bytes, Bytes)>, NoMemory> {
    let mut items = Vec::new(alloc);
    let mut letter = b'a';
    for length in lengths {
        let value = vec![in alloc; letter; *length]?;
        items.push((Bytes::copy(alloc, &[letter])?, Bytes::from_vec(value)))?;
        letter = letter.wrapping_add(1);
    }
    Ok(items)
}

// Up to 40 items, one in four of which may be a long one. Each second key continues the one before.
fn drawn_items(alloc: Global, draw: &mut Pcg32) -> Result<Vec<(Bytes, Bytes)>, NoMemory> {
    let mut items = Vec::new(alloc);
    for number in 0..40u8 {
        let mut key = Vec::new(alloc);
        key.push(number / 2)?;
        if number % 2 == 1 {
            key.extend_from_slice(&vec![in alloc; 0u8; 1 + draw.next_u32() as usize % 9]?)?;
        }
        let longest = if draw.next_u32() % 4 == 0 { 12000 } else { 9 };
        let length = draw.next_u32() as usize % longest;
        let value = vec![in alloc; (draw.next_u32() % 256) as u8; length]?;
        if draw.next_u32() % 8 != 0 {
            items.push((Bytes::from_vec(key), Bytes::from_vec(value)))?;
        }
    }
    Ok(items)
}

#[test]
fn any_order_and_any_shares_answer_the_fold_of_the_plain_list(rt: HostRuntime) -> Result<(), Fail> {
    let alloc = rt.alloc();
    let mut draw = Pcg32::new(42, 54);
    for round in 0..100 {
        let items = drawn_items(alloc, &mut draw)?;
        for (number, most) in [(0, 0), (1, 0), (2, 0), (3, 0), (3, 2), (3, 17), (3, 65535)] {
            let shares = (
                fold_of(alloc, number, most),
                fold_of(alloc, number, most),
                fold_of(alloc, number, most),
            );
            let result = drawn_result(alloc, &mut draw, shares, &items)?;
            let expected = plain(alloc, number, most, &items)?;
            assert_eq!(rt;
                result.as_slice(),
                expected.as_slice(),
                "round {round}, fold {number}, most {most}"
            );
        }
    }
    Ok(())
}

// An item has 5 bytes, those of its key, here 1, and those of its value.
#[test]
fn the_first_items_end_before_the_first_that_does_not_fit(rt: HostRuntime) -> Result<(), Fail> {
    let alloc = rt.alloc();
    let mut draw = Pcg32::new(1, 2);
    let rows: [(&str, u16, &[usize], u16, usize); 8] = [
        ("60,000 bytes", 9, &[29994, 29994, 0], 2, 60002),
        ("60,001 bytes", 9, &[29994, 29995, 0], 1, 30002),
        ("one alone of 60,000", 9, &[59994], 1, 60002),
        ("the first is too long", 9, &[59995, 1, 1], 0, 2),
        ("the middle one is too long", 65535, &[10, 59985, 10], 1, 18),
        ("none is asked", 0, &[1, 1], 0, 2),
        ("fewer than asked", 65535, &[1, 2, 3], 3, 26),
        ("more than asked", 2, &[1, 2, 3], 2, 17),
    ];
    for (name, most, lengths, count, size) in rows {
        let items = lettered(alloc, lengths)?;
        for _ in 0..20 {
            let shares = (
                First::new(alloc, most),
                First::new(alloc, most),
                First::new(alloc, most),
            );
            let result = drawn_result(alloc, &mut draw, shares, &items)?;
            assert_eq!(rt; result.len(), size, "{name}");
            assert!(rt;
                result.as_slice().starts_with(&count.to_le_bytes()),
                "{name}"
            );
        }
    }
    Ok(())
}

// The values `1`, `2` and `3` of the keys `a`, `b` and `c`, added from the last to the first.
fn result_of_three<F: Fold>(alloc: Global, mut fold: F) -> Result<Bytes, NoMemory> {
    for (key, value) in [(b"c", b"3"), (b"b", b"2"), (b"a", b"1")] {
        add(&mut fold, key, value)?;
    }
    fold.result(alloc)
}

// The bytes are written by hand; 49 + 50 + 51 is 150.
#[test]
fn results_have_the_bytes_that_are_written_by_hand(rt: HostRuntime) -> Result<(), Fail> {
    let alloc = rt.alloc();
    let count = result_of_three(alloc, CountItems::new())?;
    assert_eq!(rt; count.as_slice(), [3, 0, 0, 0, 0, 0, 0, 0].as_slice());
    let lengths = result_of_three(alloc, ValueLengths::new())?;
    assert_eq!(rt; lengths.as_slice(), [3, 0, 0, 0, 0, 0, 0, 0].as_slice());
    let sum = result_of_three(alloc, ByteSum::new())?;
    assert_eq!(rt; sum.as_slice(), [150, 0, 0, 0, 0, 0, 0, 0].as_slice());
    let first = result_of_three(alloc, First::new(alloc, 2))?;
    assert_eq!(rt;
        first.as_slice(),
        b"\x02\0\x01a\x01\0\0\01\x01b\x01\0\0\02".as_slice()
    );
    Ok(())
}

#[test]
fn a_fold_of_another_kind_changes_nothing(rt: HostRuntime) -> Result<(), Fail> {
    let alloc = rt.alloc();
    let folds = [(0, 0), (1, 0), (2, 0), (3, 1), (3, 2)];
    for (number, most) in folds {
        for (other_number, other_most) in folds {
            if number != other_number || most != other_most {
                let mut fold = fold_of(alloc, number, most);
                add(&mut fold, b"a", b"1")?;
                let mut other = fold_of(alloc, other_number, other_most);
                add(&mut other, b"b", b"22")?;
                fold.merge(other)?;
                let result = fold.result(alloc)?;
                let alone = plain(alloc, number, most, &[one_item(alloc)?])?;
                assert_eq!(rt;
                    result.as_slice(),
                    alone.as_slice(),
                    "{number} and {other_number}"
                );
            }
        }
    }
    Ok(())
}

fn one_item(alloc: Global) -> Result<(Bytes, Bytes), NoMemory> {
    Ok((Bytes::copy(alloc, b"a")?, Bytes::copy(alloc, b"1")?))
}

fn crosses_threads<F: Fold + Send>(fold: F) -> F {
    fold
}

#[test]
fn folds_cross_threads(rt: HostRuntime) -> Result<(), Fail> {
    let alloc = rt.alloc();
    let mut fold = crosses_threads(fold_of(alloc, 3, 1));
    add(&mut fold, b"a", b"1")?;
    let result = crosses_threads(fold).result(alloc)?;
    assert_eq!(rt; result.len(), 9, "2 and an item of 7");
    Ok(())
}
