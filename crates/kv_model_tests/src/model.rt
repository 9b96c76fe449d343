ghost use Rattle.std.specs.Prelude.{◌≡◌, [], ◌∷◌, Some, None, true, replicate};
ghost use Rattle.kv_base.specs.declared.request.Request.TheVariants.{Put, Get, Delete};
ghost use Rattle.kv_base.specs.declared.reply.Reply.TheVariants.{BadKey, TooLarge};
ghost use Rattle.kv_model.specs.Layout.{all_classes, only_class, class_of};
ghost use Rattle.kv_model.specs.Slots.{read_small, Tombstone, Bad};
ghost use Rattle.kv_model.specs.Slots as slot;
ghost use Rattle.kv_model.specs.SlotBytes.{item_bytes, tombstone_bytes};
ghost use Rattle.kv_model.specs.Head.{head_page};
ghost use Rattle.kv_model.specs.Reading.{page_of, offset_of};
ghost use Rattle.kv_model.specs.Agreement.{AgreesWithMap, refusal_of};
ghost use Rattle.kv_model.specs.Order.{RespectsOrder, TellsCounter};
ghost use Rattle.kv_model.specs.Pairs.{pairs_in};
ghost use Rattle.kv_model.specs.Examples.{PutAndGet, GetOfNothing, RefusedThenPut, CutInside};
ghost use Rattle.kv_model.specs.Examples.{SinkFails, SinkFailsBeforeTheEnd, GoesOn, GroupsEnd};
ghost use Rattle.kv_model.specs.Examples.{SinkFailsBeforeAnAfter, ToldTwice, told_twice};
ghost use Rattle.kv_model.specs.Examples.{put_and_get, slot_a, tombstone_4, head_2_of_3};
ghost use Rattle.kv_model.specs.Examples.{key_a, value_1};
ghost use Rattle.kv_model.specs.BatchExamples.{NoNetChange, LastPut, ThirdIsFull, UpdatesWhereFull};
ghost use Rattle.kv_model.specs.BatchExamples.{NoRoomYet, RoomThen, DeletedTwice, LastIsTakenFirst};
ghost use Rattle.kv_model.specs.RecoveryExamples.{GivesTheItem, RecoversTheFirst};
ghost use Rattle.kv_model.specs.RecoveryExamples.{StaleRecoversNone};

use kv_base::{Bytes, NoMemory, Replies, Reply, Request};
use kv_model::{ItemList, Oracle};
use std::alloc::Global;
use std::test::Fail;

fn sessions_have_their_transcripts()
    ensures put_and_get { PutAndGet }
    ensures get { GetOfNothing }
    ensures refused { RefusedThenPut }
    ensures cut { CutInside }
    ensures sink_fails { SinkFails }
    ensures sink_fails_before { SinkFailsBeforeTheEnd }
    ensures sink_fails_before_after { SinkFailsBeforeAnAfter }
    ensures told { ToldTwice }
    ensures goes_on { GoesOn }
{}

fn groups_end_at_64_requests_a_flush_or_an_after()
    ensures { GroupsEnd }
{}

fn a_put_and_a_get_agree_with_the_map()
    ensures agrees { AgreesWithMap true (only_class 7) [] 0 put_and_get }
    ensures ordered { RespectsOrder (put_and_get ∷ []) }
{}

fn a_session_that_is_told_twice_agrees_with_the_map()
    ensures agrees { AgreesWithMap true all_classes [] 0 (pairs_in told_twice) }
    ensures ordered { RespectsOrder told_twice }
    ensures counter { TellsCounter 0 told_twice }
{}

fn batches_have_their_answers()
    ensures none { NoNetChange }
    ensures last { LastPut }
    ensures full { ThirdIsFull }
    ensures update { UpdatesWhereFull }
    ensures no_room { NoRoomYet }
    ensures room { RoomThen }
    ensures twice { DeletedTwice }
    ensures free { LastIsTakenFirst }
{}

fn sizes_have_their_refusals()
    ensures no_key { refusal_of all_classes (Put [] value_1) ≡ Some BadKey }
    ensures long_key { refusal_of all_classes (Get (replicate 256 0x61)) ≡ Some BadKey }
    ensures too_large { refusal_of all_classes (Put key_a (replicate 65400 0)) ≡ Some TooLarge }
    ensures largest { refusal_of all_classes (Put key_a (replicate 65399 0)) ≡ None }
    ensures delete { refusal_of all_classes (Delete key_a) ≡ None }
{}

fn images_recover_prefixes()
    ensures gives { GivesTheItem }
    ensures recovers { RecoversTheFirst }
    ensures stale { StaleRecoversNone }
{}

fn items_have_their_classes()
    ensures at_47 { class_of all_classes 1 47 ≡ Some 1 }
    ensures at_48 { class_of all_classes 1 48 ≡ Some 2 }
    ensures at_4079 { class_of all_classes 1 4079 ≡ Some 7 }
    ensures at_4080 { class_of all_classes 1 4080 ≡ Some 8 }
    ensures greatest { class_of all_classes 255 65145 ≡ Some 11 }
    ensures too_large { class_of all_classes 255 65146 ≡ None }
    ensures no_key { class_of all_classes 0 1 ≡ None }
    ensures long_key { class_of all_classes 256 1 ≡ None }
    ensures alone { class_of (only_class 7) 1 1 ≡ Some 7 }
    ensures too_large_alone { class_of (only_class 7) 1 4080 ≡ None }
{}

fn slots_have_their_places()
    ensures small_page { page_of 1 65 ≡ 1 }
    ensures small_offset { offset_of 1 65 ≡ 64 }
    ensures whole_page { page_of 7 3 ≡ 3 }
    ensures large_page { page_of 8 3 ≡ 6 }
    ensures largest_page { page_of 11 1 ≡ 16 }
{}

fn slots_read_as_they_are_written()
    ensures item { item_bytes 1 258 key_a value_1 ≡ slot_a }
    ensures read { read_small all_classes 1 slot_a ≡ slot.Item 258 key_a value_1 }
    ensures other_class { read_small all_classes 2 slot_a ≡ Bad 258 }
    ensures tombstone { tombstone_bytes 1 258 (Some 4) ≡ tombstone_4 }
    ensures read_tombstone { read_small all_classes 1 tombstone_4 ≡ Tombstone 258 (Some 4) }
    ensures head { head_page 2 3 ≡ head_2_of_3 }
{}

#[test]
fn the_definitions_hold_of_the_worked_examples() {
    sessions_have_their_transcripts();
    groups_end_at_64_requests_a_flush_or_an_after();
    a_put_and_a_get_agree_with_the_map();
    a_session_that_is_told_twice_agrees_with_the_map();
    batches_have_their_answers();
    sizes_have_their_refusals();
    images_recover_prefixes();
    items_have_their_classes();
    slots_have_their_places();
    slots_read_as_they_are_written();
}

#[test]
fn the_oracle_answers_from_the_greatest_stamp_not_above(rt: HostRuntime) -> Result<(), Fail> {
    let mut oracle = Oracle::new(rt.alloc());
    oracle.write(4, b"a", Some(b"new"))?;
    oracle.write(2, b"a", Some(b"old"))?;
    oracle.write(6, b"a", None)?;
    oracle.write(5, b"b", Some(b""))?;
    let rows: [(u64, &[u8], Option<&[u8]>); 7] = [
        (1, b"a", None),
        (2, b"a", Some(b"old")),
        (3, b"a", Some(b"old")),
        (4, b"a", Some(b"new")),
        (6, b"a", None),
        (9, b"b", Some(b"")),
        (9, b"c", None),
    ];
    for (stamp, key, expected) in rows {
        assert_eq!(rt; oracle.value_at(stamp, key), expected, "{key:?} at {stamp}");
    }
    Ok(())
}

// What is asked of a key.
enum Ask {
    Put(&'static [u8]),
    Get,
    Delete,
}

// A request, and the name and the number of the reply that is wanted, with the value of a Found.
struct Row {
    ask: Ask,
    key: &'static [u8],
    reply: (&'static str, u64, &'static [u8]),
}

// A batch: the stamp of its first request, and its requests.
struct Batch {
    base: u32,
    rows: &'static [Row],
}

// Batches one behind the other on a new store, where a class has so many items at most.
struct Case {
    name: &'static str,
    limit: u32,
    batches: &'static [Batch],
}

static CASES: [Case; 5] = [
    Case {
        name: "a key that begins and ends without a value",
        limit: 100,
        batches: &[Batch {
            base: 1,
            rows: &[
                Row {
                    ask: Ask::Delete,
                    key: b"a",
                    reply: ("Absent", 1, b""),
                },
                Row {
                    ask: Ask::Put(b"1"),
                    key: b"a",
                    reply: ("Stored", 2, b""),
                },
                Row {
                    ask: Ask::Delete,
                    key: b"a",
                    reply: ("Removed", 3, b""),
                },
                Row {
                    ask: Ask::Get,
                    key: b"a",
                    reply: ("Missing", 4, b""),
                },
            ],
        }],
    },
    Case {
        name: "a get between two puts of its key",
        limit: 100,
        batches: &[Batch {
            base: 1,
            rows: &[
                Row {
                    ask: Ask::Put(b"1"),
                    key: b"k",
                    reply: ("Stored", 1, b""),
                },
                Row {
                    ask: Ask::Get,
                    key: b"k",
                    reply: ("Found", 2, b"1"),
                },
                Row {
                    ask: Ask::Put(b"2"),
                    key: b"k",
                    reply: ("Stored", 3, b""),
                },
            ],
        }],
    },
    Case {
        name: "a third key where a class has two items, and room for it behind a delete",
        limit: 2,
        batches: &[
            Batch {
                base: 1,
                rows: &[
                    Row {
                        ask: Ask::Put(b"1"),
                        key: b"a",
                        reply: ("Stored", 1, b""),
                    },
                    Row {
                        ask: Ask::Put(b"1"),
                        key: b"b",
                        reply: ("Stored", 2, b""),
                    },
                    Row {
                        ask: Ask::Put(b"1"),
                        key: b"c",
                        reply: ("Full", 1, b""),
                    },
                ],
            },
            Batch {
                base: 4,
                rows: &[Row {
                    ask: Ask::Delete,
                    key: b"a",
                    reply: ("Removed", 4, b""),
                }],
            },
            Batch {
                base: 5,
                rows: &[Row {
                    ask: Ask::Put(b"1"),
                    key: b"c",
                    reply: ("Stored", 5, b""),
                }],
            },
        ],
    },
    Case {
        name: "a put behind a delete in its own batch, and in the next",
        limit: 2,
        batches: &[
            Batch {
                base: 1,
                rows: &[
                    Row {
                        ask: Ask::Put(b"1"),
                        key: b"a",
                        reply: ("Stored", 1, b""),
                    },
                    Row {
                        ask: Ask::Put(b"1"),
                        key: b"b",
                        reply: ("Stored", 2, b""),
                    },
                ],
            },
            Batch {
                base: 3,
                rows: &[
                    Row {
                        ask: Ask::Delete,
                        key: b"a",
                        reply: ("Removed", 3, b""),
                    },
                    Row {
                        ask: Ask::Put(b"1"),
                        key: b"c",
                        reply: ("Full", 1, b""),
                    },
                ],
            },
            Batch {
                base: 5,
                rows: &[Row {
                    ask: Ask::Put(b"1"),
                    key: b"c",
                    reply: ("Stored", 5, b""),
                }],
            },
        ],
    },
    Case {
        name: "two deletes of one key",
        limit: 100,
        batches: &[
            Batch {
                base: 1,
                rows: &[Row {
                    ask: Ask::Put(b"1"),
                    key: b"a",
                    reply: ("Stored", 1, b""),
                }],
            },
            Batch {
                base: 2,
                rows: &[
                    Row {
                        ask: Ask::Delete,
                        key: b"a",
                        reply: ("Removed", 2, b""),
                    },
                    Row {
                        ask: Ask::Delete,
                        key: b"a",
                        reply: ("Absent", 3, b""),
                    },
                ],
            },
        ],
    },
];

fn request_of(alloc: Global, row: &Row) -> Result<Request, NoMemory> {
    let key = Bytes::copy(alloc, row.key)?;
    Ok(match row.ask {
        Ask::Put(value) => Request::Put {
            key,
            value: Bytes::copy(alloc, value)?,
        },
        Ask::Get => Request::Get { key },
        Ask::Delete => Request::Delete { key },
    })
}

fn requests_of(alloc: Global, rows: &[Row]) -> Result<Vec<Request>, NoMemory> {
    let mut requests = Vec::new(alloc);
    for row in rows {
        requests.push(request_of(alloc, row)?)?;
    }
    Ok(requests)
}

fn named(reply: &Reply) -> (&'static str, u64, &[u8]) {
    match reply {
        Reply::Stored { stamp } => ("Stored", *stamp, b""),
        Reply::Found { stamp, value } => ("Found", *stamp, value.as_slice()),
        Reply::Missing { stamp } => ("Missing", *stamp, b""),
        Reply::Removed { stamp } => ("Removed", *stamp, b""),
        Reply::Absent { stamp } => ("Absent", *stamp, b""),
        Reply::Full { class } => ("Full", u64::from(*class), b""),
        _ => ("another", 0, b""),
    }
}

// The number of the first reply that isn't as wanted, or of all.
fn as_wanted(replies: &Replies, rows: &[Row]) -> usize {
    for (i, row) in rows.iter().enumerate() {
        match replies.as_slice().get(i) {
            Some(reply) if named(reply) == row.reply => {}
            _ => return i,
        }
    }
    rows.len()
}

#[test]
fn batches_are_answered_by_the_definition(rt: HostRuntime) -> Result<(), Fail> {
    for case in &CASES {
        let mut oracle = Oracle::new(rt.alloc());
        for batch in case.batches {
            let requests = requests_of(rt.alloc(), batch.rows)?;
            assert!(rt; requests.len() <= 64);
            let replies = oracle.step(&requests, u64::from(batch.base), case.limit)?;
            assert_eq!(rt; replies.as_slice().len(), batch.rows.len(), "{}", case.name);
            assert_eq!(rt;
                as_wanted(&replies, batch.rows),
                batch.rows.len(),
                "{}",
                case.name
            );
        }
    }
    Ok(())
}

// The keys' lengths as decimal digits.
fn lengths_of(list: &ItemList) -> usize {
    let mut lengths = 0;
    for item in list.as_slice() {
        lengths = lengths % 1_000 * 10 + item.key.len() % 10;
    }
    lengths
}

#[test]
fn a_range_has_the_items_that_stand_in_it(rt: HostRuntime) -> Result<(), Fail> {
    let mut oracle = Oracle::new(rt.alloc());
    oracle.write(3, b"ccc", Some(b"3"))?;
    oracle.write(1, b"a", Some(b"1"))?;
    oracle.write(2, b"bb", Some(b"2"))?;
    oracle.write(4, b"bb", None)?;
    let rows: [(u64, &[u8], &[u8], usize); 6] = [
        (0, b"", b"", 0),
        (2, b"", b"", 12),
        (3, b"", b"", 123),
        (4, b"", b"", 13),
        (3, b"b", b"", 23),
        (3, b"a", b"ccc", 12),
    ];
    for (stamp, low, high, lengths) in rows {
        let items = oracle.items_at(stamp, low, high)?;
        assert_eq!(rt;
            lengths_of(&items),
            lengths,
            "{low:?} to {high:?} at {stamp}"
        );
    }
    Ok(())
}
