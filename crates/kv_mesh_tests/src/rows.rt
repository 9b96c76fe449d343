use crate::asks::Ask;
use crate::ended::{Ended, take_apart, values};
use crate::replies::Told;
use crate::stores::{left_now, make_client, make_parties, new_disk, new_disks, open};
use kv_disk::MemDisk;
use kv_recover::OpenFault;
use std::alloc::Global;
use std::test::Fail;

// The number of workers, what two clients send, the schedule, and what each is told by its end. Of
// two workers, 0 owns a and c, and 1 owns b: the hash of one byte is odd exactly where it is even.
type Row = (
    usize,
    [&'static [Ask]; 2],
    &'static [u16],
    [&'static [Told]; 2],
    &'static str,
);

// A client that puts a and b, and then gets a, b and c; and one that puts a and c.
const TWO: [&[Ask]; 2] = [
    &[
        Ask::Put(b'a', 1),
        Ask::Put(b'b', 2),
        Ask::Flush,
        Ask::Get(b'a'),
        Ask::Get(b'b'),
        Ask::Get(b'c'),
    ],
    &[Ask::Put(b'a', 9), Ask::Put(b'c', 5)],
];

// A client that puts a, and one that was told of the stamp 1.
const TOLD: [&[Ask]; 2] = [&[Ask::Put(b'a', 1)], &[Ask::After(1), Ask::Get(b'a')]];

static ROWS: [Row; 9] = [
    (
        1,
        [&[Ask::After(0), Ask::After(1)], &[]],
        &[1, 1],
        [&[Told::Noted, Told::Ahead(1)], &[]],
        "the next stamp is 1",
    ),
    (
        2,
        TOLD,
        &[2, 0, 2, 3, 3, 0, 3],
        [&[Told::Stored(1)], &[Told::Noted, Told::Found(2, 1)]],
        "an After behind the stamp that it names",
    ),
    (
        2,
        TOLD,
        &[3, 3, 0, 3, 2, 0, 2],
        [&[Told::Stored(2)], &[Told::Ahead(1), Told::Missing(1)]],
        "an After before it",
    ),
    (
        2,
        TWO,
        &[2, 0, 1, 2, 2, 0, 1, 2, 3, 0, 1, 2, 3],
        [
            &[
                Told::Stored(1),
                Told::Stored(2),
                Told::Found(3, 1),
                Told::Found(5, 2),
                Told::Missing(4),
            ],
            &[Told::Stored(6), Told::Stored(7)],
        ],
        "the puts behind the gets",
    ),
    (
        2,
        TWO,
        &[2, 0, 1, 2, 2, 0, 1, 3, 0, 2, 0, 1, 2, 3],
        [
            &[
                Told::Stored(1),
                Told::Stored(2),
                Told::Found(3, 1),
                Told::Found(5, 2),
                Told::Missing(4),
            ],
            &[Told::Stored(6), Told::Stored(7)],
        ],
        "the puts between the gets' answers and their replies",
    ),
    (
        2,
        TWO,
        &[2, 0, 1, 2, 2, 3, 0, 1, 2, 3],
        [
            &[
                Told::Stored(1),
                Told::Stored(2),
                Told::Found(3, 1),
                Told::Found(7, 2),
                Told::Missing(4),
            ],
            &[Told::Stored(5), Told::Stored(6)],
        ],
        "the gets and the puts in one turn of a worker",
    ),
    (
        2,
        TWO,
        &[2, 0, 1, 2, 2, 3, 1, 0, 3, 2],
        [
            &[
                Told::Stored(1),
                Told::Stored(2),
                Told::Found(4, 1),
                Told::Found(3, 2),
                Told::Missing(5),
            ],
            &[Told::Stored(6), Told::Stored(7)],
        ],
        "the other worker first",
    ),
    (
        2,
        TWO,
        &[2, 0, 1, 2, 3, 0, 2, 0, 1, 2, 3],
        [
            &[
                Told::Stored(1),
                Told::Stored(2),
                Told::Found(5, 9),
                Told::Found(7, 2),
                Told::Found(6, 5),
            ],
            &[Told::Stored(3), Told::Stored(4)],
        ],
        "the puts before the gets",
    ),
    (
        2,
        TWO,
        &[2, 0, 2, 3, 0, 9, 3],
        [&[], &[Told::Stored(2), Told::Stored(3)]],
        "no turn of a worker that owes an answer",
    ),
];

// Makes the turns, and stops.
fn go(
    alloc: Global,
    disks: Vec<MemDisk>,
    asks: &[&'static [Ask]; 2],
    schedule: &[u16],
) -> Result<Ended<MemDisk>, Fail> {
    let mut clients = Vec::new(alloc);
    for asks in asks {
        clients.push(make_client(alloc, asks, 4_096)?)?;
    }
    let mut mesh = make_parties(alloc, disks, clients)?;
    mesh.run_turns(schedule);
    take_apart(alloc, mesh.finish())
}

// Whether each client was told this.
fn are_told(replies: &[Vec<Told>], told: &[&'static [Told]; 2]) -> bool {
    match replies {
        [first, second] => first.as_slice() == told[0] && second.as_slice() == told[1],
        _ => false,
    }
}

#[test]
fn replies_follow_from_the_schedule(rt: HostRuntime) -> Result<(), Fail> {
    let alloc = rt.alloc();
    for (workers, asks, schedule, told, name) in &ROWS {
        let left = go(alloc, new_disks(alloc, *workers)?, asks, schedule)?;
        assert!(rt; are_told(&left.replies, told), "{name}: {:?}", left.replies);
        assert!(rt; !left.unsure, "{name}");
    }
    Ok(())
}

// A client that puts a and b, and then gets both; and one that then puts a.
const MORE: [&[Ask]; 2] = [
    &[
        Ask::Put(b'a', 1),
        Ask::Put(b'b', 2),
        Ask::Flush,
        Ask::Get(b'a'),
        Ask::Get(b'b'),
    ],
    &[Ask::Put(b'a', 9)],
];

// How often the disk of worker 0 is called until it has answered the first group: last it syncs.
fn calls_of_a_group(alloc: Global) -> Result<u32, Fail> {
    let left = go(alloc, new_disks(alloc, 2)?, &MORE, &[2, 0])?;
    match left.disks.first() {
        Some(disk) => Ok(disk.calls()),
        None => Err(Fail::new("two disks")),
    }
}

#[test]
fn a_sync_that_fails_closes_its_worker_alone(rt: HostRuntime) -> Result<(), Fail> {
    let alloc = rt.alloc();
    let mut disks = Vec::new(alloc);
    disks.push(new_disk(alloc, &[calls_of_a_group(alloc)?])?)?;
    disks.push(new_disk(alloc, &[])?)?;
    let left = go(alloc, disks, &MORE, &[2, 0, 1, 2, 2, 0, 1, 2, 3, 0, 3])?;
    let told: [&'static [Told]; 2] = [
        &[
            Told::Unsure(1),
            Told::Stored(2),
            Told::Closed,
            Told::Found(3, 2),
        ],
        &[Told::Closed],
    ];
    assert!(rt; are_told(&left.replies, &told), "{:?}", left.replies);
    assert!(rt; left.unsure);
    for (choice, told) in [(0, Told::Missing(3)), (1, Told::Found(3, 1))] {
        let values = values(alloc, left_now(alloc, &left.disks, choice)?, b"ab")?;
        assert_eq!(rt; values.as_slice(), [told, Told::Found(4, 2)].as_slice());
    }
    Ok(())
}

#[test]
fn a_store_of_four_workers_is_none_of_two(rt: HostRuntime) -> Result<(), Fail> {
    let alloc = rt.alloc();
    let asks: [&'static [Ask]; 2] = [&[Ask::Put(b'a', 1)], &[]];
    let left = go(alloc, new_disks(alloc, 4)?, &asks, &[4, 0, 1, 2, 3, 4])?;
    for (kept_worker, disk) in (0..4).zip(left.disks) {
        let fault = OpenFault::OtherStore {
            kept_worker,
            kept_workers: 4,
            asked_worker: 0,
            asked_workers: 2,
        };
        assert_eq!(rt; open(alloc, disk, 0, 2).err(), Some(fault));
    }
    Ok(())
}
