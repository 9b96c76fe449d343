use crate::asked::{Ask, Row, Told, batch_of, request_of, told_at, told_by};
use crate::store::{LAST_BASE, Store, open, step};
use kv_base::{Calls, Limits, NoMemory, Replies, Reply, Request};
use kv_disk::MemDisk;
use kv_model::Oracle;
use kv_worker::Batch;
use rand_core::utils::NextWord;
use rand_pcg::Lcg64Xsh32;
use std::alloc::Global;
use std::test::Fail;

static KEYS: [&[u8]; 6] = [b"a", b"b", b"ab", b"c", b"\0", b"abc"];

// With these keys of the classes 1, 1, 1 or 2, 2, 7, 7 or 8, 8 and 9.
static SIZES: [usize; 8] = [0, 1, 47, 100, 4_000, 4_079, 5_000, 9_000];

// A request of one of the first keys.
fn draw_row(draws: &mut Lcg64Xsh32, keys: u32) -> Row {
    let key = KEYS[draw(draws, keys) as usize % 6];
    let ask = match draws.next_word() % 6 {
        0 | 1 => Ask::Get,
        2 => Ask::Delete,
        _ => {
            let byte = (draws.next_word() % 256) as u8;
            Ask::Put(byte, SIZES[draws.next_word() as usize % 8])
        }
    };
    Row(key, ask, Told::Other)
}

// A number below this one, or 0.
fn draw(draws: &mut Lcg64Xsh32, limit: u32) -> u32 {
    if limit == 0 {
        return 0;
    }
    draws.next_word() % limit
}

// So many requests.
fn draw_rows(
    alloc: Global,
    draws: &mut Lcg64Xsh32,
    keys: u32,
    count: u32,
) -> Result<Vec<Row>, NoMemory> {
    let mut rows = Vec::new(alloc);
    for _ in 0..count {
        rows.push(draw_row(draws, keys))?;
    }
    Ok(rows)
}

// The requests alone.
fn requests_of(alloc: Global, rows: &[Row]) -> Result<Vec<Request>, NoMemory> {
    let mut requests = Vec::new(alloc);
    for row in rows {
        requests.push(request_of(alloc, row.0, row.1)?)?;
    }
    Ok(requests)
}

// Whether the request at this place was answered so.
fn is_told(batch: &Batch, at: usize, reply: &Reply, base: u64) -> bool {
    let wanted = told_by(reply, base.saturating_add(at as u64));
    !wanted.is_same(Told::Other) && told_at(batch, at, base).is_same(wanted)
}

// Whether the batch was answered so.
fn is_answered(batch: &Batch, replies: &Replies, base: u64) -> bool {
    for at in 0..replies.as_slice().len() {
        if !is_told(batch, at, &replies.as_slice()[at], base) {
            return false;
        }
    }
    batch.as_slice().len() == replies.as_slice().len()
}

// Gives both the same batch, of 512 requests at most. Whether they answer alike.
fn answer_alike(
    alloc: Global,
    worker: &mut Store,
    oracle: &mut Oracle,
    rows: &[Row],
    base: u64,
    limits: Limits,
) -> Result<bool, NoMemory> {
    let requests = requests_of(alloc, rows)?;
    if requests.len() > 512 || base > LAST_BASE {
        return Ok(false);
    }
    let replies = oracle.step(&requests, base, limits.slots)?;
    let mut batch = batch_of(alloc, rows)?;
    Ok(step(alloc, worker, &mut batch, base) && is_answered(&batch, &replies, base))
}

// Batches one behind the other, then the disk is opened again, then as many more.
#[derive(Drop)]
struct Run {
    seed: u32,
    limits: Limits,
    batches: u32,
    keys: u32,
    most: u32,
}

// A worker and the plain program, which were given the same batches, and the next stamp.
#[derive(Drop)]
struct Twins {
    worker: Store,
    oracle: Oracle,
    base: u64,
}

// Both at their beginning.
fn begin(alloc: Global, limits: Limits) -> Result<Twins, Fail> {
    let disk = MemDisk::new(alloc, 100, 2_000, Calls::none())?;
    Ok(Twins {
        worker: open(alloc, disk, limits)?,
        oracle: Oracle::new(alloc),
        base: 1,
    })
}

// Gives both the next batch. Whether they answer alike. A stamp is left out behind it.
fn go_on(
    alloc: Global,
    draws: &mut Lcg64Xsh32,
    twins: &mut Twins,
    run: &Run,
) -> Result<bool, Fail> {
    let count = run.most.saturating_sub(draw(draws, run.most / 2));
    let rows = draw_rows(alloc, draws, run.keys, count)?;
    let base = twins.base;
    twins.base = base.saturating_add(u64::from(count)).saturating_add(1);
    Ok(answer_alike(
        alloc,
        &mut twins.worker,
        &mut twins.oracle,
        &rows,
        base,
        run.limits,
    )?)
}

// The worker's disk is opened again.
fn open_again(alloc: Global, twins: Twins, limits: Limits) -> Result<Twins, Fail> {
    let Twins {
        worker,
        oracle,
        base,
    } = twins;
    let worker = open(alloc, worker.into_disk(), limits)?;
    Ok(Twins {
        worker,
        oracle,
        base,
    })
}

// How many of the batches are answered as the plain program does, up to the first that isn't.
fn count_alike(
    alloc: Global,
    draws: &mut Lcg64Xsh32,
    twins: &mut Twins,
    run: &Run,
) -> Result<u32, Fail> {
    for number in 0..run.batches {
        if !go_on(alloc, draws, twins, run)? {
            return Ok(number);
        }
    }
    Ok(run.batches)
}

// How many are, before the disk is opened again and behind that.
fn counts_alike(alloc: Global, run: &Run) -> Result<(u32, u32), Fail> {
    let mut draws = Lcg64Xsh32::new(u64::from(run.seed), 1);
    let mut twins = begin(alloc, run.limits)?;
    let before = count_alike(alloc, &mut draws, &mut twins, run)?;
    let mut twins = open_again(alloc, twins, run.limits)?;
    let behind = count_alike(alloc, &mut draws, &mut twins, run)?;
    Ok((before, behind))
}

// Whether all are.
fn are_alike(alloc: Global, run: &Run) -> Result<bool, Fail> {
    let (before, behind) = counts_alike(alloc, run)?;
    Ok(before == run.batches && behind == run.batches)
}

// The first of the runs of twice ten drawn batches that isn't.
fn first_other(alloc: Global, seeds: u32) -> Result<Option<u32>, Fail> {
    for seed in 0..seeds {
        let limits = Limits {
            slots: 1 + seed % 4,
            cache: 1 + seed % 5,
        };
        let run = Run {
            seed,
            limits,
            batches: 10,
            keys: 6,
            most: 8,
        };
        if !are_alike(alloc, &run)? {
            return Ok(Some(seed));
        }
    }
    Ok(None)
}

#[test]
fn drawn_batches_have_the_answers_of_the_plain_program(rt: HostRuntime) -> Result<(), Fail> {
    assert_eq!(rt; first_other(rt.alloc(), 50)?, None);
    Ok(())
}

#[test]
fn batches_of_512_requests_of_one_key(rt: HostRuntime) -> Result<(), Fail> {
    let run = Run {
        seed: 0,
        limits: Limits { slots: 2, cache: 1 },
        batches: 2,
        keys: 1,
        most: 512,
    };
    assert!(rt; are_alike(rt.alloc(), &run)?);
    Ok(())
}
