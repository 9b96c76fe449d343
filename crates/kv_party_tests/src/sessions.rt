ghost use Rattle.std.specs.Prelude.{◌≡◌, ◌≤◌, ◌+◌, [], None, length, IfOk, IsSomeAnd};
ghost use Rattle.std.specs.List.{AllByRecursion};
ghost use Rattle.kv_model.specs.Frames.{HasReplyFrame};

use crate::replies::{reply_to, same_bytes};
use kv_base::{Bytes, Calls, Cause, MemSink, MemSource, NoMemory, Reply, Request, ReservedList};
use kv_ring::{Task, Tasks};
use kv_session::{Gathered, Session, SessionParts};
use std::alloc::Global;
use std::test::Fail;

// Put a 1, Get b, Flush, Delete c: frames of 8, 6, 5 and 6 bytes.
const TWO_GROUPS: &[u8] = b"\x04\0\0\0\x01\x01a1\x02\0\0\0\x02b\x01\0\0\0\x05\x02\0\0\0\x03c";

// The stamp of each reply here is the first byte of its request's key.
const ALL_REPLIES: &[u8] = b"\x09\0\0\0\x81a\0\0\0\0\0\0\0\
\x09\0\0\0\x83b\0\0\0\0\0\0\0\x09\0\0\0\x85c\0\0\0\0\0\0\0";

// The first two of them, and the first.
const TWO_REPLIES: &[u8] = b"\x09\0\0\0\x81a\0\0\0\0\0\0\0\x09\0\0\0\x83b\0\0\0\0\0\0\0";

const STORED_A: &[u8] = b"\x09\0\0\0\x81a\0\0\0\0\0\0\0";

const MISSING_B: &[u8] = b"\x09\0\0\0\x83b\0\0\0\0\0\0\0";

// Stored a and the first 7 bytes of Missing b.
const ONE_AND_PART: &[u8] = b"\x09\0\0\0\x81a\0\0\0\0\0\0\0\x09\0\0\0\x83b\0";

// Missing b, then Malformed 6.
const MISSING_MALFORMED: &[u8] = b"\x09\0\0\0\x83b\0\0\0\0\0\0\0\x09\0\0\0\xE9\x06\0\0\0\0\0\0\0";

// An input, the sizes of its groups, the bytes that go out, why the session ends, and what it
// shows.
type Run = (
    &'static [u8],
    &'static [usize],
    &'static [u8],
    Cause,
    &'static str,
);

static RUNS: [Run; 9] = [
    (b"", &[0], b"", Cause::End, "an empty input"),
    (
        TWO_GROUPS,
        &[2, 1],
        ALL_REPLIES,
        Cause::End,
        "a group ends by a Flush, and one by the end",
    ),
    (
        b"\x02\0\0\0\x02b\x01\0\0\0\x05",
        &[1, 0],
        MISSING_B,
        Cause::End,
        "nothing behind a Flush",
    ),
    (
        b"\x01\0\0\0\x05\x01\0\0\0\x05\x02\0\0\0\x02b",
        &[0, 0, 1],
        MISSING_B,
        Cause::End,
        "a Flush ends an empty group",
    ),
    (
        b"\x03\0\0\0\x01\x001\x01\0\0\0\x02\x04\0\0\0\x01\x01a1",
        &[3],
        b"\x01\0\0\0\xE1\x01\0\0\0\xE1\x09\0\0\0\x81a\0\0\0\0\0\0\0",
        Cause::End,
        "a Put and a Get with an empty key, and a Put behind them",
    ),
    (
        b"\x02\0\0\0\x02b\x04\0\0\0\x01\x01",
        &[1],
        MISSING_MALFORMED,
        Cause::Malformed { offset: 6 },
        "an input that ends inside a frame",
    ),
    (
        b"\x02\0\0\0\x02b\0\0\0\0",
        &[1],
        MISSING_MALFORMED,
        Cause::Malformed { offset: 6 },
        "a length of 0",
    ),
    (
        b"\x02\0\0\0\x02b\x01\0\0\0\x05\x01\0\0\0\x09",
        &[1, 0],
        b"\x09\0\0\0\x83b\0\0\0\0\0\0\0\x09\0\0\0\xE9\x0B\0\0\0\0\0\0\0",
        Cause::Malformed { offset: 11 },
        "another kind behind a Flush",
    ),
    (
        b"\x02\0\0\0\x05x",
        &[0],
        b"\x09\0\0\0\xE9\0\0\0\0\0\0\0\0",
        Cause::Malformed { offset: 0 },
        "a Flush with a body",
    ),
];

// The most bytes of a read of the two groups, the reads that fail, the sink's room, its calls that
// fail, the sizes of the groups, the bytes that go out, why the session ends, how many bytes it
// took and how many replies are left.
type Broken = (
    u32,
    &'static [u32],
    usize,
    &'static [u32],
    &'static [usize],
    &'static [u8],
    Cause,
    u64,
    usize,
);

static BROKEN: [Broken; 9] = [
    (14, &[1], 99, &[], &[0], b"", Cause::SourceFault, 0, 0),
    (11, &[2], 99, &[], &[1], STORED_A, Cause::SourceFault, 11, 0),
    (
        14,
        &[2],
        99,
        &[],
        &[2],
        TWO_REPLIES,
        Cause::SourceFault,
        14,
        0,
    ),
    (14, &[2], 99, &[1], &[2], b"", Cause::SinkFault, 14, 2),
    (99, &[], 99, &[1], &[2], b"", Cause::SinkFault, 25, 2),
    (99, &[], 99, &[2], &[2], STORED_A, Cause::SinkFault, 25, 1),
    (
        99,
        &[],
        99,
        &[3],
        &[2, 1],
        TWO_REPLIES,
        Cause::SinkFault,
        25,
        1,
    ),
    // The second call finds room for 7 of 13 bytes, the third for none.
    (
        99,
        &[],
        20,
        &[],
        &[2],
        ONE_AND_PART,
        Cause::SinkFault,
        25,
        1,
    ),
    (
        99,
        &[],
        26,
        &[],
        &[2, 1],
        TWO_REPLIES,
        Cause::SinkFault,
        25,
        1,
    ),
];

// The replies that stand here already stay.
fn kept(reply: Reply) -> Reply
    ensures { HasReplyFrame result }
{
    match reply {
        Reply::Stored { stamp } => Reply::Stored { stamp },
        Reply::Missing { stamp } => Reply::Missing { stamp },
        Reply::Absent { stamp } => Reply::Absent { stamp },
        Reply::BadKey => Reply::BadKey,
        _ => Reply::NoMemory,
    }
}

fn answered(task: Task) -> Task
    ensures { IsSomeAnd result.reply HasReplyFrame }
{
    let Task { request, reply } = task;
    let reply = match reply {
        Some(reply) => kept(reply),
        None => reply_to(&request),
    };
    Task {
        request: Request::Flush,
        reply: Some(reply),
    }
}

// Moves all tasks, the last one first, and answers each that has no reply.
fn answer(from: &mut Tasks, to: &mut Tasks)
    requires { length from.old.items ≤ to.old.spare }
    ensures empty { from.new.items ≡ [] }
    ensures given_back { from.new.spare ≡ from.old.spare + length from.old.items }
    ensures moved { length to.new.items ≡ length to.old.items + length from.old.items }
    ensures spare { to.new.spare + length from.old.items ≡ to.old.spare }
    ensures answered { AllByRecursion (λ task. IsSomeAnd task.reply HasReplyFrame) to.old.items
        → AllByRecursion (λ task. IsSomeAnd task.reply HasReplyFrame) to.new.items }
{
    while let Some(task) = from.take_last() {
        to.append(answered(task)).unwrap();
    }
}

fn session_over(
    alloc: Global,
    source: MemSource,
    sink: MemSink,
) -> Result<Session<MemSource, MemSink>, NoMemory>
    ensures { IfOk result (λ session. (session.closing ≡ None) × (session.after ≡ None)
        × (session.ending ≡ None)) }
{
    match Session::new(alloc, source, sink) {
        Ok(session) => Ok(session),
        Err((_, _, no_memory)) => Err(no_memory),
    }
}

// Runs a session to its end, and notes the sizes of its groups.
fn run(
    alloc: Global,
    source: MemSource,
    sink: MemSink,
    sizes: &mut Vec<usize>,
) -> Result<SessionParts<MemSource, MemSink>, Fail> {
    let mut session = session_over(alloc, source, sink)?;
    let mut tasks = ReservedList::with_room(alloc, 64)?;
    let mut others = ReservedList::with_room(alloc, 64)?;
    for _ in 0..9 {
        let gathered = session.gather(&mut tasks);
        sizes.push(tasks.as_slice().len())?;
        answer(&mut tasks, &mut others);
        answer(&mut others, &mut tasks);
        let whole = session.deliver(&mut tasks);
        match gathered {
            Gathered::More if whole => {}
            _ => break,
        }
    }
    Ok(session.into_parts())
}

// What a session is to do: the sizes of its groups, the bytes that go out, why it ends, how many
// bytes it took, and how many replies are left.
#[derive(Drop)]
struct Wanted<'a> {
    sizes: &'a [usize],
    given: &'a [u8],
    cause: Cause,
    taken: u64,
    left: usize,
}

fn same_sizes(a: &[usize], b: &[usize]) -> bool {
    a == b
}

fn ends_so(
    alloc: Global,
    source: MemSource,
    sink: MemSink,
    wanted: &Wanted<'_>,
) -> Result<bool, Fail> {
    let mut sizes = Vec::new(alloc);
    let SessionParts { sink, ending, .. } = run(alloc, source, sink, &mut sizes)?;
    match ending {
        Some(ending) => Ok(
            same_sizes(sizes.as_slice(), wanted.sizes)
                && same_bytes(sink.taken(), wanted.given)
                && ending.cause == wanted.cause
                && ending.taken == wanted.taken
                && ending.undelivered.as_slice().len() == wanted.left,
        ),
        None => Ok(false),
    }
}

fn source_of(alloc: Global, input: &[u8], piece: u32, fails: &[u32]) -> Result<MemSource, Fail> {
    let bytes = Bytes::copy(alloc, input)?;
    Ok(MemSource::new(bytes, piece.max(1), Calls::of(alloc, fails)?))
}

#[test]
fn sessions_end_by_their_bytes_in_any_pieces(rt: HostRuntime) -> Result<(), Fail> {
    let alloc = rt.alloc();
    for (input, sizes, given, cause, name) in &RUNS {
        let wanted = Wanted {
            sizes,
            given,
            cause: *cause,
            taken: input.len() as u64,
            left: 0,
        };
        for piece in [1, 2, 3, 7, 4_096] {
            let source = source_of(alloc, input, piece, &[])?;
            let sink = MemSink::new(alloc, 99, Calls::none())?;
            assert!(rt; ends_so(alloc, source, sink, &wanted)?, "{name} by {piece}");
        }
    }
    Ok(())
}

#[test]
fn sessions_end_by_their_faults(rt: HostRuntime) -> Result<(), Fail> {
    let alloc = rt.alloc();
    for (piece, reads, room, writes, sizes, given, cause, taken, left) in &BROKEN {
        let wanted = Wanted {
            sizes,
            given,
            cause: *cause,
            taken: *taken,
            left: *left,
        };
        let source = source_of(alloc, TWO_GROUPS, *piece, reads)?;
        let sink = MemSink::new(alloc, *room, Calls::of(alloc, writes)?)?;
        assert!(rt;
            ends_so(alloc, source, sink, &wanted)?,
            "{reads:?} {room} {writes:?}"
        );
    }
    let bad = source_of(alloc, b"\x02\0\0\0\x02b\0\0\0\0", 99, &[])?;
    let wanted = Wanted {
        sizes: &[1],
        given: MISSING_B,
        cause: Cause::SinkFault,
        taken: 10,
        left: 1,
    };
    let sink = MemSink::new(alloc, 99, Calls::of(alloc, &[2])?)?;
    assert!(rt;
        ends_so(alloc, bad, sink, &wanted)?,
        "the reply Malformed doesn't go out"
    );
    Ok(())
}

// Puts the frames of so many Gets into the input, of keys a, b and so on, and their replies into
// the output.
fn gets(count: u8, input: &mut Vec<u8>, output: &mut Vec<u8>) -> Result<(), Fail> {
    for key in 0..count {
        input.extend_from_slice(&[2, 0, 0, 0, 2, key])?;
        output.extend_from_slice(&[9, 0, 0, 0, 0x83, key, 0, 0, 0, 0, 0, 0, 0])?;
    }
    Ok(())
}

#[test]
fn a_group_ends_at_64_requests(rt: HostRuntime) -> Result<(), Fail> {
    let alloc = rt.alloc();
    let rows: [(u8, &[u8], &[usize]); 5] = [
        (63, b"", &[63]),
        (64, b"", &[64, 0]),
        (65, b"", &[64, 1]),
        (64, b"\x01\0\0\0\x05", &[64, 0, 0]),
        (130, b"", &[64, 64, 2]),
    ];
    for (count, behind, sizes) in rows {
        let mut input = Vec::new(alloc);
        let mut output = Vec::new(alloc);
        gets(count, &mut input, &mut output)?;
        input.extend_from_slice(behind)?;
        let source = source_of(alloc, input.as_slice(), 4_096, &[])?;
        let sink = MemSink::new(alloc, 2_000, Calls::none())?;
        let wanted = Wanted {
            sizes,
            given: output.as_slice(),
            cause: Cause::End,
            taken: input.len() as u64,
            left: 0,
        };
        assert!(rt; ends_so(alloc, source, sink, &wanted)?, "{count} requests");
    }
    Ok(())
}
