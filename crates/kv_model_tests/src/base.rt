ghost use Rattle.std.specs.Prelude.{◌≡◌, [], ◌∷◌};
ghost use Rattle.kv_base.specs.Partition.{hash_of};

use kv_base::{
    Bytes, Calls, Cause, Failed, Limits, MemSink, MemSource, Place, ReaderSource, Replies, Reply,
    Sink, Source, SureSource, WriterSink, owner,
};
use std::alloc::Global;
use std::io;
use std::test::Fail;

// The published hash of the one byte `a`.
fn hash_of_a()
    ensures { hash_of (97 ∷ []) ≡ 0xaf63dc4c8601ec8c }
{}

#[test]
fn keys_have_their_owners(rt: HostRuntime) {
    hash_of_a();
    // The hash of `a` ends in the digit c, which is 12.
    let rows: [(&[u8], u32, u32); 9] = [
        (b"a", 16, 12),
        (b"a", 2, 0),
        (b"b", 2, 1),
        (b"c", 2, 0),
        (b"a", 4, 0),
        (b"b", 4, 1),
        (b"c", 4, 2),
        (b"d", 4, 3),
        (b"a", 1, 0),
    ];
    for (key, workers, expected) in rows {
        if 1 <= workers && workers <= 16 {
            assert_eq!(rt; owner(key, workers), expected, "{key:?} of {workers}");
        }
    }
}

fn read_piece<S: Source>(source: &mut S, buf: &mut [u8; 4]) -> Result<usize, Failed> {
    source.read(buf)
}

fn write_piece<S: Sink>(sink: &mut S, bytes: &[u8; 4]) -> Result<usize, Failed> {
    sink.write(bytes)
}

// Writes three pieces, of 1, 2 and 3 bytes, and answers how many were taken whole.
fn write_three<S: Sink>(sink: &mut S) -> usize {
    sink.write_pieces(b"abbccc", &[1, 3, 6])
}

#[test]
fn a_source_gives_pieces_and_fails_at_its_listed_calls(rt: HostRuntime) -> Result<(), Fail> {
    let alloc = rt.alloc();
    let bytes = Bytes::copy(alloc, b"abcdefg")?;
    let mut source = MemSource::new(bytes, 3, Calls::of(alloc, &[2, 5])?);
    let rows: [(Result<usize, Failed>, &[u8]); 7] = [
        (Ok(3), b"abc"),
        (Err(Failed), b""),
        (Ok(3), b"def"),
        (Ok(1), b"g"),
        (Err(Failed), b""),
        (Ok(0), b""),
        (Ok(0), b""),
    ];
    for (expected, front) in rows {
        let mut buf = [0; 4];
        let result = read_piece(&mut source, &mut buf);
        assert_eq!(rt; result, expected, "before {front:?}");
        assert!(rt; buf.starts_with(front), "{buf:?} begins with {front:?}");
    }
    Ok(())
}

#[test]
fn a_sure_source_gives_all_its_bytes(rt: HostRuntime) -> Result<(), Fail> {
    let mut source = SureSource::new(Bytes::copy(rt.alloc(), b"abcde")?, 9);
    let mut buf = [0; 4];
    assert_eq!(rt; read_piece(&mut source, &mut buf), Ok(4));
    assert_eq!(rt; buf, *b"abcd");
    assert_eq!(rt; read_piece(&mut source, &mut buf), Ok(1));
    assert_eq!(rt; buf[0], b'e');
    assert_eq!(rt; read_piece(&mut source, &mut buf), Ok(0));
    Ok(())
}

#[test]
fn a_sink_takes_what_its_room_holds_and_fails_at_its_listed_calls(
    rt: HostRuntime,
) -> Result<(), Fail> {
    let alloc = rt.alloc();
    let mut sink = MemSink::new(alloc, 6, Calls::of(alloc, &[2])?)?;
    let rows = [Ok(4), Err(Failed), Ok(2), Err(Failed)];
    for (i, expected) in rows.iter().enumerate() {
        assert_eq!(rt; write_piece(&mut sink, b"abcd"), *expected, "write {i}");
    }
    assert_eq!(rt; sink.taken(), b"abcdab".as_slice());
    Ok(())
}

#[test]
fn pieces_go_to_a_sink_one_call_each(rt: HostRuntime) -> Result<(), Fail> {
    let alloc = rt.alloc();
    // room, the call that fails, how many are whole, what was taken
    let rows: [(usize, u32, usize, &[u8]); 6] = [
        (9, 4, 3, b"abbccc"),
        (9, 3, 2, b"abb"),
        (9, 1, 0, b""),
        (6, 4, 3, b"abbccc"),
        (4, 9, 2, b"abbc"),
        (2, 3, 1, b"ab"),
    ];
    for (room, failing, whole, taken) in rows {
        let mut sink = MemSink::new(alloc, room, Calls::of(alloc, &[failing])?)?;
        let found = write_three(&mut sink);
        assert_eq!(rt; found, whole, "room {room}, call {failing} fails");
        assert_eq!(rt; sink.taken(), taken, "room {room}, call {failing} fails");
    }
    Ok(())
}

// Takes at most so many bytes a call, and fails when its calls are spent.
#[derive(Drop)]
struct Pipe {
    most: usize,
    calls: u8,
}

impl io::Write for Pipe {
    fn write(&mut self, buf: &[u8]) -> io::Result<usize> {
        if self.calls == 0 {
            return Err(io::Error::from(io::ErrorKind::Other));
        }
        self.calls -= 1;
        Ok(buf.len().min(self.most))
    }

    fn flush(&mut self) -> io::Result<()> {
        Ok(())
    }
}

#[test]
fn an_adapter_writes_all_pieces_in_one_call(rt: HostRuntime) {
    // bytes that a call takes, calls before it fails, how many are whole
    let rows = [
        (9, 1, 3),
        (6, 1, 3),
        (4, 2, 3),
        (4, 1, 2),
        (2, 1, 1),
        (1, 6, 3),
        (0, 9, 0),
    ];
    for (most, calls, whole) in rows {
        let mut sink = WriterSink::new(Pipe { most, calls });
        assert_eq!(rt;
            write_three(&mut sink),
            whole,
            "{most} bytes a call, {calls} calls"
        );
    }
}

// Gives one byte, then fails, then gives one more, then ends.
#[derive(Drop)]
struct Stutter {
    calls: u8,
}

impl io::Read for Stutter {
    fn read(&mut self, buf: &mut [u8]) -> io::Result<usize> {
        self.calls = self.calls.saturating_add(1);
        if buf.is_empty() || self.calls > 3 {
            return Ok(0);
        }
        if self.calls == 2 {
            return Err(io::Error::from(io::ErrorKind::Other));
        }
        buf[0] = self.calls;
        Ok(1)
    }
}

// Takes one byte, then none, then fails, then takes one.
impl io::Write for Stutter {
    fn write(&mut self, buf: &[u8]) -> io::Result<usize> {
        self.calls = self.calls.saturating_add(1);
        if self.calls == 3 {
            return Err(io::Error::from(io::ErrorKind::Other));
        }
        Ok(if buf.is_empty() || self.calls == 2 {
            0
        } else {
            1
        })
    }

    fn flush(&mut self) -> io::Result<()> {
        Ok(())
    }
}

#[test]
fn an_adapter_counts_each_fault_and_goes_on(rt: HostRuntime) {
    let mut source = ReaderSource::new(Stutter { calls: 0 });
    let mut buf = [0; 4];
    for expected in [Ok(1), Err(Failed), Ok(1), Ok(0)] {
        assert_eq!(rt; read_piece(&mut source, &mut buf), expected);
    }
    assert_eq!(rt; buf[0], 3, "the last byte that was read");
    let mut sink = WriterSink::new(Stutter { calls: 0 });
    for expected in [Ok(1), Err(Failed), Err(Failed), Ok(1)] {
        assert_eq!(rt; write_piece(&mut sink, b"abcd"), expected);
    }
}

#[test]
fn a_list_keeps_its_items_and_its_room(rt: HostRuntime) -> Result<(), Fail> {
    let mut replies = Replies::with_room(rt.alloc(), 1)?;
    assert!(rt; replies.take_last().is_none());
    for stamp in 1..4 {
        assert!(rt; replies.append(Reply::Stored { stamp }).is_ok(), "{stamp}");
    }
    assert_eq!(rt; replies.as_slice().len(), 3);
    assert!(rt; matches!(replies.take_last(), Some(Reply::Stored { stamp: 3 })));
    assert!(rt;
        matches!(
            replies.as_slice(),
            [Reply::Stored { stamp: 1 }, Reply::Stored { stamp: 2 }]
        )
    );
    Ok(())
}

#[test]
fn bytes_keep_what_was_copied(rt: HostRuntime) -> Result<(), Fail> {
    let bytes = Bytes::copy(rt.alloc(), b"key")?;
    assert_eq!(rt; (bytes.len(), bytes.is_empty()), (3, false));
    assert_eq!(rt; bytes.as_slice(), b"key".as_slice());
    let again = Bytes::from_vec(bytes.into_vec());
    assert_eq!(rt; again.as_slice(), b"key".as_slice());
    Ok(())
}

#[test]
fn places_are_ordered_by_class_then_slot(rt: HostRuntime) {
    let place = |class, slot| Place { class, slot };
    assert!(rt; place(1, 9) < place(2, 0) && place(2, 0) < place(2, 1));
    assert_eq!(rt; Limits { slots: 1, cache: 2 }.slots, 1);
    assert_eq!(rt;
        Cause::Malformed { offset: 8 },
        Cause::Malformed { offset: 8 }
    );
}
