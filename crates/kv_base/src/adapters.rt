ghost use Rattle.std.specs.Prelude.{◌≡◌, ℕ, ◌<◌, ◌≤◌, List, [], Option, None, Ok, take, length};
ghost use Rattle.std.specs.Prelude.{IfOk, OnErr};
ghost use Rattle.std.specs.Io.KnownBytes.{ReadConsumes, WriteAppends, Appends};
ghost use Rattle.kv_base.specs.Fault.{HasCause, Counted};
ghost use Rattle.kv_base.specs.Stream.{Stream, Passes, IsSpent, Takes};
ghost use Rattle.kv_base.specs.Pieces.{AreEnds, TakesPieces, AppendsPieces, CountedPieces};

use crate::pieces::whole_pieces;
use crate::{Failed, Sink, Source};
use std::io::{Read, Write};
use std::marker::Model;

/// A source over any reader of std. It makes one call of the reader for each of its own and keeps
/// no byte back. It counts each error as a fault, and tells no bytes.
#[derive(Drop)]
pub struct ReaderSource<R: Read> {
    reader: R,
    faults: u64,
}

impl<R: Read> Model for ReaderSource<R> {
    ghost use Rattle.kv_base.specs.Adapters.{Adapter};

    ghost Value = { Adapter R };

    ghost view = { λ s. record { inner = s.reader; faults = s.faults } };
}

impl<R: Read> ReaderSource<R> {
    /// A source over the reader, without a fault so far.
    pub fn new(reader: R) -> ReaderSource<R>
        ensures { result ≡ record { inner = reader; faults = 0 } }
    {
        ReaderSource { reader, faults: 0 }
    }
}

impl<R: Read> Source for ReaderSource<R> {
    ghost stream = { λ _. None };

    ghost faults = { λ s. s.faults };

    fn read(&mut self, buf: &mut [u8]) -> Result<usize, Failed>
        requires { 0 < length buf.old }
        ensures bound { IfOk result (λ n. n ≤ length buf.new) }
        ensures bytes { IfOk result (λ n. Passes None None (take n buf.new)) }
        ensures end { result ≡ Ok 0 → IsSpent None }
        ensures err { OnErr result (Passes None None []) }
        ensures cause { HasCause self.old.faults self.new.faults result }

        // what the reader tells, and just an error is counted
        ensures known { ReadConsumes (R.remaining self.old.inner) (R.remaining self.new.inner)
            result buf.new }
        ensures counted { Counted self.old.faults self.new.faults result }
    {
        match self.reader.read(buf) {
            Ok(n) => Ok(n),
            Err(_) => {
                self.faults = self.faults.saturating_add(1);
                Err(Failed)
            }
        }
    }
}

/// A sink over any writer of std. It makes one call of the writer for each of its own, also for
/// many pieces, where more follow only for what a short write left. It keeps no byte back. It
/// counts each error as a fault, and so a writer that takes 0 bytes. It tells no bytes.
#[derive(Drop)]
pub struct WriterSink<W: Write> {
    writer: W,
    faults: u64,
}

impl<W: Write> Model for WriterSink<W> {
    ghost use Rattle.kv_base.specs.Adapters.{Adapter};

    ghost Value = { Adapter W };

    ghost view = { λ s. record { inner = s.writer; faults = s.faults } };
}

impl<W: Write> WriterSink<W> {
    /// A sink over the writer, without a fault so far.
    pub fn new(writer: W) -> WriterSink<W>
        ensures { result ≡ record { inner = writer; faults = 0 } }
    {
        WriterSink { writer, faults: 0 }
    }

    // One call of the writer.
    fn write_once(&mut self, bytes: &[u8]) -> Result<usize, Failed>
        requires { 0 < length bytes.now }
        ensures bound { IfOk result (λ n. (0 < n) × (n ≤ length bytes.now)) }
        ensures known { WriteAppends (W.contents self.old.inner) (W.contents self.new.inner)
            result bytes.now }
        ensures cause { HasCause self.old.faults self.new.faults result }
        ensures counted { Counted self.old.faults self.new.faults result }
    {
        match self.writer.write(bytes) {
            Ok(n) if n > 0 => Ok(n),
            _ => {
                self.faults = self.faults.saturating_add(1);
                Err(Failed)
            }
        }
    }

    // One call of the writer, and more only for what a short write left, up to a fault. It answers
    // how many bytes were taken.
    fn write_all(&mut self, bytes: &[u8]) -> usize
        ensures bound { result ≤ length bytes.now }
        ensures known { Appends (W.contents self.old.inner) (W.contents self.new.inner)
            (take result bytes.now) }
        ensures counted { CountedPieces self.old.faults self.new.faults result (length bytes.now) }
    {
        let mut sent = 0;
        while sent < bytes.len() {
            match self.write_once(&bytes[sent..]) {
                Ok(n) => sent += n,
                Err(Failed) => return sent,
            }
        }
        sent
    }
}

impl<W: Write> Sink for WriterSink<W> {
    ghost held = { λ _. None };

    ghost faults = { λ s. s.faults };

    fn write(&mut self, bytes: &[u8]) -> Result<usize, Failed>
        requires { 0 < length bytes.now }
        ensures bound { IfOk result (λ n. (0 < n) × (n ≤ length bytes.now)) }
        ensures bytes { IfOk result (λ n. Takes None None (take n bytes.now)) }
        ensures err { OnErr result (Takes None None []) }
        ensures cause { HasCause self.old.faults self.new.faults result }

        // what the writer tells, and just an error is counted
        ensures known { WriteAppends (W.contents self.old.inner) (W.contents self.new.inner)
            result bytes.now }
        ensures counted { Counted self.old.faults self.new.faults result }
    {
        self.write_once(bytes)
    }

    fn write_pieces(&mut self, bytes: &[u8], ends: &[usize]) -> usize
        requires { AreEnds 0 ends.now (length bytes.now) }
        ensures some { result ≤ length ends.now }
        ensures taken { TakesPieces None None bytes.now ends.now result }
        ensures counted { CountedPieces self.old.faults self.new.faults result (length ends.now) }

        // what the writer tells
        ensures known { AppendsPieces (W.contents self.old.inner) (W.contents self.new.inner)
            bytes.now ends.now result }
    {
        let sent = self.write_all(bytes);
        whole_pieces(ends, sent)
    }
}
