ghost use Rattle.std.specs.Prelude.{◌≡◌, ◌≤◌, ◌++◌, [], IfOk, OnOk, OnErr, length};
ghost use Rattle.std.specs.Fmt.{decimal};
ghost use Rattle.hex.specs.Hex.{encode_lower};
ghost use Rattle.kv_base.specs.Fault.{Counted};
ghost use Rattle.kv_base.specs.Stream.{Takes};
ghost use Rattle.kv_tools.specs.Lines.{item_line};
ghost use Rattle.kv_tools.specs.Sent.{TakesFront, Puts};

use crate::send::send;
use kv_base::{Failed, NoMemory, Sink};
use std::alloc::Global;
use std::marker::Model;

// Bytes of text that wait before they are sent.
const PIECE: usize = 65_536;

// Bytes that are turned into hexadecimal digits at once.
const CHUNK: usize = 256;

/// Text on its way to a sink, which goes out in pieces of some 64 KB. Contracts see what waits.
/// After an error it is of no more use.
#[derive(Debug, Drop)]
pub struct Text {
    waiting: Vec<u8>,
}

impl Model for Text {
    ghost use Rattle.std.specs.Prelude.{List, ℕ};

    ghost Value = { List ℕ };

    ghost view = { λ t. t.waiting.items };
}

impl Text {
    /// No text. It takes all memory that it needs.
    pub fn new(alloc: Global) -> Result<Text, NoMemory>
        ensures { IfOk result (λ text. text ≡ []) }
    {
        Ok(Text {
            waiting: Vec::with_capacity(alloc, PIECE)?,
        })
    }

    /// Sends what waits.
    pub fn flush<Si: Sink>(&mut self, out: &mut Si) -> Result<(), Failed>
        ensures ok { OnOk result (Takes (Si.held out.old) (Si.held out.new) self.old) }
        ensures empty { OnOk result (self.new ≡ []) }
        ensures err { OnErr result (TakesFront (Si.held out.old) (Si.held out.new) self.old) }
        ensures counted { Counted (Si.faults out.old) (Si.faults out.new) result }
    {
        send(out, self.waiting.as_slice())?;
        self.waiting.clear();
        Ok(())
    }

    /// Puts bytes where none wait. More than there is room for are sent.
    fn put_first<Si: Sink>(&mut self, out: &mut Si, bytes: &[u8]) -> Result<(), Failed>
        requires { self.old ≡ [] }
        ensures ok { OnOk result (Puts (Si.held out.old) (Si.held out.new) [] self.new bytes.now) }
        ensures err { OnErr result (TakesFront (Si.held out.old) (Si.held out.new) bytes.now) }
        ensures counted { Counted (Si.faults out.old) (Si.faults out.new) result }
    {
        if bytes.len() > self.waiting.capacity() {
            return send(out, bytes);
        }
        self.waiting.extend_from_slice(bytes).unwrap();
        Ok(())
    }

    /// Puts bytes behind what waits. Where there is no room for them, that is sent first.
    fn put<Si: Sink>(&mut self, out: &mut Si, bytes: &[u8]) -> Result<(), Failed>
        ensures ok { OnOk result (Puts (Si.held out.old) (Si.held out.new) self.old self.new
            bytes.now) }
        ensures err { OnErr result (TakesFront (Si.held out.old) (Si.held out.new)
            (self.old ++ bytes.now)) }
        ensures counted { Counted (Si.faults out.old) (Si.faults out.new) result }
    {
        if bytes.len() > self.waiting.capacity() - self.waiting.len() {
            self.flush(out)?;
            return self.put_first(out, bytes);
        }
        self.waiting.extend_from_slice(bytes).unwrap();
        Ok(())
    }

    /// Puts a number in decimal.
    fn put_number<Si: Sink>(&mut self, out: &mut Si, number: u64) -> Result<(), Failed>
        ensures ok { OnOk result (Puts (Si.held out.old) (Si.held out.new) self.old self.new
            (decimal number)) }
        ensures err { OnErr result (TakesFront (Si.held out.old) (Si.held out.new)
            (self.old ++ decimal number)) }
        ensures counted { Counted (Si.faults out.old) (Si.faults out.new) result }
    {
        self.put(out, itoa::Buffer::new().format(number).as_bytes())
    }

    /// Puts a few bytes in hexadecimal.
    fn put_chunk<Si: Sink>(&mut self, out: &mut Si, bytes: &[u8]) -> Result<(), Failed>
        requires { length bytes.now ≤ 256 }
        ensures ok { OnOk result (Puts (Si.held out.old) (Si.held out.new) self.old self.new
            (encode_lower bytes.now)) }
        ensures err { OnErr result (TakesFront (Si.held out.old) (Si.held out.new)
            (self.old ++ encode_lower bytes.now)) }
        ensures counted { Counted (Si.faults out.old) (Si.faults out.new) result }
    {
        let mut digits = [0; 2 * CHUNK];
        let digits = &mut digits[..2 * bytes.len()];
        hex::encode_to_slice(bytes, digits).unwrap();
        self.put(out, digits)
    }

    /// Puts bytes in hexadecimal.
    fn put_hex<Si: Sink>(&mut self, out: &mut Si, bytes: &[u8]) -> Result<(), Failed>
        ensures ok { OnOk result (Puts (Si.held out.old) (Si.held out.new) self.old self.new
            (encode_lower bytes.now)) }
        ensures err { OnErr result (TakesFront (Si.held out.old) (Si.held out.new)
            (self.old ++ encode_lower bytes.now)) }
        ensures counted { Counted (Si.faults out.old) (Si.faults out.new) result }
    {
        let mut rest = bytes;
        while !rest.is_empty() {
            let (front, behind) = rest.split_at(rest.len().min(CHUNK));
            self.put_chunk(out, front)?;
            rest = behind;
        }
        Ok(())
    }

    /// Puts the line of an item.
    pub fn put_item<Si: Sink>(
        &mut self,
        out: &mut Si,
        stamp: u64,
        key: &[u8],
        value: &[u8],
    ) -> Result<(), Failed>
        ensures ok { OnOk result (Puts (Si.held out.old) (Si.held out.new) self.old self.new
            (item_line stamp key.now value.now)) }
        ensures err { OnErr result (TakesFront (Si.held out.old) (Si.held out.new)
            (self.old ++ item_line stamp key.now value.now)) }
        ensures counted { Counted (Si.faults out.old) (Si.faults out.new) result }
    {
        self.put_number(out, stamp)?;
        self.put(out, b" ")?;
        self.put_hex(out, key)?;
        self.put(out, b" ")?;
        self.put_hex(out, value)?;
        self.put(out, b"\n")
    }
}
