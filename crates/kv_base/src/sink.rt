ghost use Rattle.std.specs.Prelude.{ℕ, ◌<◌, ◌≤◌, List, [], Option, take, length, IfOk, OnErr};
ghost use Rattle.kv_base.specs.Fault.{HasCause, Counted};
ghost use Rattle.kv_base.specs.Stream.{Takes};
ghost use Rattle.kv_base.specs.Pieces.{AreEnds, TakesPieces, CountedPieces};

use crate::Failed;

/// Where the replies of a session go.
pub trait Sink {
    /// All bytes that it took, where the sink tells them.
    ghost held: { Self → Option (List ℕ) };

    /// How often it has failed. The count never falls.
    ghost faults: { Self → ℕ };

    /// Appends a front of the bytes, which aren't empty, and answers how many, at least one.
    /// After `Failed`, which the count of faults shows, nothing was taken.
    fn write(&mut self, bytes: &[u8]) -> Result<usize, Failed>
        requires { 0 < length bytes.now }
        ensures bound { IfOk result (λ n. (0 < n) × (n ≤ length bytes.now)) }
        ensures bytes { IfOk result (λ n. Takes (held self.old) (held self.new) (take n bytes.now)) }
        ensures err { OnErr result (Takes (held self.old) (held self.new) []) }
        ensures cause { HasCause (faults self.old) (faults self.new) result }
        ensures counted { Counted (faults self.old) (faults self.new) result };

    /// Appends pieces that stand one behind the other in the bytes, each ending where `ends` says:
    /// as `write` for one piece after the other, up to the first that isn't taken whole after a
    /// fault. It answers how many were taken whole. Of the next one, where there is one, a part may
    /// have gone that isn't all of it.
    #[tactic(auto, using(crate::proofs::PieceLemmas::ends_in, crate::proofs::PieceLemmas::is_below))]
    fn write_pieces(&mut self, bytes: &[u8], ends: &[usize]) -> usize
        requires { AreEnds 0 ends.now (length bytes.now) }
        ensures some { result ≤ length ends.now }
        ensures taken { TakesPieces (held self.old) (held self.new) bytes.now ends.now result }
        ensures counted { CountedPieces (faults self.old) (faults self.new) result
            (length ends.now) }
    {
        let mut sent = 0;
        let mut whole = 0;
        while whole < ends.len() {
            match self.write(&bytes[sent..ends[whole]]) {
                Ok(n) => sent += n,
                Err(Failed) => return whole,
            }
            if sent == ends[whole] {
                whole += 1;
            }
        }
        whole
    }
}
