ghost use Rattle.std.specs.Prelude.{◌≡◌, ◌≤◌, ◌+◌, length};
ghost use Rattle.rtrb.specs.Ring.{sent, known_free, producer_capacity};

use rtrb::{Consumer, Producer, PushError};

/// One party's ends of the two rings between it and another party.
#[derive(Drop)]
pub(crate) struct End<S, R> {
    pub(crate) out: Producer<S>,
    pub(crate) back: Consumer<R>,
    ghost capacity: { producer_capacity out ≡ 2 },
    ghost places: { 2 ≤ length (sent out) + known_free out },
}

impl<S, R> End<S, R> {
    ghost use Rattle.std.specs.Prelude.{◌≡◌, ◌<◌, [], ◌∷◌, ◌++◌, length, IsOk, OnOk, OnErr};
    ghost use Rattle.std.specs.Prelude.{IfErr, IfSome, IfNone, IsSome, option_to_list};
    ghost use mathlib.Core.List.{IsPrefix};
    ghost use Rattle.rtrb.specs.Ring.{sent, received, known_free, known_items};
    ghost use Rattle.kv_ring.specs.Lines.{line_of};

    /// Sends a message, or hands it back where no place is known of.
    pub(crate) fn push(&mut self, message: S) -> Result<(), S>
        ensures line { line_of self.new ≡ line_of self.old }
        ensures ok { OnOk result (sent self.new.out ≡ sent self.old.out ++ message ∷ []) }
        ensures err { IfErr result (λ handed. handed ≡ message) }
        ensures unsent { OnErr result (sent self.new.out ≡ sent self.old.out) }
        ensures full { OnErr result (known_free self.new.out ≡ 0) }
        ensures place { 0 < known_free self.old.out → IsOk result }
        ensures one { OnOk result (known_free self.old.out ≤ known_free self.new.out + 1) }
        ensures first { length (sent self.old.out) < 2 → IsOk result }
        ensures back { self.new.back ≡ self.old.back }
    {
        match self.out.push(message) {
            Ok(()) => Ok(()),
            Err(PushError::Full(handed)) => Err(handed),
        }
    }

    /// The next message, if one is known of.
    pub(crate) fn pop(&mut self) -> Option<R>
        ensures line { line_of self.new ≡ line_of self.old }
        ensures received { received self.new.back
            ≡ received self.old.back ++ option_to_list result }
        ensures some { IfSome result (λ message.
            IsPrefix (known_items self.old.back) (message ∷ known_items self.new.back)) }
        ensures none { IfNone result (known_items self.new.back ≡ []) }
        ensures known { 0 < length (known_items self.old.back) → IsSome result }
        ensures out { self.new.out ≡ self.old.out }
    {
        match self.back.pop() {
            Ok(message) => Some(message),
            Err(_) => None,
        }
    }
}
