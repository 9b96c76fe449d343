ghost use Rattle.std.specs.Prelude.{◌≡◌, ℕ, ◌<◌, ◌≤◌, List, [], Option, Ok, take, length, IfOk};
ghost use Rattle.std.specs.Prelude.{OnErr};
ghost use Rattle.kv_base.specs.Fault.{HasCause, Counted};
ghost use Rattle.kv_base.specs.Stream.{Stream, Passes, IsSpent};

use crate::Failed;

/// Where the bytes of a session come from.
pub trait Source {
    /// The bytes that were taken and those that are left, where the source tells them.
    ghost stream: { Self → Option Stream };

    /// How often it has failed. The count never falls.
    ghost faults: { Self → ℕ };

    /// Takes the next bytes into the front of the buffer, which isn't empty, and answers how many.
    /// `Ok(0)` is the end of the input. After `Failed`, which the count of faults shows, nothing
    /// was taken.
    fn read(&mut self, buf: &mut [u8]) -> Result<usize, Failed>
        requires { 0 < length buf.old }
        ensures bound { IfOk result (λ n. n ≤ length buf.new) }
        ensures bytes { IfOk result (λ n. Passes (stream self.old) (stream self.new)
            (take n buf.new)) }
        ensures end { result ≡ Ok 0 → IsSpent (stream self.new) }
        ensures err { OnErr result (Passes (stream self.old) (stream self.new) []) }
        ensures cause { HasCause (faults self.old) (faults self.new) result }
        ensures counted { Counted (faults self.old) (faults self.new) result };
}
