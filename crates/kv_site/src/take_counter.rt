ghost use Rattle.std.specs.Prelude.{◌≡◌, ◌≤◌, ◌↔◌, Contains, IsTrue, IfOk, IsSome, IsOk, IfErr};
ghost use Rattle.std.specs.Prelude.{Some, is_err, if◌then◌else◌};
ghost use Rattle.kv_base.specs.Calls.{next_count};

use crate::TakeFault;
use kv_base::Calls;

/// Counts the takes of a site in memory and those that failed, and knows which fail.
#[derive(Debug, Drop)]
pub struct TakeCounter {
    /// The numbers of the takes that fail.
    pub failing: Calls,
    /// How many takes there were.
    pub takes: u64,
    /// How many of them failed.
    pub faults: u64,
}

impl TakeCounter {
    /// Counts a take, and answers whether it is one that fails.
    pub fn begin(&mut self) -> bool
        ensures listed { IsTrue result ↔ Contains self.old.failing (next_count self.old.takes) }
        ensures counted { self.new ≡ record self.old { takes = next_count self.old.takes } }
    {
        self.takes = self.takes.saturating_add(1);
        self.failing.has(self.takes)
    }

    /// Answers what was taken. Where nothing was, the take fails and is counted as a fault.
    pub fn end<T>(&mut self, taken: Option<T>) -> Result<T, TakeFault>
        ensures ok { IfOk result (λ thing. taken ≡ Some thing) }
        ensures err { IsOk result ↔ IsSome taken }
        ensures fault { IfErr result (λ e. e ≡ TakeFault.Failed) }
        ensures later { self.old.faults ≤ self.new.faults }
        ensures counted { self.new ≡ record self.old {
          faults = if is_err result
              then next_count self.old.faults else self.old.faults;
        } }
    {
        match taken {
            Some(thing) => Ok(thing),
            None => {
                self.faults = self.faults.saturating_add(1);
                Err(TakeFault::Failed)
            }
        }
    }
}
