ghost use Rattle.std.specs.Prelude.{◌≡◌, ◌↔◌, [], IfOk, IsTrue, Contains};

use crate::NoMemory;
use std::alloc::Global;
use std::marker::Model;

/// The numbers of the calls at which an object in memory fails, counted from 1 over all its calls.
/// Contracts see a list.
#[derive(Debug, Drop)]
pub struct Calls {
    numbers: Option<Vec<u32>>,
}

impl Model for Calls {
    ghost use Rattle.std.specs.Prelude.{List, ℕ};
    ghost use Rattle.kv_base.specs.Calls.{numbers_of};

    ghost Value = { List ℕ };

    ghost view = { λ c. numbers_of c.numbers };
}

impl Calls {
    /// No call fails.
    pub fn none() -> Calls
        ensures { result ≡ [] }
    {
        Calls { numbers: None }
    }

    /// Exactly these calls fail. The one error is want of memory.
    pub fn of(alloc: Global, numbers: &[u32]) -> Result<Calls, NoMemory>
        ensures ok { IfOk result (λ calls. calls ≡ numbers.now) }
    {
        Ok(Calls {
            numbers: Some(Vec::from_slice(alloc, numbers)?),
        })
    }

    /// Whether the call with this number fails.
    pub fn has(&self, number: u64) -> bool
        ensures { IsTrue result ↔ Contains self.now number }
    {
        match &self.numbers {
            None => false,
            Some(numbers) => numbers.iter().any(|n| u64::from(*n) == number),
        }
    }
}
