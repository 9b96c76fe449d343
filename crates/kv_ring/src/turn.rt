/// What a party's turn was.
#[derive(Clone, Copy, Debug, PartialEq, Eq)]
pub enum Turn {
    /// The party went on.
    Moved,
    /// There was nothing to do.
    Idle,
    /// The party has ended: nothing of it waits to be sent.
    Ended,
}

impl Turn {
    ghost use Rattle.std.specs.Prelude.{◌≡◌};
    ghost use Rattle.kv_ring.specs.Turn.{turn_of};

    /// The turn of a party that has ended, or else went on, or else had nothing to do.
    pub fn of(ended: bool, moved: bool) -> Turn
        ensures { result ≡ turn_of ended moved }
    {
        if ended {
            Turn::Ended
        } else if moved {
            Turn::Moved
        } else {
            Turn::Idle
        }
    }
}
