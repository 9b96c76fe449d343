ghost use Rattle.std.specs.Prelude.{◌≡◌, true};

/// What turns of some parties were.
#[derive(Clone, Copy)]
pub struct Round {
    /// Whether one of them went on.
    pub moved: bool,
    /// Whether none made a turn, since all of them had ended.
    pub over: bool,
}

impl Round {
    ghost use Rattle.std.specs.Prelude.{◌≡◌, true};

    /// That of parties that had ended.
    pub fn ended() -> Round
        ensures { result.over ≡ true }
    {
        Round {
            moved: false,
            over: true,
        }
    }

    /// That of the parties of both.
    pub fn beside(self, other: Round) -> Round
        ensures { result.over ≡ true → (self.over ≡ true) × (other.over ≡ true) }
    {
        Round {
            moved: self.moved || other.moved,
            over: self.over && other.over,
        }
    }
}
