use crate::asked::{Ask, Outcome, Row, Told};
use Ask::{Delete, Get, Put};
use Outcome::Done;
use Told::{Found, Full, Removed, Stored};

/// A batch, what becomes of it, and how many calls of the disk it takes, of which the first ones
/// are reads.
pub struct Turn {
    pub rows: &'static [Row],
    pub outcome: Outcome,
    pub reads: u32,
    pub calls: u32,
}

/// What a key has: a byte so often, or nothing where that is 0.
pub type Value = (u8, usize);

/// A key, and what it has before the first batch and behind each.
pub struct Held(pub &'static [u8], pub &'static [Value]);

/// Batches on a store that was filled and then opened again, with so many slots of a class and
/// pages that are kept. The failing calls are counted from the opening on.
pub struct Case {
    pub why: &'static str,
    pub slots: u32,
    pub cache: u32,
    pub before: &'static [Row],
    pub failing: &'static [u32],
    pub turns: &'static [Turn],
    pub keys: &'static [Held],
}

// Right behind the opening no page is kept. A page of small slots is read before it is written, but
// a page of its own isn't. New items are written first and synced, then tombstones.
static MOVES: [Case; 3] = [
    Case {
        why: "a grows from class 1 to 2",
        slots: 9,
        cache: 4,
        before: &[Row(b"a", Put(1, 47), Stored)],
        failing: &[],
        turns: &[Turn {
            rows: &[Row(b"a", Put(2, 48), Stored)],
            outcome: Done,
            reads: 2,
            calls: 6,
        }],
        keys: &[Held(b"a", &[(1, 47), (2, 48)])],
    },
    Case {
        why: "a grows from class 7 to 8",
        slots: 9,
        cache: 4,
        before: &[Row(b"a", Put(1, 4_079), Stored)],
        failing: &[],
        turns: &[Turn {
            rows: &[Row(b"a", Put(2, 4_080), Stored)],
            outcome: Done,
            reads: 0,
            calls: 5,
        }],
        keys: &[Held(b"a", &[(1, 4_079), (2, 4_080)])],
    },
    Case {
        why: "a grows within class 8",
        slots: 9,
        cache: 4,
        before: &[Row(b"a", Put(1, 5_000), Stored)],
        failing: &[],
        turns: &[Turn {
            rows: &[Row(b"a", Put(2, 5_001), Stored)],
            outcome: Done,
            reads: 0,
            calls: 5,
        }],
        keys: &[Held(b"a", &[(1, 5_000), (2, 5_001)])],
    },
];

/// One key moves.
pub fn moves() -> &'static [Case] {
    &MOVES
}

static ITEMS: [Case; 3] = [
    Case {
        why: "a new item of class 9 has four pages",
        slots: 9,
        cache: 4,
        before: &[],
        failing: &[],
        turns: &[Turn {
            rows: &[Row(b"a", Put(1, 9_000), Stored)],
            outcome: Done,
            reads: 0,
            calls: 5,
        }],
        keys: &[Held(b"a", &[(0, 0), (1, 9_000)])],
    },
    Case {
        why: "two new keys, and a get of the first one",
        slots: 9,
        cache: 4,
        before: &[],
        failing: &[],
        turns: &[Turn {
            rows: &[
                Row(b"a", Put(1, 1), Stored),
                Row(b"b", Put(2, 1), Stored),
                Row(b"a", Get, Found(1, 1)),
            ],
            outcome: Done,
            reads: 1,
            calls: 3,
        }],
        keys: &[Held(b"a", &[(0, 0), (1, 1)]), Held(b"b", &[(0, 0), (2, 1)])],
    },
    Case {
        why: "a is deleted",
        slots: 9,
        cache: 4,
        before: &[Row(b"a", Put(1, 47), Stored)],
        failing: &[],
        turns: &[Turn {
            rows: &[Row(b"a", Delete, Removed)],
            outcome: Done,
            reads: 1,
            calls: 3,
        }],
        keys: &[Held(b"a", &[(1, 47), (0, 0)])],
    },
];

/// Keys come and go.
pub fn items() -> &'static [Case] {
    &ITEMS
}

static PLANS: [Case; 2] = [
    Case {
        why: "a moves and b is deleted, which stand on one page",
        slots: 9,
        cache: 4,
        before: &[Row(b"a", Put(1, 1), Stored), Row(b"b", Put(2, 1), Stored)],
        failing: &[],
        turns: &[Turn {
            rows: &[Row(b"a", Put(3, 60), Stored), Row(b"b", Delete, Removed)],
            outcome: Done,
            reads: 2,
            calls: 6,
        }],
        keys: &[
            Held(b"a", &[(1, 1), (3, 60)]),
            Held(b"b", &[(2, 1), (0, 0)]),
        ],
    },
    Case {
        why: "a moves, b stays in its slot, c is deleted, d has a large slot, e is new",
        slots: 9,
        cache: 4,
        before: &[
            Row(b"a", Put(1, 10), Stored),
            Row(b"b", Put(2, 10), Stored),
            Row(b"c", Put(3, 10), Stored),
            Row(b"d", Put(4, 5_000), Stored),
        ],
        failing: &[],
        turns: &[Turn {
            rows: &[
                Row(b"a", Put(5, 48), Stored),
                Row(b"b", Put(6, 10), Stored),
                Row(b"c", Delete, Removed),
                Row(b"d", Put(7, 5_001), Stored),
                Row(b"e", Put(8, 200), Stored),
            ],
            outcome: Done,
            // Reads: page 0 of the files 2, 1 and 3. Then these pages and two of file 8, a sync;
            // the page of a and c and the first one of d, a sync.
            reads: 3,
            calls: 12,
        }],
        keys: &[
            Held(b"a", &[(1, 10), (5, 48)]),
            Held(b"b", &[(2, 10), (6, 10)]),
            Held(b"c", &[(3, 10), (0, 0)]),
            Held(b"d", &[(4, 5_000), (7, 5_001)]),
            Held(b"e", &[(0, 0), (8, 200)]),
        ],
    },
];

/// Several changes at once.
pub fn plans() -> &'static [Case] {
    &PLANS
}

static TURNS: [Case; 2] = [
    Case {
        why: "a grows from class 1 to 2, and the next batch deletes it",
        slots: 9,
        cache: 4,
        before: &[Row(b"a", Put(1, 47), Stored)],
        failing: &[],
        turns: &[
            Turn {
                rows: &[Row(b"a", Put(2, 48), Stored)],
                outcome: Done,
                reads: 2,
                calls: 6,
            },
            Turn {
                rows: &[Row(b"a", Delete, Removed)],
                outcome: Done,
                // The page is kept.
                reads: 0,
                calls: 2,
            },
        ],
        keys: &[Held(b"a", &[(1, 47), (2, 48), (0, 0)])],
    },
    Case {
        why: "a batch that finds its class full",
        slots: 2,
        cache: 4,
        before: &[Row(b"a", Put(1, 1), Stored), Row(b"b", Put(2, 1), Stored)],
        failing: &[],
        turns: &[Turn {
            rows: &[
                Row(b"b", Get, Found(2, 1)),
                Row(b"a", Put(3, 2), Stored),
                Row(b"c", Put(4, 1), Full(1)),
                Row(b"b", Delete, Removed),
                Row(b"c", Put(5, 1), Full(1)),
            ],
            outcome: Done,
            // The get reads the page, which is kept for the writes.
            reads: 1,
            calls: 5,
        }],
        keys: &[
            Held(b"a", &[(1, 1), (3, 2)]),
            Held(b"b", &[(2, 1), (0, 0)]),
            Held(b"c", &[(0, 0), (0, 0)]),
        ],
    },
];

/// A batch behind another, and one that finds its class full.
pub fn turns() -> &'static [Case] {
    &TURNS
}
