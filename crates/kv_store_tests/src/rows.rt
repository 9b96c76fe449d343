use crate::asked::{Ask, Outcome, Row, Told};
use crate::cases::{Case, Held, Turn};
use Ask::{Delete, Get, Put};
use Outcome::{Done, Failed, Refused};
use Told::{Absent, Closed, DiskFault, Found, Full, Missing, Removed, Stored};

// Each of these once, as it is told.
static ROWS: [Case; 9] = [
    Case {
        why: "a key without a value before and behind a batch is not written",
        slots: 9,
        cache: 4,
        before: &[],
        failing: &[],
        turns: &[Turn {
            rows: &[
                Row(b"a", Delete, Absent),
                Row(b"a", Put(1, 1), Stored),
                Row(b"a", Delete, Removed),
                Row(b"a", Get, Missing),
            ],
            outcome: Done,
            reads: 0,
            calls: 0,
        }],
        keys: &[Held(b"a", &[(0, 0), (0, 0)])],
    },
    Case {
        why: "a key is written once, and a get between two puts finds the first one",
        slots: 9,
        cache: 4,
        before: &[],
        failing: &[],
        turns: &[Turn {
            rows: &[
                Row(b"k", Put(1, 1), Stored),
                Row(b"k", Get, Found(1, 1)),
                Row(b"k", Put(2, 1), Stored),
            ],
            outcome: Done,
            // A read, a write and a sync.
            reads: 1,
            calls: 3,
        }],
        keys: &[Held(b"k", &[(0, 0), (2, 1)])],
    },
    Case {
        why: "the first sync fails",
        slots: 9,
        cache: 4,
        before: &[],
        failing: &[3],
        turns: &[
            Turn {
                rows: &[
                    Row(b"a", Put(1, 1), Stored),
                    Row(b"b", Put(2, 1), Stored),
                    Row(b"a", Get, Found(1, 1)),
                ],
                outcome: Failed,
                reads: 1,
                calls: 3,
            },
            Turn {
                rows: &[Row(b"a", Get, Found(1, 1))],
                outcome: Refused(Closed),
                reads: 0,
                calls: 0,
            },
        ],
        keys: &[],
    },
    Case {
        why: "a failed read refuses its batch alone, and one page is kept",
        slots: 9,
        cache: 1,
        before: &[Row(b"a", Put(1, 1), Stored), Row(b"b", Put(2, 100), Stored)],
        failing: &[2],
        turns: &[
            Turn {
                rows: &[Row(b"b", Get, Found(2, 100))],
                outcome: Done,
                reads: 1,
                calls: 1,
            },
            Turn {
                rows: &[Row(b"a", Get, Found(1, 1))],
                outcome: Refused(DiskFault),
                reads: 1,
                calls: 1,
            },
            Turn {
                rows: &[Row(b"a", Get, Found(1, 1))],
                outcome: Done,
                reads: 1,
                calls: 1,
            },
            Turn {
                rows: &[Row(b"a", Get, Found(1, 1))],
                outcome: Done,
                reads: 0,
                calls: 0,
            },
            Turn {
                rows: &[Row(b"b", Get, Found(2, 100))],
                outcome: Done,
                reads: 1,
                calls: 1,
            },
        ],
        keys: &[],
    },
    Case {
        why: "a put has no room where a delete of its batch makes it, and has it in the next batch",
        slots: 2,
        cache: 4,
        before: &[Row(b"a", Put(1, 1), Stored), Row(b"b", Put(2, 1), Stored)],
        failing: &[],
        turns: &[
            Turn {
                rows: &[Row(b"a", Delete, Removed), Row(b"c", Put(3, 1), Full(1))],
                outcome: Done,
                reads: 1,
                calls: 3,
            },
            Turn {
                rows: &[Row(b"c", Put(3, 1), Stored)],
                outcome: Done,
                reads: 0,
                calls: 2,
            },
        ],
        keys: &[
            Held(b"a", &[(1, 1), (0, 0), (0, 0)]),
            Held(b"c", &[(0, 0), (0, 0), (3, 1)]),
        ],
    },
    Case {
        why: "two slots hold two keys, and one that is deleted makes room",
        slots: 2,
        cache: 4,
        before: &[],
        failing: &[],
        turns: &[
            Turn {
                rows: &[
                    Row(b"a", Put(1, 1), Stored),
                    Row(b"b", Put(2, 1), Stored),
                    Row(b"c", Put(3, 1), Full(1)),
                ],
                outcome: Done,
                reads: 1,
                calls: 3,
            },
            Turn {
                rows: &[Row(b"a", Delete, Removed)],
                outcome: Done,
                reads: 0,
                calls: 2,
            },
            Turn {
                rows: &[Row(b"c", Put(3, 1), Stored)],
                outcome: Done,
                reads: 0,
                calls: 2,
            },
        ],
        keys: &[Held(b"c", &[(0, 0), (0, 0), (0, 0), (3, 1)])],
    },
    Case {
        why: "a large item wants a slot beside its own",
        slots: 1,
        cache: 4,
        before: &[Row(b"a", Put(1, 5_000), Stored)],
        failing: &[],
        turns: &[Turn {
            rows: &[
                Row(b"a", Put(2, 5_000), Full(8)),
                Row(b"a", Put(3, 9_000), Stored),
                Row(b"a", Get, Found(3, 9_000)),
            ],
            outcome: Done,
            // Four pages and a sync, one page and a sync.
            reads: 0,
            calls: 7,
        }],
        keys: &[Held(b"a", &[(1, 5_000), (3, 9_000)])],
    },
    Case {
        why: "the second get of a page that is kept takes no call",
        slots: 9,
        cache: 1,
        before: &[Row(b"a", Put(1, 1), Stored)],
        failing: &[],
        turns: &[
            Turn {
                rows: &[Row(b"a", Get, Found(1, 1))],
                outcome: Done,
                reads: 1,
                calls: 1,
            },
            Turn {
                rows: &[Row(b"a", Get, Found(1, 1))],
                outcome: Done,
                reads: 0,
                calls: 0,
            },
        ],
        keys: &[],
    },
    Case {
        why: "behind a failed write of its page the second get is refused",
        slots: 9,
        cache: 1,
        before: &[Row(b"a", Put(1, 1), Stored)],
        failing: &[2],
        turns: &[
            Turn {
                rows: &[Row(b"a", Get, Found(1, 1))],
                outcome: Done,
                reads: 1,
                calls: 1,
            },
            Turn {
                rows: &[Row(b"a", Put(2, 1), Stored)],
                outcome: Failed,
                reads: 0,
                calls: 1,
            },
            Turn {
                rows: &[Row(b"a", Get, Found(2, 1))],
                outcome: Refused(Closed),
                reads: 0,
                calls: 0,
            },
        ],
        keys: &[],
    },
];

/// The rows.
pub fn rows() -> &'static [Case] {
    &ROWS
}
