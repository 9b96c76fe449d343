use crate::row_run::{
    Case, FLUSH, GET_K, GET_M, MISSING_2, MISSING_3, MISSING_4, Run, STORED_1, STORED_2, TOO_LARGE,
    is_so,
};
use kv_base::Cause;
use std::test::Fail;

static CASES: [Case; 5] = [
    Case {
        // A key of 255 letters and a value of 65,146 or 65,145.
        name: "the largest item",
        pages: &[],
        runs: &[Run {
            input: &[
                (b"\x7B\xFF\0\0\x01\xFF", 65_401),
                (b"\x7A\xFF\0\0\x01\xFF", 65_400),
            ],
            output: &[TOO_LARGE, STORED_1],
            cause: Cause::End,
            choice: &[],
            pages: &[
                (11, 0, b"\x01\0\0\0\0\0\0\0\x01\0\xFF\0\x79\xFE\0\0v"),
                (11, 15, b"\x01\0\0\0\0\0\0\0v"),
            ],
        }],
    },
    Case {
        name: "a key and 4,079 bytes fill a page",
        pages: &[],
        runs: &[Run {
            input: &[(b"\xF2\x0F\0\0\x01\x01a", 4_079)],
            output: &[STORED_1],
            cause: Cause::End,
            choice: &[],
            pages: &[(7, 0, b"\x01\0\0\0\0\0\0\0\x01\0\x01\0\xEF\x0F\0\0avv")],
        }],
    },
    Case {
        name: "one byte more takes two pages",
        pages: &[],
        runs: &[Run {
            input: &[(b"\xF3\x0F\0\0\x01\x01a", 4_080)],
            output: &[STORED_1],
            cause: Cause::End,
            choice: &[],
            pages: &[
                (8, 0, b"\x01\0\0\0\0\0\0\0\x01\0\x01\0\xF0\x0F\0\0avv"),
                (8, 1, b"\x01\0\0\0\0\0\0\0v\0\0"),
            ],
        }],
    },
    Case {
        name: "a key that moves to another class leaves a tombstone",
        pages: &[],
        runs: &[Run {
            input: &[
                (b"\xF2\x0F\0\0\x01\x01a", 4_079),
                FLUSH,
                (b"\xF3\x0F\0\0\x01\x01a", 4_080),
            ],
            output: &[STORED_1, STORED_2],
            cause: Cause::End,
            choice: &[],
            pages: &[
                (7, 0, b"\x02\0\0\0\0\0\0\0\x02\0\0\0\0\0\0\0"),
                (8, 0, b"\x02\0\0\0\0\0\0\0\x01\0\x01\0\xF0\x0F\0\0avv"),
                (8, 1, b"\x02\0\0\0\0\0\0\0v\0\0"),
            ],
        }],
    },
    Case {
        // Of the first put only the second page is left, of the other one only the first page.
        name: "an item of which a page is missing isn't there",
        pages: &[],
        runs: &[
            Run {
                input: &[(b"\x8B\x13\0\0\x01\x01k", 5_000)],
                output: &[STORED_1],
                cause: Cause::End,
                choice: &[0, 1],
                pages: &[
                    (8, 0, b"\0\0\0\0\0\0\0\0\0"),
                    (8, 1, b"\x01\0\0\0\0\0\0\0v"),
                ],
            },
            Run {
                input: &[GET_K],
                output: &[MISSING_2],
                cause: Cause::End,
                choice: &[],
                pages: &[],
            },
            Run {
                input: &[(b"\x8B\x13\0\0\x01\x01m", 5_000)],
                output: &[STORED_2],
                cause: Cause::End,
                choice: &[1, 0],
                pages: &[
                    (8, 0, b"\x02\0\0\0\0\0\0\0\x01"),
                    (8, 1, b"\x01\0\0\0\0\0\0\0v"),
                ],
            },
            Run {
                input: &[GET_K, GET_M],
                output: &[MISSING_3, MISSING_4],
                cause: Cause::End,
                choice: &[],
                pages: &[],
            },
        ],
    },
];

fn cases() -> &'static [Case] {
    &CASES
}

#[test]
fn items_take_the_pages_of_their_class(rt: HostRuntime) -> Result<(), Fail> {
    for case in cases() {
        assert!(rt; is_so(rt, rt.alloc(), case)?, "{}", case.name);
    }
    Ok(())
}
