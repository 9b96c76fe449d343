use crate::row_run::{
    A_AT_1, AFTER_0, AFTER_1, AHEAD_1, BLANK, Case, DELETE_A, FLUSH, FOUND_2_1, GET_A, GET_B,
    GET_K, HEAD, MISSING_1, MISSING_2, MISSING_4, NOTED, PUT_A_1, Run, STORED_1, STORED_2,
    STORED_3, is_so,
};
use kv_base::Cause;
use std::test::Fail;

static CASES: [Case; 13] = [
    Case {
        name: "an empty input",
        pages: &[],
        runs: &[Run {
            input: &[],
            output: &[],
            cause: Cause::End,
            choice: &[],
            pages: &[HEAD, BLANK],
        }],
    },
    Case {
        name: "a put and a get",
        pages: &[],
        runs: &[Run {
            input: &[PUT_A_1, GET_A],
            output: &[STORED_1, FOUND_2_1],
            cause: Cause::End,
            choice: &[],
            pages: &[HEAD, A_AT_1],
        }],
    },
    Case {
        name: "a second run gets what the first put",
        pages: &[],
        runs: &[
            Run {
                input: &[PUT_A_1],
                output: &[STORED_1],
                cause: Cause::End,
                choice: &[],
                pages: &[],
            },
            Run {
                input: &[GET_A],
                output: &[FOUND_2_1],
                cause: Cause::End,
                choice: &[],
                pages: &[A_AT_1],
            },
        ],
    },
    Case {
        name: "a get of nothing has a stamp",
        pages: &[],
        runs: &[Run {
            input: &[GET_A],
            output: &[MISSING_1],
            cause: Cause::End,
            choice: &[],
            pages: &[BLANK],
        }],
    },
    Case {
        name: "a group that ends as it began writes nothing",
        pages: &[],
        runs: &[Run {
            input: &[DELETE_A, PUT_A_1, DELETE_A, GET_A],
            output: &[
                (b"\x09\0\0\0\x85\x01\0\0\0\0\0\0\0", 0),
                STORED_2,
                (b"\x09\0\0\0\x84\x03\0\0\0\0\0\0\0", 0),
                MISSING_4,
            ],
            cause: Cause::End,
            choice: &[],
            pages: &[BLANK],
        }],
    },
    Case {
        name: "a request with an empty key draws no stamp",
        pages: &[],
        runs: &[Run {
            input: &[(b"\x03\0\0\0\x01\x001", 0), PUT_A_1],
            output: &[(b"\x01\0\0\0\xE1", 0), STORED_1],
            cause: Cause::End,
            choice: &[],
            pages: &[A_AT_1],
        }],
    },
    Case {
        name: "of a group's puts of one key the last is written",
        pages: &[],
        runs: &[Run {
            input: &[
                (b"\x04\0\0\0\x01\x01k1", 0),
                GET_K,
                (b"\x04\0\0\0\x01\x01k2", 0),
            ],
            output: &[STORED_1, FOUND_2_1, STORED_3],
            cause: Cause::End,
            choice: &[],
            pages: &[(1, 0, b"\x03\0\0\0\0\0\0\0\x01\0\x01\0\x01\0\0\0k2\0")],
        }],
    },
    Case {
        name: "an input that ends inside a frame",
        pages: &[],
        runs: &[Run {
            input: &[PUT_A_1, (b"\x04\0\0\0\x01\x01", 0)],
            output: &[STORED_1, (b"\x09\0\0\0\xE9\x08\0\0\0\0\0\0\0", 0)],
            cause: Cause::Malformed { offset: 8 },
            choice: &[],
            pages: &[A_AT_1],
        }],
    },
    Case {
        name: "a flush alone has no reply",
        pages: &[],
        runs: &[Run {
            input: &[FLUSH, GET_A],
            output: &[MISSING_1],
            cause: Cause::End,
            choice: &[],
            pages: &[BLANK],
        }],
    },
    Case {
        // A tombstone at stamp 2^62 - 2: one is left.
        name: "behind the last stamp all are spent",
        pages: &[HEAD, (1, 0, b"\xFE\xFF\xFF\xFF\xFF\xFF\xFF\x3F\x02")],
        runs: &[Run {
            input: &[PUT_A_1, FLUSH, PUT_A_1],
            output: &[
                (b"\x09\0\0\0\x81\xFF\xFF\xFF\xFF\xFF\xFF\xFF\x3F", 0),
                (b"\x09\0\0\0\xE8\0\0\0\0\0\0\0\x40", 0),
            ],
            cause: Cause::End,
            choice: &[],
            pages: &[HEAD],
        }],
    },
    Case {
        name: "the first stamp is 1",
        pages: &[],
        runs: &[Run {
            input: &[AFTER_0, AFTER_1],
            output: &[NOTED, AHEAD_1],
            cause: Cause::End,
            choice: &[],
            pages: &[HEAD, BLANK],
        }],
    },
    Case {
        name: "an After ends the group before it",
        pages: &[],
        runs: &[Run {
            input: &[PUT_A_1, AFTER_1, GET_A],
            output: &[STORED_1, NOTED, FOUND_2_1],
            cause: Cause::End,
            choice: &[],
            pages: &[HEAD, A_AT_1],
        }],
    },
    Case {
        name: "a disk with a head alone",
        pages: &[HEAD],
        runs: &[Run {
            input: &[GET_A, GET_B],
            output: &[MISSING_1, MISSING_2],
            cause: Cause::End,
            choice: &[],
            pages: &[HEAD, BLANK],
        }],
    },
];

fn cases() -> &'static [Case] {
    &CASES
}

#[test]
fn runs_answer_what_their_bytes_say(rt: HostRuntime) -> Result<(), Fail> {
    for case in cases() {
        assert!(rt; is_so(rt, rt.alloc(), case)?, "{}", case.name);
    }
    Ok(())
}
