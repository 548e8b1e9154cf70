//! Streams made by hand, whose plans were worked out from the standard.

use super::plans::{Plan, plan_holds};
use super::{A, LINES_OF_A, P1, row_holds};
use Status::Success;
use console_io::Status;
use std::test::Fail;

/// Count type 0, and an IDR picture.
const FIRST: &[u8] = &[
    0, 0, 1, 0x67, 0x4D, 0x00, 0x0A, 0xF6, 0xF2, 0, 0, 1, 0x68, 0xCE, 0x38, 0x80, 0, 0, 1, 0x65,
    0x88, 0x84, 0x0C,
];

/// A P picture after it.
const P: &[u8] = &[0, 0, 1, 0x41, 0x9A, 0x28, 0x30];

/// A with weighted_pred_flag of the picture parameter set.
const WEIGHTED: &[u8] = &[
    0, 0, 1, 0x67, 0x42, 0x00, 0x0A, 0xDA, 0x79, 0, 0, 1, 0x68, 0xCF, 0x38, 0x80, 0, 0, 1, 0x65,
    0x88, 0x84, 0x80,
];

/// A with long_term_reference_flag of the IDR picture.
const LONG_TERM: &[u8] = &[
    0, 0, 1, 0x67, 0x42, 0x00, 0x0A, 0xDA, 0x79, 0, 0, 1, 0x68, 0xCE, 0x38, 0x80, 0, 0, 1, 0x65,
    0x88, 0x85, 0x80,
];

const PLANS: [Plan; 10] = [
    // Operation 5 in a picture with frame_num 2; the next one follows frame_num 0.
    (
        &[&A, &P1, &[0, 0, 1, 0x41, 0x9A, 0x44, 0xDF], &P1],
        Success,
        &[
            LINES_OF_A,
            "unit 2 position 1 counts 2 2 requests 1\n",
            "request 2.0 ts 2000 bits 23 type 0 frame 1 dpb 1000:0:3 l0 0 l1 - hold 0\n",
            "unit 3 position 2 counts 4 4 requests 1\n",
            "request 3.0 ts 3000 bits 29 type 0 frame 2 dpb 2000:1:3 l0 0 l1 - hold 0\n",
            "unit 4 position 3 counts 2 2 requests 1\n",
            "request 4.0 ts 4000 bits 23 type 0 frame 1 dpb 3000:0:3 l0 0 l1 - hold 0\n",
        ],
    ),
    // A B picture between its references.
    (
        &[FIRST, P, &[0, 0, 1, 0x01, 0x9E, 0x45, 0x18]],
        Success,
        &[
            "unit 1 position 0 counts 0 0 requests 1\n",
            "request 1.0 ts 1000 bits 29 type 2 frame 0 dpb - l0 - l1 - hold 0\n",
            "unit 2 position 2 counts 4 4 requests 1\n",
            "request 2.0 ts 2000 bits 27 type 0 frame 1 dpb 1000:0:3 l0 0 l1 - hold 0\n",
            "unit 3 position 1 counts 2 2 requests 1\n",
            "request 3.0 ts 3000 bits 28 type 1 frame 2 dpb 1000:0:3,2000:1:3 l0 0 l1 1 hold 0\n",
        ],
    ),
    // One with a count that is taken.
    (
        &[FIRST, P, &[0, 0, 1, 0x01, 0x9E, 0x49, 0x18]],
        Success,
        &[
            "unit 1 position 0 counts 0 0 requests 1\n",
            "request 1.0 ts 1000 bits 29 type 2 frame 0 dpb - l0 - l1 - hold 0\n",
            "unit 2 position 1 counts 4 4 requests 1\n",
            "request 2.0 ts 2000 bits 27 type 0 frame 1 dpb 1000:0:3 l0 0 l1 - hold 0\n",
            "unit 3 fault 14 OrderTie\n",
        ],
    ),
    // Two slices of one picture: the buffer is held on the first.
    (
        &[
            &[0, 0, 1, 0x67, 0x42, 0x00, 0x0A, 0xDA, 0x2E, 0x40],
            &[0, 0, 1, 0x68, 0xCE, 0x38, 0x80],
            &[0, 0, 1, 0x65, 0x88, 0x84, 0x80],
            &[0, 0, 1, 0x65, 0x42, 0x21, 0x30],
        ],
        Success,
        &[
            "unit 1 position 0 counts 0 0 requests 2\n",
            "request 1.0 ts 1000 bits 25 type 2 frame 0 dpb - l0 - l1 - hold 1\n",
            "request 1.1 ts 1000 bits 27 type 2 frame 0 dpb - l0 - l1 - hold 0\n",
        ],
    ),
    // More active entries than frames.
    (
        &[&A, &[0, 0, 1, 0x41, 0x9A, 0x34, 0x60]],
        Success,
        &[
            LINES_OF_A,
            "unit 2 position 1 counts 2 2 requests 1\n",
            "request 2.0 ts 2000 bits 26 type 0 frame 1 dpb 1000:0:3 l0 0,x l1 - hold 0\n",
        ],
    ),
    // Weights, with a set that asks for them.
    (
        &[WEIGHTED, &[0, 0, 1, 0x41, 0x9A, 0x26, 0x30]],
        Success,
        &[
            LINES_OF_A,
            "unit 2 position 1 counts 2 2 requests 1\n",
            "request 2.0 ts 2000 bits 27 type 0 frame 1 dpb 1000:0:3 l0 0 l1 - hold 0\n",
        ],
    ),
    // A long-term IDR picture fills the window, which has no short-term frame to free.
    (
        &[LONG_TERM, &P1],
        Success,
        &[LINES_OF_A, "unit 2 fault 17 BadMarking\n"],
    ),
    (
        &[LONG_TERM, &[0, 0, 1, 0x01, 0x9A, 0x27]],
        Success,
        &[
            LINES_OF_A,
            "unit 2 position 1 counts 1 1 requests 1\n",
            "request 2.0 ts 2000 bits 22 type 0 frame 1 dpb 1000:0:7 l0 0 l1 - hold 0\n",
        ],
    ),
    (
        &[&A, &[0, 0, 1, 0x41, 0x9A, 0x27, 0x80]],
        Success,
        &[LINES_OF_A, "unit 2 fault 18 TooManyReferences\n"],
    ),
    // A sequence parameter set of profile 100 with scaling lists, of which a request prints
    // nothing.
    (
        &[
            &[
                0, 0, 1, 0x67, 0x64, 0x00, 0x0A, 0xAD, 0x84, 0x49, 0x02, 0xA1, 0x69, 0xE4,
            ],
            &[0, 0, 1, 0x68, 0xCE, 0x38, 0x80],
            &[0, 0, 1, 0x65, 0x88, 0x84, 0x80],
        ],
        Success,
        &[LINES_OF_A],
    ),
];

#[test]
fn plans_as_worked_out_by_hand(rt: HostRuntime) -> Result<(), Fail> {
    for (row, plan) in PLANS.iter().enumerate() {
        row_holds(&rt, row, plan_holds(&rt, plan)?);
    }
    Ok(())
}
