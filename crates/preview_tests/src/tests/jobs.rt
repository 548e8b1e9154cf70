//! Scripts that take and land jobs and show pictures.

use super::row_holds;
use super::scripts::{INSERT_A, INSERT_THREE, LINES_OF_3, Script, THREE, answers, answers_with};
use script_run::Options;
use std::test::Fail;

/// The insertion of the picture with frame_num 1 after A, and the replacement of it by a text that
/// has a byte more, and by itself.
const INSERT_P1: &str = "insert after 1 00 00 01 41 9A 23\n";

const LONGER: &str = "replace 2 00 00 01 41 9A 23 80\n";

const AS_BEFORE: &str = "replace 2 00 00 01 41 9A 23\n";

const SCRIPTS: [Script; 8] = [
    // A unit is deleted and the same comes back under another id: the pictures that it is part of
    // are there again.
    (
        &[
            INSERT_THREE,
            "settle\ndelete 2\nunit 3\nshow 3\n",
            INSERT_P1,
            "unit 3\nshow 3\nshow 4\nshow 2\n",
        ],
        &[
            THREE,
            "settled\nedit 4 id 2\nunit 3 fault 11 FrameNumGap\nshow 3 fault 11 FrameNumGap\n",
            "edit 5 id 4\n",
            LINES_OF_3,
            "show 3 ready\nshow 4 ready\nshow 2 none\n",
        ],
    ),
    // A unit is replaced: its picture and those that refer to it are wanted anew, and the one
    // before it stays.
    (
        &[
            INSERT_THREE,
            "settle\n",
            LONGER,
            "show 1\nshow 2\nshow 3\nunit 3\nsettle\nshow 3\n",
        ],
        &[
            THREE,
            "settled\nedit 4 id 2\nshow 1 ready\nshow 2 pending\nshow 3 pending\n",
            "unit 3 position 2 counts 4 4 requests 1\n",
            "request 3.0 ts 3000 bits 23 type 0 frame 2 dpb 2000:1:3 l0 0 l1 - hold 0\n",
            "settled\nshow 3 ready\n",
        ],
    ),
    // Nothing refers to a picture that is no reference.
    (
        &[
            INSERT_A,
            INSERT_P1,
            "insert after 2 00 00 01 01 9A 47\ninsert after 3 00 00 01 41 9A 43\nsettle\nunit 3\n",
            "replace 3 00 00 01 01 9A 46\nshow 3\nshow 1\nshow 2\nshow 4\n",
        ],
        &[
            "edit 1 id 1\nedit 2 id 2\nedit 3 id 3\nedit 4 id 4\nsettled\n",
            "unit 3 position 2 counts 3 3 requests 1\n",
            "request 3.0 ts 3000 bits 22 type 0 frame 2 dpb 2000:1:3 l0 0 l1 - hold 0\n",
            "edit 5 id 3\nshow 3 pending\nshow 1 ready\nshow 2 ready\nshow 4 ready\n",
        ],
    ),
    // A result whose picture nobody wants is stale, and one whose picture is wanted again is late
    // and taken.
    (
        &[
            INSERT_A,
            INSERT_P1,
            "take\nland 1\ntake\n",
            LONGER,
            "land 2\nshow 2\ntake\n",
            AS_BEFORE,
            LONGER,
            "land 3\nshow 2\nland 3\n",
        ],
        &[
            "edit 1 id 1\nedit 2 id 2\njob 1 unit 1\nland 1 taken\njob 2 unit 2\n",
            "edit 3 id 2\nland 2 stale\nshow 2 pending\njob 3 unit 2\n",
            "edit 4 id 2\nedit 5 id 2\n",
            "land 3 taken\nshow 2 ready\nland 3 none\n",
        ],
    ),
    // Two equal units have one picture, and positions of their own.
    (
        &[
            INSERT_A,
            "insert after 1 00 00 01 65 88 84 80\n",
            "take\ntake\nland 1\nshow 1\nshow 2\nunit 1\nunit 2\n",
        ],
        &[
            "edit 1 id 1\nedit 2 id 2\njob 1 unit 1\njob none\nland 1 taken\nshow 1 ready\nshow 2 ready\n",
            super::LINES_OF_A,
            "unit 2 position 1 counts 0 0 requests 1\n",
            "request 2.0 ts 2000 bits 25 type 2 frame 0 dpb - l0 - l1 - hold 0\n",
        ],
    ),
    // A job that is given back is due again, under another number.
    (
        &[
            INSERT_A,
            "take\ngive 1\ntake\ngive 1\nland 1\nland 2\nshow 1\ngive 2\n",
        ],
        &[
            "edit 1 id 1\njob 1 unit 1\ngive 1 back\njob 2 unit 1\ngive 1 none\nland 1 none\n",
            "land 2 taken\nshow 1 ready\ngive 2 none\n",
        ],
    ),
    // A job that is out stays out when the others are decoded, and what refers to its picture
    // waits.
    (
        &[
            INSERT_THREE,
            "take\nsettle\nshow 1\nshow 2\ntake\nland 01\nsettle\nshow 0000000001\nshow 3\nland 1\n",
        ],
        &[
            THREE,
            "job 1 unit 1\nsettled\nshow 1 pending\nshow 2 pending\njob none\nland 1 taken\nsettled\n",
            "show 1 ready\nshow 3 ready\nland 1 none\n",
        ],
    ),
    // Nothing to do, and numbers that nothing has.
    (
        &[
            "settle\ntake\nland 0\ngive 9999999999\nshow 0\nshow 9999999999\n",
            "insert first 000001419A23\nsettle\nshow 1\ntake\n",
        ],
        &[
            "settled\njob none\nland 0 none\ngive 9999999999 none\nshow 0 none\nshow 9999999999 none\n",
            "edit 1 id 1\nsettled\nshow 1 fault 1 MissingPps\njob none\n",
        ],
    ),
];

#[test]
fn answers_scripts_with_jobs(rt: HostRuntime) -> Result<(), Fail> {
    for (row, (script, lines)) in SCRIPTS.iter().enumerate() {
        row_holds(&rt, row, answers(&rt, *script, *lines)?);
    }
    Ok(())
}

/// A cache for one picture forgets the one that was put there before.
const CACHED: Script = (
    &[
        INSERT_A,
        "settle\n",
        "replace 1 000001 6742000ADA79 000001 68CE3880 000001 65888481\nsettle\n",
        "replace 1 000001 6742000ADA79 000001 68CE3880 000001 65888482\nsettle\n",
        "replace 1 000001 6742000ADA79 000001 68CE3880 000001 65888480\nshow 1\n",
        "replace 1 000001 6742000ADA79 000001 68CE3880 000001 65888481\nshow 1\n",
        "replace 1 000001 6742000ADA79 000001 68CE3880 000001 65888482\nshow 1\n",
    ],
    &[
        "edit 1 id 1\nsettled\nedit 2 id 1\nsettled\nedit 3 id 1\nsettled\n",
        "edit 4 id 1\nshow 1 pending\nedit 5 id 1\nshow 1 pending\nedit 6 id 1\nshow 1 ready\n",
    ],
);

#[test]
fn caches_as_many_pictures_as_it_is_told(rt: HostRuntime) -> Result<(), Fail> {
    let options = Options {
        name: "a script",
        cache: 1,
        hex: false,
    };
    assert!(rt; answers_with(&rt, options, CACHED.0, CACHED.1)?);
    Ok(())
}

/// Pictures by hashlib of Python, over bytes put together by hand.
const SHOWN: Script = (
    &[
        INSERT_A,
        INSERT_P1,
        "show 1\nsettle\nshow 1\nshow 2\nshow 3\n",
    ],
    &[
        "edit 1 id 1\nedit 2 id 2\nshow 1 pending\nsettled\n",
        "show 1 ready 0ac6f5c6bc064c436309c18b3d1b605ad60f7de3724081b84ff01aac2c3954cf\n",
        "show 2 ready 6bc6c08cf1baa86f62950db2c1acfaac24912a0b56a8e0e6ac08d302e2b49d88\n",
        "show 3 none\n",
    ],
);

#[test]
fn shows_the_hashes_of_pictures(rt: HostRuntime) -> Result<(), Fail> {
    let options = Options {
        name: "a script",
        cache: 4096,
        hex: true,
    };
    assert!(rt; answers_with(&rt, options, SHOWN.0, SHOWN.1)?);
    Ok(())
}
