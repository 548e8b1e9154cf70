//! Scripts that decode what one unit needs, and let pictures go.

use super::row_holds;
use super::scripts::{INSERT_A, INSERT_THREE, Script, THREE, answers};
use std::test::Fail;

const SCRIPTS: [Script; 6] = [
    // A picture after a chain of references: one job after the other, and no more once it is there.
    (
        &[
            INSERT_THREE,
            "take 3\ntake 3\nland 1\ntake 3\nland 2\ntake 3\nland 3\ntake 3\nshow 3\n",
            "drop 2\nshow 2\nshow 3\ntake 3\ntake\n",
        ],
        &[
            THREE,
            "job 1 unit 1\njob none\nland 1 taken\njob 2 unit 2\nland 2 taken\njob 3 unit 3\nland 3 taken\n",
            "job none\nshow 3 ready\n",
            "drop 2 dropped\nshow 2 pending\nshow 3 ready\njob none\njob 4 unit 2\n",
        ],
    ),
    // What a unit doesn't need isn't decoded for it.
    (
        &[
            INSERT_A,
            "insert after 1 000001419A23\ninsert after 2 00000165888481\ninsert after 3 000001419A23\n",
            "settle 4\nshow 4\nshow 3\nshow 1\nshow 2\nsettle\nshow 1\nshow 2\n",
        ],
        &[
            "edit 1 id 1\nedit 2 id 2\nedit 3 id 3\nedit 4 id 4\n",
            "settled\nshow 4 ready\nshow 3 ready\nshow 1 pending\nshow 2 pending\n",
            "settled\nshow 1 ready\nshow 2 ready\n",
        ],
    ),
    // A picture that isn't there isn't dropped; one that two units have is dropped for both.
    (
        &[
            INSERT_A,
            "drop 9\ndrop 1\ninsert after 1 00000165888480\nsettle\ndrop 1\nshow 2\nshow 1\ndrop 2\n",
        ],
        &[
            "edit 1 id 1\ndrop 9 none\ndrop 1 not held\nedit 2 id 2\nsettled\ndrop 1 dropped\n",
            "show 2 pending\nshow 1 pending\ndrop 2 not held\n",
        ],
    ),
    // A unit that isn't there, or isn't valid, needs nothing.
    (
        &[
            "take 1\nsettle 1\ndrop 4294967297\ninsert first 000001419A23\ntake 1\nsettle 1\ndrop 1\n",
            "take 9999999999\n",
        ],
        &[
            "job none\nsettled\ndrop 4294967297 none\nedit 1 id 1\njob none\nsettled\n",
            "drop 1 not held\njob none\n",
        ],
    ),
    // A needed picture that is out as a job is waited for by who took it.
    (
        &[
            INSERT_THREE,
            "take\nsettle 3\nshow 3\nland 1\nsettle 2\nshow 2\nshow 3\nsettle 3\nshow 3\n",
        ],
        &[
            THREE,
            "job 1 unit 1\nsettled\nshow 3 pending\nland 1 taken\nsettled\nshow 2 ready\nshow 3 pending\n",
            "settled\nshow 3 ready\n",
        ],
    ),
    // A cached picture that is let go isn't there again.
    (
        &[
            INSERT_A,
            "settle\nreplace 1 000001 6742000ADA79 000001 68CE3880 000001 65888481\nclear\n",
            "replace 1 000001 6742000ADA79 000001 68CE3880 000001 65888480\nshow 1\n",
        ],
        &["edit 1 id 1\nsettled\nedit 2 id 1\ncleared\nedit 3 id 1\nshow 1 pending\n"],
    ),
];

#[test]
fn decodes_what_a_unit_needs(rt: HostRuntime) -> Result<(), Fail> {
    for (row, (script, lines)) in SCRIPTS.iter().enumerate() {
        row_holds(&rt, row, answers(&rt, *script, *lines)?);
    }
    Ok(())
}
