//! Scripts that mark their stream, and ask which units are altered since.

use super::row_holds;
use super::scripts::{INSERT_A, INSERT_THREE, Script, THREE, answers};
use std::test::Fail;

const SCRIPTS: [Script; 5] = [
    // Before the first mark no unit is altered, and right after it none.
    (
        &[
            INSERT_A,
            "altered 1\naltered 2\nmark\naltered 1\naltered 4294967297\n",
        ],
        &[
            "edit 1 id 1\naltered 1 no\naltered 2 none\nmarked\naltered 1 no\n",
            "altered 4294967297 none\n",
        ],
    ),
    // A unit with a fault isn't altered, and what is deleted and comes back leaves none altered.
    (
        &[
            INSERT_THREE,
            "mark\ndelete 2\nunit 3\naltered 3\naltered 2\n",
            "insert after 1 000001419A23\naltered 3\naltered 4\n",
        ],
        &[
            THREE,
            "marked\nedit 4 id 2\nunit 3 fault 11 FrameNumGap\naltered 3 no\naltered 2 none\n",
            "edit 5 id 4\naltered 3 no\naltered 4 no\n",
        ],
    ),
    // A change alters all that is made of it, until the next mark.
    (
        &[
            INSERT_THREE,
            "mark\nreplace 1 000001 6742000ADA79 000001 68CE3880 000001 658884C0\n",
            "altered 1\naltered 2\naltered 3\nmark\naltered 3\n",
            "replace 1 000001 6742000ADA79 000001 68CE3880 000001 65888480\naltered 2\n",
        ],
        &[
            THREE,
            "marked\nedit 4 id 1\naltered 1 yes\naltered 2 yes\naltered 3 yes\n",
            "marked\naltered 3 no\nedit 5 id 1\naltered 2 yes\n",
        ],
    ),
    // A picture whose reference is taken away lists another one, and is altered by that.
    (
        &[
            INSERT_A,
            "insert after 1 00000165888481\ninsert after 2 000001419A23\nmark\ndelete 2\n",
            "altered 1\naltered 3\ninsert after 1 00000165888481\naltered 3\n",
        ],
        &[
            "edit 1 id 1\nedit 2 id 2\nedit 3 id 3\nmarked\nedit 4 id 2\n",
            "altered 1 no\naltered 3 yes\nedit 5 id 4\naltered 3 no\n",
        ],
    ),
    // A unit that comes to an empty stream is altered against its mark, and one without a picture
    // isn't.
    (
        &[
            "mark\n",
            INSERT_A,
            "altered 1\ninsert after 1 0000010910\naltered 2\n",
        ],
        &["marked\nedit 1 id 1\naltered 1 yes\nedit 2 id 2\naltered 2 no\n"],
    ),
];

#[test]
fn tells_what_is_altered_since_the_mark(rt: HostRuntime) -> Result<(), Fail> {
    for (row, (script, lines)) in SCRIPTS.iter().enumerate() {
        row_holds(&rt, row, answers(&rt, *script, *lines)?);
    }
    Ok(())
}
