//! Scripts with groups of edits.

use super::scripts::{INSERT_A, INSERT_THREE, Script, THREE, answers, answers_with, ends_as};
use super::{joined, repeated, row_holds};
use console_io::Status::{Failure, Success};
use script_run::Options;
use std::test::Fail;

/// A unit that is deleted and inserted again, as one step.
pub(super) const REPAIR: &str = "group\ndelete 2\ninsert after 1 000001419A23\nend\n";

const GROUPS: [Script; 7] = [
    // An edit may name what one before it inserted.
    (
        &[
            INSERT_A,
            "group\ninsert after 1 000001419A23\ninsert after 2 000001419A43\nend\n",
            "delete 3\n",
        ],
        &["edit 1 id 1\n", "group 2 ids 2 3\n", "edit 3 id 3\n"],
    ),
    // A refused group leaves nothing.
    (
        &[
            INSERT_A,
            "group\ninsert after 1 000001419A23\ndelete 9\nend\n",
            "unit 2\n",
            "insert after 1 000001419A23\n",
        ],
        &[
            "edit 1 id 1\n",
            "group refused at 1 16 NoSuchUnit\n",
            "unit 2 none\n",
            "edit 2 id 2\n",
        ],
    ),
    // The first edit that is refused is named, though a later one's text is looked at before.
    (
        &["group\ndelete 1\ninsert first\nend\n"],
        &["group refused at 0 16 NoSuchUnit\n"],
    ),
    (
        &["group\ninsert first\ndelete 1\nend\n"],
        &["group refused at 0 1 Split\n"],
    ),
    // The second text is refused, and with it the group.
    (
        &[
            INSERT_A,
            "group\ninsert after 1 000001419A23\ninsert after 2 0000016E4080\nend\n",
            "unit 2\ninsert after 1 000001419A23\n",
        ],
        &[
            "edit 1 id 1\n",
            "group refused at 1 2 UnitType\n",
            "unit 2 none\nedit 2 id 2\n",
        ],
    ),
    (&["group\nend\n"], &["group refused 20 EmptyGroup\n"]),
    // Empty lines and comments are skipped in a group too, and spaces part words as elsewhere.
    (
        &[
            INSERT_THREE,
            " group \n\n# the first picture comes last\ndelete 1\n\ninsert after 3 000001658884 80\n end\n",
        ],
        &[THREE, "group 4 ids 1 4\n"],
    ),
];

#[test]
fn answers_groups(rt: HostRuntime) -> Result<(), Fail> {
    for (row, (parts, lines)) in GROUPS.iter().enumerate() {
        row_holds(&rt, row, answers(&rt, parts, lines)?);
    }
    Ok(())
}

#[test]
fn pictures_change_once_with_a_group(rt: HostRuntime) -> Result<(), Fail> {
    // Both P pictures go and come back; a cache of one has no room for both.
    let options = Options {
        name: "a script",
        cache: 1,
        hex: false,
    };
    let parts = [INSERT_THREE, "settle\n", REPAIR, "show 3\nshow 4\n"];
    let lines = [
        THREE,
        "settled\n",
        "group 4 ids 2 4\nshow 3 ready\nshow 4 ready\n",
    ];
    assert!(rt; answers_with(&rt, options, &parts, &lines)?);
    Ok(())
}

#[test]
fn refuses_a_group_of_1_025_edits(rt: HostRuntime) -> Result<(), Fail> {
    let edits = repeated(rt.alloc(), b"delete 1\n", 1_025)?;
    let script = joined(rt.alloc(), &[b"group\n", &edits, b"end\n"])?;
    let lines = b"group refused 21 GroupTooLarge\n";
    assert!(rt; ends_as(&rt, &script, &[], Success, lines, b""));
    Ok(())
}

/// Scripts with a group that is none, and what is told.
const WRONG: [(&[u8], &str); 16] = [
    (b"group\nunit 1\nend\n", "script fault at line 2\n"),
    (b"group\ndelete 1\n", "script fault at line 1\n"),
    (b"unit 1\ngroup\n", "script fault at line 2\n"),
    (b"group\n\n# load b\nload a\n", "script fault at line 4\n"),
    (b"end\n", "script fault at line 1\n"),
    (b"group\ngroup\nend\nend\n", "script fault at line 2\n"),
    (b"group 1\nend\n", "script fault at line 1\n"),
    (b"group\ndelete 1\nend 1\nend\n", "script fault at line 3\n"),
    (b"group\nend\nunit\ngroup\n", "script fault at line 3\n"),
    (b"group\ntake 1\nend\n", "script fault at line 2\n"),
    (b"group\nsettle 1\nend\n", "script fault at line 2\n"),
    (b"group\ndrop 1\nend\n", "script fault at line 2\n"),
    (b"group\nclear\nend\n", "script fault at line 2\n"),
    (b"group\nwant 1\nend\n", "script fault at line 2\n"),
    (b"group\nrest on\nend\n", "script fault at line 2\n"),
    (b"want 1\ngroup\n", "script fault at line 1\n"),
];

#[test]
fn finds_the_first_wrong_line_of_a_group(rt: HostRuntime) {
    for (row, (script, message)) in WRONG.iter().enumerate() {
        row_holds(
            &rt,
            row,
            ends_as(&rt, *script, &[], Failure, b"", message.as_bytes()),
        );
    }
}
