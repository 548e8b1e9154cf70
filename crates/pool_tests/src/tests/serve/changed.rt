//! What is told of wanted units that edits change.

use super::{Row, answers_so};

/// A unit that comes, loses its slice, loses its parameter sets, and goes.
const STATES: [Row; 7] = [
    Row {
        message: "{\"jsonrpc\":\"2.0\",\"id\":1,\"method\":\"want\",\"params\":{\"ids\":[1,2]}}",
        lines: "{\"jsonrpc\":\"2.0\",\"id\":1,\"result\":{\"ready\":[],\"not_now\":[1,2]}}\n",
    },
    Row {
        message: "{\"jsonrpc\":\"2.0\",\"id\":2,\"method\":\"load\",\"params\":{\"path\":\"one\"}}",
        lines: "{\"jsonrpc\":\"2.0\",\"id\":2,\"result\":{\"units\":1,\"first\":1,\"last\":1,\"changed\":{\"from\":0,\"count\":1}}}\n{\"jsonrpc\":\"2.0\",\"method\":\"changed\",\"params\":{\"id\":1,\"state\":\"pending\"}}\n",
    },
    Row {
        message: "{\"jsonrpc\":\"2.0\",\"id\":3,\"method\":\"replace\",\"params\":{\"id\":1,\"bytes\":\"AAABZ0IACtp5\"}}",
        lines: "{\"jsonrpc\":\"2.0\",\"id\":3,\"result\":{\"edit\":2,\"id\":1,\"steps\":1,\"changed\":{\"from\":0,\"count\":1}}}\n{\"jsonrpc\":\"2.0\",\"method\":\"changed\",\"params\":{\"id\":1,\"state\":\"empty\"}}\n",
    },
    Row {
        message: "{\"jsonrpc\":\"2.0\",\"id\":4,\"method\":\"replace\",\"params\":{\"id\":1,\"bytes\":\"AAABZ0IACtp5\"}}",
        lines: "{\"jsonrpc\":\"2.0\",\"id\":4,\"result\":{\"edit\":3,\"id\":1,\"steps\":1,\"changed\":{\"from\":0,\"count\":0}}}\n",
    },
    Row {
        message: "{\"jsonrpc\":\"2.0\",\"method\":\"replace\",\"params\":{\"id\":1,\"bytes\":\"AAABQZoj\"}}",
        lines: "{\"jsonrpc\":\"2.0\",\"method\":\"changed\",\"params\":{\"id\":1,\"state\":\"fault\",\"number\":1,\"name\":\"MissingPps\"}}\n",
    },
    Row {
        message: "[{\"jsonrpc\":\"2.0\",\"method\":\"undo\"},{\"jsonrpc\":\"2.0\",\"method\":\"redo\"}]",
        lines: "",
    },
    Row {
        message: "{\"jsonrpc\":\"2.0\",\"method\":\"delete\",\"params\":{\"id\":1}}",
        lines: "{\"jsonrpc\":\"2.0\",\"method\":\"changed\",\"params\":{\"id\":1,\"state\":\"none\"}}\n",
    },
];

/// A picture that is dropped isn't told of, nor when it is there again. One that an edit took away
/// is, and it is told again once an undo has brought it back.
const PICTURES: [Row; 11] = [
    Row {
        message: "{\"jsonrpc\":\"2.0\",\"method\":\"load\",\"params\":{\"path\":\"one\"}}",
        lines: "",
    },
    Row {
        message: "{\"jsonrpc\":\"2.0\",\"method\":\"take\"}",
        lines: "",
    },
    Row {
        message: "{\"jsonrpc\":\"2.0\",\"method\":\"land\",\"params\":{\"job\":1}}",
        lines: "",
    },
    Row {
        message: "{\"jsonrpc\":\"2.0\",\"id\":4,\"method\":\"want\",\"params\":{\"ids\":[1]}}",
        lines: "{\"jsonrpc\":\"2.0\",\"id\":4,\"result\":{\"ready\":[{\"id\":1,\"picture\":\"0ac6f5c6bc064c436309c18b3d1b605ad60f7de3724081b84ff01aac2c3954cf\"}],\"not_now\":[]}}\n",
    },
    Row {
        message: "{\"jsonrpc\":\"2.0\",\"id\":5,\"method\":\"drop\",\"params\":{\"id\":1}}",
        lines: "{\"jsonrpc\":\"2.0\",\"id\":5,\"result\":\"dropped\"}\n",
    },
    Row {
        message: "{\"jsonrpc\":\"2.0\",\"method\":\"replace\",\"params\":{\"id\":1,\"bytes\":\"AAABZ0IACtp5AAABaM44gAAAAWWIhIE=\"}}",
        lines: "",
    },
    Row {
        message: "{\"jsonrpc\":\"2.0\",\"method\":\"undo\"}",
        lines: "",
    },
    Row {
        message: "{\"jsonrpc\":\"2.0\",\"method\":\"take\"}",
        lines: "",
    },
    Row {
        message: "{\"jsonrpc\":\"2.0\",\"method\":\"land\",\"params\":{\"job\":2}}",
        lines: "",
    },
    Row {
        message: "{\"jsonrpc\":\"2.0\",\"method\":\"replace\",\"params\":{\"id\":1,\"bytes\":\"AAABQZoj\"}}",
        lines: "{\"jsonrpc\":\"2.0\",\"method\":\"changed\",\"params\":{\"id\":1,\"state\":\"fault\",\"number\":1,\"name\":\"MissingPps\"}}\n",
    },
    Row {
        message: "{\"jsonrpc\":\"2.0\",\"method\":\"undo\"}",
        lines: "{\"jsonrpc\":\"2.0\",\"method\":\"ready\",\"params\":{\"id\":1,\"picture\":\"0ac6f5c6bc064c436309c18b3d1b605ad60f7de3724081b84ff01aac2c3954cf\"}}\n",
    },
];

#[test]
fn states_are_told_once(rt: HostRuntime) {
    assert!(rt; answers_so(&rt, &STATES));
}

#[test]
fn a_picture_that_was_taken_away_is_told_again(rt: HostRuntime) {
    assert!(rt; answers_so(&rt, &PICTURES));
}
