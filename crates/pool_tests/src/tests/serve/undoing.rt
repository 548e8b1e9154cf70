//! Undo and redo.

use super::{Row, answers_so};

/// A load, a group and a deletion, taken back and made again. Units that come back have new ids.
const STEPS: [Row; 15] = [
    Row {
        message: "{\"jsonrpc\":\"2.0\",\"id\":1,\"method\":\"undo\"}",
        lines: "{\"jsonrpc\":\"2.0\",\"id\":1,\"error\":{\"code\":26,\"message\":\"NothingToUndo\",\"data\":{\"reason\":\"there is nothing to undo\"}}}\n",
    },
    Row {
        message: "{\"jsonrpc\":\"2.0\",\"id\":2,\"method\":\"load\",\"params\":{\"bytes\":\"AAABZ0IACtp5AAABaM44gAAAAWWIhIA=\"}}",
        lines: "{\"jsonrpc\":\"2.0\",\"id\":2,\"result\":{\"units\":1,\"first\":1,\"last\":1,\"changed\":{\"from\":0,\"count\":1}}}\n",
    },
    Row {
        message: "{\"jsonrpc\":\"2.0\",\"id\":3,\"method\":\"undo\",\"params\":[]}",
        lines: "{\"jsonrpc\":\"2.0\",\"id\":3,\"result\":{\"edit\":2,\"ids\":[1],\"steps\":0,\"changed\":{\"from\":0,\"count\":0}}}\n",
    },
    Row {
        message: "{\"jsonrpc\":\"2.0\",\"id\":4,\"method\":\"undo\"}",
        lines: "{\"jsonrpc\":\"2.0\",\"id\":4,\"error\":{\"code\":26,\"message\":\"NothingToUndo\",\"data\":{\"reason\":\"there is nothing to undo\"}}}\n",
    },
    Row {
        message: "{\"jsonrpc\":\"2.0\",\"id\":5,\"method\":\"redo\"}",
        lines: "{\"jsonrpc\":\"2.0\",\"id\":5,\"result\":{\"edit\":3,\"ids\":[2],\"steps\":1,\"changed\":{\"from\":0,\"count\":1}}}\n",
    },
    Row {
        message: "{\"jsonrpc\":\"2.0\",\"id\":6,\"method\":\"redo\"}",
        lines: "{\"jsonrpc\":\"2.0\",\"id\":6,\"error\":{\"code\":27,\"message\":\"NothingToRedo\",\"data\":{\"reason\":\"there is nothing to redo\"}}}\n",
    },
    Row {
        message: "{\"jsonrpc\":\"2.0\",\"method\":\"group\",\"params\":{\"edits\":[{\"insert\":{\"after\":2,\"bytes\":\"AAABQZoj\"}},{\"replace\":{\"id\":2,\"bytes\":\"AAABZ0IACtp5AAABaM44gAAAAWWIhIE=\"}}]}}",
        lines: "",
    },
    Row {
        message: "{\"jsonrpc\":\"2.0\",\"method\":\"undo\"}",
        lines: "",
    },
    Row {
        message: "{\"jsonrpc\":\"2.0\",\"id\":9,\"method\":\"text\",\"params\":{\"id\":2}}",
        lines: "{\"jsonrpc\":\"2.0\",\"id\":9,\"result\":{\"bytes\":\"AAABZ0IACtp5AAABaM44gAAAAWWIhIA=\"}}\n",
    },
    Row {
        message: "{\"jsonrpc\":\"2.0\",\"method\":\"redo\"}",
        lines: "",
    },
    Row {
        message: "{\"jsonrpc\":\"2.0\",\"method\":\"delete\",\"params\":{\"id\":2}}",
        lines: "",
    },
    Row {
        message: "{\"jsonrpc\":\"2.0\",\"id\":12,\"method\":\"redo\"}",
        lines: "{\"jsonrpc\":\"2.0\",\"id\":12,\"error\":{\"code\":27,\"message\":\"NothingToRedo\",\"data\":{\"reason\":\"there is nothing to redo\"}}}\n",
    },
    Row {
        message: "{\"jsonrpc\":\"2.0\",\"method\":\"undo\"}",
        lines: "",
    },
    Row {
        message: "{\"jsonrpc\":\"2.0\",\"method\":\"undo\"}",
        lines: "",
    },
    Row {
        message: "{\"jsonrpc\":\"2.0\",\"id\":15,\"method\":\"journal\",\"params\":{\"from\":4,\"count\":10}}",
        lines: "{\"jsonrpc\":\"2.0\",\"id\":15,\"result\":[{\"edits\":[{\"replace\":{\"id\":2,\"bytes\":\"AAABZ0IACtp5AAABaM44gAAAAWWIhIA=\"}},{\"delete\":{\"id\":3}}]},{\"edits\":[{\"insert\":{\"after\":2,\"bytes\":\"AAABQZoj\"}},{\"replace\":{\"id\":2,\"bytes\":\"AAABZ0IACtp5AAABaM44gAAAAWWIhIE=\"}}]},{\"edits\":[{\"delete\":{\"id\":2}}]},{\"edits\":[{\"insert\":{\"after\":null,\"bytes\":\"AAABZ0IACtp5AAABaM44gAAAAWWIhIE=\"}}]},{\"edits\":[{\"replace\":{\"id\":5,\"bytes\":\"AAABZ0IACtp5AAABaM44gAAAAWWIhIA=\"}},{\"delete\":{\"id\":4}}]}]}\n",
    },
];

#[test]
fn steps_are_taken_back(rt: HostRuntime) {
    assert!(rt; answers_so(&rt, &STEPS));
}
