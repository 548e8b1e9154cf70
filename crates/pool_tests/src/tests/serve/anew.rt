//! Marks, texts, beginning anew, and batches.

use super::{Row, answers_so};

/// Two units that are altered since the mark, and their texts.
const MARKS: [Row; 12] = [
    Row {
        message: "{\"jsonrpc\":\"2.0\",\"method\":\"insert\",\"params\":{\"after\":null,\"bytes\":\"AAABZ0IACtp5AAABaM44gAAAAWWIhIA=\"}}",
        lines: "",
    },
    Row {
        message: "{\"jsonrpc\":\"2.0\",\"method\":\"insert\",\"params\":{\"after\":1,\"bytes\":\"AAABQZoj\"}}",
        lines: "",
    },
    Row {
        message: "{\"jsonrpc\":\"2.0\",\"id\":1,\"method\":\"mark\"}",
        lines: "{\"jsonrpc\":\"2.0\",\"id\":1,\"result\":\"marked\"}\n",
    },
    Row {
        message: "{\"jsonrpc\":\"2.0\",\"id\":2,\"method\":\"replace\",\"params\":{\"id\":1,\"bytes\":\"AAABZ0IACtp5AAABaM44gAAAAWWIhIE=\"}}",
        lines: "{\"jsonrpc\":\"2.0\",\"id\":2,\"result\":{\"edit\":3,\"id\":1,\"steps\":2,\"changed\":{\"from\":0,\"count\":2}}}\n",
    },
    Row {
        message: "{\"jsonrpc\":\"2.0\",\"id\":3,\"method\":\"units\",\"params\":{\"from\":0,\"count\":2}}",
        lines: "{\"jsonrpc\":\"2.0\",\"id\":3,\"result\":[{\"unit\":1,\"position\":0,\"begins_period\":true,\"counts\":{\"top\":0,\"bottom\":0},\"altered\":true},{\"unit\":2,\"position\":1,\"begins_period\":false,\"counts\":{\"top\":2,\"bottom\":2},\"altered\":true}]}\n",
    },
    Row {
        message: "{\"jsonrpc\":\"2.0\",\"id\":4,\"method\":\"text\",\"params\":{\"id\":1}}",
        lines: "{\"jsonrpc\":\"2.0\",\"id\":4,\"result\":{\"bytes\":\"AAABZ0IACtp5AAABaM44gAAAAWWIhIE=\"}}\n",
    },
    Row {
        message: "{\"jsonrpc\":\"2.0\",\"id\":5,\"method\":\"replace\",\"params\":{\"id\":1,\"bytes\":\"AAABZ0IACtp5AAABaM44gAAAAWWIhIA=\"}}",
        lines: "{\"jsonrpc\":\"2.0\",\"id\":5,\"result\":{\"edit\":4,\"id\":1,\"steps\":2,\"changed\":{\"from\":0,\"count\":2}}}\n",
    },
    Row {
        message: "{\"jsonrpc\":\"2.0\",\"id\":6,\"method\":\"units\",\"params\":{\"from\":0,\"count\":2}}",
        lines: "{\"jsonrpc\":\"2.0\",\"id\":6,\"result\":[{\"unit\":1,\"position\":0,\"begins_period\":true,\"counts\":{\"top\":0,\"bottom\":0}},{\"unit\":2,\"position\":1,\"begins_period\":false,\"counts\":{\"top\":2,\"bottom\":2}}]}\n",
    },
    Row {
        message: "{\"jsonrpc\":\"2.0\",\"id\":7,\"method\":\"delete\",\"params\":{\"id\":1}}",
        lines: "{\"jsonrpc\":\"2.0\",\"id\":7,\"result\":{\"edit\":5,\"id\":1,\"steps\":1,\"changed\":{\"from\":0,\"count\":1}}}\n",
    },
    Row {
        message: "{\"jsonrpc\":\"2.0\",\"id\":8,\"method\":\"text\",\"params\":{\"id\":1}}",
        lines: "{\"jsonrpc\":\"2.0\",\"id\":8,\"error\":{\"code\":16,\"message\":\"NoSuchUnit\",\"data\":{\"reason\":\"no unit has the id\"}}}\n",
    },
    Row {
        message: "{\"jsonrpc\":\"2.0\",\"id\":9,\"method\":\"text\",\"params\":{\"id\":2}}",
        lines: "{\"jsonrpc\":\"2.0\",\"id\":9,\"result\":{\"bytes\":\"AAABQZoj\"}}\n",
    },
    Row {
        message: "{\"jsonrpc\":\"2.0\",\"id\":10,\"method\":\"journal\",\"params\":{\"from\":1,\"count\":4}}",
        lines: "{\"jsonrpc\":\"2.0\",\"id\":10,\"result\":[{\"edits\":[{\"insert\":{\"after\":1,\"bytes\":\"AAABQZoj\"}}]},{\"edits\":[{\"replace\":{\"id\":1,\"bytes\":\"AAABZ0IACtp5AAABaM44gAAAAWWIhIE=\"}}]},{\"edits\":[{\"replace\":{\"id\":1,\"bytes\":\"AAABZ0IACtp5AAABaM44gAAAAWWIhIA=\"}}]},{\"edits\":[{\"delete\":{\"id\":1}}]}]}\n",
    },
];

/// All is as at the beginning: ids, edits and jobs are counted anew, and nothing is wanted.
const RESETS: [Row; 10] = [
    Row {
        message: "{\"jsonrpc\":\"2.0\",\"id\":1,\"method\":\"initialize\",\"params\":[1]}",
        lines: "{\"jsonrpc\":\"2.0\",\"id\":1,\"result\":{\"name\":\"cupdaisy\",\"version\":\"0.3.0\",\"methods\":[\"initialize\",\"load\",\"save\",\"insert\",\"delete\",\"replace\",\"group\",\"undo\",\"redo\",\"mark\",\"units\",\"text\",\"find\",\"show\",\"want\",\"drop\",\"take\",\"land\",\"give_back\",\"journal\",\"stats\",\"reset\",\"shutdown\"],\"limits\":{\"units\":65536,\"unit_bytes\":4194304,\"slices\":256,\"group\":1024,\"wanted\":64,\"count\":1000,\"left_out\":1000,\"message_bytes\":67108864}}}\n",
    },
    Row {
        message: "{\"jsonrpc\":\"2.0\",\"method\":\"load\",\"params\":{\"path\":\"one\"}}",
        lines: "",
    },
    Row {
        message: "{\"jsonrpc\":\"2.0\",\"id\":2,\"method\":\"want\",\"params\":{\"ids\":[1]}}",
        lines: "{\"jsonrpc\":\"2.0\",\"id\":2,\"result\":{\"ready\":[],\"not_now\":[]}}\n",
    },
    Row {
        message: "{\"jsonrpc\":\"2.0\",\"method\":\"take\"}",
        lines: "",
    },
    Row {
        message: "{\"jsonrpc\":\"2.0\",\"id\":3,\"method\":\"reset\"}",
        lines: "{\"jsonrpc\":\"2.0\",\"id\":3,\"result\":\"reset\"}\n",
    },
    Row {
        message: "{\"jsonrpc\":\"2.0\",\"id\":4,\"method\":\"stats\"}",
        lines: "{\"jsonrpc\":\"2.0\",\"id\":4,\"result\":{\"units\":0,\"edits\":0,\"held\":0,\"cached\":0,\"jobs_out\":0,\"steps\":0,\"bytes\":0}}\n",
    },
    Row {
        message: "{\"jsonrpc\":\"2.0\",\"id\":5,\"method\":\"land\",\"params\":{\"job\":1}}",
        lines: "{\"jsonrpc\":\"2.0\",\"id\":5,\"result\":\"none\"}\n",
    },
    Row {
        message: "{\"jsonrpc\":\"2.0\",\"id\":6,\"method\":\"load\",\"params\":{\"path\":\"one\"}}",
        lines: "{\"jsonrpc\":\"2.0\",\"id\":6,\"result\":{\"units\":1,\"first\":1,\"last\":1,\"changed\":{\"from\":0,\"count\":1}}}\n",
    },
    Row {
        message: "{\"jsonrpc\":\"2.0\",\"method\":\"take\"}",
        lines: "",
    },
    Row {
        message: "{\"jsonrpc\":\"2.0\",\"id\":7,\"method\":\"land\",\"params\":{\"job\":1}}",
        lines: "{\"jsonrpc\":\"2.0\",\"id\":7,\"result\":\"taken\"}\n",
    },
];

/// Batches are answered by arrays, and carried out whole.
const BATCHES: [Row; 5] = [
    Row {
        message: "[{\"jsonrpc\":\"2.0\",\"id\":1,\"method\":\"stats\"},1,[{\"jsonrpc\":\"2.0\",\"id\":2,\"method\":\"stats\"}],{\"jsonrpc\":\"2.0\",\"method\":\"mark\"},{\"jsonrpc\":\"2.0\",\"id\":3,\"method\":\"show\",\"params\":{\"id\":1}}]",
        lines: "[{\"jsonrpc\":\"2.0\",\"id\":1,\"result\":{\"units\":0,\"edits\":0,\"held\":0,\"cached\":0,\"jobs_out\":0,\"steps\":0,\"bytes\":0}},{\"jsonrpc\":\"2.0\",\"id\":null,\"error\":{\"code\":-32600,\"message\":\"Invalid Request\"}},{\"jsonrpc\":\"2.0\",\"id\":null,\"error\":{\"code\":-32600,\"message\":\"Invalid Request\"}},{\"jsonrpc\":\"2.0\",\"id\":3,\"error\":{\"code\":16,\"message\":\"NoSuchUnit\",\"data\":{\"reason\":\"no unit has the id\"}}}]\n",
    },
    Row {
        message: "[{\"jsonrpc\":\"2.0\",\"method\":\"mark\"},{\"jsonrpc\":\"2.0\",\"method\":\"mark\"}]",
        lines: "",
    },
    Row {
        message: "[{\"jsonrpc\":\"2.0\",\"id\":4,\"method\":\"mark\"}]",
        lines: "[{\"jsonrpc\":\"2.0\",\"id\":4,\"result\":\"marked\"}]\n",
    },
    Row {
        message: "[{\"jsonrpc\":\"2.0\",\"id\":5,\"method\":\"shutdown\"},{\"jsonrpc\":\"2.0\",\"id\":6,\"method\":\"mark\"}]",
        lines: "[{\"jsonrpc\":\"2.0\",\"id\":5,\"result\":null},{\"jsonrpc\":\"2.0\",\"id\":6,\"result\":\"marked\"}]\n",
    },
    Row {
        message: "{\"jsonrpc\":\"2.0\",\"id\":7,\"method\":\"mark\"}",
        lines: "",
    },
];

#[test]
fn units_are_altered_since_the_mark(rt: HostRuntime) {
    assert!(rt; answers_so(&rt, &MARKS));
}

#[test]
fn a_server_begins_anew(rt: HostRuntime) {
    assert!(rt; answers_so(&rt, &RESETS));
}

#[test]
fn batches_are_answered_together(rt: HostRuntime) {
    assert!(rt; answers_so(&rt, &BATCHES));
}
