//! A session alone.

use super::{Row, answers_so};

/// Edits of a stream, and questions about it.
const EDITS: [Row; 11] = [
    Row {
        message: "{\"jsonrpc\":\"2.0\",\"id\":1,\"method\":\"insert\",\"params\":{\"after\":null,\"bytes\":\"AAABZ0IACtp5AAABaM44gAAAAWWIhIA=\"}}",
        lines: "{\"jsonrpc\":\"2.0\",\"id\":1,\"result\":{\"edit\":1,\"id\":1,\"steps\":1,\"changed\":{\"from\":0,\"count\":1}}}\n",
    },
    Row {
        message: "{\"jsonrpc\":\"2.0\",\"method\":\"insert\",\"params\":{\"after\":1,\"bytes\":\"AAABQZoj\"}}",
        lines: "",
    },
    Row {
        message: "{\"jsonrpc\":\"2.0\",\"method\":\"group\",\"params\":{\"edits\":[{\"insert\":{\"after\":2,\"bytes\":\"AAABQZpD\"}}]}}",
        lines: "",
    },
    Row {
        message: "{\"jsonrpc\":\"2.0\",\"id\":4,\"method\":\"units\",\"params\":{\"from\":1,\"count\":5}}",
        lines: "{\"jsonrpc\":\"2.0\",\"id\":4,\"result\":[{\"unit\":2,\"position\":1,\"begins_period\":false,\"counts\":{\"top\":2,\"bottom\":2}},{\"unit\":3,\"position\":2,\"begins_period\":false,\"counts\":{\"top\":4,\"bottom\":4}}]}\n",
    },
    Row {
        message: "{\"jsonrpc\":\"2.0\",\"id\":5,\"method\":\"units\",\"params\":{\"from\":3,\"count\":5}}",
        lines: "{\"jsonrpc\":\"2.0\",\"id\":5,\"result\":[]}\n",
    },
    Row {
        message: "{\"jsonrpc\":\"2.0\",\"id\":6,\"method\":\"find\",\"params\":{\"position\":2}}",
        lines: "{\"jsonrpc\":\"2.0\",\"id\":6,\"result\":{\"id\":3,\"place\":2}}\n",
    },
    Row {
        message: "{\"jsonrpc\":\"2.0\",\"id\":7,\"method\":\"find\",\"params\":{\"position\":3}}",
        lines: "{\"jsonrpc\":\"2.0\",\"id\":7,\"result\":null}\n",
    },
    Row {
        message: "{\"jsonrpc\":\"2.0\",\"method\":\"delete\",\"params\":{\"id\":2}}",
        lines: "",
    },
    Row {
        message: "{\"jsonrpc\":\"2.0\",\"id\":9,\"method\":\"show\",\"params\":{\"id\":3}}",
        lines: "{\"jsonrpc\":\"2.0\",\"id\":9,\"result\":{\"state\":\"fault\",\"number\":11,\"name\":\"FrameNumGap\"}}\n",
    },
    Row {
        message: "{\"jsonrpc\":\"2.0\",\"id\":10,\"method\":\"show\",\"params\":{\"id\":2}}",
        lines: "{\"jsonrpc\":\"2.0\",\"id\":10,\"error\":{\"code\":16,\"message\":\"NoSuchUnit\",\"data\":{\"reason\":\"no unit has the id\"}}}\n",
    },
    Row {
        message: "{\"jsonrpc\":\"2.0\",\"id\":11,\"method\":\"load\",\"params\":{\"path\":\"one\"}}",
        lines: "{\"jsonrpc\":\"2.0\",\"id\":11,\"result\":{\"units\":1,\"first\":4,\"last\":4,\"changed\":{\"from\":2,\"count\":1}}}\n",
    },
];

/// A stream of A, a picture of frame_num 2, one of frame_num 1 and sets: a gap, a picture that fits A,
/// and an IDR picture behind them.
const DOUBTS: [Row; 5] = [
    Row {
        message: "{\"jsonrpc\":\"2.0\",\"id\":1,\"method\":\"load\",\"params\":{\"bytes\":\"AAABZ0IACtp5AAABaM44gAAAAWWIhIAAAAFBmkMAAAFBmiMAAAFnQgAK2nkAAAFozjiA\"}}",
        lines: "{\"jsonrpc\":\"2.0\",\"id\":1,\"result\":{\"units\":4,\"first\":1,\"last\":4,\"changed\":{\"from\":0,\"count\":4}}}\n",
    },
    Row {
        message: "{\"jsonrpc\":\"2.0\",\"id\":2,\"method\":\"units\",\"params\":{\"from\":0,\"count\":9}}",
        lines: "{\"jsonrpc\":\"2.0\",\"id\":2,\"result\":[{\"unit\":1,\"position\":0,\"begins_period\":true,\"counts\":{\"top\":0,\"bottom\":0}},{\"unit\":2,\"fault\":{\"number\":11,\"name\":\"FrameNumGap\"}},{\"unit\":3,\"position\":1,\"begins_period\":false,\"counts\":{\"top\":2,\"bottom\":2},\"follows\":2,\"in_doubt\":true},{\"unit\":4,\"no_picture\":true,\"follows\":2}]}\n",
    },
    Row {
        message: "{\"jsonrpc\":\"2.0\",\"id\":3,\"method\":\"units\",\"params\":{\"from\":2,\"count\":1}}",
        lines: "{\"jsonrpc\":\"2.0\",\"id\":3,\"result\":[{\"unit\":3,\"position\":1,\"begins_period\":false,\"counts\":{\"top\":2,\"bottom\":2},\"follows\":2,\"in_doubt\":true}]}\n",
    },
    Row {
        message: "{\"jsonrpc\":\"2.0\",\"method\":\"insert\",\"params\":{\"after\":4,\"bytes\":\"AAABZ0IACtp5AAABaM44gAAAAWWIhIA=\"}}",
        lines: "",
    },
    Row {
        message: "{\"jsonrpc\":\"2.0\",\"id\":5,\"method\":\"units\",\"params\":{\"from\":3,\"count\":1000}}",
        lines: "{\"jsonrpc\":\"2.0\",\"id\":5,\"result\":[{\"unit\":4,\"no_picture\":true,\"follows\":2},{\"unit\":5,\"position\":2,\"begins_period\":true,\"counts\":{\"top\":0,\"bottom\":0}}]}\n",
    },
];

/// A byte that is no NAL unit, and a prefix NAL unit between the sets of A, which mending leaves out.
const MENDED: [Row; 7] = [
    Row {
        message: "{\"jsonrpc\":\"2.0\",\"id\":1,\"method\":\"load\",\"params\":{\"bytes\":\"CgAAAWdCAAraeQAAAW5AgAAAAWjOOIAAAAFliISA\"}}",
        lines: "{\"jsonrpc\":\"2.0\",\"id\":1,\"error\":{\"code\":1,\"message\":\"Split\",\"data\":{\"reason\":\"the bytes don't begin with a start code, or a NAL unit is empty or has bytes that none may have (B.1, 7.4.1)\"}}}\n",
    },
    Row {
        message: "{\"jsonrpc\":\"2.0\",\"id\":2,\"method\":\"load\",\"params\":{\"bytes\":\"CgAAAWdCAAraeQAAAW5AgAAAAWjOOIAAAAFliISA\",\"mend\":true}}",
        lines: "{\"jsonrpc\":\"2.0\",\"id\":2,\"result\":{\"units\":1,\"first\":1,\"last\":1,\"changed\":{\"from\":0,\"count\":1},\"left_out\":[{\"byte\":0,\"bytes\":1,\"why\":\"not a NAL unit\"},{\"byte\":10,\"bytes\":6,\"why\":\"type 14\"}]}}\n",
    },
    Row {
        message: "{\"jsonrpc\":\"2.0\",\"id\":3,\"method\":\"text\",\"params\":{\"id\":1}}",
        lines: "{\"jsonrpc\":\"2.0\",\"id\":3,\"result\":{\"bytes\":\"AAABZ0IACtp5AAABaM44gAAAAWWIhIA=\"}}\n",
    },
    Row {
        message: "{\"jsonrpc\":\"2.0\",\"id\":4,\"method\":\"load\",\"params\":{\"path\":\"one\",\"mend\":true}}",
        lines: "{\"jsonrpc\":\"2.0\",\"id\":4,\"result\":{\"units\":1,\"first\":2,\"last\":2,\"changed\":{\"from\":1,\"count\":1},\"left_out\":[]}}\n",
    },
    Row {
        message: "{\"jsonrpc\":\"2.0\",\"id\":5,\"method\":\"load\",\"params\":{\"path\":\"one\",\"mend\":false}}",
        lines: "{\"jsonrpc\":\"2.0\",\"id\":5,\"result\":{\"units\":1,\"first\":3,\"last\":3,\"changed\":{\"from\":2,\"count\":1}}}\n",
    },
    Row {
        message: "{\"jsonrpc\":\"2.0\",\"id\":6,\"method\":\"load\",\"params\":{\"bytes\":\"Cg==\",\"mend\":true}}",
        lines: "{\"jsonrpc\":\"2.0\",\"id\":6,\"error\":{\"code\":1,\"message\":\"Split\",\"data\":{\"reason\":\"the bytes don't begin with a start code, or a NAL unit is empty or has bytes that none may have (B.1, 7.4.1)\"}}}\n",
    },
    Row {
        message: "{\"jsonrpc\":\"2.0\",\"id\":7,\"method\":\"load\",\"params\":{\"path\":\"none\",\"mend\":1}}",
        lines: "{\"jsonrpc\":\"2.0\",\"id\":7,\"error\":{\"code\":-32602,\"message\":\"Invalid params\",\"data\":\"mend\"}}\n",
    },
];

/// Three units inserted together, the second one taken out and put back, and the last one taken out.
const CHANGED: [Row; 4] = [
    Row {
        message: "{\"jsonrpc\":\"2.0\",\"id\":0,\"method\":\"group\",\"params\":{\"edits\":[{\"insert\":{\"after\":null,\"bytes\":\"AAABZ0IACtp5AAABaM44gAAAAWWIhIA=\"}},{\"insert\":{\"after\":1,\"bytes\":\"AAABQZoj\"}},{\"insert\":{\"after\":2,\"bytes\":\"AAABQZpD\"}}]}}",
        lines: "{\"jsonrpc\":\"2.0\",\"id\":0,\"result\":{\"edit\":1,\"ids\":[1,2,3],\"steps\":3,\"changed\":{\"from\":0,\"count\":3}}}\n",
    },
    Row {
        message: "{\"jsonrpc\":\"2.0\",\"id\":1,\"method\":\"delete\",\"params\":{\"id\":2}}",
        lines: "{\"jsonrpc\":\"2.0\",\"id\":1,\"result\":{\"edit\":2,\"id\":2,\"steps\":2,\"changed\":{\"from\":1,\"count\":1}}}\n",
    },
    Row {
        message: "{\"jsonrpc\":\"2.0\",\"id\":2,\"method\":\"insert\",\"params\":{\"after\":1,\"bytes\":\"AAABQZoj\"}}",
        lines: "{\"jsonrpc\":\"2.0\",\"id\":2,\"result\":{\"edit\":3,\"id\":4,\"steps\":2,\"changed\":{\"from\":1,\"count\":2}}}\n",
    },
    Row {
        message: "{\"jsonrpc\":\"2.0\",\"id\":3,\"method\":\"delete\",\"params\":{\"id\":3}}",
        lines: "{\"jsonrpc\":\"2.0\",\"id\":3,\"result\":{\"edit\":4,\"id\":3,\"steps\":1,\"changed\":{\"from\":0,\"count\":0}}}\n",
    },
];

/// Pictures that are taken, told, dropped and made again.
const PICTURES: [Row; 18] = [
    Row {
        message: "{\"jsonrpc\":\"2.0\",\"id\":1,\"method\":\"load\",\"params\":{\"bytes\":\"AAABZ0IACtp5AAABaM44gAAAAWWIhIA=\"}}",
        lines: "{\"jsonrpc\":\"2.0\",\"id\":1,\"result\":{\"units\":1,\"first\":1,\"last\":1,\"changed\":{\"from\":0,\"count\":1}}}\n",
    },
    Row {
        message: "{\"jsonrpc\":\"2.0\",\"id\":2,\"method\":\"want\",\"params\":{\"ids\":[1,9,1]}}",
        lines: "{\"jsonrpc\":\"2.0\",\"id\":2,\"result\":{\"ready\":[],\"not_now\":[9]}}\n",
    },
    Row {
        message: "{\"jsonrpc\":\"2.0\",\"id\":3,\"method\":\"show\",\"params\":{\"id\":1}}",
        lines: "{\"jsonrpc\":\"2.0\",\"id\":3,\"result\":{\"state\":\"pending\"}}\n",
    },
    Row {
        message: "{\"jsonrpc\":\"2.0\",\"method\":\"take\"}",
        lines: "",
    },
    Row {
        message: "{\"jsonrpc\":\"2.0\",\"id\":5,\"method\":\"stats\"}",
        lines: "{\"jsonrpc\":\"2.0\",\"id\":5,\"result\":{\"units\":1,\"edits\":1,\"held\":0,\"cached\":0,\"jobs_out\":1,\"steps\":1,\"bytes\":23}}\n",
    },
    Row {
        message: "{\"jsonrpc\":\"2.0\",\"id\":6,\"method\":\"take\",\"params\":{\"id\":1}}",
        lines: "{\"jsonrpc\":\"2.0\",\"id\":6,\"result\":null}\n",
    },
    Row {
        message: "{\"jsonrpc\":\"2.0\",\"id\":7,\"method\":\"land\",\"params\":{\"job\":1}}",
        lines: "{\"jsonrpc\":\"2.0\",\"id\":7,\"result\":\"taken\"}\n{\"jsonrpc\":\"2.0\",\"method\":\"ready\",\"params\":{\"id\":1,\"picture\":\"0ac6f5c6bc064c436309c18b3d1b605ad60f7de3724081b84ff01aac2c3954cf\"}}\n",
    },
    Row {
        message: "{\"jsonrpc\":\"2.0\",\"id\":8,\"method\":\"land\",\"params\":{\"job\":1}}",
        lines: "{\"jsonrpc\":\"2.0\",\"id\":8,\"result\":\"none\"}\n",
    },
    Row {
        message: "{\"jsonrpc\":\"2.0\",\"id\":9,\"method\":\"show\",\"params\":{\"id\":1}}",
        lines: "{\"jsonrpc\":\"2.0\",\"id\":9,\"result\":{\"state\":\"ready\",\"picture\":\"0ac6f5c6bc064c436309c18b3d1b605ad60f7de3724081b84ff01aac2c3954cf\"}}\n",
    },
    Row {
        message: "{\"jsonrpc\":\"2.0\",\"id\":10,\"method\":\"drop\",\"params\":{\"id\":1}}",
        lines: "{\"jsonrpc\":\"2.0\",\"id\":10,\"result\":\"dropped\"}\n",
    },
    Row {
        message: "{\"jsonrpc\":\"2.0\",\"id\":11,\"method\":\"drop\",\"params\":{\"id\":1}}",
        lines: "{\"jsonrpc\":\"2.0\",\"id\":11,\"result\":\"not held\"}\n",
    },
    Row {
        message: "{\"jsonrpc\":\"2.0\",\"id\":12,\"method\":\"drop\",\"params\":{}}",
        lines: "{\"jsonrpc\":\"2.0\",\"id\":12,\"result\":\"cleared\"}\n",
    },
    Row {
        message: "{\"jsonrpc\":\"2.0\",\"method\":\"take\"}",
        lines: "",
    },
    Row {
        message: "{\"jsonrpc\":\"2.0\",\"id\":14,\"method\":\"give_back\",\"params\":{\"job\":2}}",
        lines: "{\"jsonrpc\":\"2.0\",\"id\":14,\"result\":\"back\"}\n",
    },
    Row {
        message: "{\"jsonrpc\":\"2.0\",\"method\":\"take\"}",
        lines: "",
    },
    Row {
        message: "{\"jsonrpc\":\"2.0\",\"id\":16,\"method\":\"land\",\"params\":{\"job\":3}}",
        lines: "{\"jsonrpc\":\"2.0\",\"id\":16,\"result\":\"taken\"}\n",
    },
    Row {
        message: "{\"jsonrpc\":\"2.0\",\"method\":\"want\",\"params\":{\"ids\":[1],\"rest\":false}}",
        lines: "{\"jsonrpc\":\"2.0\",\"method\":\"ready\",\"params\":{\"id\":1,\"picture\":\"0ac6f5c6bc064c436309c18b3d1b605ad60f7de3724081b84ff01aac2c3954cf\"}}\n",
    },
    Row {
        message: "{\"jsonrpc\":\"2.0\",\"id\":18,\"method\":\"want\",\"params\":{\"ids\":[1]}}",
        lines: "{\"jsonrpc\":\"2.0\",\"id\":18,\"result\":{\"ready\":[{\"id\":1,\"picture\":\"0ac6f5c6bc064c436309c18b3d1b605ad60f7de3724081b84ff01aac2c3954cf\"}],\"not_now\":[]}}\n",
    },
];

#[test]
fn edits_and_questions_are_answered(rt: HostRuntime) {
    assert!(rt; answers_so(&rt, &EDITS));
}

#[test]
fn pictures_are_told_of(rt: HostRuntime) {
    assert!(rt; answers_so(&rt, &PICTURES));
}

#[test]
fn units_behind_a_damage_are_told_of(rt: HostRuntime) {
    assert!(rt; answers_so(&rt, &DOUBTS));
}

#[test]
fn receipts_tell_what_changed(rt: HostRuntime) {
    assert!(rt; answers_so(&rt, &CHANGED));
}

#[test]
fn streams_are_mended(rt: HostRuntime) {
    assert!(rt; answers_so(&rt, &MENDED));
}
