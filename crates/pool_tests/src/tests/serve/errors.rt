//! Refusals.

use super::{Row, answers_so};

/// Messages that are refused, and what is left as it was.
const ERRORS: [Row; 20] = [
    Row {
        message: "",
        lines: "{\"jsonrpc\":\"2.0\",\"id\":null,\"error\":{\"code\":-32700,\"message\":\"Parse error\"}}\n",
    },
    Row {
        message: "{",
        lines: "{\"jsonrpc\":\"2.0\",\"id\":null,\"error\":{\"code\":-32700,\"message\":\"Parse error\"}}\n",
    },
    Row {
        message: "[]",
        lines: "{\"jsonrpc\":\"2.0\",\"id\":null,\"error\":{\"code\":-32600,\"message\":\"Invalid Request\"}}\n",
    },
    Row {
        message: "{\"id\":\"x\",\"method\":\"show\"}",
        lines: "{\"jsonrpc\":\"2.0\",\"id\":\"x\",\"error\":{\"code\":-32600,\"message\":\"Invalid Request\"}}\n",
    },
    Row {
        message: "{\"jsonrpc\":\"2.0\",\"id\":1,\"method\":\"sow\",\"params\":{}}",
        lines: "{\"jsonrpc\":\"2.0\",\"id\":1,\"error\":{\"code\":-32601,\"message\":\"Method not found\"}}\n",
    },
    // Without a journal there is no such method, whatever the parameters are.
    Row {
        message: "{\"jsonrpc\":\"2.0\",\"id\":2,\"method\":\"compact\",\"params\":[1]}",
        lines: "{\"jsonrpc\":\"2.0\",\"id\":2,\"error\":{\"code\":-32601,\"message\":\"Method not found\"}}\n",
    },
    Row {
        message: "{\"jsonrpc\":\"2.0\",\"method\":\"sow\",\"params\":{}}",
        lines: "",
    },
    Row {
        message: "{\"jsonrpc\":\"2.0\",\"id\":3,\"method\":\"show\",\"params\":[1]}",
        lines: "{\"jsonrpc\":\"2.0\",\"id\":3,\"error\":{\"code\":-32602,\"message\":\"Invalid params\",\"data\":\"id\"}}\n",
    },
    Row {
        message: "{\"jsonrpc\":\"2.0\",\"id\":4,\"method\":\"load\",\"params\":{}}",
        lines: "{\"jsonrpc\":\"2.0\",\"id\":4,\"error\":{\"code\":-32602,\"message\":\"Invalid params\",\"data\":\"path\"}}\n",
    },
    Row {
        message: "{\"jsonrpc\":\"2.0\",\"id\":5,\"method\":\"load\",\"params\":{\"path\":\"none\"}}",
        lines: "{\"jsonrpc\":\"2.0\",\"id\":5,\"error\":{\"code\":23,\"message\":\"CannotRead\",\"data\":{\"reason\":\"the file can't be read\"}}}\n",
    },
    Row {
        message: "{\"jsonrpc\":\"2.0\",\"id\":6,\"method\":\"load\",\"params\":{\"bytes\":\"\"}}",
        lines: "{\"jsonrpc\":\"2.0\",\"id\":6,\"error\":{\"code\":1,\"message\":\"Split\",\"data\":{\"reason\":\"the bytes don't begin with a start code, or a NAL unit is empty or has bytes that none may have (B.1, 7.4.1)\"}}}\n",
    },
    Row {
        message: "{\"jsonrpc\":\"2.0\",\"id\":7,\"method\":\"load\",\"params\":{\"bytes\":\"AAABaM44gA==\"}}",
        lines: "{\"jsonrpc\":\"2.0\",\"id\":7,\"result\":{\"units\":1,\"first\":1,\"last\":1,\"changed\":{\"from\":0,\"count\":1}}}\n",
    },
    Row {
        message: "{\"jsonrpc\":\"2.0\",\"id\":8,\"method\":\"insert\",\"params\":{\"after\":7,\"bytes\":\"AAABQZoj\"}}",
        lines: "{\"jsonrpc\":\"2.0\",\"id\":8,\"error\":{\"code\":16,\"message\":\"NoSuchUnit\",\"data\":{\"reason\":\"no unit has the id\"}}}\n",
    },
    Row {
        message: "{\"jsonrpc\":\"2.0\",\"id\":9,\"method\":\"group\",\"params\":{\"edits\":[]}}",
        lines: "{\"jsonrpc\":\"2.0\",\"id\":9,\"error\":{\"code\":20,\"message\":\"EmptyGroup\",\"data\":{\"reason\":\"the group has no edit\"}}}\n",
    },
    Row {
        message: "{\"jsonrpc\":\"2.0\",\"id\":10,\"method\":\"group\",\"params\":{\"edits\":[{\"delete\":{\"id\":1}},{\"delete\":{\"id\":1}}]}}",
        lines: "{\"jsonrpc\":\"2.0\",\"id\":10,\"error\":{\"code\":16,\"message\":\"NoSuchUnit\",\"data\":{\"index\":1,\"reason\":\"no unit has the id\"}}}\n",
    },
    Row {
        message: "{\"jsonrpc\":\"2.0\",\"id\":11,\"method\":\"want\",\"params\":{\"ids\":[1,1,1,1,1,1,1,1,1,1,1,1,1,1,1,1,1,1,1,1,1,1,1,1,1,1,1,1,1,1,1,1,1,1,1,1,1,1,1,1,1,1,1,1,1,1,1,1,1,1,1,1,1,1,1,1,1,1,1,1,1,1,1,1,1]}}",
        lines: "{\"jsonrpc\":\"2.0\",\"id\":11,\"error\":{\"code\":22,\"message\":\"TooManyWanted\",\"data\":{\"reason\":\"more than 64 ids are wanted\"}}}\n",
    },
    Row {
        message: "{\"jsonrpc\":\"2.0\",\"id\":12,\"method\":\"units\",\"params\":{\"from\":0,\"count\":1001}}",
        lines: "{\"jsonrpc\":\"2.0\",\"id\":12,\"error\":{\"code\":-32602,\"message\":\"Invalid params\",\"data\":\"count\"}}\n",
    },
    Row {
        message: "{\"jsonrpc\":\"2.0\",\"id\":13,\"method\":\"show\",\"params\":[]}",
        lines: "{\"jsonrpc\":\"2.0\",\"id\":13,\"error\":{\"code\":-32602,\"message\":\"Invalid params\",\"data\":\"id\"}}\n",
    },
    Row {
        message: "{\"jsonrpc\":\"2.0\",\"id\":14,\"method\":\"drop\",\"params\":[]}",
        lines: "{\"jsonrpc\":\"2.0\",\"id\":14,\"result\":\"cleared\"}\n",
    },
    Row {
        message: "{\"jsonrpc\":\"2.0\",\"id\":null,\"method\":\"show\",\"params\":{\"id\":1}}\r",
        lines: "{\"jsonrpc\":\"2.0\",\"id\":null,\"result\":{\"state\":\"empty\"}}\n",
    },
];

#[test]
fn messages_are_refused(rt: HostRuntime) {
    assert!(rt; answers_so(&rt, &ERRORS));
}
