//! `save`, over a source that takes one text as one file.

use super::{Row, answers_so};

/// A stream that isn't the text, the text, and a file for which memory runs out.
const SAVED: [Row; 6] = [
    Row {
        message: "{\"jsonrpc\":\"2.0\",\"id\":1,\"method\":\"save\",\"params\":{\"path\":\"one\"}}",
        lines: "{\"jsonrpc\":\"2.0\",\"id\":1,\"error\":{\"code\":25,\"message\":\"CannotWrite\",\"data\":{\"reason\":\"the file can't be written\"}}}\n",
    },
    Row {
        message: "{\"jsonrpc\":\"2.0\",\"id\":2,\"method\":\"load\",\"params\":{\"path\":\"one\"}}",
        lines: "{\"jsonrpc\":\"2.0\",\"id\":2,\"result\":{\"units\":1,\"first\":1,\"last\":1,\"changed\":{\"from\":0,\"count\":1}}}\n",
    },
    Row {
        message: "{\"jsonrpc\":\"2.0\",\"id\":3,\"method\":\"save\",\"params\":{\"path\":\"one\"}}",
        lines: "{\"jsonrpc\":\"2.0\",\"id\":3,\"result\":{\"units\":1,\"bytes\":23}}\n",
    },
    Row {
        message: "{\"jsonrpc\":\"2.0\",\"id\":4,\"method\":\"save\",\"params\":{\"path\":\"memory\"}}",
        lines: "{\"jsonrpc\":\"2.0\",\"id\":4,\"error\":{\"code\":15,\"message\":\"Memory\",\"data\":{\"reason\":\"out of memory\"}}}\n",
    },
    Row {
        message: "{\"jsonrpc\":\"2.0\",\"id\":5,\"method\":\"save\",\"params\":{\"path\":1}}",
        lines: "{\"jsonrpc\":\"2.0\",\"id\":5,\"error\":{\"code\":-32602,\"message\":\"Invalid params\",\"data\":\"path\"}}\n",
    },
    Row {
        message: "{\"jsonrpc\":\"2.0\",\"id\":6,\"method\":\"save\",\"params\":[]}",
        lines: "{\"jsonrpc\":\"2.0\",\"id\":6,\"error\":{\"code\":-32602,\"message\":\"Invalid params\",\"data\":\"path\"}}\n",
    },
];

#[test]
fn a_stream_is_saved(rt: HostRuntime) {
    assert!(rt; answers_so(&rt, &SAVED));
}
