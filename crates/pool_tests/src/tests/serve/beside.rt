//! A server beside workers.

use super::{service, unrecorded};
use serve_run::{ServeEnd, serve_with_workers};
use std::alloc::Global;
use std::io;
use std::io::{Read, Write};
use std::sync::{Condvar, Mutex, Wait};

/// What a server has written.
#[derive(Drop)]
struct Board {
    text: Mutex<Vec<u8>>,
    changed: Condvar,
}

impl Board {
    /// Nothing.
    fn new(alloc: Global) -> Board {
        Board {
            text: Mutex::new(Vec::new(alloc)),
            changed: Condvar::new(),
        }
    }

    /// Waits until these words were written.
    fn wait_for<R: Wait>(&self, rt: &R, words: &str) {
        let mut text = self.text.lock(rt);
        for _ in rt.forever() {
            if count_of(&text, words) > 0 {
                return;
            }
            text = self.changed.wait(rt, text);
        }
    }
}

/// How often words stand in a text.
fn count_of(text: &[u8], words: &str) -> usize {
    let mut count: usize = 0;
    for at in 0..text.len() {
        if text[at..].starts_with(words.as_bytes()) {
            count = count.saturating_add(1);
        }
    }
    count
}

/// A writer on a board.
#[derive(Drop)]
struct OnBoard<'a, R: Wait> {
    rt: &'a R,
    board: &'a Board,
}

impl<'a, R: Wait> Write for OnBoard<'a, R> {
    fn write(&mut self, buf: &[u8]) -> io::Result<usize> {
        let mut text = self.board.text.lock(self.rt);
        text.extend_from_slice(buf)?;
        drop(text);
        self.board.changed.notify_all();
        Ok(buf.len())
    }

    fn flush(&mut self) -> io::Result<()> {
        Ok(())
    }
}

/// A reader of a text, and of another one once words were written on a board.
#[derive(Drop)]
struct Waiting<'a, R: Wait> {
    rt: &'a R,
    board: &'a Board,
    text: &'static [u8],
    words: &'static str,
    next: Option<&'static [u8]>,
}

impl<'a, R: Wait> Read for Waiting<'a, R> {
    fn read(&mut self, buf: &mut [u8]) -> io::Result<usize> {
        let count = self.text.read(buf)?;
        if count > 0 || buf.is_empty() {
            return Ok(count);
        }
        let Some(next) = self.next else {
            return Ok(0);
        };
        self.board.wait_for(self.rt, self.words);
        self.next = None;
        self.text = next;
        self.text.read(buf)
    }
}

/// A unit is loaded and wanted.
const WANTS: &str = "{\"jsonrpc\":\"2.0\",\"method\":\"load\",\"params\":{\"path\":\"one\"}}\n\
    {\"jsonrpc\":\"2.0\",\"id\":1,\"method\":\"want\",\"params\":{\"ids\":[1],\"rest\":false}}\n";

/// Its picture, as it is told.
const TELLS: &str =
    "\"id\":1,\"picture\":\"0ac6f5c6bc064c436309c18b3d1b605ad60f7de3724081b84ff01aac2c3954cf\"}";

/// Jobs are no callers' where workers have them.
const TAKES: &str = "{\"jsonrpc\":\"2.0\",\"id\":2,\"method\":\"take\"}\n\
    {\"jsonrpc\":\"2.0\",\"id\":3,\"method\":\"shutdown\"}\n";

/// What that is answered.
const TAKEN: &str =
    "{\"jsonrpc\":\"2.0\",\"id\":2,\"error\":{\"code\":-32601,\"message\":\"Method not found\"}}\n\
    {\"jsonrpc\":\"2.0\",\"id\":3,\"result\":null}\n";

#[test]
fn a_wanted_picture_is_told_once(rt: HostRuntime) {
    let board = Board::new(rt.alloc());
    let input = Waiting {
        rt: &rt,
        board: &board,
        text: WANTS.as_bytes(),
        words: TELLS,
        next: Some(TAKES.as_bytes()),
    };
    let mut output = OnBoard {
        rt: &rt,
        board: &board,
    };
    let service = service(unrecorded(), input);
    let end = serve_with_workers(&rt, rt.alloc(), 2, service, &mut output);
    let text = board.text.lock(&rt);
    assert!(rt; end == ServeEnd::Done && text.ends_with(TAKEN.as_bytes()));
    assert!(rt; count_of(&text, TELLS) == 1);
}
