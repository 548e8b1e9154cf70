//! How a server ends.

use super::{served, service, unrecorded};
use serve_run::{ServeEnd, serve_alone};
use std::io;
use std::io::{ErrorKind, Read, Write};

/// A message after `shutdown`, and one that isn't answered before it.
const SHUTDOWN: &str = "{\"jsonrpc\":\"2.0\",\"method\":\"stats\"}\n\
    {\"jsonrpc\":\"2.0\",\"id\":1,\"method\":\"shutdown\"}\n{\n";

/// A reader and a writer that fail.
#[derive(Drop)]
struct Broken;

impl Read for Broken {
    fn read(&mut self, _buf: &mut [u8]) -> io::Result<usize> {
        Err(io::Error::from(ErrorKind::BrokenPipe))
    }
}

impl Write for Broken {
    fn write(&mut self, _buf: &[u8]) -> io::Result<usize> {
        Err(io::Error::from(ErrorKind::BrokenPipe))
    }

    fn flush(&mut self) -> io::Result<()> {
        Ok(())
    }
}

#[test]
fn shutdown_ends_a_server(rt: HostRuntime) {
    let (end, output) = served(&rt, SHUTDOWN.as_bytes());
    let line = "{\"jsonrpc\":\"2.0\",\"id\":1,\"result\":null}\n";
    assert!(rt; end == ServeEnd::Done && output.as_slice() == line.as_bytes());
}

#[test]
fn an_output_that_takes_nothing_ends_a_server(rt: HostRuntime) {
    let mut output = Broken;
    let service = service(unrecorded(), SHUTDOWN.as_bytes());
    let end = serve_alone(&rt, rt.alloc(), service, &mut output);
    assert!(rt; end == ServeEnd::Unwritten);
}

#[test]
fn an_input_that_gives_nothing_ends_a_server(rt: HostRuntime) {
    let mut output = Vec::new(rt.alloc());
    let service = service(unrecorded(), Broken);
    let end = serve_alone(&rt, rt.alloc(), service, &mut output);
    assert!(rt; end == ServeEnd::Unread && output.is_empty());
}
