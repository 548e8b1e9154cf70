//! The threads of a server with workers: one for each of these, one that tells of pictures, and
//! that of the reader.

ghost use Rattle.std.specs.Prelude.{◌≡◌, ◌≤◌, length, IfOk};

use crate::desk_backend::{DeskBackend, SharedDesk};
use crate::end::ServeEnd;
use crate::lines::InputLines;
use crate::service::{Reading, Service};
use crate::serving::{resume, serve_line};
use console_io::file_saving::Saver;
use decode_pool::{Gate, worker};
use failure_reasons::Explain;
use serve_calls::{Journaled, Server};
use session_journal::Records;
use stand_in_device::Device;
use std::alloc::{AllocError, Global};
use std::io::{Read, Write};
use std::sync::Wait;
use std::thread;
use std::thread::{Scope, Threads};

/// Serves the messages of an input as `serve_with` does, beside so many workers with a device each.
pub fn serve_with_workers<R, K, I, S, W>(
    rt: &R,
    alloc: Global,
    workers: usize,
    service: Service<K, I, S>,
    output: &mut W,
) -> ServeEnd
where
    R: Threads + Wait + Sync,
    K: Records + Drop,
    I: Read + Drop,
    S: Saver + Explain + Drop,
    W: Write + Send,
    requires cache { (1 ≤ service.cache) × (service.cache ≤ 4096) }
    requires workers { (1 ≤ workers) × (workers ≤ 64) }
{
    match devices(alloc, workers) {
        Ok(gates) => serve_with(rt, alloc, gates, service, output),
        Err(_) => ServeEnd::Memory,
    }
}

/// So many devices.
fn devices(alloc: Global, count: usize) -> Result<Vec<Device>, AllocError>
    ensures { IfOk result (λ made. length made.items ≡ count) }
{
    let mut made = Vec::with_capacity(alloc, count)?;
    for _ in 0..count {
        made.push(Device::new(alloc))?;
    }
    Ok(made)
}

/// Serves the messages of an input while a worker for each gate decodes in a thread of its own.
pub fn serve_with<R, D, K, I, S, W>(
    rt: &R,
    alloc: Global,
    gates: Vec<D>,
    service: Service<K, I, S>,
    output: &mut W,
) -> ServeEnd
where
    R: Threads + Wait + Sync,
    D: Gate + Send + Drop,
    K: Records + Drop,
    I: Read + Drop,
    S: Saver + Explain + Drop,
    W: Write + Send,
    requires cache { (1 ≤ service.cache) × (service.cache ≤ 4096) }
    requires workers { (1 ≤ length gates.items) × (length gates.items ≤ 64) }
{
    let cache = service.cache;
    let Ok(reading) = service.reading(alloc) else {
        return ServeEnd::Memory;
    };
    match SharedDesk::open(alloc, cache, gates.len(), output) {
        Ok(shared) => serve_beside(rt, alloc, &shared, gates, reading),
        Err(_) => ServeEnd::Memory,
    }
}

/// Serves the messages of lines beside the threads that share a desk. However that ends, the desk is
/// closed then, and the threads have ended.
fn serve_beside<'a, R, D, K, I, S, W>(
    rt: &'a R,
    alloc: Global,
    shared: &'a SharedDesk<W>,
    gates: Vec<D>,
    reading: Reading<K, I, S>,
) -> ServeEnd
where
    R: Threads + Wait + Sync,
    D: Gate + Send + Drop,
    K: Records + Drop,
    I: Read + Drop,
    S: Saver + Explain + Drop,
    W: Write + Send + Drop,
{
    thread::scope(thread::scope_env(), rt, move |scope| -> ServeEnd {
        let end = serve_among(scope, rt, alloc, shared, gates, reading);
        shared.desk.close(rt);
        end
    })
}

/// Starts the threads, and serves where all of them could be started.
fn serve_among<'s, E, R, D, K, I, S, W>(
    scope: &Scope<'s, E>,
    rt: &'s R,
    alloc: Global,
    shared: &'s SharedDesk<W>,
    gates: Vec<D>,
    reading: Reading<K, I, S>,
) -> ServeEnd
where
    R: Threads + Wait + Sync,
    D: Gate + Send + Drop + 's,
    K: Records + Drop,
    I: Read + Drop,
    S: Saver + Explain + Drop,
    W: Write + Send + 's,
{
    for gate in gates {
        if scope
            .spawn(move || worker(rt, alloc, &shared.desk, gate))
            .is_err()
        {
            return ServeEnd::Memory;
        }
    }
    if scope.spawn(move || tell_on(rt, shared)).is_err() {
        return ServeEnd::Memory;
    }
    serve_lines(rt, alloc, shared, reading)
}

/// Tells of wanted units whenever the session may have another picture to show, until the desk is
/// closed.
fn tell_on<R: Wait, W: Write>(rt: &R, shared: &SharedDesk<W>) {
    let mut seen = 0;
    for _ in rt.forever() {
        match shared.desk.news(rt, seen) {
            Some(news) => {
                seen = news;
                tell(rt, shared);
            }
            None => return,
        }
    }
}

/// Tells of wanted units as they are now. One that can't be told is told of later, or the next
/// answer fails.
fn tell<R: Wait, W: Write>(rt: &R, shared: &SharedDesk<W>) {
    let session = DeskBackend {
        rt,
        desk: &shared.desk,
        seat: &shared.seat,
    };
    let _ = shared.writer.lock(rt).tell(&session);
}

/// Serves the messages of lines one after the other.
fn serve_lines<R, K, I, S, W>(
    rt: &R,
    alloc: Global,
    shared: &SharedDesk<W>,
    reading: Reading<K, I, S>,
) -> ServeEnd
where
    R: Threads + Wait + Sync,
    K: Records + Drop,
    I: Read + Drop,
    S: Saver + Explain + Drop,
    W: Write,
{
    let backend = DeskBackend {
        rt,
        desk: &shared.desk,
        seat: &shared.seat,
    };
    let mut lines = reading.lines;
    let mut server = Server::new(alloc, Journaled::new(backend), reading.files);
    if let Err(end) = resume(&mut server, reading.journal) {
        return end;
    }
    for _ in 0..u64::MAX {
        if let Err(end) = serve_next(rt, shared, &mut server, &mut lines) {
            return end;
        }
    }
    ServeEnd::Done
}

/// Reads the next message and serves it, while no one else writes; or how the server ends.
fn serve_next<R, K, I, S, W>(
    rt: &R,
    shared: &SharedDesk<W>,
    server: &mut Server<Journaled<DeskBackend<'_, R>, K>, S>,
    lines: &mut InputLines<I>,
) -> Result<(), ServeEnd>
where
    R: Threads + Wait + Sync,
    K: Records,
    I: Read + Drop,
    S: Saver + Explain,
    W: Write,
{
    match lines.next() {
        Ok(line) => {
            let mut writer = shared.writer.lock(rt);
            serve_line(rt, server, &mut writer, line)
        }
        Err(_) => Err(ServeEnd::Unread),
    }
}
