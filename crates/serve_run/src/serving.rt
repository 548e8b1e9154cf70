//! Messages served one after the other.

ghost use Rattle.std.specs.Prelude.{◌≡◌, ◌⊎◌, ◌||◌, ◌<◌, List, [], ◌∷◌, length, false};
ghost use Rattle.serde_json.specs.Errors.{IsMemory};
ghost use Rattle.serve_calls.specs.declared.requests.Served.{Served};
ghost use Rattle.serve_calls.specs.declared.wanted_units.WantedUnit.{WantedUnit};
ghost use Rattle.serve_calls.specs.Failing.{out_of_memory};
ghost use Rattle.serde_json.specs.View.{items_view, view};
ghost use Rattle.serve_requests.specs.Messages.{request_in};
ghost use Rattle.serve_calls.specs.Requests.{IsServedIf};
ghost use Rattle.serve_run.specs.Ends.{end_of};
ghost use Rattle.serve_run.specs.Serving.{GoesOn, GoesOnAfter, ServesAll, end_any, messages_in};

use crate::answers::Answers;
use crate::end::ServeEnd;
use crate::line_writer::{Fault, LineWriter};
use crate::lines::{InputLine, InputLines};
use crate::service::Service;
use console_io::Source;
use console_io::file_saving::Saver;
use failure_reasons::Explain;
use serde_json::{Category, Error, Value};
use serve_answers::Answer;
use serve_calls::{Alone, Backend, Journaled, OUT_OF_MEMORY, Server, Unreplayed, WantedUnit};
use serve_requests::{CallRefusal, Failure, Message, RpcRequest};
use session_journal::{RecordedStep, Records};
use std::alloc::Global;
use std::io::{ErrorKind, Read, Write};
use std::slice;
use std::thread::Threads;

/// Serves the messages of an input with a session alone, in this thread. The steps of a journal are
/// made again first, where there is one, and what is edited is recorded in it. The files say beside
/// the answer why one that is to be loaded isn't taken.
pub fn serve_alone<R, K, I, S, W>(
    rt: &R,
    alloc: Global,
    service: Service<K, I, S>,
    output: &mut W,
) -> ServeEnd
where
    R: Threads + Sync,
    K: Records + Drop,
    I: Read + Drop,
    S: Saver + Explain + Drop,
    W: Write,
{
    let Ok(backend) = Alone::open(alloc, service.cache) else {
        return ServeEnd::Memory;
    };
    let Ok(reading) = service.reading(alloc) else {
        return ServeEnd::Memory;
    };
    let mut lines = reading.lines;
    let mut server = Server::new(alloc, Journaled::new(backend), reading.files);
    if let Err(end) = resume(&mut server, reading.journal) {
        return end;
    }
    let mut writer = LineWriter::new(alloc, output);
    for _ in 0..u64::MAX {
        if let Err(end) = serve_next(rt, &mut server, &mut writer, &mut lines) {
            return end;
        }
    }
    ServeEnd::Done
}

/// Makes the steps of a journal again, in which edits are recorded from then on, where there is one;
/// or how the server ends.
pub(crate) fn resume<B: Backend, K: Records + Drop, S>(
    server: &mut Server<Journaled<B, K>, S>,
    journal: Option<(K, Vec<RecordedStep>)>,
) -> Result<(), ServeEnd> {
    let Some((journal, steps)) = journal else {
        return Ok(());
    };
    match server.resume(journal, steps) {
        Ok(()) => Ok(()),
        Err(Unreplayed::Memory) => Err(ServeEnd::Memory),
        Err(Unreplayed::Refused | Unreplayed::InPart) => Err(ServeEnd::Unreplayed),
    }
}

/// Reads the next message and serves it; or how the server ends.
fn serve_next<R: Threads + Sync, B: Backend, I: Read + Drop, S: Saver + Explain, W: Write>(
    rt: &R,
    server: &mut Server<B, S>,
    writer: &mut LineWriter<W>,
    lines: &mut InputLines<I>,
) -> Result<(), ServeEnd> {
    match lines.next() {
        Ok(line) => serve_line(rt, server, writer, line),
        Err(_) => Err(ServeEnd::Unread),
    }
}

/// Serves a line; or how the server ends.
pub(crate) fn serve_line<R: Threads + Sync, B: Backend, S: Saver + Explain, W: Write>(
    rt: &R,
    server: &mut Server<B, S>,
    writer: &mut LineWriter<W>,
    line: InputLine,
) -> Result<(), ServeEnd> {
    match line {
        InputLine::Text(text) => serve_text(rt, server, writer, text.as_slice()),
        InputLine::TooLong => refuse(server.alloc, writer, Failure::NotRequest),
        InputLine::Memory => refuse(server.alloc, writer, OUT_OF_MEMORY),
        InputLine::End => Err(ServeEnd::Done),
    }
}

/// Serves the message of this text; or how the server ends.
fn serve_text<R: Threads + Sync, B: Backend, S: Saver + Explain, W: Write>(
    rt: &R,
    server: &mut Server<B, S>,
    writer: &mut LineWriter<W>,
    text: &[u8],
) -> Result<(), ServeEnd>
    ensures { GoesOnAfter B.is_session B.offers S.file server.old writer.old.wanted.items text.now
        result server.new }
{
    match Value::from_slice(server.alloc, text) {
        Ok(value) => serve_value(rt, server, writer, &value),
        Err(error) => refuse(server.alloc, writer, why_no_value(&error)),
    }
}

/// Serves the messages of a value and answers them; or how the server ends.
fn serve_value<R: Threads + Sync, B: Backend, S: Saver + Explain, W: Write>(
    rt: &R,
    server: &mut Server<B, S>,
    writer: &mut LineWriter<W>,
    value: &Value,
) -> Result<(), ServeEnd>
    ensures { (served : List Served) × (wants : List WantedUnit)
        × ServesAll B.is_session B.offers S.file server.old writer.old.wanted.items
        (messages_in (view value.now)) served server.new wants
        × GoesOn (end_any served) result }
{
    let mut answers = Answers::new(server.alloc, is_batch(value));
    let messages = messages_in(value);
    let is_last = serve_all(rt, server, &mut writer.wanted, messages, &mut answers);
    go_on(server, writer, answers, is_last)
}

/// Writes answers and goes on: the wanted units are told of, unless the end was asked for.
fn go_on<B: Backend, S: Source, W: Write>(
    server: &Server<B, S>,
    writer: &mut LineWriter<W>,
    answers: Answers,
    is_last: bool,
) -> Result<(), ServeEnd>
    ensures { GoesOn is_last result }
{
    writer.answer(answers)?;
    if is_last {
        return Err(ServeEnd::Done);
    }
    writer.tell(&server.backend)?;
    Ok(())
}

/// Whether a value is an array that isn't empty.
fn is_batch(value: &Value) -> bool {
    match value.as_array() {
        Some(values) => !values.is_empty(),
        None => false,
    }
}

/// The messages of a value: those of an array that isn't empty, or itself as one.
fn messages_in(value: &Value) -> &[Value]
    ensures { items_view result.now ≡ messages_in (view value.now) }
{
    match value.as_array() {
        Some(values) => some_or(values.as_slice(), value),
        None => slice::from_ref(value),
    }
}

/// Some values, or this one where there are none.
fn some_or<'a>(values: &'a [Value], none: &'a Value) -> &'a [Value]
    ensures none { values.now ≡ [] → result.now ≡ none.now ∷ [] }
    ensures some { 0 < length values.now → result.now ≡ values.now }
{
    if values.is_empty() {
        slice::from_ref(none)
    } else {
        values
    }
}

/// Serves messages one after the other: whether one of them asks for the end. Their answers are
/// added to those of the line.
fn serve_all<R: Threads + Sync, B: Backend, S: Saver + Explain>(
    rt: &R,
    server: &mut Server<B, S>,
    wanted: &mut Vec<WantedUnit>,
    values: &[Value],
    answers: &mut Answers,
) -> bool
    ensures { (served : List Served)
        × ServesAll B.is_session B.offers S.file server.old wanted.old.items
        (items_view values.now) served server.new wanted.new.items
        × (result ≡ end_any served) }
{
    let mut is_last = false;
    for value in values {
        let one_is = serve_one(rt, server, wanted, value, answers);
        is_last = either(is_last, one_is);
    }
    is_last
}

/// Whether one of the two is so.
fn either(first: bool, second: bool) -> bool
    ensures { result ≡ (first || second) }
{
    first || second
}

/// Serves a message: whether it asks for the end. Its answer is added to those of the line.
fn serve_one<R: Threads + Sync, B: Backend, S: Saver + Explain>(
    rt: &R,
    server: &mut Server<B, S>,
    wanted: &mut Vec<WantedUnit>,
    value: &Value,
    answers: &mut Answers,
) -> bool
    ensures { (served : Served)
        × IsServedIf B.is_session B.offers S.file server.old wanted.old.items
        (request_in (view value.now)) served server.new wanted.new.items
        × (result ≡ served.is_last) }
{
    let message = Message::of(value);
    let served = server.serve(rt, wanted, &message);
    if let Some(id) = answered_id(&message) {
        answers.add(id, &served.answer);
    }
    if let Some(name) = untaken_file(&message, &served.answer) {
        server.source.explain(server.alloc, name);
    }
    let_go(message);
    served.is_last
}

/// The name of the file that a message asked to load, where it isn't taken as a stream.
fn untaken_file<'a>(message: &Message<'a>, answer: &Result<Answer, Failure>) -> Option<&'a str> {
    match (message, answer) {
        (Message::RpcRequest(request), Err(Failure::Refused(refusal))) if is_untaken(*refusal) => {
            loaded_file(request)
        }
        _ => None,
    }
}

/// Whether a file is refused so that can't be read, or isn't taken as a stream.
fn is_untaken(refusal: CallRefusal) -> bool {
    matches!(refusal, CallRefusal::CannotRead | CallRefusal::Stream(_))
}

/// The name of the file that a request asks to load, if it does.
fn loaded_file<'a>(request: &RpcRequest<'a>) -> Option<&'a str> {
    match (request.method, request.parameters) {
        ("load", Some(parameters)) => parameters.get("path").and_then(Value::as_str),
        _ => None,
    }
}

/// Lets a message go that was served.
fn let_go(message: Message<'_>) {
    match message {
        Message::RpcRequest(_) | Message::Other { id: _ } => {}
    }
}

/// Answers what is no request; or how the server ends.
fn refuse<W: Write>(
    alloc: Global,
    writer: &mut LineWriter<W>,
    failure: Failure,
) -> Result<(), ServeEnd>
    ensures { GoesOn false result }
{
    let mut answers = Answers::new(alloc, false);
    answers.add(None, &Err(failure));
    writer.answer(answers)?;
    Ok(())
}

/// The id by which a message is answered, null where it has none that may be. A request without an
/// id isn't answered.
fn answered_id<'a>(message: &Message<'a>) -> Option<Option<&'a Value>> {
    match message {
        Message::RpcRequest(request) => match request.id {
            Some(id) => Some(Some(id)),
            None => None,
        },
        Message::Other { id } => Some(*id),
    }
}

/// Why a text is no value.
fn why_no_value(error: &Error) -> Failure
    ensures { (IsMemory error.now × (result ≡ out_of_memory))
        ⊎ ((¬ IsMemory error.now) × (result ≡ Failure.NotJson)) }
{
    match error.classify() {
        Category::Memory => OUT_OF_MEMORY,
        _ => Failure::NotJson,
    }
}

impl From<Fault> for ServeEnd {
    ghost from_gives = { λ fault end. end ≡ end_of fault };

    fn from(fault: Fault) -> ServeEnd {
        match fault {
            Fault::Unwritten => ServeEnd::Unwritten,
            Fault::Memory => ServeEnd::Memory,
        }
    }
}
