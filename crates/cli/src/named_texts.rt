//! The texts that two names stand for.

ghost use Rattle.std.specs.Prelude.{◌≡◌, ◌⊎◌, IfErr, IfOk, IfSome, Ok};
ghost use Rattle.console_io.specs.Inputs.{text_named};

use bytes::Bytes;
use console_io::{Directory, InputFault, Inputs, whole_input};
use std::alloc::Global;
use std::io::Read;

/// That the input of this name isn't read, and why.
#[derive(Clone, Copy, Debug)]
pub(crate) struct UnreadText<'a> {
    pub(crate) name: &'a str,
    pub(crate) fault: InputFault,
}

/// The names of a stream and of a script.
#[derive(Clone, Copy, Debug)]
pub(crate) struct Names<'a> {
    pub(crate) stream: &'a str,
    pub(crate) script: &'a str,
}

/// The texts that the names stand for, each the standard input for `-`, which is read once where
/// both are.
pub(crate) fn named_texts<'a, D: Directory, I: Read + Drop>(
    alloc: Global,
    inputs: Inputs<'_, D, I>,
    names: Names<'a>,
) -> Result<(Bytes, Bytes), UnreadText<'a>>
    ensures stream { IfOk result (λ texts. IfSome (text_named
        (D.bytes inputs.entry.directory.now) (I.remaining inputs.entry.standard)
        names.entry.stream.now)
        (λ text. texts.0 ≡ text)) }
    ensures script { IfOk result (λ texts. IfSome (text_named
        (D.bytes inputs.entry.directory.now) (I.remaining inputs.entry.standard)
        names.entry.script.now)
        (λ text. texts.1 ≡ text)) }
    ensures unread { IfErr result (λ unread. (unread.name ≡ names.entry.stream)
        ⊎ (unread.name ≡ names.entry.script)) }
{
    let (directory, Names { stream, script }) = (inputs.directory, names);
    match (stream == "-", script == "-") {
        (true, true) => {
            let text = named(stream, input_text(alloc, inputs.standard))?;
            let same = named(script, share(&text))?;
            Ok((text, same))
        }
        (false, true) => Ok((
            named(stream, file_text(alloc, directory, stream))?,
            named(script, input_text(alloc, inputs.standard))?,
        )),
        (_, false) => Ok((
            named(stream, opened_text(alloc, inputs, stream))?,
            named(script, file_text(alloc, directory, script))?,
        )),
    }
}

/// A text that was read, or that the input of this name isn't.
fn named<'a>(name: &'a str, text: Result<Bytes, InputFault>) -> Result<Bytes, UnreadText<'a>>
    ensures text { IfOk result (λ read. text ≡ Ok read) }
    ensures unread { IfErr result (λ unread. unread.name ≡ name.entry) }
{
    match text {
        Ok(text) => Ok(text),
        Err(fault) => Err(UnreadText { name, fault }),
    }
}

/// The text of the file of this name.
fn file_text<D: Directory>(alloc: Global, directory: &D, name: &str) -> Result<Bytes, InputFault>
    ensures { IfOk result (λ text. IfSome (D.bytes directory.now name.now)
        (λ bytes. text ≡ bytes)) }
{
    let file = directory.open(name)?;
    input_text(alloc, file)
}

/// The text that the name stands for.
fn opened_text<D: Directory, I: Read + Drop>(
    alloc: Global,
    inputs: Inputs<'_, D, I>,
    name: &str,
) -> Result<Bytes, InputFault>
    ensures { IfOk result (λ text. IfSome (text_named
        (D.bytes inputs.entry.directory.now) (I.remaining inputs.entry.standard) name.now)
        (λ bytes. text ≡ bytes)) }
{
    let input = inputs.open(name)?;
    input_text(alloc, input)
}

/// The text once more; it shares the bytes.
fn share(text: &Bytes) -> Result<Bytes, InputFault>
    ensures { IfOk result (λ same. same ≡ text.now) }
{
    let same = text.clone()?;
    Ok(same)
}

/// All that an input gives.
fn input_text<R: Read + Drop>(alloc: Global, mut input: R) -> Result<Bytes, InputFault>
    ensures { IfOk result (λ text. IfSome (R.remaining input) (λ bytes. text ≡ bytes)) }
{
    let text = whole_input(alloc, &mut input)?;
    match Bytes::from_vec(text) {
        Ok(text) => Ok(text),
        Err(_) => Err(InputFault::Memory),
    }
}
