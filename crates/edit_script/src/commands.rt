//! The command that the words of a script's line are (docs/OUTPUT.md).

ghost use Rattle.std.specs.Prelude.{◌≡◌, ◌∷◌, [], IfOk, None, Some, MatchResult, option_map};
ghost use Rattle.std.specs.Char.{is_ascii_digit};
ghost use Rattle.std.specs.List.{list_all};
ghost use Rattle.edit_script.specs.Words.{has_number, id_of, number_of, hex_of, texts_of, fault_of};
ghost use Rattle.edit_script.specs.Commands.{edit_of, ids_of_words, insertion_of, switch_of, wanted_of, IsHexAnswer, IsIdsAnswer, IsEditAnswer, IsCommandAnswer};
ghost use Rattle.edit_script.specs.declared.commands.LineFault.TheVariants.{Memory};

use bytes::Bytes;
use h264_types::pictures::AuId;
use hex::FromHexError;
use std::alloc::{AllocError, AllocFailed, Global};
use stream_edits::{Edit, InsertionPoint};

/// What a line of a script asks for, or the lines of a group.
#[derive(Debug, Drop)]
pub enum Command<'a> {
    /// An edit of the stream.
    Edit(Edit),
    /// These edits, all of them or none.
    Group(Vec<Edit>),
    /// The insertion of the units in the file of this name, each after the last one.
    Load { path: &'a str },
    /// The lines of the unit of this number.
    Unit { number: u64 },
    /// The line of JSON of the unit of this number.
    Json { number: u64 },
    /// A picture to decode, as a job.
    Take,
    /// A picture to decode that the unit of this number needs.
    TakeFor { number: u64 },
    /// The result of the job of this number.
    Land { number: u64 },
    /// The job of this number, given back undone.
    GiveBack { number: u64 },
    /// All pictures that are due, decoded one after the other.
    Settle,
    /// The picture of the unit of this number, and those that it needs before it.
    SettleFor { number: u64 },
    /// What is shown of the unit of this number.
    Show { number: u64 },
    /// The picture of the unit of this number, which is to be there no more.
    Drop { number: u64 },
    /// The cached pictures, which are to be there no more.
    Clear,
    /// A mark of the stream as it is.
    Mark,
    /// Whether the unit of this number is altered since the mark.
    Altered { number: u64 },
    /// The pictures of the units of these ids before all others.
    Want(Vec<AuId>),
    /// Whether the rest of the stream is decoded too.
    Rest(bool),
}

/// Why a line isn't read as a command.
#[derive(Clone, Copy, Debug, PartialEq, Eq)]
pub enum LineFault {
    /// It is no command.
    Wrong,
    /// A growth was refused.
    Memory,
}

impl From<AllocError> for LineFault {
    ghost from_gives = { λ _ fault. fault ≡ Memory };

    fn from(_error: AllocError) -> LineFault {
        LineFault::Memory
    }
}

impl<T: Drop> From<AllocFailed<T>> for LineFault {
    ghost from_gives = { λ _ fault. fault ≡ Memory };

    fn from(_error: AllocFailed<T>) -> LineFault {
        LineFault::Memory
    }
}

impl From<FromHexError> for LineFault {
    ghost from_gives = { λ error fault. fault ≡ fault_of error };

    fn from(error: FromHexError) -> LineFault {
        match error {
            FromHexError::OutOfMemory => LineFault::Memory,
            _ => LineFault::Wrong,
        }
    }
}

/// The most digits of a number.
const MOST_DIGITS: usize = 10;

/// The command that the words of a line are.
pub fn read_command<'a>(alloc: Global, words: &[&'a str]) -> Result<Command<'a>, LineFault>
    ensures { IsCommandAnswer (texts_of words.now) result }
{
    match words {
        [name, ids @ ..] if *name == "want" => Ok(Command::Want(read_ids(alloc, ids)?)),
        _ => read_other(alloc, words),
    }
}

/// The command that words are that want no unit.
fn read_other<'a>(alloc: Global, words: &[&'a str]) -> Result<Command<'a>, LineFault>
    requires { wanted_of (texts_of words.now) ≡ None }
    ensures { IsCommandAnswer (texts_of words.now) result }
{
    match words {
        [] => Err(LineFault::Wrong),
        [name] => read_alone(*name),
        [name, word] => read_pair(alloc, *name, *word),
        _ => Ok(Command::Edit(read_edit(alloc, words)?)),
    }
}

/// The command that a word alone is that wants no unit.
fn read_alone<'a>(name: &str) -> Result<Command<'a>, LineFault>
    requires { wanted_of (name.now ∷ []) ≡ None }
    ensures { IsCommandAnswer (name.now ∷ []) result }
{
    match name {
        "take" => Ok(Command::Take),
        "settle" => Ok(Command::Settle),
        "clear" => Ok(Command::Clear),
        "mark" => Ok(Command::Mark),
        _ => Err(LineFault::Wrong),
    }
}

/// The command that two words are that want no unit.
fn read_pair<'a>(alloc: Global, name: &'a str, word: &'a str) -> Result<Command<'a>, LineFault>
    requires { wanted_of (name.now ∷ word.now ∷ []) ≡ None }
    ensures { IsCommandAnswer (name.now ∷ word.now ∷ []) result }
{
    match name {
        "load" => Ok(Command::Load { path: word }),
        "rest" => Ok(Command::Rest(read_switch(word)?)),
        "unit" => Ok(Command::Unit {
            number: read_given(word)?,
        }),
        "json" => Ok(Command::Json {
            number: read_given(word)?,
        }),
        "take" => Ok(Command::TakeFor {
            number: read_given(word)?,
        }),
        "land" => Ok(Command::Land {
            number: read_given(word)?,
        }),
        "give" => Ok(Command::GiveBack {
            number: read_given(word)?,
        }),
        "settle" => Ok(Command::SettleFor {
            number: read_given(word)?,
        }),
        "show" => Ok(Command::Show {
            number: read_given(word)?,
        }),
        "drop" => Ok(Command::Drop {
            number: read_given(word)?,
        }),
        "altered" => Ok(Command::Altered {
            number: read_given(word)?,
        }),
        _ => Ok(Command::Edit(read_edit(alloc, &[name, word])?)),
    }
}

/// Whether a word says that something is on.
fn read_switch(word: &str) -> Result<bool, LineFault>
    ensures { MatchResult result (λ on. switch_of word.now ≡ Some on)
        (λ fault. (fault ≡ LineFault.Wrong) × (switch_of word.now ≡ None)) }
{
    match word {
        "on" => Ok(true),
        "off" => Ok(false),
        _ => Err(LineFault::Wrong),
    }
}

/// The ids that words are.
fn read_ids(alloc: Global, words: &[&str]) -> Result<Vec<AuId>, LineFault>
    ensures { IsIdsAnswer (ids_of_words (texts_of words.now)) result }
{
    let mut ids = Vec::new(alloc);
    for word in words {
        ids.push(read_id(word)?)?;
    }
    Ok(ids)
}

/// The edit that the words of a line ask for.
pub(crate) fn read_edit(alloc: Global, words: &[&str]) -> Result<Edit, LineFault>
    ensures { IsEditAnswer (edit_of (texts_of words.now)) result }
{
    match words {
        [name, words @ ..] if *name == "insert" => read_insertion(alloc, words),
        [name, id] if *name == "delete" => Ok(Edit::Delete(read_id(id)?)),
        [name, id, text @ ..] if *name == "replace" => {
            let id = read_id(id)?;
            Ok(Edit::Replace(id, read_hex(alloc, text)?))
        }
        _ => Err(LineFault::Wrong),
    }
}

/// The insertion that the words after `insert` ask for.
fn read_insertion(alloc: Global, words: &[&str]) -> Result<Edit, LineFault>
    ensures { IsEditAnswer (insertion_of (texts_of words.now)) result }
{
    match words {
        [place, text @ ..] if *place == "first" => {
            Ok(Edit::Insert(InsertionPoint::First, read_hex(alloc, text)?))
        }
        [place, id, text @ ..] if *place == "after" => {
            let place = InsertionPoint::After(read_id(id)?);
            Ok(Edit::Insert(place, read_hex(alloc, text)?))
        }
        _ => Err(LineFault::Wrong),
    }
}

/// The bytes that words of pairs of hexadecimal digits stand for.
fn read_hex(alloc: Global, words: &[&str]) -> Result<Bytes, LineFault>
    ensures { IsHexAnswer (hex_of (texts_of words.now)) result }
{
    let mut text = Vec::new(alloc);
    for word in words {
        let pairs = hex::decode(alloc, *word)?;
        text.extend_from_slice(pairs.as_slice())?;
    }
    Ok(Bytes::from_vec(text)?)
}

/// The id that a word is.
fn read_id(word: &str) -> Result<AuId, LineFault>
    ensures { MatchResult result (λ id. option_map id_of (number_of word.now) ≡ Some id)
        (λ fault. (fault ≡ LineFault.Wrong) × (number_of word.now ≡ None)) }
{
    match read_number(word) {
        Some(number) => Ok(id_of_number(number)),
        None => Err(LineFault::Wrong),
    }
}

/// The id of this number. A number that is too great for an id gives 0, which no unit has.
pub fn id_of_number(number: u64) -> AuId
    ensures { result ≡ id_of number }
{
    AuId::new(u32::try_from(number).unwrap_or(0))
}

/// The number that a word has to be.
pub(crate) fn read_given(word: &str) -> Result<u64, LineFault>
    ensures { MatchResult result (λ number. number_of word.now ≡ Some number)
        (λ fault. (fault ≡ LineFault.Wrong) × (number_of word.now ≡ None)) }
{
    match read_number(word) {
        Some(number) => Ok(number),
        None => Err(LineFault::Wrong),
    }
}

/// The number that a word of one to ten digits is.
fn read_number(word: &str) -> Option<u64>
    ensures { result ≡ number_of word.now }
{
    if is_number(word) {
        word.parse().ok()
    } else {
        None
    }
}

/// Whether a word has one to ten digits and nothing else.
fn is_number(word: &str) -> bool
    ensures { result ≡ has_number word.now }
{
    !word.is_empty() && word.len() <= MOST_DIGITS && are_digits(word)
}

/// Whether each byte of a word is a digit.
fn are_digits(word: &str) -> bool
    ensures { result ≡ list_all is_ascii_digit word.now }
{
    word.bytes().all(|byte| byte.is_ascii_digit())
}
