//! The search for the next unit of a text.
ghost use Rattle.std.specs.Prelude.{◌≡◌, ◌≤◌, IfOk, IfErr, IsTrue, length, drop};
ghost use Rattle.annexb.specs.ByteStream.{FollowsStartCode};
ghost use Rattle.annexb.specs.Faults.{zero_run, begins_forbidden_run};
ghost use Rattle.annexb.specs.Search.{MayEnd, IsRun, IsFirstUnit, IsLenWithoutZero, IsScanned, EndsUnit, IsFoundAt, IsFaultFrom};

use crate::fault::SplitFault;
use crate::nal_unit::Nal;
use memchr::memmem;

/// A unit, and the place after the next start code, if there's one. Zeros before that start code,
/// or before the end, are no part of the unit.
#[derive(Drop)]
pub struct Found<'a> {
    pub nal: Nal<'a>,
    pub next: Option<usize>,
}

/// How many bytes a unit has, and the place after the next start code, if there's one.
#[derive(Drop)]
struct Extent {
    len: usize,
    next: Option<usize>,
}

/// What zeros are that may end a unit.
#[derive(Drop)]
enum Run {
    /// Zeros up to the end.
    Last,
    /// Zeros and a start code, this many bytes in all.
    StartCode(usize),
    /// Two zeros that belong to a unit.
    Inside,
    /// Zeros that no unit may hold.
    Forbidden,
}

/// The place after the start code that the text begins with, after zeros or none. Where other bytes
/// stand before the first start code there is none.
pub fn first_unit(text: &[u8]) -> Option<usize>
    ensures { IsFirstUnit text.now result }
{
    let zeros = zero_run(text);
    match text.split_at(zeros).1 {
        [1, ..] if zeros >= 2 => Some(zeros + 1),
        _ => None,
    }
}

/// The unit that begins at a place after a start code, or the text's first fault from there on. The
/// walk along a text goes on from the place that it gives.
pub fn unit_at(text: &[u8], at: usize) -> Result<Found<'_>, SplitFault>
    requires { FollowsStartCode text.now at }
    ensures ok { IfOk result (λ found. IsFoundAt text.now at found.nal found.next) }
    ensures err { IfErr result (IsFaultFrom text.now at) }
{
    let bytes = text.split_at(at).1;
    match unit_extent(bytes) {
        Err(run) => Err(SplitFault::ForbiddenBytes { at: at + run }),
        Ok(Extent { len: 0, .. }) => Err(SplitFault::EmptyUnit { at }),
        Ok(Extent { len, next }) => Ok(Found {
            nal: Nal::new(bytes.split_at(len).0),
            next: next.map(|next| at + next),
        }),
    }
}

/// How far the unit at the start of the bytes reaches, or the place of a forbidden run.
fn unit_extent(bytes: &[u8]) -> Result<Extent, usize>
    ensures ok { IfOk result (λ extent. IsScanned bytes.now extent.len
        × EndsUnit bytes.now extent.len extent.next) }
    ensures err { IfErr result (λ at. IsScanned bytes.now at
        × IsTrue (begins_forbidden_run (drop at bytes.now))) }
{
    let mut from = 0;
    loop {
        let len = next_zeros(bytes, from);
        match run_of(bytes.split_at(len).1) {
            Run::Last => return Ok(Extent { len, next: None }),
            Run::StartCode(code) => return Ok(Extent {
                len,
                next: Some(len + code),
            }),
            Run::Forbidden => return Err(len),
            Run::Inside => from = len + 3,
        }
    }
}

/// The next place where two zeros stand in a row, or where no byte but one zero is left.
fn next_zeros(bytes: &[u8], from: usize) -> usize
    requires { IsScanned bytes.now from }
    ensures past { from ≤ result }
    ensures scanned { IsScanned bytes.now result }
    ensures zeros { MayEnd (drop result bytes.now) }
{
    match memmem::find(bytes.split_at(from).1, &[0, 0]) {
        Some(ahead) => from + ahead,
        None => len_without_zero(bytes),
    }
}

/// How many bytes there are but for a zero at the end.
fn len_without_zero(bytes: &[u8]) -> usize
    ensures { IsLenWithoutZero bytes.now result }
{
    match bytes {
        [.., 0] => bytes.len() - 1,
        _ => bytes.len(),
    }
}

/// What the zeros are that the bytes begin with.
fn run_of(bytes: &[u8]) -> Run
    requires { MayEnd bytes.now }
    ensures { IsRun bytes.now result }
{
    let zeros = zero_run(bytes);
    match bytes.split_at(zeros).1 {
        [] => Run::Last,
        [1, ..] => Run::StartCode(zeros + 1),
        [2, ..] => Run::Forbidden,
        [3, next, ..] if *next > 3 => Run::Forbidden,
        _ if zeros > 2 => Run::Forbidden,
        _ => Run::Inside,
    }
}

/// How many zeros the bytes begin with.
#[tactic(auto, using(crate::proofs::ZeroRuns::zero_run_steps))]
fn zero_run(bytes: &[u8]) -> usize
    ensures value { result ≡ zero_run bytes.now }
    ensures within { result ≤ length bytes.now }
{
    for (count, byte) in bytes.iter().enumerate() {
        if *byte != 0 {
            return count;
        }
    }
    bytes.len()
}
