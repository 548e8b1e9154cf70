//! A stream read and folded, access unit after access unit, or its refusal.

ghost use Rattle.std.specs.Prelude.{◌≡◌, ◌≢◌, ◌<◌, ◌+◌, ◌^◌, [], List, ℕ, length, IfOk, IfErr, IfSome, OnOk, ◌++◌, ◌∷◌};
ghost use Rattle.annexb.specs.ByteStream.{HasUnits, joined};
ghost use Rattle.access_unit.specs.Answers.{IsAccepted};
ghost use Rattle.access_unit.specs.StreamUnits.{IsStreamRefused, most_units};
ghost use Rattle.plan_stream.specs.Fronts.{IsFront};
ghost use Rattle.plan_stream.specs.Readings.{IsFrontReadAs, IsFrontRefused};
ghost use Rattle.plan_stream.specs.Gathering.{ComesTo, IsFoldOfStream, IsGathered};
ghost use Rattle.plan_stream.specs.RefusalWith.{refusal_with};
ghost use Rattle.plan_stream.specs.Walks.{AreKnown};

use crate::reading::read_held;
use crate::text_buffer::TextBuffer;
use crate::{Window, read_front};
use access_unit::{MOST_BYTES, MOST_UNITS, Refusal, Refused, Unit};
use console_io::InputFault;
use std::alloc::{AllocError, Global};
use std::io::Read;
use std::ops::Range;

/// What the access units of a stream are folded into, one after the other.
pub trait UnitFold {
    // The first fold, after it took these access units, is the second.
    ghost folds: { Self → List (List (List ℕ)) → Self → Type 0 };

    // How many access units it took.
    ghost count: { Self → ℕ };

    /// How many access units it took.
    fn len(&self) -> usize
        ensures count { result ≡ count self.now }
        ensures done { (first : Self) (done : List (List (List ℕ))) → folds first done self.now
            → result ≡ length done };

    /// Takes the next access unit. An error says that memory ran out, and leaves the fold
    /// unspecified.
    fn add(&mut self, alloc: Global, unit: &Unit) -> Result<(), AllocError>
        requires { count self.old < most_units }
        ensures { (first : Self) (done : List (List (List ℕ))) → folds first done self.old
            → OnOk result (folds first (done ++ unit.now ∷ []) self.new) };
}

/// A stream as far as it was read: the fold of its access units, or why it is refused.
#[derive(Drop)]
pub struct StreamGathering<F> {
    /// How many access units were read.
    count: usize,
    /// Why the stream is refused, if it is.
    refusal: Option<Refusal>,
    fold: F,
}

/// Reads the stream that the reader gives to its end, and folds its access units. An error says
/// that the reader failed or memory ran out.
pub fn gather<R: Read, F: UnitFold + Drop>(
    alloc: Global,
    fold: F,
    reader: &mut R,
) -> Result<StreamGathering<F>, InputFault>
    requires { F.folds fold [] fold }
    ensures { IfOk result (λ gathering. IfSome (R.remaining reader.old)
        (λ text. IsGathered (F.folds fold) text [] gathering)) }
{
    let mut window = Window::new(alloc)?;
    let mut gathering = StreamGathering::new(fold);
    let mut room = TextBuffer::new(alloc);
    while window.next_split(reader)? {
        gathering.add(alloc, &mut room, window.text(), window.places())?;
    }
    Ok(gathering)
}

impl<F: UnitFold + Drop> StreamGathering<F> {
    /// Before the first access unit.
    fn new(fold: F) -> StreamGathering<F>
        requires { F.folds fold [] fold }
        ensures { (text : List ℕ) → IsGathered (F.folds fold) text text result }
    {
        StreamGathering {
            count: 0,
            refusal: None,
            fold,
        }
    }

    /// Takes the text of the next access unit, which is read where there is room for it.
    fn add(
        &mut self,
        alloc: Global,
        room: &mut TextBuffer,
        front: &[u8],
        places: &[Range<usize>],
    ) -> Result<(), AllocError>
        requires { AreKnown front.now places.now }
        ensures gathered { (first : F) (text left rest : List ℕ) → 0 < length left
            → IsFront left front.now rest → IsGathered (F.folds first) text left self.old
            → OnOk result (IsGathered (F.folds first) text rest self.new) }
        ensures counted { OnOk result
            ((self.old.count < self.new.count) × (self.new.count < 2 ^ 64)) }
    {
        if front.len() > MOST_BYTES {
            return self.take(alloc, read_front(alloc, front));
        }
        let held = room.hold(alloc, front)?;
        let taken = self.take(alloc, read_held(alloc, &held, places));
        room.take_back(held);
        taken
    }

    /// Takes what the text of the next access unit is read as.
    fn take(&mut self, alloc: Global, read: Result<Unit, Refused>) -> Result<(), AllocError>
        ensures gathered { (first : F) (text left front rest : List ℕ) → 0 < length left
            → IsFront left front rest → IsFrontReadAs front read
            → IsGathered (F.folds first) text left self.old
            → OnOk result (IsGathered (F.folds first) text rest self.new) }
        ensures counted { OnOk result
            ((self.old.count < self.new.count) × (self.new.count < 2 ^ 64)) }
    {
        match read {
            Ok(unit) => self.accept(alloc, &unit),
            Err(refused) => self.refuse(refused),
        }
    }

    /// Takes an access unit.
    fn accept(&mut self, alloc: Global, unit: &Unit) -> Result<(), AllocError>
        ensures gathered { (first : F) (text left front rest : List ℕ) → IsFront left front rest
            → HasUnits front unit.now → IsAccepted (joined unit.now) unit.now
            → IsGathered (F.folds first) text left self.old
            → OnOk result (IsGathered (F.folds first) text rest self.new) }
        ensures counted { OnOk result
            ((self.old.count < self.new.count) × (self.new.count < 2 ^ 64)) }
    {
        let count = self.next_count()?;
        self.fold_unit(alloc, unit)?;
        self.count = count;
        Ok(())
    }

    /// Folds an access unit, where the stream isn't refused and has room for it.
    fn fold_unit(&mut self, alloc: Global, unit: &Unit) -> Result<(), AllocError>
        ensures count { self.new.count ≡ self.old.count }
        ensures folded { (first : F) (text left front rest : List ℕ) → IsFront left front rest
            → HasUnits front unit.now → IsAccepted (joined unit.now) unit.now
            → IsGathered (F.folds first) text left self.old
            → OnOk result (ComesTo (F.folds first) text rest
            self.new.refusal (self.old.count + 1) self.new.fold) }
    {
        match self.refusal {
            Some(_) => Ok(()),
            None if self.fold.len() < MOST_UNITS => self.fold.add(alloc, unit),
            None => {
                self.refusal = Some(Refusal::StreamFull);
                Ok(())
            }
        }
    }

    /// Takes an access unit that is refused.
    fn refuse(&mut self, refused: Refused) -> Result<(), AllocError>
        ensures gathered { (first : F) (text left front rest : List ℕ) → 0 < length left
            → IsFront left front rest → IsFrontRefused front refused
            → IsGathered (F.folds first) text left self.old
            → OnOk result (IsGathered (F.folds first) text rest self.new) }
        ensures counted { OnOk result
            ((self.old.count < self.new.count) × (self.new.count < 2 ^ 64)) }
    {
        match refused {
            Refused::Memory => Err(AllocError),
            _ => self.note(refused),
        }
    }

    /// Notes why an access unit is refused.
    fn note(&mut self, refused: Refused) -> Result<(), AllocError>
        requires { refused ≢ Refused.Memory }
        ensures gathered { (first : F) (text left front rest : List ℕ) → 0 < length left
            → IsFront left front rest → IsFrontRefused front refused
            → IsGathered (F.folds first) text left self.old
            → OnOk result (IsGathered (F.folds first) text rest self.new) }
        ensures counted { OnOk result
            ((self.old.count < self.new.count) × (self.new.count < 2 ^ 64)) }
    {
        let count = self.next_count()?;
        self.refusal = refusal_with(self.refusal, self.count, refused);
        self.count = count;
        Ok(())
    }

    /// How many access units it are with one more.
    fn next_count(&self) -> Result<usize, AllocError>
        ensures { IfOk result (λ count. count ≡ self.now.count + 1) }
    {
        self.count.checked_add(1).ok_or(AllocError)
    }

    /// The fold over the whole stream, or why the stream is refused: it doesn't split, or else the
    /// first access unit that is refused, or it has more than `MOST_UNITS`.
    pub fn finish(self) -> Result<F, Refusal>
        ensures ok { IfOk result (λ fold. (first : F) (text : List ℕ)
            → IsGathered (F.folds first) text [] self → IsFoldOfStream (F.folds first) text fold) }
        ensures err { IfErr result (λ refusal. (first : F) (text : List ℕ)
            → IsGathered (F.folds first) text [] self → IsStreamRefused text most_units refusal) }
    {
        match self.refusal {
            Some(refusal) => Err(refusal),
            None if self.count == 0 => Err(Refusal::Split),
            None => Ok(self.fold),
        }
    }
}

/// Why the stream is refused, where the access unit at this index is refused so: of several the
/// first is named, unless the stream doesn't split.
fn refusal_with(before: Option<Refusal>, index: usize, refused: Refused) -> Option<Refusal>
    ensures { result ≡ refusal_with before index refused }
{
    match refused {
        Refused::Split => Some(Refusal::Split),
        _ => match before {
            None | Some(Refusal::StreamFull) => Some(Refusal::Unit { index, refused }),
            Some(before) => Some(before),
        },
    }
}
