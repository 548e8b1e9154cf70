//! A text as far as it is mended.

ghost use Rattle.std.specs.Prelude.{◌≡◌, ◌++◌, ◌∷◌, [], ℕ, List, length, IfOk, OnOk, None, Some, true, false, if◌then◌else◌};
ghost use Rattle.stream_mending.specs.Faults.{fault_of};
ghost use Rattle.stream_mending.specs.Segments.{Segment, segment_at, cut_of, segments_of};
ghost use Rattle.stream_mending.specs.Portions.{Portion, goes_on_in, ended_by, fits};
ghost use Rattle.stream_mending.specs.Mended.{mended, told, told_bytes};
ghost use Rattle.stream_mending.specs.declared.why.LeftOut.{LeftOut as Told};
ghost use Rattle.stream_mending.specs.Mending.{IsDone, IsEnded, IsMendedTo};

use crate::faults::fault_of;
use crate::joint::Joint;
use crate::open_portion::{OpenPortion, push_zeros};
use crate::pieces::{trimmed_len, zero_run};
use crate::why::{LeftOut, Why};
use annexb::START_CODE;
use std::alloc::{AllocError, Global};
use std::mem;

/// What was mended of a stream.
#[derive(Drop)]
pub struct Mended {
    /// What stays, with the delimiters that were put.
    pub bytes: Vec<u8>,
    /// What was left out, in the order in which it ended.
    pub left_out: Vec<LeftOut>,
}

/// Tells of bytes, if there are any.
pub(crate) fn tell(
    left_out: &mut Vec<LeftOut>,
    byte: usize,
    bytes: usize,
    why: Why,
) -> Result<(), AllocError>
    ensures { OnOk result
        (left_out.new.items ≡ left_out.old.items ++ told_bytes byte bytes why) }
{
    if bytes == 0 {
        return Ok(());
    }
    left_out.push(LeftOut { byte, bytes, why })?;
    Ok(())
}

/// A text as far as it is mended, from its first start code on: what isn't written of it yet.
#[derive(Drop)]
pub(crate) struct Mending {
    bytes: Vec<u8>,
    left_out: Vec<LeftOut>,
    /// Whether an access unit stays.
    stays: bool,
    portion: OpenPortion,
}

impl Mending {
    /// After what stands before the first start code.
    pub(crate) fn new(alloc: Global, front: &[u8]) -> Result<Mending, AllocError>
        ensures { (text : List ℕ) (bytes : List ℕ) (rest : List (List ℕ))
            → cut_of text ≡ record { front = front.now; rest = bytes ∷ rest }
            → IfOk result (IsMendedTo text [] [] (segments_of text)) }
    {
        let place = zero_run(front);
        let foreign = trimmed_len(front.split_at(place).1);
        let mut mending = Mending {
            bytes: Vec::new(alloc),
            left_out: Vec::new(alloc),
            stays: false,
            portion: OpenPortion::new(alloc),
        };
        push_zeros(&mut mending.bytes, front.len() - foreign)?;
        tell(&mut mending.left_out, place, foreign, Why::NotNalUnit)?;
        Ok(mending)
    }

    /// Takes what stands after the start code at this place, up to the next one.
    pub(crate) fn take(
        &mut self,
        alloc: Global,
        place: usize,
        bytes: &[u8],
    ) -> Result<(), AllocError>
        ensures { (text written : List ℕ) (said : List Told) (left : List Segment)
            → IsMendedTo text written said (segment_at place bytes.now ∷ left) self.old
            → OnOk result (IsMendedTo text written said left self.new) }
    {
        let len = trimmed_len(bytes);
        let (unit, zeros) = bytes.split_at(len);
        match fault_of(alloc, unit)? {
            Some(why) => self.leave_out(place, unit, zeros.len(), why),
            None => self.keep(place, unit, zeros.len()),
        }
    }

    /// Leaves a NAL unit out, and keeps the zeros after it.
    fn leave_out(
        &mut self,
        place: usize,
        unit: &[u8],
        zeros: usize,
        why: Why,
    ) -> Result<(), AllocError>
        requires { fault_of unit.now ≡ Some why }
        ensures { (text written : List ℕ) (said : List Told) (left : List Segment)
            → IsMendedTo text written said
            (record { place = place; unit = unit.now; zeros = zeros } ∷ left) self.old
            → OnOk result (IsMendedTo text written said left self.new) }
    {
        tell(
            &mut self.left_out,
            place,
            START_CODE.len() + unit.len(),
            why,
        )?;
        self.portion.leave_out(zeros)?;
        Ok(())
    }

    /// Keeps a NAL unit, unless its access unit turns out to be too large.
    fn keep(&mut self, place: usize, unit: &[u8], zeros: usize) -> Result<(), AllocError>
        requires { fault_of unit.now ≡ None }
        ensures { (text written : List ℕ) (said : List Told) (left : List Segment)
            → IsMendedTo text written said
            (record { place = place; unit = unit.now; zeros = zeros } ∷ left) self.old
            → OnOk result (IsMendedTo text written said left self.new) }
    {
        let joint = self.portion.joint(unit);
        self.go_on(joint)?;
        self.portion.add(place, unit, zeros)?;
        Ok(())
    }

    /// Ends the access unit, and begins the next one, where a NAL unit stands so to it.
    fn go_on(&mut self, joint: Joint) -> Result<(), AllocError>
        ensures { (text written : List ℕ) (said : List Told) (done : List Portion)
            (portion : Portion) → IsDone text written said done portion self.old → OnOk result (IsDone text written said
            (done ++ ended_by joint portion) (goes_on_in joint portion) self.new) }
    {
        match joint {
            Joint::Joins => Ok(()),
            Joint::Begins => self.begin(false),
            Joint::NeedsDelimiter => self.begin(true),
        }
    }

    /// Ends the access unit, and begins the next one.
    fn begin(&mut self, is_delimited: bool) -> Result<(), AllocError>
        ensures { (text written : List ℕ) (said : List Told) (done : List Portion)
            (portion : Portion) → IsDone text written said done portion self.old → OnOk result (IsDone text written said
            (done ++ portion ∷ []) (record { is_delimited = is_delimited; segments = [] })
            self.new) }
    {
        self.end()?;
        self.portion.begin(is_delimited)?;
        Ok(())
    }

    /// Ends the access unit.
    fn end(&mut self) -> Result<(), AllocError>
        ensures { (text written : List ℕ) (said : List Told) (done : List Portion)
            (portion : Portion) → IsDone text written said done portion self.old
            → OnOk result (IsEnded text written said (done ++ portion ∷ []) self.new) }
    {
        if self.portion.fits() {
            self.write_portion()
        } else {
            self.drop_portion()
        }
    }

    /// Writes the access unit.
    fn write_portion(&mut self) -> Result<(), AllocError>
        ensures { (text written : List ℕ) (said : List Told) (done : List Portion)
            (portion : Portion) → IsDone text written said done portion self.old → fits portion ≡ true
            → OnOk result (IsEnded text written said (done ++ portion ∷ []) self.new) }
    {
        self.stays |= self.portion.has_units();
        self.bytes.extend_from_slice(&self.portion.text)?;
        Ok(())
    }

    /// Leaves the access unit out, which is too large, and keeps the zeros after its NAL units.
    fn drop_portion(&mut self) -> Result<(), AllocError>
        ensures { (text written : List ℕ) (said : List Told) (done : List Portion)
            (portion : Portion) → IsDone text written said done portion self.old → fits portion ≡ false
            → OnOk result (IsEnded text written said (done ++ portion ∷ []) self.new) }
    {
        push_zeros(&mut self.bytes, self.portion.zeros)?;
        let (byte, bytes) = (self.portion.place, self.portion.bytes);
        tell(&mut self.left_out, byte, bytes, Why::TooLarge)?;
        Ok(())
    }

    /// Drops the zeros where no NAL unit stays.
    fn clear_unless_some_stay(&mut self)
        ensures bytes { self.new.bytes.items
            ≡ (if self.old.stays then self.old.bytes.items else []) }
        ensures told { self.new.left_out ≡ self.old.left_out }
    {
        if !self.stays {
            self.bytes.clear();
        }
    }

    /// What can be written and told; it is another's then. No zeros are written before a NAL unit
    /// stays.
    pub(crate) fn drain(&mut self, alloc: Global) -> Mended
        ensures { (text written : List ℕ) (said : List Told) (left : List Segment)
            → IsMendedTo text written said left self.old → IsMendedTo text
            (written ++ result.bytes.items) (said ++ result.left_out.items) left self.new }
    {
        let left_out = mem::replace(&mut self.left_out, Vec::new(alloc));
        let bytes = if self.stays {
            mem::replace(&mut self.bytes, Vec::new(alloc))
        } else {
            Vec::new(alloc)
        };
        Mended { bytes, left_out }
    }

    /// What the text came to, of which nothing is left.
    pub(crate) fn finish(mut self) -> Result<Mended, AllocError>
        ensures bytes { (text written : List ℕ) (said : List Told)
            → IsMendedTo text written said [] self
            → IfOk result (λ done. written ++ done.bytes.items ≡ mended text) }
        ensures told { (text written : List ℕ) (said : List Told)
            → IsMendedTo text written said [] self
            → IfOk result (λ done. said ++ done.left_out.items ≡ told text) }
    {
        self.end()?;
        self.clear_unless_some_stay();
        Ok(Mended {
            bytes: self.bytes,
            left_out: self.left_out,
        })
    }
}
