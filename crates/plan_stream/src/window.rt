//! The window: bytes that were read and are still needed, and room for more.

ghost use Rattle.std.specs.Prelude.{◌≡◌, ◌+◌, ◌<◌, ◌≤◌, ◌++◌, ℕ, List, [], None, false, true, length, slice_range, IfOk, IfSome, OnOk, OnErr, vec_len};
ghost use Rattle.std.specs.Io.KnownBytes.{Consumes, IsAtEnd, Keeps};

use crate::walk::Walk;
use console_io::{InputFault, read_some};
use std::alloc::{AllocError, Global};
use std::io::Read;
use std::ops::Range;

/// How many bytes a window holds at first.
const SIZE: usize = 256 * 1024;

/// The text of an access unit, and what was read after it. It grows where an access unit is longer
/// than it.
#[derive(Drop)]
pub struct Window {
    buffer: Vec<u8>,
    /// Where the text of the access unit begins that is shown.
    start: usize,
    /// Where it ends.
    cut: usize,
    /// Where what was read ends.
    end: usize,
    /// Whether the reader has no more.
    is_over: bool,
    /// Along the NAL units of the access unit that is shown, or of the next one where none is.
    walk: Walk,
    ghost ordered: { start ≤ cut },
    ghost held: { cut ≤ end },
    ghost within: { end ≤ vec_len buffer },
}

impl Window {
    ghost use Rattle.plan_stream.specs.Walks.{AreKnown, IsEnd};
    ghost use Rattle.plan_stream.specs.Windows.{HasLeft, IsWalkedAlong, Shows, front_of, held_by};

    /// A window over a reader of which nothing is read.
    pub fn new(alloc: Global) -> Result<Window, AllocError>
        ensures held { IfOk result (λ window. held_by window ≡ []) }
        ensures over { IfOk result (λ window. window.is_over ≡ false) }
    {
        Ok(Window {
            buffer: vec![in alloc; 0; SIZE]?,
            start: 0,
            cut: 0,
            end: 0,
            is_over: false,
            walk: Walk::new(alloc),
        })
    }

    /// The text of the access unit that is shown.
    pub fn text(&self) -> &[u8]
        ensures { result.now ≡ front_of self.now }
    {
        &self.buffer[self.start..self.cut]
    }

    /// Where the NAL units stand in it, where that is known: after `next_split`.
    pub(crate) fn places(&self) -> &[Range<usize>]
        ensures { result.now ≡ self.now.walk.places.items }
    {
        self.walk.places()
    }

    /// The bytes after it that were read.
    fn held(&self) -> &[u8]
        ensures { result.now ≡ held_by self.now }
    {
        &self.buffer[self.cut..self.end]
    }

    /// Shows the text of the next access unit of what the reader gives, and says whether there is
    /// any.
    ///
    /// An interrupted read is made again. The reader is the same one in each call.
    pub fn next<R: Read>(&mut self, reader: &mut R) -> Result<bool, InputFault>
        ensures { (left : List ℕ) → HasLeft self.old (R.remaining reader.old) left
            → IfOk result (λ is_some. Shows left is_some self.new (R.remaining reader.new)) }
    {
        self.next_split(reader)
    }

    /// What `next` does; then it's known where the NAL units stand in the text.
    pub(crate) fn next_split<R: Read>(&mut self, reader: &mut R) -> Result<bool, InputFault>
        ensures shown { (left : List ℕ) → HasLeft self.old (R.remaining reader.old) left
            → IfOk result (λ is_some. Shows left is_some self.new (R.remaining reader.new)) }
        ensures known { OnOk result (AreKnown (front_of self.new) self.new.walk.places.items) }
    {
        self.start = self.cut;
        self.walk.clear();
        loop {
            if let Some(len) = self.front_len() {
                self.show(len);
                return Ok(len > 0);
            }
            self.read_more(reader)?;
        }
    }

    /// How many bytes the next access unit has, where nothing is shown and that is certain.
    fn front_len(&mut self) -> Option<usize>
        requires none { self.old.start ≡ self.old.cut }
        requires walked { IsWalkedAlong self.old }
        ensures none { self.new.start ≡ self.new.cut }
        ensures held { held_by self.new ≡ held_by self.old }
        ensures over { self.new.is_over ≡ self.old.is_over }
        ensures end { IfSome result
            (IsEnd (held_by self.new) self.new.is_over self.new.walk.places.items) }
        ensures walked { result ≡ None → IsWalkedAlong self.new }
        ensures more { result ≡ None → self.new.is_over ≡ false }
    {
        self.walk
            .front_len(&self.buffer[self.cut..self.end], self.is_over)
    }

    /// Shows so many of the bytes that were read.
    fn show(&mut self, len: usize)
        requires none { self.old.start ≡ self.old.cut }
        requires within { len ≤ length (held_by self.old) }
        ensures parts { held_by self.old ≡ front_of self.new ++ held_by self.new }
        ensures len { length (front_of self.new) ≡ len }
        ensures over { self.new.is_over ≡ self.old.is_over }
        ensures walk { self.new.walk ≡ self.old.walk }
    {
        self.cut += len;
    }

    /// Reads more of the text of an access unit that is longer than what was read, where nothing is
    /// shown.
    fn read_more<R: Read>(&mut self, reader: &mut R) -> Result<(), InputFault>
        requires none { self.old.start ≡ self.old.cut }
        requires walked { IsWalkedAlong self.old }
        ensures none { OnOk result (self.new.start ≡ self.new.cut) }
        ensures walked { OnOk result (IsWalkedAlong self.new) }
        ensures left { (left : List ℕ) → HasLeft self.old (R.remaining reader.old) left
            → OnOk result (HasLeft self.new (R.remaining reader.new) left) }
        ensures longer { OnOk result (self.new.is_over ≡ false
            → length (held_by self.old) < length (held_by self.new)) }
    {
        self.move_to_front();
        self.grow()?;
        self.fill(reader)
    }

    /// Moves what is held to the start of the buffer, where nothing is shown.
    fn move_to_front(&mut self)
        requires { self.old.start ≡ self.old.cut }
        ensures none { self.new.start ≡ self.new.cut }
        ensures held { held_by self.new ≡ held_by self.old }
        ensures over { self.new.is_over ≡ self.old.is_over }
        ensures walk { self.new.walk ≡ self.old.walk }
    {
        let (start, end) = (self.cut, self.end);
        self.buffer.copy_within(start..end, 0);
        self.start = 0;
        self.cut = 0;
        self.end = end - start;
    }

    /// Makes the buffer twice as long where it's full, so that there is room.
    fn grow(&mut self) -> Result<(), AllocError>
        requires { self.old.start ≡ self.old.cut }
        ensures room { OnOk result (self.new.end < vec_len self.new.buffer) }
        ensures none { self.new.start ≡ self.new.cut }
        ensures held { held_by self.new ≡ held_by self.old }
        ensures over { self.new.is_over ≡ self.old.is_over }
        ensures walk { self.new.walk ≡ self.old.walk }
    {
        let len = self.buffer.len();
        if self.end < len {
            return Ok(());
        }
        let Some(longer) = len.checked_mul(2) else {
            return Err(AllocError);
        };
        self.buffer.resize(longer.max(SIZE), 0)
    }

    /// Reads until the buffer is full, or the reader has no more.
    fn fill<R: Read>(&mut self, reader: &mut R) -> Result<(), InputFault>
        requires none { self.old.start ≡ self.old.cut }
        requires walked { IsWalkedAlong self.old }
        ensures filled { OnOk result
            (self.new.is_over ≡ false → self.new.end ≡ vec_len self.new.buffer) }
        ensures cut { self.new.cut ≡ self.old.cut }
        ensures len { vec_len self.new.buffer ≡ vec_len self.old.buffer }
        ensures none { self.new.start ≡ self.new.cut }
        ensures walked { IsWalkedAlong self.new }
        ensures left { (left : List ℕ) → HasLeft self.old (R.remaining reader.old) left
            → HasLeft self.new (R.remaining reader.new) left }
    {
        while !self.is_filled() {
            self.read_once(reader)?;
        }
        Ok(())
    }

    /// Reads once, and notes whether the reader has no more.
    fn read_once<R: Read>(&mut self, reader: &mut R) -> Result<(), InputFault>
        requires none { self.old.start ≡ self.old.cut }
        requires room { self.old.end < vec_len self.old.buffer }
        requires more { self.old.is_over ≡ false }
        requires walked { IsWalkedAlong self.old }
        ensures on { OnOk result (self.new.is_over ≡ false → self.old.end < self.new.end) }
        ensures cut { self.new.cut ≡ self.old.cut }
        ensures len { vec_len self.new.buffer ≡ vec_len self.old.buffer }
        ensures none { self.new.start ≡ self.new.cut }
        ensures walked { IsWalkedAlong self.new }
        ensures left { (left : List ℕ) → HasLeft self.old (R.remaining reader.old) left
            → HasLeft self.new (R.remaining reader.new) left }
    {
        let count = self.read_some(reader)?;
        self.is_over = count == 0;
        Ok(())
    }

    /// Whether the buffer is full, or the reader has no more.
    fn is_filled(&self) -> bool
        ensures no { result ≡ false
            → (self.now.is_over ≡ false) × (self.now.end < vec_len self.now.buffer) }
        ensures yes { result ≡ true
            → self.now.is_over ≡ false → self.now.end ≡ vec_len self.now.buffer }
    {
        self.is_over || self.end >= self.buffer.len()
    }

    /// Reads once, after what is held, and says how many bytes came.
    fn read_some<R: Read>(&mut self, reader: &mut R) -> Result<usize, InputFault>
        requires none { self.old.start ≡ self.old.cut }
        requires room { self.old.end < vec_len self.old.buffer }
        ensures on { IfOk result (λ count. self.new.end ≡ self.old.end + count) }
        ensures cut { self.new.cut ≡ self.old.cut }
        ensures len { vec_len self.new.buffer ≡ vec_len self.old.buffer }
        ensures none { self.new.start ≡ self.new.cut }
        ensures over { self.new.is_over ≡ self.old.is_over }
        ensures walk { self.new.walk ≡ self.old.walk }
        ensures ok { IfOk result (λ count.
            (more : List ℕ) × (held_by self.new ≡ held_by self.old ++ more)
            × Consumes (R.remaining reader.old) (R.remaining reader.new) more) }
        ensures end { IfOk result (λ count. count ≡ 0 → IsAtEnd (R.remaining reader.new)) }
        ensures err { OnErr result ((held_by self.new ≡ held_by self.old)
            × Keeps (R.remaining reader.old) (R.remaining reader.new)) }
    {
        let (cut, end) = (self.cut, self.end);
        let count = read_at(reader, self.buffer.as_mut_slice(), cut, end)?;
        self.end = end + count;
        Ok(count)
    }
}

/// Reads once, from this place on; what stands before it from the start on stays.
fn read_at<R: Read>(
    reader: &mut R,
    buffer: &mut [u8],
    start: usize,
    end: usize,
) -> Result<usize, InputFault>
    requires ordered { start ≤ end }
    requires room { end < length buffer.old }
    ensures within { IfOk result (λ count. end + count ≤ length buffer.new) }
    ensures len { length buffer.new ≡ length buffer.old }
    ensures ok { IfOk result (λ count. (more : List ℕ)
        × (slice_range buffer.new start (end + count) ≡ slice_range buffer.old start end ++ more)
        × Consumes (R.remaining reader.old) (R.remaining reader.new) more) }
    ensures end { IfOk result (λ count. count ≡ 0 → IsAtEnd (R.remaining reader.new)) }
    ensures err { OnErr result
        ((slice_range buffer.new start end ≡ slice_range buffer.old start end)
        × Keeps (R.remaining reader.old) (R.remaining reader.new)) }
{
    read_some(reader, &mut buffer[end..])
}
