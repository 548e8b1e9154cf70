//! The bytes of a document while it is written.

ghost use Rattle.std.specs.Prelude.{◌≡◌, ◌++◌, ℕ, List, OnOk, Some};
ghost use Rattle.stream_svg.specs.Documents.{opening_of};
ghost use Rattle.stream_svg.specs.Escapes.{escaped};
ghost use Rattle.stream_svg.specs.Texts.{Grows};

use crate::EditMark;
use crate::edit_marks::classes_of;
use crate::escape::push_escaped;
use std::alloc::{AllocError, Global};
use std::fmt::Display;

/// The bytes of a document so far.
#[derive(Drop)]
pub(crate) struct Page {
    pub(crate) bytes: Vec<u8>,
    /// Where marks are written before they are added.
    marks: String,
}

impl Page {
    ghost use Rattle.std.specs.Prelude.{[]};

    /// An empty one.
    pub(crate) fn new(alloc: Global) -> Page
        ensures { result.bytes.items ≡ [] }
    {
        Page {
            bytes: Vec::new(alloc),
            marks: String::new(alloc),
        }
    }

    /// Adds marks, which are SVG.
    pub(crate) fn print<D: Display + Drop>(&mut self, marks: D) -> Result<(), AllocError>
        ensures { (text : List ℕ) → D.output marks ≡ Some text
            → OnOk result (Grows self.old.bytes.items self.new.bytes.items text) }
    {
        self.marks.clear();
        self.marks.write(marks)?;
        self.bytes.extend_from_slice(self.marks.as_bytes())
    }

    /// Adds a text that is SVG.
    pub(crate) fn put(&mut self, text: &str) -> Result<(), AllocError>
        ensures { OnOk result (Grows self.old.bytes.items self.new.bytes.items text.now) }
    {
        self.bytes.extend_from_slice(text.as_bytes())
    }

    /// Opens the shapes of a unit, with the classes of its mark, and with its lines as their title.
    pub(crate) fn open(&mut self, mark: Option<EditMark>, lines: &str) -> Result<(), AllocError>
        ensures { OnOk result (Grows self.old.bytes.items self.new.bytes.items
            (opening_of mark lines.now)) }
    {
        self.put("<g class=\"")?;
        self.put(classes_of(mark))?;
        self.put("\"><title>")?;
        self.put_escaped(lines)?;
        self.put("</title>")
    }

    /// Adds a text, with references in place of the characters that have a meaning in XML.
    fn put_escaped(&mut self, text: &str) -> Result<(), AllocError>
        ensures { OnOk result (Grows self.old.bytes.items self.new.bytes.items
            (escaped text.now)) }
    {
        push_escaped(&mut self.bytes, text.as_bytes())
    }
}
