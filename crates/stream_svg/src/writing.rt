//! The whole document.

ghost use Rattle.std.specs.Prelude.{◌≡◌, ◌++◌, IfOk, OnOk, length};
ghost use Rattle.stream_svg.specs.Pages.{document_text};

use crate::beginning::write_beginning;
use crate::end::write_end;
use crate::page::Page;
use crate::stream_row::write_units;
use crate::{DrawnUnit, Layout};
use std::alloc::{AllocError, Global};

/// What is said of a unit beside its box.
#[derive(Debug, Drop)]
pub struct Caption {
    /// Its lines, which are its title.
    pub lines: String,
}

/// The document of these units, laid out so, each with what is said of it, of a stream of so many
/// units; with the legend of edits where some were made.
pub fn document(
    alloc: Global,
    layout: &Layout,
    units: &[DrawnUnit],
    captions: &[Caption],
    total: usize,
    edited: bool,
) -> Result<Vec<u8>, AllocError>
    requires units { layout.now.grid.units ≡ length units.now }
    requires captions { length captions.now ≡ length units.now }
    ensures { IfOk result (λ document. document.items
        ≡ document_text layout.now units.now captions.now total edited) }
{
    let mut page = Page::new(alloc);
    write_beginning(&mut page, layout, units, total, edited)?;
    write_units(&mut page, layout.grid, units, captions)?;
    write_end(&mut page, layout, units)?;
    Ok(page.bytes)
}
