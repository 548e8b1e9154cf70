//! The document of a stream after edits.

ghost use Rattle.std.specs.Prelude.{◌≡◌, ◌<◌, ◌≤◌, ◌+◌, IfOk, IfSome, length, string_bytes, take, drop};
ghost use Rattle.stand_in_session.specs.Machines.{Machine};
ghost use Rattle.stream_edits.specs.Streams.{place_among};
ghost use Rattle.stream_session.specs.Altered.{with_mark};
ghost use Rattle.draw_run.specs.Choosing.{start_among};
ghost use Rattle.draw_run.specs.EditedDrawings.{IsDrawnOf};
ghost use Rattle.draw_run.specs.Making.{AreMade};

use crate::choice::EditedChoice;
use crate::edits::make_edits;
use crate::shown::shown_units;
use edit_script::EditCommand;
use h264_types::pictures::AuId;
use stand_in_session::Session;
use std::alloc::{AllocError, Global};
use stream_svg::{document, lay_out};

/// A document, and what is told of the edits that were refused before it was made.
#[derive(Drop)]
pub(crate) struct EditedDrawing {
    pub(crate) document: Vec<u8>,
    pub(crate) told: String,
}

/// Marks the session's stream, makes the edits on it, and the document of the stream that they
/// leave.
pub(crate) fn edited_drawing(
    alloc: Global,
    choice: EditedChoice,
    mut session: Session,
    commands: Vec<(usize, EditCommand)>,
) -> Result<EditedDrawing, AllocError>
    ensures { IfOk result (λ drawing. (after : Machine)
        × AreMade (with_mark session) commands.items (string_bytes drawing.told) after
        × IsDrawnOf choice.from choice.units after drawing.document.items) }
{
    session.mark()?;
    let told = make_edits(alloc, &mut session, commands)?;
    let document = document_of(alloc, choice, &session)?;
    Ok(EditedDrawing { document, told })
}

/// The document of the chosen units.
fn document_of(
    alloc: Global,
    choice: EditedChoice,
    session: &Session,
) -> Result<Vec<u8>, AllocError>
    ensures { IfOk result (λ document.
        IsDrawnOf choice.from choice.units session.now document.items) }
{
    let ids = session.ids();
    let start = start_among(ids, choice.from);
    let chosen = chosen_from(ids, start, choice);
    let doubts = session.doubts(start, chosen.len())?;
    let shown = shown_units(alloc, session, chosen, &doubts)?;
    let layout = lay_out(alloc, &shown.units)?;
    document(
        alloc,
        &layout,
        &shown.units,
        &shown.captions,
        ids.len(),
        true,
    )
}

/// The place of the first of the chosen units; past all where none is chosen.
fn start_among(ids: &[AuId], from: Option<u32>) -> usize
    ensures value { result ≡ start_among from ids.now }
    ensures within { result ≤ length ids.now }
{
    match from {
        Some(number) => match place_of(ids, AuId::new(number)) {
            Some(place) => place,
            None => ids.len(),
        },
        None => 0,
    }
}

/// The place of the id, if it is among them.
#[tactic(auto, unfolding(stream_edits::specs::Streams::place_among))]
fn place_of(ids: &[AuId], id: AuId) -> Option<usize>
    ensures value { result ≡ place_among ids.now id }
    ensures inside { IfSome result (λ at. at < length ids.now) }
{
    ids.iter().position(|other| *other == id)
}

/// The ids of the chosen units, of which this is the place of the first.
fn chosen_from(ids: &[AuId], start: usize, choice: EditedChoice) -> &[AuId]
    requires { start ≤ length ids.now }
    ensures value { result.now ≡ take choice.units (drop start ids.now) }
    ensures few { length result.now ≤ 1000 }
    ensures within { start + length result.now ≤ length ids.now }
{
    let ids = &ids[start..];
    &ids[..choice.units.min(ids.len())]
}
