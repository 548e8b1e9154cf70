//! Laws of the definitions, each the contract of a function that does nothing.

ghost use Rattle.std.specs.Prelude.{List};
ghost use Rattle.stream_edits.specs.declared.edits.Edit.{Edit as EditValue};
ghost use Rattle.stream_edits.specs.Edits.{Register, no_units, Replays};
ghost use Rattle.stream_edits.specs.Ids.{HasIds};

/// The units of a stream have ids that differ, each of which was given.
pub fn ids_differ()
    ensures { (journal : List EditValue) (register : Register)
        → Replays no_units journal register → HasIds register }
{}
