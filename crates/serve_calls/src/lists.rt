//! Lists that grow by what there is.

ghost use Rattle.std.specs.Prelude.{◌≡◌, ◌++◌, OnOk};
ghost use Rattle.serve_calls.specs.Lists.{listed};

use std::alloc::AllocError;

/// Adds an item, if there is one.
pub(crate) fn push_some<T: Drop>(items: &mut Vec<T>, item: Option<T>) -> Result<(), AllocError>
    ensures { OnOk result (items.new.items ≡ items.old.items ++ listed item) }
{
    if let Some(item) = item {
        items.push(item)?;
    }
    Ok(())
}
