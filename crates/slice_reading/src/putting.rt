//! The tables after a unit's parameter sets (7.4.1.2.1).

ghost use Rattle.std.specs.Prelude.{◌≡◌, IfOk};
ghost use Rattle.slice_reading.specs.ParameterSets.{put_all};

use crate::tables::Tables;
use access_unit::ParameterSet;
use h264_types::base::Shared;
use std::alloc::{AllocError, Global};

/// The tables with these sets, each put in turn; where there are none, the same tables shared.
///
/// A set that is sent again with the same contents keeps its place, and what the place shares.
pub fn tables_with(
    alloc: Global,
    tables: &Shared<Tables>,
    sets: &[ParameterSet],
) -> Result<Shared<Tables>, AllocError>
    ensures { IfOk result (λ after. after ≡ put_all tables.now sets.now) }
{
    if sets.is_empty() {
        return tables.clone();
    }
    let after = with_all(alloc, tables.copy(alloc)?, sets)?;
    Ok(Shared::new(alloc, paired(alloc, after, sets)?)?)
}

/// The tables with these sets, each put in turn.
fn with_all(alloc: Global, mut tables: Tables, sets: &[ParameterSet]) -> Result<Tables, AllocError>
    ensures { IfOk result (λ after. after ≡ put_all tables sets.now) }
{
    for set in sets {
        tables.put(alloc, set)?;
    }
    Ok(tables)
}

/// The tables, in which the picture parameter sets among these sets are paired to what they name.
fn paired(alloc: Global, mut tables: Tables, sets: &[ParameterSet]) -> Result<Tables, AllocError>
    ensures { IfOk result (λ after. after ≡ tables) }
{
    for set in sets {
        tables.pair(alloc, set)?;
    }
    Ok(tables)
}
