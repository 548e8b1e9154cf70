//! Faults and refusals as JSON objects: a number and a name.

use access_unit::{Refusal, Refused};
use serde::{Serialize, Serializer};
use unit_outcomes::ValidityFault;

/// A fault or a refusal.
#[derive(Drop, Serialize)]
struct Numbered {
    /// The index of the access unit that is refused, from 0.
    #[serde(skip_serializing_if = "Option::is_none")]
    unit: Option<usize>,
    number: u8,
    name: &'static str,
}

pub(crate) fn write_fault<S: Serializer>(
    fault: &ValidityFault,
    out: &mut S,
) -> Result<(), S::Error> {
    let numbered = Numbered {
        unit: None,
        number: fault.number(),
        name: fault.name(),
    };
    numbered.serialize(out)
}

pub(crate) fn write_refusal<S: Serializer>(refusal: &Refusal, out: &mut S) -> Result<(), S::Error> {
    parts_of(*refusal).serialize(out)
}

fn parts_of(refusal: Refusal) -> Numbered {
    match refusal {
        Refusal::Split => Numbered {
            unit: None,
            number: Refused::Split.number(),
            name: Refused::Split.name(),
        },
        Refusal::Unit { index, refused } => Numbered {
            unit: Some(index),
            number: refused.number(),
            name: refused.name(),
        },
        Refusal::StreamFull => Numbered {
            unit: None,
            number: 17,
            name: "StreamFull",
        },
    }
}
