use access_unit::{Refusal, Refused};
use h264_types::pictures::AuId;
use std::alloc::{AllocError, Global};
use std::test::Fail;
use unit_outcomes::doubts::Doubt;
use unit_outcomes::{Outcome, ValidityFault};
use unit_printing::json::{DecodeMode, Encoder, Json, JsonLine};

/// The text of the line of a unit.
fn unit_text(alloc: Global, id: u32, outcome: &Outcome) -> Result<String, AllocError> {
    let untold = Doubt {
        follows: None,
        in_doubt: false,
    };
    let mode = DecodeMode::SliceBased;
    let line = JsonLine::of_unit(alloc, mode, AuId::new(id), None, outcome, untold)?;
    Json.encode(alloc, &line)
}

/// The text of the line of a refusal.
fn refusal_text(alloc: Global, refusal: Refusal) -> Result<String, AllocError> {
    Json.encode(alloc, &JsonLine::of_refusal(refusal))
}

#[test]
fn a_fault_is_number_and_name(rt: HostRuntime) -> Result<(), Fail> {
    let fault = Outcome::Fault(ValidityFault::FrameNumGap);
    let text = unit_text(rt.alloc(), 4294967295, &fault)?;
    assert!(rt;
        text.as_str()
            == "{\"unit\":4294967295,\"fault\":{\"number\":11,\"name\":\"FrameNumGap\"}}\n"
    );
    Ok(())
}

#[test]
fn a_unit_without_a_slice_has_no_picture(rt: HostRuntime) -> Result<(), Fail> {
    let text = unit_text(rt.alloc(), 3, &Outcome::Empty)?;
    assert!(rt; text.as_str() == "{\"unit\":3,\"no_picture\":true}\n");
    Ok(())
}

#[test]
fn a_unit_that_is_not_there_is_none(rt: HostRuntime) -> Result<(), Fail> {
    let text = Json.encode(rt.alloc(), &JsonLine::of_no_unit(9999999999))?;
    assert!(rt; text.as_str() == "{\"unit\":9999999999,\"none\":true}\n");
    Ok(())
}

#[test]
fn refusals_have_numbers_and_names(rt: HostRuntime) -> Result<(), Fail> {
    let split = refusal_text(rt.alloc(), Refusal::Split)?;
    assert!(rt; split.as_str() == "{\"refused\":{\"number\":1,\"name\":\"Split\"}}\n");
    let full = refusal_text(rt.alloc(), Refusal::StreamFull)?;
    assert!(rt; full.as_str() == "{\"refused\":{\"number\":17,\"name\":\"StreamFull\"}}\n");
    Ok(())
}

#[test]
fn a_refused_unit_is_named_by_its_index(rt: HostRuntime) -> Result<(), Fail> {
    let refusal = Refusal::Unit {
        index: 7,
        refused: Refused::Sps,
    };
    let text = refusal_text(rt.alloc(), refusal)?;
    assert!(rt; text.as_str() == "{\"refused\":{\"unit\":7,\"number\":4,\"name\":\"Sps\"}}\n");
    Ok(())
}
