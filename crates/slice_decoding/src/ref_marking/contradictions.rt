//! Operations beside one another: those that contradict one another, and operation 6 (7.4.3.3).

ghost use Rattle.std.specs.Prelude.{◌≡◌};
ghost use Rattle.std.specs.List.{list_any};
ghost use Rattle.h264_types.specs.Resetting.{is_five};
ghost use Rattle.slice_decoding.specs.Marking.{repeats, is_four, is_six, names_frame, contradict, current_idx};

use h264_types::slice_headers::MemoryManagementControlOperation as Operation;

// Whether 4, 5 or 6 stands twice, or 5 stands with 1, 2 or 3.
pub(crate) fn contradict(operations: &[Operation]) -> bool
    ensures { result ≡ contradict operations.now }
{
    repeats_four(operations)
        || repeats_five(operations)
        || repeats_six(operations)
        || (has_five(operations) && any_names_frame(operations))
}

fn repeats_four(operations: &[Operation]) -> bool
    ensures { result ≡ repeats is_four operations.now }
{
    let fours = operations
        .iter()
        .filter(|operation| is_four(operation))
        .count();
    fours > 1
}

fn repeats_five(operations: &[Operation]) -> bool
    ensures { result ≡ repeats is_five operations.now }
{
    let fives = operations
        .iter()
        .filter(|operation| is_five(operation))
        .count();
    fives > 1
}

fn repeats_six(operations: &[Operation]) -> bool
    ensures { result ≡ repeats is_six operations.now }
{
    let sixes = operations
        .iter()
        .filter(|operation| is_six(operation))
        .count();
    sixes > 1
}

fn has_five(operations: &[Operation]) -> bool
    ensures { result ≡ list_any is_five operations.now }
{
    operations.iter().any(is_five)
}

fn any_names_frame(operations: &[Operation]) -> bool
    ensures { result ≡ list_any names_frame operations.now }
{
    operations.iter().any(names_frame)
}

// The index that operation 6 gives the current frame, where it stands.
pub(crate) fn current_idx(operations: &[Operation]) -> Option<u32>
    ensures { result ≡ current_idx operations.now }
{
    for operation in operations {
        if let Operation::CurrentLongTerm {
            long_term_frame_idx,
        } = operation
        {
            return Some(*long_term_frame_idx);
        }
    }
    None
}

fn is_four(operation: &Operation) -> bool
    ensures { result ≡ is_four operation.now }
{
    matches!(operation, Operation::LimitLongTerm { .. })
}

fn is_five(operation: &Operation) -> bool
    ensures { result ≡ is_five operation.now }
{
    matches!(operation, Operation::FreeAll)
}

fn is_six(operation: &Operation) -> bool
    ensures { result ≡ is_six operation.now }
{
    matches!(operation, Operation::CurrentLongTerm { .. })
}

// Operations 1, 2 and 3.
fn names_frame(operation: &Operation) -> bool
    ensures { result ≡ names_frame operation.now }
{
    matches!(
        operation,
        Operation::FreeShortTerm { .. }
            | Operation::FreeLongTerm { .. }
            | Operation::AssignLongTerm { .. }
    )
}
