//! Pictures as hashlib of Python gives them for records that were put together by hand.

use super::queues::Recorder;
use super::row_holds;
use decode_jobs::{Finished, Input, Job, Reference, Undone};
use h264_controls::{Dpb, Request};
use h264_types::pictures::{AuId, List};
use h264_types::slice_headers::SliceType;
use sha2::{Digest, Sha256};
use stand_in_device::m2m_queues::{BufferState, QueueFault, Queues, RequestId, RequestState};
use stand_in_device::{Device, Picture};
use std::alloc::{AllocError, Global};
use std::test::Fail;
use test_builders::{
    controls_of, idr_controls, idr_picture, p_controls, request_of, slice_params,
    small_set_controls,
};

/// The SHA-256 of 2,055 bytes: the form of the IDR picture 65 88 84 80 of 2,040 bytes, the length 7
/// in 8 bytes, and 00 00 01 65 88 84 80.
const ONE_IDR: [u8; 32] = [
    0x0A, 0xC6, 0xF5, 0xC6, 0xBC, 0x06, 0x4C, 0x43, 0x63, 0x09, 0xC1, 0x8B, 0x3D, 0x1B, 0x60, 0x5A,
    0xD6, 0x0F, 0x7D, 0xE3, 0x72, 0x40, 0x81, 0xB8, 0x4F, 0xF0, 0x1A, 0xAC, 0x2C, 0x39, 0x54, 0xCF,
];

/// The SHA-256 of 2,086 bytes: the form of the P picture 41 9A 23 after it, the length 6, 00 00 01
/// 41 9A 23, and the 32 bytes above.
const IDR_AND_P: [u8; 32] = [
    0x6B, 0xC6, 0xC0, 0x8C, 0xF1, 0xBA, 0xA8, 0x6F, 0x62, 0x95, 0x0D, 0xB2, 0xC1, 0xAC, 0xFA, 0xAC,
    0x24, 0x91, 0x2A, 0x0B, 0x56, 0xA8, 0xE0, 0xE6, 0xAC, 0x08, 0xD3, 0x02, 0xE2, 0xB4, 0x9D, 0x88,
];

/// The SHA-256 of 4,110 bytes: the records of the slices 65 88 84 80 and 65 42 21 30 of an IDR
/// picture of two macroblocks.
const TWO_SLICES: [u8; 32] = [
    0x54, 0x17, 0x61, 0x10, 0x96, 0x8C, 0x2F, 0xC8, 0xE6, 0x41, 0x64, 0xE9, 0xF1, 0xC2, 0xD3, 0x48,
    0xCF, 0x30, 0xC9, 0x20, 0x0C, 0x0E, 0xCE, 0xCA, 0x9B, 0xF6, 0xA3, 0x78, 0x61, 0x02, 0x18, 0xCF,
];

/// A slice whose request a row has.
#[derive(Clone, Copy)]
enum Slice {
    /// That of the IDR picture 65 88 84 80, which is unit 1, with or without the hold flag.
    Idr(bool),
    /// That of the P picture 41 9A 23, which is unit 2, whose list 0 has this entry; unit 1 is the
    /// one frame that it may name.
    P(Option<u8>),
    /// Those of an IDR picture of two macroblocks, which is unit 1.
    FirstOfTwo,
    LastOfTwo,
}

impl Slice {
    /// The request.
    fn request(self, alloc: Global) -> Result<Request, AllocError> {
        match self {
            Slice::Idr(hold) => idr_slice(alloc, hold),
            Slice::P(entry) => p_slice(alloc, entry),
            Slice::FirstOfTwo => {
                slice_of_two(alloc, 25, 0, &[0, 0, 1, 0x65, 0x88, 0x84, 0x80], true)
            }
            Slice::LastOfTwo => {
                slice_of_two(alloc, 27, 1, &[0, 0, 1, 0x65, 0x42, 0x21, 0x30], false)
            }
        }
    }
}

fn idr_slice(alloc: Global, hold: bool) -> Result<Request, AllocError> {
    let bytes = [0, 0, 1, 0x65, 0x88, 0x84, 0x80];
    request_of(alloc, 1, idr_controls(alloc)?, &bytes, &[], hold)
}

fn p_slice(alloc: Global, entry: Option<u8>) -> Result<Request, AllocError> {
    let bytes = [0, 0, 1, 0x41, 0x9A, 0x23];
    let references = [AuId::new(1)];
    request_of(
        alloc,
        2,
        p_controls(alloc, entry)?,
        &bytes,
        &references,
        false,
    )
}

/// A slice of two macroblocks' picture: the size of its header, its first macroblock and its bytes.
fn slice_of_two(
    alloc: Global,
    bits: u32,
    first_mb_in_slice: u32,
    bytes: &[u8],
    hold: bool,
) -> Result<Request, AllocError> {
    let mut slice_params = slice_params(alloc, bits, SliceType::I, &List::new())?;
    slice_params.first_mb_in_slice = first_mb_in_slice;
    let picture = idr_picture(Dpb::with_capacity(alloc, 0)?);
    let controls = controls_of(
        alloc,
        small_set_controls(alloc, 1)?,
        None,
        slice_params,
        picture,
    )?;
    request_of(alloc, 1, controls, bytes, &[], hold)
}

/// The input of these slices' requests, where the frame of unit 1, if it is there, is the IDR
/// picture.
fn input_of(
    alloc: Global,
    slices: &[Slice],
    has_frame: bool,
) -> Result<Input<Picture>, AllocError> {
    let (mut requests, mut references) = (Vec::new(alloc), Vec::new(alloc));
    for slice in slices {
        requests.push(slice.request(alloc)?)?;
    }
    if has_frame {
        references.push(Reference {
            timestamp: 1000,
            picture: Picture { digest: ONE_IDR },
        })?;
    }
    Ok(Input::new(requests, references))
}

/// The number and the picture of job 7 with this input, if that is whole, by a device that has
/// another frame of unit 1.
fn decoded(alloc: Global, input: Input<Picture>) -> Result<Option<(u64, Picture)>, AllocError> {
    if !input.is_whole() {
        return Ok(None);
    }
    let mut device = Device::new(alloc);
    device.place(1000, Picture { digest: [1; 32] })?;
    match device.decode(alloc, Job::new(7, input)) {
        Ok(finished) => Ok(Some(number_and_picture(finished))),
        Err(undone) => Err(cause_of(undone)),
    }
}

fn number_and_picture(finished: Finished<Picture>) -> (u64, Picture) {
    let (number, _, picture) = finished.into_parts();
    (number, picture)
}

/// Why a job is undone; the job is spent.
fn cause_of(undone: Undone<Picture>) -> AllocError {
    let Undone { job, cause } = undone;
    let _ = job.into_parts();
    cause
}

/// Slices of a picture, and its digest.
const PICTURES: [(&[Slice], [u8; 32]); 3] = [
    (&[Slice::Idr(false)], ONE_IDR),
    (&[Slice::P(Some(0))], IDR_AND_P),
    (&[Slice::FirstOfTwo, Slice::LastOfTwo], TWO_SLICES),
];

#[test]
fn pictures_are_digests_of_their_records(rt: HostRuntime) -> Result<(), Fail> {
    for (row, (slices, digest)) in PICTURES.iter().enumerate() {
        let picture = decoded(rt.alloc(), input_of(rt.alloc(), *slices, true)?)?;
        row_holds(&rt, row, picture == Some((7, Picture { digest: *digest })));
    }
    Ok(())
}

/// What stands at places of a digest form whose other bytes are 0: of the sets, of the IDR picture
/// 65 88 84 80, and of the P picture 41 9A 23 after it. The offsets are those of the members, in
/// the order and sizes of the form.
type Members = &'static [(usize, &'static [u8])];

const OF_SETS: Members = &[
    // profile_idc to num_ref_frames_in_pic_order_cnt_cycle, and frame_mbs_only with
    // direct_8x8_inference.
    (0, &[0x42, 0, 0x0A, 0, 1, 0, 0, 0, 2, 0, 1, 0]),
    (1044, &[0x50]),
];

const OF_IDR: Members = &[
    // header_bit_size, slice_type, nal_ref_idc, dec_ref_pic_marking_bit_size, IDR_PIC.
    (1541, &[25]),
    (1549, &[2]),
    (1996, &[3]),
    (2024, &[2]),
    (2036, &[1]),
];

const OF_P: Members = &[
    // header_bit_size, the first entry of list 0, and the frame's fields and flags.
    (1541, &[23]),
    (1560, &[3]),
    (1698, &[3]),
    (1707, &[3]),
    // nal_ref_idc, frame_num, both counts, dec_ref_pic_marking_bit_size.
    (1996, &[2, 0, 1, 0, 2, 0, 0, 0, 2]),
    (2024, &[1]),
];

/// The record of a slice without weights: its form of 2,040 bytes, in which all entries of the
/// scaling lists are 16, the number of its bytes, these, and the pictures of its references.
fn record_of(
    alloc: Global,
    members: Members,
    bytes: &[u8],
    pictures: &[u8],
) -> Result<Vec<u8>, AllocError> {
    let mut record = Vec::new(alloc);
    record.resize(1060, 0)?;
    record.resize(1540, 16)?;
    record.resize(2040, 0)?;
    for (at, member) in OF_SETS {
        write_at(&mut record, *at, *member);
    }
    for (at, member) in members {
        write_at(&mut record, *at, *member);
    }
    record.extend_from_slice(&(bytes.len() as u64).to_le_bytes())?;
    record.extend_from_slice(bytes)?;
    record.extend_from_slice(pictures)?;
    Ok(record)
}

/// Writes a member at its place.
fn write_at(record: &mut Vec<u8>, at: usize, member: &[u8]) {
    for (offset, byte) in member.iter().enumerate() {
        if let Some(place) = record.get_mut(at.saturating_add(offset)) {
            *place = *byte;
        }
    }
}

/// Whether the record is so long and its SHA-256 is this.
fn hashes_to(record: &[u8], len: usize, digest: &[u8; 32]) -> bool {
    let mut hasher = Sha256::new();
    hasher.update(record);
    record.len() == len && hasher.finalize() == *digest
}

/// The digests above are those of bytes that are put together here.
#[test]
fn digests_are_those_of_these_bytes(rt: HostRuntime) -> Result<(), Fail> {
    let alloc = rt.alloc();
    let idr = record_of(alloc, OF_IDR, &[0, 0, 1, 0x65, 0x88, 0x84, 0x80], &[])?;
    assert!(rt; hashes_to(&idr, 2055, &ONE_IDR));
    let p = record_of(alloc, OF_P, &[0, 0, 1, 0x41, 0x9A, 0x23], &ONE_IDR)?;
    assert!(rt; hashes_to(&p, 2086, &IDR_AND_P));
    Ok(())
}

/// Slices, whether the frame of unit 1 is there, and whether they are a whole input: none where
/// there is no slice, where the last one is held, another one isn't, timestamps differ or a
/// reference isn't there.
const INPUTS: [(&[Slice], bool, bool); 8] = [
    (&[], true, false),
    (&[Slice::Idr(true)], true, false),
    (&[Slice::Idr(false), Slice::Idr(false)], true, false),
    (&[Slice::Idr(true), Slice::P(Some(0))], true, false),
    (&[Slice::P(Some(1))], true, false),
    (&[Slice::P(Some(0))], false, false),
    (&[Slice::P(None)], false, true),
    (&[Slice::Idr(true), Slice::Idr(false)], false, true),
];

#[test]
fn inputs_are_whole_or_not(rt: HostRuntime) -> Result<(), Fail> {
    for (row, (slices, has_frame, is_whole)) in INPUTS.iter().enumerate() {
        let input = input_of(rt.alloc(), *slices, *has_frame)?;
        row_holds(&rt, row, input.is_whole() == *is_whole);
    }
    Ok(())
}

/// Whether a copy of an input is the same as it, and neither is the same as another.
fn is_its_copy_alone(
    alloc: Global,
    input: &Input<Picture>,
    other: &Input<Picture>,
) -> Result<bool, AllocError> {
    let copy = input.copy(alloc)?;
    Ok(copy.is_same(input) && !copy.is_same(other) && !other.is_same(input))
}

/// What differs from the IDR picture beside the frame of unit 1: the flag, the picture, the frame.
const OTHERS: [(&[Slice], bool); 3] = [
    (&[Slice::Idr(true)], true),
    (&[Slice::P(Some(0))], true),
    (&[Slice::Idr(false)], false),
];

#[test]
fn an_input_is_its_copy_and_no_other(rt: HostRuntime) -> Result<(), Fail> {
    let idr = input_of(rt.alloc(), &[Slice::Idr(false)], true)?;
    for (row, (slices, has_frame)) in OTHERS.iter().enumerate() {
        let other = input_of(rt.alloc(), *slices, *has_frame)?;
        row_holds(&rt, row, is_its_copy_alone(rt.alloc(), &idr, &other)?);
    }
    Ok(())
}

/// The state and the timestamp of a CAPTURE buffer, and the state of a request.
type States = (BufferState, u64, RequestState);

/// Where the CAPTURE buffer and the request are once this slice was run.
fn states_after(
    queues: &mut Queues<u32>,
    request: RequestId,
    slice: &Request,
) -> Result<States, QueueFault> {
    queues.set_controls(request, 5)?;
    let bytes = slice.bytes().clone()?;
    queues.queue_output(0, request, bytes, slice.timestamp, slice.hold)?;
    queues.queue_request(request)?;
    queues.run_one(&mut Recorder::new())?;
    let (buffer, state) = (queues.capture_buffer(0)?, queues.request_state(request)?);
    queues.dequeue_output()?;
    queues.reinit(request)?;
    Ok((buffer.state, buffer.timestamp, state))
}

/// The same after each slice of the picture of two, as a device runs them: one after the other, on
/// one request.
fn states_of_two(alloc: Global) -> Result<(States, States), QueueFault> {
    let first = Slice::FirstOfTwo.request(alloc)?;
    let last = Slice::LastOfTwo.request(alloc)?;
    let mut queues = Queues::new(alloc, 1, 1)?;
    let request = queues.alloc_request()?;
    queues.queue_capture(0)?;
    let after_first = states_after(&mut queues, request, &first)?;
    Ok((after_first, states_after(&mut queues, request, &last)?))
}

/// Two slices of a picture go to one CAPTURE buffer, which is held after the first and done after
/// the second.
#[test]
fn two_slices_hold_one_capture_buffer(rt: HostRuntime) {
    let held = (BufferState::Held, 1000, RequestState::Complete);
    let done = (BufferState::Done, 1000, RequestState::Complete);
    assert!(rt; states_of_two(rt.alloc()) == Ok((held, done)));
}

/// The picture of job 7 with this input: where memory runs out the job comes back, and it is
/// decoded again.
fn decoded_again(alloc: Global, input: Input<Picture>) -> Option<(u64, Picture)> {
    if !input.is_whole() {
        return None;
    }
    let mut device = Device::new(alloc);
    match device.decode(alloc, Job::new(7, input)) {
        Ok(finished) => Some(number_and_picture(finished)),
        Err(undone) => decoded_once_more(alloc, &mut device, undone),
    }
}

fn decoded_once_more(
    alloc: Global,
    device: &mut Device,
    undone: Undone<Picture>,
) -> Option<(u64, Picture)> {
    let Undone { job, cause: _ } = undone;
    match device.decode(alloc, job) {
        Ok(finished) => Some(number_and_picture(finished)),
        Err(undone) => {
            let _ = cause_of(undone);
            None
        }
    }
}

/// Where memory runs out the job comes back, and the same job decoded again gives its picture.
#[test]
fn refused_decode_hands_the_job_back(rt: HostRuntime) {
    if let Ok(input) = input_of(rt.alloc(), &[Slice::P(Some(0))], true) {
        let picture = decoded_again(rt.alloc(), input);
        assert!(rt; picture == Some((7, Picture { digest: IDR_AND_P })));
    }
}
