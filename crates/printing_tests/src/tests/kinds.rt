//! Kinds of files, by headers that were made by hand from the formats' documents.

use super::{joined, row_holds};
use std::alloc::{AllocError, Global};
use std::test::Fail;
use stream_reasons::file_kinds::{FIRST_BYTES, FileKind, kind_of};

/// The packet of a transport stream that is filled up (ITU-T H.222.0, 2.4.1: PID 0x1FFF), without
/// its first four bytes.
const FILLING: &[u8] = &[0xFF; 184];

/// Its first four bytes.
const PACKET: &[u8] = &[0x47, 0x1F, 0xFF, 0x10];

/// Those of the packet that begins a table of programs.
const TABLE: &[u8] = &[0x47, 0x40, 0x00, 0x10];

/// The arrival time before a packet on a Blu-ray disc.
const ARRIVAL: &[u8] = &[0x00, 0x47, 0x12, 0x34];

/// The sets and the IDR picture of a stream of H.264.
const A: &[u8] = &[
    0, 0, 1, 0x67, 0x42, 0x00, 0x0A, 0xDA, 0x79, 0, 0, 1, 0x68, 0xCE, 0x38, 0x80, 0, 0, 1, 0x65,
    0x88, 0x84, 0x80,
];

/// The parts that a file begins with, and its kind.
type UnitKind = (&'static [&'static [u8]], FileKind);

const KINDS: [UnitKind; 38] = [
    (
        &[b"\x00\x00\x00\x18ftypisom\x00\x00\x02\x00isommp41"],
        FileKind::Mp4,
    ),
    (
        &[b"\x00\x00\x00\x14ftypqt  \x00\x00\x02\x00qt  \x00\x00\x00\x08wide"],
        FileKind::Mp4,
    ),
    (
        &[b"\x00\x00\x00\x18stypmsdh\x00\x00\x00\x00msdhmsix"],
        FileKind::Mp4,
    ),
    (
        &[b"\x00\x00\x02\x6Cmoov\x00\x00\x00\x6Cmvhd\x00"],
        FileKind::Mp4,
    ),
    (
        &[b"\x00\x00\x10\x00mdat\x00\x00\x00\x02\x09\x10"],
        FileKind::Mp4,
    ),
    (
        &[b"\x00\x00\x00\x08wide\x00\x00\x10\x00mdat"],
        FileKind::Mp4,
    ),
    (
        &[b"\x00\x00\x00\x08free\x00\x00\x10\x00mdat"],
        FileKind::Mp4,
    ),
    (
        &[b"\x00\x00\x00\x08skip\x00\x00\x02\x6Cmoov"],
        FileKind::Mp4,
    ),
    (
        &[b"\x1A\x45\xDF\xA3\xA3\x42\x86\x81\x01\x42\xF7\x81\x01\x42\x82\x88matroska"],
        FileKind::Matroska,
    ),
    (
        &[b"\x1A\x45\xDF\xA3\x9F\x42\x86\x81\x01\x42\xF7\x81\x01\x42\x82\x84webm"],
        FileKind::Matroska,
    ),
    (
        &[TABLE, FILLING, PACKET, FILLING, PACKET, FILLING],
        FileKind::MpegTransportStream,
    ),
    (
        &[
            ARRIVAL, TABLE, FILLING, ARRIVAL, PACKET, FILLING, ARRIVAL, PACKET, FILLING,
        ],
        FileKind::MpegTransportStream,
    ),
    // Two packets alone are none.
    (&[TABLE, FILLING, PACKET, FILLING], FileKind::Unknown),
    (
        &[b"\x00\x00\x01\xBA\x44\x00\x04\x00\x04\x01\x01\x89\xC3\xF8"],
        FileKind::MpegProgramStream,
    ),
    (
        &[b"RIFF\x24\x10\x00\x00AVI LIST\xC0\x00\x00\x00hdrlavih"],
        FileKind::Avi,
    ),
    (
        &[b"RIFF\x24\x10\x00\x00WAVEfmt \x10\x00"],
        FileKind::Unknown,
    ),
    (
        &[b"FLV\x01\x05\x00\x00\x00\x09\x00\x00\x00\x00"],
        FileKind::Flv,
    ),
    (
        &[b"DKIF\x00\x00\x20\x00VP80\xB0\x00\x90\x00"],
        FileKind::Ivf,
    ),
    (
        &[b"YUV4MPEG2 W176 H144 F25:1 Ip A1:1\nFRAME\n"],
        FileKind::Y4m,
    ),
    (
        &[b"OggS\x00\x02\x00\x00\x00\x00\x00\x00\x00\x00"],
        FileKind::Ogg,
    ),
    // H.265: a video parameter set, and a delimiter before one.
    (
        &[b"\x00\x00\x00\x01\x40\x01\x0C\x01\xFF\xFF\x01\x60"],
        FileKind::HevcAnnexB,
    ),
    (
        &[b"\x00\x00\x00\x01\x46\x01\x50\x00\x00\x00\x01\x40\x01\x0C\x01"],
        FileKind::HevcAnnexB,
    ),
    (&[b"\x00\x00\x01\x42\x01\x01\x01\x60"], FileKind::HevcAnnexB),
    (&[b"\x00\x00\x01\x44\x01\xC1\x72"], FileKind::HevcAnnexB),
    (&[b"\x00\x00\x01\x4E\x01\x05\xFF"], FileKind::HevcAnnexB),
    // H.266: parameter sets of the three kinds, and a delimiter before one.
    (&[b"\x00\x00\x00\x01\x00\x71\x10\x00"], FileKind::VvcAnnexB),
    (&[b"\x00\x00\x00\x01\x00\x79\x00\x0B"], FileKind::VvcAnnexB),
    (&[b"\x00\x00\x00\x01\x00\x81\x00\x00"], FileKind::VvcAnnexB),
    (
        &[b"\x00\x00\x01\x00\xA1\x28\x00\x00\x00\x01\x00\x79\x00\x0B"],
        FileKind::VvcAnnexB,
    ),
    (
        &[b"\x00\x00\x01\xB3\x16\x00\xF0\x15\xFF\xFF\xE0\x18"],
        FileKind::Mpeg2,
    ),
    // A sequence parameter set and a picture parameter set after their lengths; and the first
    // alone, which may be anything.
    (
        &[b"\x00\x00\x00\x06\x67\x42\x00\x0A\xDA\x79\x00\x00\x00\x04\x68\xCE\x38\x80"],
        FileKind::LengthPrefixedH264,
    ),
    (
        &[b"\x00\x00\x00\x06\x67\x42\x00\x0A\xDA\x79"],
        FileKind::Unknown,
    ),
    (&[A], FileKind::H264AnnexB),
    // A delimiter and an IDR slice, without parameter sets.
    (
        &[b"\x00\x00\x00\x01\x09\xF0\x00\x00\x01\x65\x88\x84\x80"],
        FileKind::H264AnnexB,
    ),
    (&[b"load a.264\nunit 1\n"], FileKind::Text),
    (
        &[b"\xEF\xBB\xBFpr\xC3\xA9c\xC3\xA9dent\r\n"],
        FileKind::Text,
    ),
    (&[], FileKind::Empty),
    // The header of a JPEG file.
    (
        &[b"\xFF\xD8\xFF\xE0\x00\x10JFIF\x00\x01\x02"],
        FileKind::Unknown,
    ),
];

/// Whether the row's file is of its kind.
fn kind_holds(alloc: Global, row: &UnitKind) -> Result<bool, AllocError> {
    Ok(kind_of(&joined(alloc, row.0)?) == row.1)
}

#[test]
fn kinds_are_told_by_first_bytes(rt: HostRuntime) -> Result<(), Fail> {
    for (row, kind) in KINDS.iter().enumerate() {
        row_holds(&rt, row, kind_holds(rt.alloc(), kind)?);
    }
    Ok(())
}

#[test]
fn no_byte_behind_the_first_65536_tells(rt: HostRuntime) -> Result<(), Fail> {
    let mut text = vec![in rt.alloc(); b'a'; FIRST_BYTES]?;
    text.push(0)?;
    row_holds(&rt, 0, kind_of(&text) == FileKind::Text);
    Ok(())
}
