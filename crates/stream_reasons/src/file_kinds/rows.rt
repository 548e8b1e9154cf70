//! The tables: containers by the bytes at their places, and byte streams by the NAL units in them.

use crate::file_kinds::FileKind;
use crate::file_kinds::headers::Header;
use crate::file_kinds::signatures::{Row, Signature};

/// Files that bytes at places tell, the first that fits being meant.
pub(crate) const CONTAINERS: [Row; 16] = [
    // ISO/IEC 14496-12, 4.3: the file type box.
    Row {
        kind: FileKind::Mp4,
        signatures: &[Signature {
            at: 4,
            bytes: b"ftyp",
        }],
    },
    // ISO/IEC 14496-12, 8.16.2: the segment type box.
    Row {
        kind: FileKind::Mp4,
        signatures: &[Signature {
            at: 4,
            bytes: b"styp",
        }],
    },
    // Apple, QuickTime File Format Specification, "Movie Atoms": files from before ftyp.
    Row {
        kind: FileKind::Mp4,
        signatures: &[
            Signature { at: 0, bytes: &[0] },
            Signature {
                at: 4,
                bytes: b"moov",
            },
        ],
    },
    // The same, "Movie Data Atoms"; ISO/IEC 14496-12, 8.1.1.
    Row {
        kind: FileKind::Mp4,
        signatures: &[Signature {
            at: 4,
            bytes: b"mdat",
        }],
    },
    // The same, "The Wide Atom": eight bytes that keep room for a longer size.
    Row {
        kind: FileKind::Mp4,
        signatures: &[Signature {
            at: 0,
            bytes: b"\x00\x00\x00\x08wide",
        }],
    },
    // ISO/IEC 14496-12, 8.1.2: free space, here of less than 65,536 bytes.
    Row {
        kind: FileKind::Mp4,
        signatures: &[
            Signature {
                at: 0,
                bytes: &[0, 0],
            },
            Signature {
                at: 4,
                bytes: b"free",
            },
        ],
    },
    Row {
        kind: FileKind::Mp4,
        signatures: &[
            Signature {
                at: 0,
                bytes: &[0, 0],
            },
            Signature {
                at: 4,
                bytes: b"skip",
            },
        ],
    },
    // IETF RFC 8794, 11.2.1: the id of the EBML element; RFC 9559, 4: Matroska begins with it.
    Row {
        kind: FileKind::Matroska,
        signatures: &[Signature {
            at: 0,
            bytes: &[0x1A, 0x45, 0xDF, 0xA3],
        }],
    },
    // Microsoft, "AVI RIFF File Reference".
    Row {
        kind: FileKind::Avi,
        signatures: &[
            Signature {
                at: 0,
                bytes: b"RIFF",
            },
            Signature {
                at: 8,
                bytes: b"AVI ",
            },
        ],
    },
    // Adobe Flash Video File Format Specification 10.1, E.2: the signature and version 1.
    Row {
        kind: FileKind::Flv,
        signatures: &[Signature {
            at: 0,
            bytes: b"FLV\x01",
        }],
    },
    // WebM project, libvpx, ivfenc.c: the signature of an IVF file's header.
    Row {
        kind: FileKind::Ivf,
        signatures: &[Signature {
            at: 0,
            bytes: b"DKIF",
        }],
    },
    // MJPEG tools, yuv4mpeg(5): the word of a stream's header.
    Row {
        kind: FileKind::Y4m,
        signatures: &[Signature {
            at: 0,
            bytes: b"YUV4MPEG2",
        }],
    },
    // IETF RFC 3533, 6: the capture pattern of a page.
    Row {
        kind: FileKind::Ogg,
        signatures: &[Signature {
            at: 0,
            bytes: b"OggS",
        }],
    },
    // ITU-T H.222.0, 2.5.3.4: pack_start_code.
    Row {
        kind: FileKind::MpegProgramStream,
        signatures: &[Signature {
            at: 0,
            bytes: &[0, 0, 1, 0xBA],
        }],
    },
    // ITU-T H.222.0, 2.4.3.2: sync_byte, in each packet of 188 bytes; three of them.
    Row {
        kind: FileKind::MpegTransportStream,
        signatures: &[
            Signature {
                at: 0,
                bytes: &[0x47],
            },
            Signature {
                at: 188,
                bytes: &[0x47],
            },
            Signature {
                at: 376,
                bytes: &[0x47],
            },
        ],
    },
    // Blu-ray Disc Association, white paper 2.B: the same with four bytes before each packet.
    Row {
        kind: FileKind::MpegTransportStream,
        signatures: &[
            Signature {
                at: 4,
                bytes: &[0x47],
            },
            Signature {
                at: 196,
                bytes: &[0x47],
            },
            Signature {
                at: 388,
                bytes: &[0x47],
            },
        ],
    },
];

/// What stands after a start code and tells whose byte stream it is.
pub(crate) const HEADERS: [Header; 17] = [
    // ITU-T H.264, 7.3.1 and table 7-1: a sequence parameter set (7), a reference.
    Header {
        kind: FileKind::H264AnnexB,
        bytes: &[0x67],
    },
    Header {
        kind: FileKind::H264AnnexB,
        bytes: &[0x47],
    },
    Header {
        kind: FileKind::H264AnnexB,
        bytes: &[0x27],
    },
    // ITU-T H.265, 7.3.1.2 and table 7-1, layer 0: VPS (32), SPS (33), PPS (34), AUD (35) and
    // prefix SEI (39).
    Header {
        kind: FileKind::HevcAnnexB,
        bytes: &[0x40, 1],
    },
    Header {
        kind: FileKind::HevcAnnexB,
        bytes: &[0x42, 1],
    },
    Header {
        kind: FileKind::HevcAnnexB,
        bytes: &[0x44, 1],
    },
    Header {
        kind: FileKind::HevcAnnexB,
        bytes: &[0x46, 1],
    },
    Header {
        kind: FileKind::HevcAnnexB,
        bytes: &[0x4E, 1],
    },
    // ITU-T H.266, 7.3.1.2 and table 5, layer 0: OPI (12), DCI (13), VPS (14), SPS (15), PPS (16),
    // prefix APS (17), AUD (20) and prefix SEI (23).
    Header {
        kind: FileKind::VvcAnnexB,
        bytes: &[0, 0x61],
    },
    Header {
        kind: FileKind::VvcAnnexB,
        bytes: &[0, 0x69],
    },
    Header {
        kind: FileKind::VvcAnnexB,
        bytes: &[0, 0x71],
    },
    Header {
        kind: FileKind::VvcAnnexB,
        bytes: &[0, 0x79],
    },
    Header {
        kind: FileKind::VvcAnnexB,
        bytes: &[0, 0x81],
    },
    Header {
        kind: FileKind::VvcAnnexB,
        bytes: &[0, 0x89],
    },
    Header {
        kind: FileKind::VvcAnnexB,
        bytes: &[0, 0xA1],
    },
    Header {
        kind: FileKind::VvcAnnexB,
        bytes: &[0, 0xB9],
    },
    // ITU-T H.262, 6.2.1 and table 6-1: sequence_header_code.
    Header {
        kind: FileKind::Mpeg2,
        bytes: &[0xB3],
    },
];
