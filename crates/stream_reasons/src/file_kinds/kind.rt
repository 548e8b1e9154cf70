//! Kinds of files, and what is said of them.

ghost use Rattle.std.specs.Prelude.{◌≡◌};
ghost use Rattle.std.specs.Option.{option_copied};
ghost use Rattle.stream_reasons.specs.Texts.{command_for, name_of, sentence_of};

/// What a file is.
#[derive(Clone, Copy, Debug, PartialEq, Eq, Hash)]
pub enum FileKind {
    /// MP4 or QuickTime (MOV), and what is built as these are.
    Mp4,
    /// Matroska or WebM.
    Matroska,
    MpegTransportStream,
    MpegProgramStream,
    Avi,
    /// Flash Video.
    Flv,
    /// What libvpx and libaom write: VP8, VP9 or AV1.
    Ivf,
    /// Uncoded pictures, YUV4MPEG2.
    Y4m,
    Ogg,
    /// A byte stream of H.265.
    HevcAnnexB,
    /// A byte stream of H.266.
    VvcAnnexB,
    /// Video of MPEG-1 or MPEG-2 alone.
    Mpeg2,
    /// H.264 whose NAL units have their lengths before them, and no start codes.
    LengthPrefixedH264,
    /// A byte stream of H.264, or one that begins with a start code and isn't known for another.
    H264AnnexB,
    Text,
    /// A file without a byte.
    Empty,
    /// A directory, which the system says, and no byte.
    Directory,
    /// None of these.
    Unknown,
}

impl FileKind {
    /// The kind's name, for a program.
    pub fn name(self) -> &'static str
        ensures { result.now ≡ name_of self }
    {
        match self {
            FileKind::Mp4 => "Mp4",
            FileKind::Matroska => "Matroska",
            FileKind::MpegTransportStream => "MpegTransportStream",
            FileKind::MpegProgramStream => "MpegProgramStream",
            FileKind::Avi => "Avi",
            FileKind::Flv => "Flv",
            FileKind::Ivf => "Ivf",
            FileKind::Y4m => "Y4m",
            FileKind::Ogg => "Ogg",
            FileKind::HevcAnnexB => "HevcAnnexB",
            FileKind::VvcAnnexB => "VvcAnnexB",
            FileKind::Mpeg2 => "Mpeg2",
            FileKind::LengthPrefixedH264 => "LengthPrefixedH264",
            FileKind::H264AnnexB => "H264AnnexB",
            FileKind::Text => "Text",
            FileKind::Empty => "Empty",
            FileKind::Directory => "Directory",
            FileKind::Unknown => "Unknown",
        }
    }

    /// What the file is, in a sentence without its full stop.
    pub fn sentence(self) -> &'static str
        ensures { result.now ≡ sentence_of self }
    {
        match self {
            FileKind::Mp4 => "an MP4 or MOV file, a container",
            FileKind::Matroska => "a Matroska or WebM file, a container",
            FileKind::MpegTransportStream => "an MPEG transport stream, a container",
            FileKind::MpegProgramStream =>
                "an MPEG program stream, a container of MPEG-1 or MPEG-2 video",
            FileKind::Avi => "an AVI file, a container",
            FileKind::Flv => "a Flash Video file, a container",
            FileKind::Ivf => "an IVF file, which holds VP8, VP9 or AV1",
            FileKind::Y4m => "a YUV4MPEG2 file, which holds uncompressed pictures",
            FileKind::Ogg => "an Ogg file, a container that doesn't hold H.264",
            FileKind::HevcAnnexB => "HEVC (H.265) video",
            FileKind::VvcAnnexB => "VVC (H.266) video",
            FileKind::Mpeg2 => "MPEG-1 or MPEG-2 video",
            FileKind::LengthPrefixedH264 => {
                "H.264 with a length before each NAL unit in place of a start code"
            }
            FileKind::H264AnnexB => "a byte stream of H.264 (Annex B)",
            FileKind::Text => "a text file",
            FileKind::Empty => "an empty file",
            FileKind::Directory => "a directory",
            FileKind::Unknown => "a file of an unknown kind",
        }
    }

    /// The command of ffmpeg that makes a byte stream of H.264 of it: it copies the video of
    /// containers in which H.264 comes, which fails where they hold another, and encodes others.
    pub fn command(self) -> Option<&'static str>
        ensures { option_copied result ≡ command_for self }
    {
        match self {
            FileKind::Mp4
            | FileKind::Matroska
            | FileKind::MpegTransportStream
            | FileKind::Avi
            | FileKind::Flv => Some("ffmpeg -i FILE -map 0:v:0 -c copy -f h264 OUT.264"),
            FileKind::MpegProgramStream
            | FileKind::Ivf
            | FileKind::Y4m
            | FileKind::Ogg
            | FileKind::HevcAnnexB
            | FileKind::Mpeg2 => {
                Some("ffmpeg -i FILE -map 0:v:0 -c:v libx264 -pix_fmt yuv420p -f h264 OUT.264")
            }
            FileKind::VvcAnnexB
            | FileKind::LengthPrefixedH264
            | FileKind::H264AnnexB
            | FileKind::Text
            | FileKind::Empty
            | FileKind::Directory
            | FileKind::Unknown => None,
        }
    }
}
