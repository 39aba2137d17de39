// Why bytes are no sprite.
use thiserror::Error;

/// Why a file is refused as a sprite. The header is tested first, and then the frames in the order of the file; the
/// first test that fails counts. Frames are numbered from 0.
#[derive(Clone, Copy, Debug, PartialEq, Eq, Error)]
pub enum SpriteFault {
    /// The file has fewer than 36 bytes.
    #[error("short")]
    Short,
    /// The version isn't 1.
    #[error("version {found}")]
    Version { found: u32 },
    /// There isn't a frame, or there are more than 1024.
    #[error("header numframes")]
    Frames,
    /// The file ends within a frame: in its word, in a group's count or intervals, or in a picture's numbers or pixels.
    #[error("truncated frame")]
    Truncated,
    /// The group of this frame has no picture, or more than 1024. It is tested where the file has the count.
    #[error("group frame {row}")]
    Group { row: u32 },
    /// An interval of this frame isn't above 0, as a signed number. It is tested where the file has all of the group's.
    #[error("interval frame {row}")]
    Interval { row: u32 },
    /// A picture of this frame is wider or higher than 4096. It is tested before the file's end is, for the pixels.
    #[error("size frame {row}")]
    Size { row: u32 },
}
