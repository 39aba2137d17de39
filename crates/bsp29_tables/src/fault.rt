// Why bytes are no brush model.
use thiserror::Error;

/// Why a file is refused as a brush model: the first of these that holds, in this order. Lumps are numbered as in the
/// header, from 0; rows and textures from 0 too.
#[derive(Clone, Copy, Debug, PartialEq, Eq, Error)]
pub enum BspFault {
    /// It has fewer than 124 bytes.
    #[error("short")]
    Short,
    /// The version isn't 29.
    #[error("version {found}")]
    Version { found: u32 },
    /// The lump isn't empty, and passes the end of the file.
    #[error("lump {lump} outside")]
    LumpOutside { lump: u32 },
    /// The lump isn't a whole number of rows. It is tested before the next lump is.
    #[error("lump {lump} size")]
    LumpSize { lump: u32 },
    /// There are more than 32768 nodes or leafs. It is tested before the next lump is.
    #[error("lump {lump} too many")]
    LumpCount { lump: u32 },
    /// There is no model.
    #[error("no model")]
    NoModel,
    /// The texture lump isn't empty, and its count of textures passes its end or is above 4096, or their offsets pass
    /// its end.
    #[error("texture table")]
    TextureTable,
    /// The 40 bytes of the texture pass the end of the lump, or its pixels do. The pixels are tested behind the size.
    #[error("texture {texture} outside")]
    TextureOutside { texture: u32 },
    /// The width or the height of the texture is no multiple of 16 or above 16384. It is tested before the next texture
    /// is.
    #[error("texture {texture} size")]
    TextureSize { texture: u32 },
    /// The name of the texture begins with `+`, so that it is a frame of an animation, but the byte behind it is neither
    /// a digit nor a letter from A to J, large or small. All textures are tested before the next.
    #[error("texture {texture} bad animation")]
    BadAnimation { texture: u32 },
    /// An animation lacks a frame below its greatest digit or its greatest letter. The texture is the first of the
    /// animation's; the frame is the least digit that is lacking, or else the least letter, as a capital.
    #[error("texture {texture} missing frame {}", char::from(*.frame))]
    MissingFrame { texture: u32, frame: u8 },
    /// The row names something that isn't there, or its contents aren't those of a leaf.
    #[error("lump {lump} row {row}")]
    BadRow { lump: u32, row: u32 },
    /// The image would have 2 ^ 31 bytes or more.
    #[error("too large")]
    TooLarge,
}
