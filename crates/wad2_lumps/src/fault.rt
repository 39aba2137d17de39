// Why bytes are no wad, and why they have no picture.
use thiserror::Error;

/// Why a file is refused as a wad: the first of these that holds, in this order.
#[derive(Clone, Copy, Debug, PartialEq, Eq, Error)]
pub enum WadFault {
    /// It has fewer than 12 bytes, or doesn't begin with `WAD2`.
    #[error("not wad")]
    NotWad,
    /// The table passes the file's end, or begins behind it.
    #[error("table outside")]
    TableOutside,
}

/// Why a lump is refused as a picture: the first of these that holds, in this order.
#[derive(Clone, Copy, Debug, PartialEq, Eq, Error)]
pub enum PicFault {
    /// The type isn't 66.
    #[error("lump is no picture")]
    NotPicture,
    /// The width or the height exceeds 4096, or the numbers or the pixels pass the file's end.
    #[error("lump outside")]
    Outside,
}
