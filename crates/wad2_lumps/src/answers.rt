// What is told of a wad.

/// What a wad has under a name.
#[derive(Clone, Copy, Debug, PartialEq, Eq)]
pub enum Lump {
    /// A lump that isn't compressed.
    Found {
        /// The place of its first byte in the file. The lump may pass the file's end.
        offset: u32,
        /// Its length in bytes.
        size: u32,
        /// Its type. A picture has 66.
        kind: u8,
    },
    /// No row has the name.
    Absent,
    /// The first row of the name is that of a compressed lump.
    Compressed,
}

/// A picture, a byte a pixel.
#[derive(Clone, Copy, Debug, PartialEq, Eq)]
pub struct Picture {
    /// In pixels.
    pub width: u32,
    /// In pixels.
    pub height: u32,
    /// The place of its first pixel in the bytes. The others follow it.
    pub offset: u32,
}
