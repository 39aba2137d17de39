// Why bytes are no alias model.
use std::fmt;
use thiserror::Error;

/// The parts of a file behind its header.
#[derive(Clone, Copy, Debug, PartialEq, Eq)]
pub enum AliasPart {
    /// A skin.
    Skin,
    /// The st vertices.
    St,
    /// The triangles.
    Triangle,
    /// A frame.
    Frame,
}

impl fmt::Display for AliasPart {
    fn fmt<W: fmt::Write>(&self, f: &mut fmt::Formatter<W>) -> fmt::Result {
        f.write_str(match self {
            AliasPart::Skin => "skin",
            AliasPart::St => "st",
            AliasPart::Triangle => "triangle",
            AliasPart::Frame => "frame",
        })
    }
}

/// The numbers of the header that have to lie in a range.
#[derive(Clone, Copy, Debug, PartialEq, Eq)]
pub enum AliasField {
    /// 1 to 256 skins.
    Numskins,
    /// A multiple of 4, from 4 to 4096.
    Skinwidth,
    /// 1 to 4096.
    Skinheight,
    /// 1 to 2000 vertices.
    Numverts,
    /// 1 to 65536 triangles.
    Numtris,
    /// 1 to 1024 frames.
    Numframes,
}

impl fmt::Display for AliasField {
    fn fmt<W: fmt::Write>(&self, f: &mut fmt::Formatter<W>) -> fmt::Result {
        f.write_str(match self {
            AliasField::Numskins => "numskins",
            AliasField::Skinwidth => "skinwidth",
            AliasField::Skinheight => "skinheight",
            AliasField::Numverts => "numverts",
            AliasField::Numtris => "numtris",
            AliasField::Numframes => "numframes",
        })
    }
}

/// Why a file is refused as an alias model: the fault of its first part that fails, the header before all, by the first
/// test that this part fails. Rows count from 0.
#[derive(Clone, Copy, Debug, PartialEq, Eq, Error)]
pub enum AliasFault {
    /// It has fewer than 84 bytes.
    #[error("short")]
    Short,
    /// The version isn't 6.
    #[error("version {found}")]
    Version { found: u32 },
    /// A number of the header is out of its range.
    #[error("header {field}")]
    Header { field: AliasField },
    /// The file ends within the part.
    #[error("truncated {part}")]
    Truncated { part: AliasPart },
    /// The count of a group isn't 1 to 1024.
    #[error("group {part} {row}")]
    Group { part: AliasPart, row: u32 },
    /// An interval of a group isn't greater than 0, as a signed number.
    #[error("interval {part} {row}")]
    Interval { part: AliasPart, row: u32 },
    /// A triangle has a vertex that isn't there.
    #[error("triangle {row}")]
    Triangle { row: u32 },
}
