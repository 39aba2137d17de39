// The numbers at the front of an image.
ghost use Rattle.std.specs.Prelude.{◌≡◌, ◌≤◌, length};
ghost use Rattle.alias_load.specs.Headers.{header_in, TellsAlias};

use base_fields::u32_at;

/// What the image of an alias model tells of it.
#[derive(Clone, Copy, Debug, PartialEq, Eq)]
pub struct AliasHeader {
    /// How many skins there are.
    pub skins: u32,
    /// The width of a picture of a skin.
    pub width: u32,
    /// The height of a picture of a skin.
    pub height: u32,
    /// How many vertices a pose has.
    pub vertices: u32,
    /// How many triangles there are.
    pub triangles: u32,
    /// How many frames there are.
    pub frames: u32,
    /// How many pictures all skins have.
    pub pictures: u32,
    /// How many poses all frames have.
    pub poses: u32,
}

/// What the image of an alias model tells of it.
pub fn alias_header(image: &[u8]) -> AliasHeader
    requires { 88 ≤ length image.now }
    ensures value { result ≡ header_in image.now }
    ensures model { TellsAlias result image.now }
{
    AliasHeader {
        skins: u32_at(image, 44),
        width: u32_at(image, 48),
        height: u32_at(image, 52),
        vertices: u32_at(image, 56),
        triangles: u32_at(image, 60),
        frames: u32_at(image, 64),
        pictures: u32_at(image, 80),
        poses: u32_at(image, 84),
    }
}
