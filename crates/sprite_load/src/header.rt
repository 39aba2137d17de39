// The numbers at the front of an image.
ghost use Rattle.std.specs.Prelude.{◌≡◌, ◌≤◌, length};
ghost use Rattle.sprite_load.specs.Headers.{header_in, TellsSprite};

use base_fields::u32_at;

/// What the image of a sprite tells of it.
#[derive(Clone, Copy, Debug, PartialEq, Eq)]
pub struct SpriteHeader {
    /// The type: how the sprite is turned to the view.
    pub kind: u32,
    /// How many frames there are.
    pub frames: u32,
    /// How many pictures all of them have.
    pub pictures: u32,
}

/// What the image of a sprite tells of it.
pub fn sprite_header(image: &[u8]) -> SpriteHeader
    requires { 36 ≤ length image.now }
    ensures value { result ≡ header_in image.now }
    ensures sprite { TellsSprite result image.now }
{
    SpriteHeader {
        kind: u32_at(image, 4),
        frames: u32_at(image, 20),
        pictures: u32_at(image, 32),
    }
}
