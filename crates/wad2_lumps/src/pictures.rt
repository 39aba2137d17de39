// The pictures of a wad.
ghost use Rattle.std.specs.Prelude.{◌≡◌, ◌+◌, ◌*◌, ◌≤◌, ◌^◌, length, IfOk};
ghost use Rattle.wad2_lumps.specs.Pictures.{picture_in};

use crate::answers::Picture;
use crate::fault::PicFault;
use base_fields::u32_at;

// The type of a picture.
const PICTURE: u8 = 66;

// The greatest width and height.
const MOST: u32 = 4096;

/// The picture of a lump of this type at this place in the bytes, or its first fault. The size of the lump isn't read.
#[tactic(auto, unfolding(crate::specs::Pictures::picture_in))]
pub fn picture(bytes: &[u8], offset: u32, kind: u8) -> Result<Picture, PicFault>
    requires { length bytes.now ≤ 2 ^ 26 }
    ensures value { result ≡ picture_in bytes.now offset kind }
    ensures inside { IfOk result (λ p. p.offset + p.width * p.height ≤ length bytes.now) }
{
    if kind != PICTURE {
        return Err(PicFault::NotPicture);
    }
    let at = offset as usize;
    if at + 8 > bytes.len() {
        return Err(PicFault::Outside);
    }
    let (width, height) = (u32_at(bytes, at), u32_at(bytes, at + 4));
    if width > MOST || height > MOST {
        return Err(PicFault::Outside);
    }
    let pixels = width as usize * height as usize;
    if at + 8 + pixels > bytes.len() {
        return Err(PicFault::Outside);
    }
    Ok(Picture {
        width,
        height,
        offset: offset + 8,
    })
}
