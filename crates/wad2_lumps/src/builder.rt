// The builder of wads.
ghost use Rattle.std.specs.Prelude.{◌≡◌, length, Ok, IsOkAnd};
ghost use Rattle.mem_model.specs.Images.{image_size};
ghost use Rattle.wad2_lumps.specs.Images.{image_of};

use crate::fault::WadFault;
use crate::table::check_wad;
use mem_model::Builder;

/// Makes the images of wads.
#[derive(Clone, Copy, Debug)]
pub struct WadBuilder;

// The length of the image in bytes.
#[tactic(auto, unfolding(crate::specs::Images::image_of, crate::specs::Wads::wad_in))]
fn image_length(source: &[u8]) -> Result<u64, WadFault>
    ensures { result ≡ image_size (image_of source.now) }
{
    check_wad(source)?;
    Ok(source.len() as u64)
}

// The block becomes the image.
#[tactic(auto, using(crate::proofs::ImageLaws::image_laws))]
fn put_image(block: &mut [u8], source: &[u8])
    requires { IsOkAnd (image_of source.now) (λ image. length image ≡ length block.old) }
    ensures { image_of source.now ≡ Ok block.new }
{
    block.copy_from_slice(source);
}

impl Builder for WadBuilder {
    type Fault = WadFault;

    ghost image_of = { λ _ source. image_of source };

    fn size(&self, source: &[u8]) -> Result<u64, WadFault> {
        image_length(source)
    }

    fn build(&self, source: &[u8], block: &mut [u8]) {
        put_image(block, source);
    }
}
