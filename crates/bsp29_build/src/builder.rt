// The builder of brush models.
ghost use Rattle.std.specs.Prelude.{◌≡◌, length, Ok, IsOk, IsOkAnd, IfOk};
ghost use Rattle.mem_model.specs.Images.{image_size};
ghost use Rattle.bsp29_build.specs.Images.{image_of};

use crate::images::put_image;
use bsp29_tables::{BspFault, check_bsp};
use mem_model::Builder;

/// Makes the images of brush models.
#[derive(Clone, Copy, Debug)]
pub struct BspBuilder;

// The length of the image in bytes.
#[tactic(auto, using(crate::proofs::FineLaws::fine_laws, crate::proofs::ImageLaws::size_laws))]
fn image_length(source: &[u8]) -> Result<u64, BspFault>
    ensures { result ≡ image_size (image_of source.now) }
{
    check_bsp(source)?;
    Ok(bsp29_tables::image_size(source))
}

// The length of the image of a file that is known to have one.
#[tactic(auto, using(crate::proofs::FineLaws::fine_laws, crate::proofs::ImageLaws::counted_laws))]
fn counted_length(source: &[u8]) -> u64
    requires { IsOk (image_of source.now) }
    ensures { IfOk (image_of source.now) (λ image. result ≡ length image) }
{
    bsp29_tables::image_size(source)
}

// The block becomes the image.
#[tactic(auto, using(crate::proofs::ImageLaws::image_laws))]
fn fill(block: &mut [u8], source: &[u8])
    requires { IsOkAnd (image_of source.now) (λ image. length image ≡ length block.old) }
    ensures { image_of source.now ≡ Ok block.new }
{
    put_image(source, block);
}

impl Builder for BspBuilder {
    type Fault = BspFault;

    ghost image_of = { λ _ source. image_of source };

    fn size(&self, source: &[u8]) -> Result<u64, BspFault> {
        image_length(source)
    }

    // The file has passed its tests before: they aren't made again.
    fn length(&self, source: &[u8]) -> u64 {
        counted_length(source)
    }

    fn build(&self, source: &[u8], block: &mut [u8]) {
        fill(block, source);
    }
}
