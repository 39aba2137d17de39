// The builder of every kind of resource, and what it is to make.
ghost use Rattle.res_table.specs.Images.{image_of, told_by};

use crate::answers::Fault;
use crate::kinds::Kind;
use alias_load::AliasBuilder;
use bsp29_build::BspBuilder;
use mem_model::Builder;
use sprite_load::SpriteBuilder;
use wad2_lumps::WadBuilder;
use wav_load::WavBuilder;

/// Makes the images of one kind.
#[derive(Clone, Copy, Debug)]
pub(crate) struct ImageBuilder {
    /// Samples a second.
    pub(crate) speed: u32,
    pub(crate) kind: Kind,
}

/// An image that is to be made.
#[derive(Clone, Copy, Debug)]
pub(crate) struct NewImage {
    pub(crate) builder: ImageBuilder,
    /// Of how many temporary bytes it is made.
    pub(crate) length: usize,
    /// Of how many bytes it is.
    pub(crate) size: u32,
}

impl Builder for ImageBuilder {
    type Fault = Fault;

    ghost image_of = { λ builder source. image_of builder.speed builder.kind source };

    fn size(&self, source: &[u8]) -> Result<u64, Fault> {
        match self.kind {
            Kind::Brush => BspBuilder.size(source).map_err(Fault::Brush),
            Kind::Alias => AliasBuilder.size(source).map_err(Fault::Alias),
            Kind::Sprite => SpriteBuilder.size(source).map_err(Fault::Sprite),
            Kind::Wad => WadBuilder.size(source).map_err(Fault::Wad),
            Kind::Sound => WavBuilder { speed: self.speed }
                .size(source)
                .map_err(Fault::Sound),
        }
    }

    fn length(&self, source: &[u8]) -> u64 {
        match self.kind {
            Kind::Brush => BspBuilder.length(source),
            Kind::Alias => AliasBuilder.length(source),
            Kind::Sprite => SpriteBuilder.length(source),
            Kind::Wad => WadBuilder.length(source),
            Kind::Sound => WavBuilder { speed: self.speed }.length(source),
        }
    }

    fn build(&self, source: &[u8], block: &mut [u8]) {
        match self.kind {
            Kind::Brush => BspBuilder.build(source, block),
            Kind::Alias => AliasBuilder.build(source, block),
            Kind::Sprite => SpriteBuilder.build(source, block),
            Kind::Wad => WadBuilder.build(source, block),
            Kind::Sound => WavBuilder { speed: self.speed }.build(source, block),
        }
    }
}
