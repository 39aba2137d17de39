// The builder of alias models.
ghost use Rattle.std.specs.Prelude.{◌≡◌, ◌≤◌, ◌^◌, length, Ok, IfOk, IsOkAnd};
ghost use Rattle.mem_model.specs.Images.{image_size};
ghost use Rattle.alias_load.specs.Reading.{skins_of};
ghost use Rattle.alias_load.specs.Images.{pieces, front_of, image_of};
ghost use Rattle.alias_load.specs.Sizes.{IsSound};
ghost use Rattle.alias_load.specs.Sections.{Suits, piece_of};
ghost use Rattle.alias_load.specs.Measures.{IsMeasured, skins_bytes, frames_bytes, length_of};
ghost use Rattle.alias_load.specs.Measures.{skins_in, frames_in, text_of};

use crate::fault::AliasFault;
use crate::file::{File, read_file};
use crate::header::{frames_of, skins_of};
use crate::section::{Section, put_section, section_length};
use base_fields::{fill_u32, u32_at};
use mem_model::Builder;

/// Makes the images of alias models.
#[derive(Clone, Copy, Debug)]
pub struct AliasBuilder;

// The bytes of a section of the skins.
#[tactic(auto, using(crate::proofs::FileLaws::header_laws))]
fn skins_length(file: &File, section: Section) -> usize
    requires sound { IsSound file.now }
    requires suits { Suits section (skins_of file.now.header.now) }
    ensures value { result ≡ skins_bytes file.now section }
    ensures few { result ≤ 2 ^ 49 }
{
    section_length(
        section,
        skins_of(file.header),
        u32_at(file.header, 48),
        file.pictures,
    )
}

// The bytes of a section of the frames.
#[tactic(auto, using(crate::proofs::FileLaws::header_laws))]
fn frames_length(file: &File, section: Section) -> usize
    requires sound { IsSound file.now }
    ensures value { result ≡ frames_bytes file.now section }
    ensures few { result ≤ 2 ^ 49 }
{
    section_length(
        section,
        frames_of(file.header),
        u32_at(file.header, 68),
        file.poses,
    )
}

// The length of the image in bytes.
#[tactic(auto, using(crate::proofs::ImageLaws::size_laws))]
fn image_length(source: &[u8]) -> Result<u64, AliasFault>
    requires { length source.now ≤ 2 ^ 26 }
    ensures { result ≡ image_size (image_of source.now) }
{
    let file = read_file(source)?;
    let of_skins = skins_length(&file, Section::SkinRows)
        + skins_length(&file, Section::Intervals)
        + skins_length(&file, Section::Pictures);
    let of_frames = frames_length(&file, Section::FrameRows)
        + frames_length(&file, Section::PoseRows)
        + frames_length(&file, Section::Vertices);
    Ok((88 + of_skins + of_frames + file.st_vertices.len() + file.triangles.len()) as u64)
}

// The front of the image, with what it tells of the file.
fn put_front(block: &mut [u8], file: &File)
    requires len { length block.old ≡ 88 }
    requires header { length file.now.header.now ≡ 84 }
    ensures { block.new ≡ front_of file.now.header.now file.now.pictures file.now.poses }
{
    let (number, rest) = block.split_at_mut(4);
    let (fields, rest) = rest.split_at_mut(76);
    let (pictures, poses) = rest.split_at_mut(4);
    fill_u32(number, 2);
    fields.copy_from_slice(&file.header[8..]);
    fill_u32(pictures, file.pictures);
    fill_u32(poses, file.poses);
}

// A section of the skins.
#[tactic(auto, using(crate::proofs::FileLaws::header_laws, crate::proofs::ImageLaws::skins_room))]
fn put_skins(block: &mut [u8], file: &File, section: Section)
    requires sound { IsSound file.now }
    requires measured { IsMeasured file.now }
    requires suits { Suits section (skins_of file.now.header.now) }
    requires len { length block.old ≡ skins_bytes file.now section }
    ensures { IfOk (skins_in file.now) (λ x. block.new ≡ pieces (piece_of section) 0 x.0) }
{
    put_section(
        block,
        section,
        skins_of(file.header),
        u32_at(file.header, 48),
        file.skins,
    );
}

// A section of the frames.
#[tactic(auto, using(crate::proofs::FileLaws::header_laws, crate::proofs::ImageLaws::frames_room))]
fn put_frames(block: &mut [u8], file: &File, section: Section)
    requires sound { IsSound file.now }
    requires measured { IsMeasured file.now }
    requires len { length block.old ≡ frames_bytes file.now section }
    ensures { IfOk (frames_in file.now) (λ x. block.new ≡ pieces (piece_of section) 0 x.0) }
{
    put_section(
        block,
        section,
        frames_of(file.header),
        u32_at(file.header, 68),
        file.frames,
    );
}

// The parts of the image, one behind the other.
#[tactic(auto, using(crate::proofs::ImageLaws::joined))]
fn put_parts(block: &mut [u8], file: &File)
    requires sound { IsSound file.now }
    requires measured { IsMeasured file.now }
    requires len { length block.old ≡ length_of file.now }
    ensures { IfOk (skins_in file.now) (λ x. IfOk (frames_in file.now) (λ y. block.new ≡ text_of file.now x.0 y.0)) }
{
    let (front, rest) = block.split_at_mut(88);
    let (skin_rows, rest) = rest.split_at_mut(skins_length(file, Section::SkinRows));
    let (frame_rows, rest) = rest.split_at_mut(frames_length(file, Section::FrameRows));
    let (intervals, rest) = rest.split_at_mut(skins_length(file, Section::Intervals));
    let (pose_rows, rest) = rest.split_at_mut(frames_length(file, Section::PoseRows));
    let (st_vertices, rest) = rest.split_at_mut(file.st_vertices.len());
    let (triangles, rest) = rest.split_at_mut(file.triangles.len());
    let (pictures, vertices) = rest.split_at_mut(skins_length(file, Section::Pictures));
    put_front(front, file);
    put_skins(skin_rows, file, Section::SkinRows);
    put_frames(frame_rows, file, Section::FrameRows);
    put_skins(intervals, file, Section::Intervals);
    put_frames(pose_rows, file, Section::PoseRows);
    st_vertices.copy_from_slice(file.st_vertices);
    triangles.copy_from_slice(file.triangles);
    put_skins(pictures, file, Section::Pictures);
    put_frames(vertices, file, Section::Vertices);
}

// The block becomes the image.
#[tactic(auto, using(crate::proofs::ImageLaws::image_laws))]
fn put_image(block: &mut [u8], source: &[u8])
    requires small { length source.now ≤ 2 ^ 26 }
    requires image { IsOkAnd (image_of source.now) (λ image. length image ≡ length block.old) }
    ensures { image_of source.now ≡ Ok block.new }
{
    let file = match read_file(source) {
        Ok(file) => file,
        Err(_) => unreachable!(),
    };
    put_parts(block, &file);
}

impl Builder for AliasBuilder {
    type Fault = AliasFault;

    ghost image_of = { λ _ source. image_of source };

    fn size(&self, source: &[u8]) -> Result<u64, AliasFault> {
        image_length(source)
    }

    fn build(&self, source: &[u8], block: &mut [u8]) {
        put_image(block, source);
    }
}
