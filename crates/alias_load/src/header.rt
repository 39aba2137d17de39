// The header of a file.
ghost use Rattle.std.specs.Prelude.{◌≡◌, ◌%◌, ◌&&◌, ◌==◌, length};
ghost use Rattle.base_fields.specs.Faults.{first_fault};
ghost use Rattle.part_plan.specs.Checks.{is_between};
ghost use Rattle.alias_load.specs.declared.fault.AliasFault.TheVariants.{Header};
ghost use Rattle.alias_load.specs.Reading.{header_tests, skins_of, frames_of};

use crate::fault::{AliasFault, AliasField, AliasPart};
use base_fields::u32_at;
use part_plan::is_between;

/// How the skins of a file are laid out, or its frames.
#[derive(Clone, Copy, Debug)]
pub(crate) struct Kind {
    pub(crate) part: AliasPart,
    // the bytes of a group between its count and its intervals
    pub(crate) bounds: usize,
    // the bytes of a picture, or of a pose
    pub(crate) item: usize,
}

fn is_width(width: u32) -> bool
    ensures { result ≡ (is_between 4 4096 width && (width % 4 == 0)) }
{
    is_between(4, 4096, width) && width % 4 == 0
}

// The first fault of a header.
pub(crate) fn header_fault(header: &[u8]) -> Option<AliasFault>
    requires { length header.now ≡ 84 }
    ensures { result ≡ first_fault (header_tests header.now) }
{
    let version = u32_at(header, 4);
    if version != 6 {
        return Some(AliasFault::Version { found: version });
    }
    if !is_between(1, 256, u32_at(header, 48)) {
        return Some(out_of_range(AliasField::Numskins));
    }
    if !is_width(u32_at(header, 52)) {
        return Some(out_of_range(AliasField::Skinwidth));
    }
    if !is_between(1, 4096, u32_at(header, 56)) {
        return Some(out_of_range(AliasField::Skinheight));
    }
    if !is_between(1, 2000, u32_at(header, 60)) {
        return Some(out_of_range(AliasField::Numverts));
    }
    if !is_between(1, 65536, u32_at(header, 64)) {
        return Some(out_of_range(AliasField::Numtris));
    }
    if !is_between(1, 1024, u32_at(header, 68)) {
        return Some(out_of_range(AliasField::Numframes));
    }
    None
}

fn out_of_range(field: AliasField) -> AliasFault
    ensures { result ≡ Header field }
{
    AliasFault::Header { field }
}

// The pictures of skins.
pub(crate) fn skins_of(header: &[u8]) -> Kind
    requires { length header.now ≡ 84 }
    ensures { result ≡ skins_of header.now }
{
    Kind {
        part: AliasPart::Skin,
        bounds: 0,
        item: u32_at(header, 52) as usize * u32_at(header, 56) as usize,
    }
}

// The poses of frames.
pub(crate) fn frames_of(header: &[u8]) -> Kind
    requires { length header.now ≡ 84 }
    ensures { result ≡ frames_of header.now }
{
    Kind {
        part: AliasPart::Frame,
        bounds: 8,
        item: 24 + 4 * u32_at(header, 60) as usize,
    }
}
