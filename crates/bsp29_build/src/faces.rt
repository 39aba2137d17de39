// Faces: each with its kind.
ghost use Rattle.std.specs.Prelude.{◌≡◌, ◌≢◌, ◌≤◌, ◌<◌, ◌+◌, ◌*◌, ◌/◌, ◌++◌, length, slice_get, Some};
ghost use Rattle.base_fields.specs.Fields.{field, u16_in, u32_bytes};
ghost use Rattle.bsp29_tables.specs.Lumps.{rows_in};
ghost use Rattle.bsp29_build.specs.Rows.{kind_named, texture_kind, face_kind, number_of, with_words};
ghost use Rattle.bsp29_build.specs.Textures.{IsChecked};
ghost use Rattle.bsp29_build.specs.Naming.{NameTexinfos};

use base_fields::{fill_u32, u16_at, u32_at};
use bsp29_tables::{MISSING, texture_count, texture_offset};

/// How a face is drawn, by the name of its texture.
#[derive(Clone, Copy, Debug)]
pub(crate) enum FaceKind {
    Plain,
    Sky,
    Turbulent,
}

impl FaceKind {
    // How the image writes it.
    fn number(self) -> u32
        ensures { result ≡ number_of self }
    {
        self as u32
    }
}

fn kind_named(name: &[u8]) -> FaceKind
    ensures { result ≡ kind_named name.now }
{
    if name.starts_with(b"sky") {
        FaceKind::Sky
    } else if name.starts_with(b"*") {
        FaceKind::Turbulent
    } else {
        FaceKind::Plain
    }
}

// The kind of the faces with this texture: plain ones where there is no such texture.
#[tactic(auto, unfolding(crate::specs::Rows::texture_kind))]
fn texture_kind(textures: &[u8], texture: u32) -> FaceKind
    requires { IsChecked textures.now }
    ensures { result ≡ texture_kind textures.now texture }
{
    if texture >= texture_count(textures) {
        return FaceKind::Plain;
    }
    let at = texture_offset(textures, texture);
    if at == MISSING {
        return FaceKind::Plain;
    }
    let at = at as usize;
    kind_named(&textures[at..at + 16])
}

#[tactic(auto, unfolding(crate::specs::Rows::face_kind))]
fn put_face(textures: &[u8], texinfos: &[u8], face: &[u8], out: &mut [u8])
    requires textures { IsChecked textures.now }
    requires face { length face.now ≡ 20 }
    requires texinfo { 40 * u16_in face.now 10 + 40 ≤ length texinfos.now }
    requires room { length out.old ≡ 24 }
    ensures { out.new ≡ face.now ++ u32_bytes (face_kind textures.now texinfos.now face.now) }
{
    let texinfo = 40 * u16_at(face, 10) as usize;
    let kind = texture_kind(textures, u32_at(texinfos, texinfo + 32));
    let (row, number) = out.split_at_mut(20);
    row.copy_from_slice(face);
    fill_u32(number, kind.number());
}

/// The section of the faces.
pub(crate) fn put_faces(textures: &[u8], texinfos: &[u8], faces: &[u8], out: &mut [u8])
    requires textures { IsChecked textures.now }
    requires named { NameTexinfos texinfos.now (rows_in 20 faces.now) }
    requires room { length out.old ≡ 24 * (length faces.now / 20) }
    ensures { out.new ≡ with_words (face_kind textures.now texinfos.now) (rows_in 20 faces.now) }
{
    for n in 0..faces.len() / 20 {
        put_face(
            textures,
            texinfos,
            &faces[n * 20..n * 20 + 20],
            &mut out[n * 24..n * 24 + 24],
        );
    }
}
