// Loading a resource.
ghost use Rattle.std.specs.Prelude.{◌≡◌, ◌<◌, ◌∷◌, [], None, Ok, IfErr, IfOk, IsErrOf, IsSomeAnd, OnOk, false, true};
ghost use Rattle.base_fields.specs.Names.{base_of};
ghost use Rattle.mem_model.specs.Cache.{peek_bytes};
ghost use Rattle.mem_model.specs.Hunk.{temp_bytes};
ghost use Rattle.mem_model.specs.Images.{HasBytes, front_of, image_size};
ghost use Rattle.mem_model.specs.Keeps.{KeepsAll};
ghost use Rattle.mem_model.specs.Laid.{IsText, Laid};
ghost use Rattle.mem_model.specs.Told.{room_answer};
ghost use Rattle.search_paths.specs.Counts.{NoneFalls};
ghost use Rattle.search_paths.specs.Path.{rows_of, told_mounts, counts_of, SamePath};
ghost use Rattle.file_load.specs.Loads.{load_temp};
ghost use Rattle.res_table.specs.Calls.{AsksOnce};
ghost use Rattle.res_table.specs.Images.{kind_of};
ghost use Rattle.res_table.specs.Loads.{Makes, made_of, sized_as};
ghost use Rattle.res_table.specs.Acquire.{loaded_of};
ghost use Rattle.res_table.specs.Faults.{IsAcquireFault};
ghost use Rattle.res_table.specs.Held.{IsImageOf, bytes_at};
ghost use Rattle.res_table.specs.Kept.{BeginsWith, GrowsLow, loaded_for, made_for, users_for};
ghost use Rattle.res_table.specs.Placed.{GivesOrEnds, low_at, put_as};
ghost use Rattle.res_table.specs.Ready.{IsFree, IsReady, image_in};

use crate::answers::{AcquireError, Fault, Res};
use crate::builder::{ImageBuilder, NewImage};
use crate::cached::build_cached;
use crate::kinds::{Kind, Table};
use crate::lowered::{build_lowered, build_through_low};
use base_fields::GameName;
use file_load::load_temp;
use mem_model::{Builder, Place, RoomError, Store};
use outside_io::Folder;
use search_paths::Paths;

// The image that the first `length` temporary bytes have.
#[tactic(auto, using(crate::proofs::Loading::source_small))]
fn image_of<M: Store>(store: &M, speed: u32, table: Table, length: usize) -> Result<NewImage, Fault>
    requires source { HasBytes (temp_bytes (M.state store.now)) length }
    ensures { result ≡ sized_as speed length (front_of (temp_bytes (M.state store.now)) length)
        (kind_of table (front_of (temp_bytes (M.state store.now)) length)) }
{
    let source = &store.temp_bytes().unwrap()[..length];
    let kind = table.kind(source);
    let builder = ImageBuilder { speed, kind };
    let size = builder.size(source)? as u32;
    Ok(NewImage {
        builder,
        length,
        size,
    })
}

// Builds the image where one of its kind belongs.
fn build_image<M: Store>(
    store: &mut M,
    user: u32,
    image: &NewImage,
    name: &[u8],
) -> Result<Place, RoomError>
    requires free { IsFree (M.state store.old) user }
    requires ready { IsReady (M.state store.old) image.now }
    requires name { IsText name.now }
    ensures gives { IfOk (image_in (M.state store.old) image.now) (λ made. GivesOrEnds
        (put_as image.now.builder.kind (M.state store.old) user made name.now) M.frugal (room_answer result)
        (M.state store.new)) }
    ensures built { IfOk result (λ place. IfOk (image_in (M.state store.old) image.now)
        (BeginsWith (bytes_at (M.state store.new) user (low_at image.now.builder.kind place.0)))) }
    ensures keeps { KeepsAll (made_for (users_for image.now.builder.kind user) result) (M.state store.old)
        (M.state store.new) }
    ensures low { GrowsLow (M.state store.old) (M.state store.new) }
    ensures refused { IfErr result (λ _. (M.state store.new).low ≡ (M.state store.old).low) }
    ensures zone { (M.state store.new).zone ≡ (M.state store.old).zone }
    ensures laid { Laid (M.state store.new) }
{
    match image.builder.kind {
        Kind::Alias => build_through_low(store, user, image, name),
        Kind::Brush | Kind::Sprite | Kind::Wad => build_lowered(store, image, name),
        Kind::Sound => build_cached(store, user, image, name),
    }
}

// Loads the file for a user that has no block.
pub(crate) fn load<M: Store, F: Folder>(
    store: &mut M,
    paths: &mut Paths<F>,
    speed: u32,
    table: Table,
    user: u32,
    file: &GameName,
) -> Result<Res, AcquireError>
    requires laid { Laid (M.state store.old) }
    requires free { IsFree (M.state store.old) user }
    ensures makes { Makes (made_of speed table user (base_of file.now))
        (load_temp (told_mounts F.files paths.old) (M.state store.old) file.now) result (M.state store.new) }
    ensures built { IfOk result (λ res. IsSomeAnd (bytes_at (M.state store.new) user (loaded_of res).low)
        (IsImageOf speed (told_mounts F.files paths.old) table file.now (loaded_of res))) }
    ensures keeps { KeepsAll (loaded_for user result) (M.state store.old) (M.state store.new) }
    ensures low { GrowsLow (M.state store.old) (M.state store.new) }
    ensures refused { IfErr result (λ _. (M.state store.new).low ≡ (M.state store.old).low) }
    ensures zone { (M.state store.new).zone ≡ (M.state store.old).zone }
    ensures fresh { IfOk result (λ res. res.loaded ≡ true) }
    ensures memory { IsErrOf result AcquireError.OutOfMemory → M.frugal ≡ false }
    ensures laid { Laid (M.state store.new) }

    // The path.
    ensures same { SamePath F.files paths.old paths.new }
    ensures asked { AsksOnce F.folder_calls file.now (told_mounts F.files paths.old) (rows_of paths.old)
        paths.old.folders paths.new.folders result }
    ensures faults { NoneFalls (counts_of F.folder_faults paths.old) (counts_of F.folder_faults paths.new) }
    ensures calls { NoneFalls (counts_of F.folder_calls paths.old) (counts_of F.folder_calls paths.new) }
    ensures fault { IfErr result
        (IsAcquireFault (counts_of F.folder_faults paths.old) (counts_of F.folder_faults paths.new)) }
{
    let length = load_temp(store, paths, file)? as usize;
    let image = image_of(store, speed, table, length)?;
    let place = build_image(store, user, &image, file.base())?;
    Ok(Res {
        kind: image.builder.kind,
        size: image.size,
        place: place.0,
        loaded: true,
    })
}
