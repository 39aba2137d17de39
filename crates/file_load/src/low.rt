// Loading a file into a low block.
ghost use Rattle.std.specs.Prelude.{◌≡◌, ◌≤◌, [], length, slice_get, Some, IfErr, IfOk, IfSome, IsSomeAnd, IsErrOf, false};
ghost use Rattle.std.specs.Result.{result_err};
ghost use Rattle.mem_model.specs.Keeps.{KeepsAll};
ghost use Rattle.mem_model.specs.Laid.{Laid};
ghost use Rattle.mem_model.specs.Hunk.{low_bytes};
ghost use Rattle.search_paths.specs.Counts.{NoneFalls};
ghost use Rattle.search_paths.specs.Path.{rows_of, told_mounts, counts_of, SamePath};
ghost use Rattle.file_load.specs.Calls.{AsksFor};
ghost use Rattle.file_load.specs.Loads.{load_low, Loads, IsLoadFault};
ghost use Rattle.file_load.specs.Leaves.{LeavesLow, IsEarly};

use crate::errors::LoadError;
use crate::files::{find_whole, read_whole};
use base_fields::GameName;
use mem_model::{Place, Store};
use outside_io::Folder;
use search_paths::Paths;

/// Loads the file of this name into a low block of a byte more than it has, named by the name's base, and answers the
/// block's place and the file's length in bytes. The bytes behind the file are zeros.
///
/// After `NoRoom` the store is as the refused allocation leaves it, and after a fault at the reading the block stands, with
/// any bytes in it. After every other error the store is as before.
///
/// The folders are asked for the file as `Paths::find` asks them, and the one that has it once more where it is read.
pub fn load_low<M: Store, F: Folder>(
    store: &mut M,
    paths: &mut Paths<F>,
    name: &GameName,
) -> Result<(Place, u64), LoadError>
    // Where the mounts tell the file, or that there is none: what is loaded, and the first refusal.
    ensures told { IfSome (load_low (told_mounts F.files paths.old) (M.state store.old) name.now) (λ given.
        Loads given result (M.state store.new)) }

    // Whatever they tell: the store, and the block.
    ensures leaves { LeavesLow (M.state store.old) name.now result (M.state store.new) }
    ensures there { IfOk result (λ loaded.
        IsSomeAnd (low_bytes (M.state store.new) loaded.0.0) (λ bytes. loaded.1 ≤ length bytes)) }
    ensures zero { IfOk result (λ loaded.
        IsSomeAnd (low_bytes (M.state store.new) loaded.0.0) (λ bytes. slice_get bytes loaded.1 ≡ Some 0)) }
    ensures early { IfErr result (IsEarly (M.state store.old) (M.state store.new)) }
    ensures memory { IsErrOf result LoadError.OutOfMemory
        → (M.frugal ≡ false) × (M.state store.new ≡ M.state store.old) }
    ensures keeps { Laid (M.state store.old) → KeepsAll [] (M.state store.old) (M.state store.new) }
    ensures laid { Laid (M.state store.old) → Laid (M.state store.new) }
    ensures zone { (M.state store.new).zone ≡ (M.state store.old).zone }

    // The path.
    ensures same { SamePath F.files paths.old paths.new }
    ensures asked { AsksFor F.folder_calls name.now (told_mounts F.files paths.old) (rows_of paths.old)
        paths.old.folders paths.new.folders (result_err result) }
    ensures faults { NoneFalls (counts_of F.folder_faults paths.old) (counts_of F.folder_faults paths.new) }
    ensures calls { NoneFalls (counts_of F.folder_calls paths.old) (counts_of F.folder_calls paths.new) }
    ensures fault { IfErr result (IsLoadFault (counts_of F.folder_faults paths.old) (counts_of F.folder_faults paths.new)) }
{
    let file = find_whole(paths, name)?;
    let place = store.low_alloc(file.length + 1, name.base())?;
    read_whole(paths, &file, name, store.low_bytes_mut(place))?;
    Ok((place, file.length))
}
