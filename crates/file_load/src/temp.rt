// Loading a file into the temporary block.
ghost use Rattle.std.specs.Prelude.{◌≡◌, ◌≤◌, [], length, slice_get, Some, IfErr, IfOk, IfSome, IsSomeAnd, IsErrOf, false};
ghost use Rattle.std.specs.Result.{result_err};
ghost use Rattle.mem_model.specs.Keeps.{KeepsAll, beside_high};
ghost use Rattle.mem_model.specs.Laid.{Laid};
ghost use Rattle.mem_model.specs.Hunk.{temp_bytes, without_temp};
ghost use Rattle.search_paths.specs.Counts.{NoneFalls};
ghost use Rattle.search_paths.specs.Path.{rows_of, told_mounts, counts_of, SamePath};
ghost use Rattle.file_load.specs.Calls.{AsksFor};
ghost use Rattle.file_load.specs.Loads.{load_temp, LoadsTemp, IsLoadFault};
ghost use Rattle.file_load.specs.Leaves.{LeavesTemp, IsEarly};

use crate::errors::LoadError;
use crate::files::{find_whole, read_whole};
use base_fields::GameName;
use mem_model::Store;
use outside_io::Folder;
use search_paths::Paths;

/// Loads the file of this name into a temporary block of a byte more than it has, and answers the file's length in bytes.
/// The bytes behind the file are zeros. A temporary block that was active is freed where the new one is asked for.
///
/// After `NoRoom` and `OutOfMemory` no temporary block is active, and after a fault at the reading the block stands, with
/// any bytes in it. After every other error the store is as before.
///
/// The folders are asked for the file as `Paths::find` asks them, and the one that has it once more where it is read.
pub fn load_temp<M: Store, F: Folder>(
    store: &mut M,
    paths: &mut Paths<F>,
    name: &GameName,
) -> Result<u64, LoadError>
    // Where the mounts tell the file, or that there is none: what is loaded, and the first refusal.
    ensures told { IfSome (load_temp (told_mounts F.files paths.old) (M.state store.old) name.now) (λ given.
        LoadsTemp given result (M.state store.new)) }

    // Whatever they tell: the store, and the block.
    ensures leaves { LeavesTemp (M.state store.old) result (M.state store.new) }
    ensures there { IfOk result (λ loaded.
        IsSomeAnd (temp_bytes (M.state store.new)) (λ bytes. loaded ≤ length bytes)) }
    ensures zero { IfOk result (λ loaded.
        IsSomeAnd (temp_bytes (M.state store.new)) (λ bytes. slice_get bytes loaded ≡ Some 0)) }
    ensures early { IfErr result (IsEarly (M.state store.old) (M.state store.new)) }
    ensures memory { IsErrOf result LoadError.OutOfMemory
        → (M.frugal ≡ false) × (M.state store.new ≡ without_temp (M.state store.old)) }
    ensures keeps { Laid (M.state store.old) → KeepsAll [] (M.state store.old) (M.state store.new) }
    ensures laid { Laid (M.state store.old) → Laid (M.state store.new) }
    ensures beside { beside_high (M.state store.new) ≡ beside_high (M.state store.old) }

    // The path.
    ensures same { SamePath F.files paths.old paths.new }
    ensures asked { AsksFor F.folder_calls name.now (told_mounts F.files paths.old) (rows_of paths.old)
        paths.old.folders paths.new.folders (result_err result) }
    ensures faults { NoneFalls (counts_of F.folder_faults paths.old) (counts_of F.folder_faults paths.new) }
    ensures calls { NoneFalls (counts_of F.folder_calls paths.old) (counts_of F.folder_calls paths.new) }
    ensures fault { IfErr result (IsLoadFault (counts_of F.folder_faults paths.old) (counts_of F.folder_faults paths.new)) }
{
    let file = find_whole(paths, name)?;
    let _place = store.temp_alloc(file.length + 1)?;
    read_whole(paths, &file, name, store.temp_bytes_mut())?;
    Ok(file.length)
}
