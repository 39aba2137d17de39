// The level, and the change of the map.
ghost use Rattle.std.specs.Prelude.{◌≡◌, [], ◌∷◌, None, IfErr, IfSome, IsErrOf, false, is_none};
ghost use Rattle.mem_model.specs.Keeps.{KeepsAll};
ghost use Rattle.mem_model.specs.Laid.{Laid};
ghost use Rattle.mem_model.specs.Memory.{low_used};
ghost use Rattle.search_paths.specs.Counts.{NoneFalls};
ghost use Rattle.search_paths.specs.Path.{SamePath, counts_of, rows_of, told_mounts};
ghost use Rattle.file_load.specs.Loads.{load_temp};
ghost use Rattle.res_table.specs.Acquire.{Acquires, table_after};
ghost use Rattle.res_table.specs.Calls.{AsksOnce};
ghost use Rattle.res_table.specs.Faults.{IsAcquireFault};
ghost use Rattle.res_table.specs.Forgotten.{forgotten};
ghost use Rattle.res_table.specs.Held.{AreHeld};
ghost use Rattle.res_table.specs.Images.{HasFileName};
ghost use Rattle.res_table.specs.Kept.{GrowsLow};
ghost use Rattle.res_table.specs.Tables.{slot_for, user_of};
ghost use Rattle.map_change.specs.Marks.{IsLowMark};
ghost use Rattle.map_change.specs.Changes.{change_map, changed_before, freed_to};

use base_fields::GameName;
use mem_model::Store;
use outside_io::Folder;
use res_table::{AcquireError, Res, ResTable, Table};
use search_paths::Paths;

/// Where the low hunk ends, in bytes. A change of the map to this level frees what comes to lie behind it.
pub fn set_level<M: Store>(store: &M) -> u32
    ensures mark { result ≡ low_used (M.state store.now) }
    ensures level { IsLowMark (M.state store.now).low result }
{
    store.low_mark()
}

/// Frees the low hunk to a level that was set, forgets the resources that lay behind it, and acquires the file as a model.
///
/// The errors are those of `acquire`, in its order. The freeing stands after each of them.
#[tactic(auto, using(crate::proofs::Marking::mark_lawful))]
pub fn change_map<M: Store, F: Folder>(
    store: &mut M,
    table: &mut ResTable,
    paths: &mut Paths<F>,
    level: u32,
    file: &GameName,
) -> Result<Res, AcquireError>
    requires file { HasFileName Table.Models file.now }
    requires laid { Laid (M.state store.old) }
    requires held { AreHeld (told_mounts F.files paths.old) table.old (M.state store.old) }
    requires level { IsLowMark (M.state store.old).low level }

    // Where the mounts tell the file, and where it isn't needed.
    ensures told { IfSome (change_map table.old (M.state store.old) level file.now
        (load_temp (told_mounts F.files paths.old) (freed_to level (M.state store.old)) file.now)) (λ given.
        Acquires (is_none (changed_before table.old (M.state store.old) level file.now)) given result table.new
        (M.state store.new)) }
    ensures unasked { IfSome (changed_before table.old (M.state store.old) level file.now) (λ _.
        paths.new ≡ paths.old) }

    // Whatever they tell.
    ensures held { AreHeld (told_mounts F.files paths.new) table.new (M.state store.new) }
    ensures keeps { KeepsAll (user_of Table.Models (slot_for file.now (forgotten level table.old).models) ∷ [])
        (freed_to level (M.state store.old)) (M.state store.new) }
    ensures low { GrowsLow (freed_to level (M.state store.old)) (M.state store.new) }
    ensures refused { IfErr result (λ _. (M.state store.new).low ≡ (freed_to level (M.state store.old)).low) }
    ensures zone { (M.state store.new).zone ≡ (M.state store.old).zone }
    ensures table { table.new ≡ table_after (forgotten level table.old) Table.Models file.now result }
    ensures memory { IsErrOf result AcquireError.OutOfMemory → M.frugal ≡ false }
    ensures laid { Laid (M.state store.new) }
    ensures level { IsLowMark (M.state store.new).low level }

    // The path.
    ensures same { SamePath F.files paths.old paths.new }
    ensures asked { changed_before table.old (M.state store.old) level file.now ≡ None
        → AsksOnce F.folder_calls file.now (told_mounts F.files paths.old) (rows_of paths.old)
        paths.old.folders paths.new.folders result }
    ensures faults { NoneFalls (counts_of F.folder_faults paths.old) (counts_of F.folder_faults paths.new) }
    ensures calls { NoneFalls (counts_of F.folder_calls paths.old) (counts_of F.folder_calls paths.new) }
    ensures fault { IfErr result
        (IsAcquireFault (counts_of F.folder_faults paths.old) (counts_of F.folder_faults paths.new)) }
{
    store.low_free(level).unwrap();
    table.forget_low(level);
    table.acquire(store, paths, Table::Models, file)
}
