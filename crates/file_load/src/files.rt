// Finding the file of a load, and reading it.
ghost use Rattle.std.specs.Prelude.{◌≡◌, ◌+◌, ◌<◌, ◌≤◌, ◌^◌, ◌∷◌, ◌++◌, [], Some, Ok, drop, length, slice_get, option_map};
ghost use Rattle.std.specs.Prelude.{IfErr, IfOk, IfSome, OnOk};
ghost use Rattle.search_paths.specs.Answers.{placed, HasFile, IsFileRef, AsksInOrder, folder_in};
ghost use Rattle.search_paths.specs.Counts.{NoneFalls, CallsOnce};
ghost use Rattle.search_paths.specs.Mounts.{find_told};
ghost use Rattle.search_paths.specs.Path.{rows_of, told_mounts, mount_at, counts_of, SamePath};
ghost use Rattle.file_load.specs.Calls.{AsksFor};
ghost use Rattle.file_load.specs.Loads.{sought, IsLoadFault};
ghost use Rattle.file_load.specs.Files.{Finds, IsSought, IsUnreadable};

use crate::errors::{LoadError, Stage};
use base_fields::GameName;
use outside_io::Folder;
use search_paths::{FileRef, Paths};

// The first file of this name, where it lies inside.
pub(crate) fn find_whole<F: Folder>(
    paths: &mut Paths<F>,
    name: &GameName,
) -> Result<FileRef, LoadError>
    ensures told { IfSome (find_told name.now (told_mounts F.files paths.old)) (λ found. Finds (sought found) result) }
    ensures first { IfOk result (λ file. IfSome (find_told name.now (told_mounts F.files paths.old)) (λ found.
        option_map placed found ≡ Some file)) }
    ensures there { IfOk result (λ file. HasFile name.now file (mount_at F.files file.mount paths.old)) }
    ensures sized { IfOk result (IsFileRef (length (rows_of paths.old))) }
    ensures inside { IfOk result (λ file. file.offset + file.length ≤ file.whole) }
    ensures early { IfErr result IsSought }
    ensures asked { IfOk result (λ file.
        AsksInOrder F.folder_calls (rows_of paths.old) paths.old.folders paths.new.folders (Ok (Some file))) }
    ensures alone { IfErr result (λ error. AsksFor F.folder_calls name.now (told_mounts F.files paths.old)
        (rows_of paths.old) paths.old.folders paths.new.folders (Some error)) }
    ensures same { SamePath F.files paths.old paths.new }
    ensures faults { NoneFalls (counts_of F.folder_faults paths.old) (counts_of F.folder_faults paths.new) }
    ensures calls { NoneFalls (counts_of F.folder_calls paths.old) (counts_of F.folder_calls paths.new) }
    ensures fault { IfErr result (IsLoadFault (counts_of F.folder_faults paths.old) (counts_of F.folder_faults paths.new)) }
{
    match paths.find(name) {
        Ok(Some(file)) => {
            let end = file.offset + file.length;
            if end > file.whole {
                return Err(LoadError::BeyondPack {
                    end,
                    length: file.whole,
                });
            }
            Ok(file)
        }
        Ok(None) => Err(LoadError::NotFound),
        Err(fault) => Err(LoadError::FolderFault {
            folder: fault.folder,
            stage: Stage::Find,
        }),
    }
}

// Fills the front with the file's bytes.
pub(crate) fn read_whole<F: Folder>(
    paths: &mut Paths<F>,
    file: &FileRef,
    name: &GameName,
    into: &mut [u8],
) -> Result<(), LoadError>
    requires mount { file.now.mount < length (rows_of paths.old) }
    requires there { HasFile name.now file.now (mount_at F.files file.now.mount paths.old) }
    requires short { file.now.length < 2 ^ 62 }
    requires inside { file.now.offset + file.now.length ≤ file.now.whole }
    requires fits { file.now.length ≤ length into.old }
    ensures filled { OnOk result (IfSome (find_told name.now (told_mounts F.files paths.old)) (λ found.
        option_map placed found ≡ Some file.now
        → IfOk (sought found) (λ bytes. into.new ≡ bytes ++ drop file.now.length into.old))) }
    ensures rest { drop file.now.length into.new ≡ drop file.now.length into.old }
    ensures late { IfErr result IsUnreadable }
    ensures asked { IfSome (slice_get (rows_of paths.old) file.now.mount) (λ mount.
        CallsOnce F.folder_calls (folder_in mount ∷ []) paths.old.folders paths.new.folders) }
    ensures same { SamePath F.files paths.old paths.new }
    ensures faults { NoneFalls (counts_of F.folder_faults paths.old) (counts_of F.folder_faults paths.new) }
    ensures calls { NoneFalls (counts_of F.folder_calls paths.old) (counts_of F.folder_calls paths.new) }
    ensures fault { IfErr result (IsLoadFault (counts_of F.folder_faults paths.old) (counts_of F.folder_faults paths.new)) }
{
    match paths.read(file, name, 0, &mut into[..file.length as usize]) {
        Ok(()) => Ok(()),
        Err(fault) => Err(LoadError::FolderFault {
            folder: fault.folder,
            stage: Stage::Read,
        }),
    }
}
