// Calls of one of the folders of a path.
ghost use Rattle.std.specs.Prelude.{◌≡◌, ◌<◌, ◌^◌, ◌∷◌, [], length, map, IfOk, IfErr, IfSome, OnOk};
ghost use Rattle.std.specs.Option.{ForSome};
ghost use Rattle.outside_io.specs.Files.{length_of, HasRange, IsPartOf};
ghost use Rattle.search_paths.specs.Counts.{NoneFalls, HasFolderCause, CallsOnce};
ghost use Rattle.search_paths.specs.Kept.{told_at};

use crate::answers::FolderFault;
use outside_io::Folder;

// The length of the file of this name in the folder of this number.
pub(crate) fn length_in<F: Folder>(
    folders: &mut [F],
    folder: u32,
    name: &[u8],
) -> Result<Option<u64>, FolderFault>
    requires { folder < length folders.old }
    ensures length { IfOk result (λ len.
        IfSome (told_at folder (map F.files folders.old)) (λ files. len ≡ length_of name.now files)) }
    ensures limit { IfOk result (λ len. IfSome len (λ n. n < 2 ^ 62)) }
    ensures told { map F.files folders.new ≡ map F.files folders.old }
    ensures cause { HasFolderCause (map F.folder_faults folders.old) (map F.folder_faults folders.new) result }
    ensures failed { IfErr result (λ fault. fault.folder ≡ folder) }
    ensures calls { NoneFalls (map F.folder_calls folders.old) (map F.folder_calls folders.new) }
    ensures asked { CallsOnce F.folder_calls (folder ∷ []) folders.old folders.new }
{
    match folders[folder as usize].len_of(name) {
        Ok(length) => Ok(length),
        Err(_) => Err(FolderFault { folder }),
    }
}

// Fills `into` with the bytes from `at` on of the file of this name in the folder of this number.
pub(crate) fn read_in<F: Folder>(
    folders: &mut [F],
    folder: u32,
    name: &[u8],
    at: u64,
    into: &mut [u8],
) -> Result<(), FolderFault>
    requires inside { folder < length folders.old }
    requires range { ForSome (told_at folder (map F.files folders.old)) (HasRange name.now at (length into.old)) }
    ensures filled { OnOk result (IfSome (told_at folder (map F.files folders.old)) (IsPartOf name.now at into.new)) }
    ensures told { map F.files folders.new ≡ map F.files folders.old }
    ensures cause { HasFolderCause (map F.folder_faults folders.old) (map F.folder_faults folders.new) result }
    ensures calls { NoneFalls (map F.folder_calls folders.old) (map F.folder_calls folders.new) }
    ensures asked { CallsOnce F.folder_calls (folder ∷ []) folders.old folders.new }
{
    match folders[folder as usize].read_at(name, at, into) {
        Ok(()) => Ok(()),
        Err(_) => Err(FolderFault { folder }),
    }
}
