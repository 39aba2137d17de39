// Mounting a folder and its packs.
ghost use Rattle.std.specs.Prelude.{◌≡◌, ◌<◌, ◌≤◌, ◌-◌, ◌⊎◌, ◌++◌, All, [], Ok, Err, length, map, option_map, IfErr};
ghost use Rattle.std.specs.Prelude.{IfOk, IfSome, IsErrOf, IsOkAnd, OnOk, OnErr, reverse};
ghost use Rattle.outside_io.specs.Files.{bytes_of};
ghost use Rattle.pack_files.specs.Packs.{pack_of};
ghost use Rattle.search_paths.specs.Answers.{AddsRows, IsCaused, IsMounted, IsOfFolder};
ghost use Rattle.search_paths.specs.Calls.{Asks, AsksPack};
ghost use Rattle.search_paths.specs.Kept.{row_of};
ghost use Rattle.search_paths.specs.Mounts.{own_mounts, pack_name};
ghost use Rattle.search_paths.specs.Own.{mount_in, IsOwn, IsIn, IsFound};
ghost use Rattle.search_paths.specs.Path.{rows_of, told_mounts, AddsFolder};

use crate::answers::MountError;
use crate::mounted::Mounted;
use crate::names::name_of_pack;
use crate::path::Paths;
use outside_io::Folder;
use pack_files::{Filter, Pack, PackError, read_pack};
use std::alloc::Global;

// How many packs of a folder are mounted at most.
const MOST_PACKS: u32 = 32;

impl<F: Folder> Paths<F> {
    /// Puts the folder to the front of the path, and then its packs in front of it, one after another, up to the first that
    /// is missing, and 32 at most. Fewer than 65536 folders may have been handed in before. After an error the path is as
    /// before, and the folder is kept last among the folders; where memory was wanting it may be dropped instead. A bad pack
    /// is the first of the folder; a folder's fault comes only where it is counted, and no pack before the one that it was
    /// asked for is bad. The folder is called once for each pack's length, header and directory.
    pub fn mount(&mut self, alloc: Global, folder: F) -> Result<(), MountError>
        requires { length self.old.folders < 65536 }
        ensures mounted { IfSome (F.files folder) (λ files.
            IsMounted (own_mounts (length self.old.folders) files) (told_mounts F.files self.old)
            (told_mounts F.files self.new) result) }
        ensures rows { OnOk result (AddsRows (length self.old.folders) (rows_of self.old) (rows_of self.new)) }
        ensures same { OnErr result ((rows_of self.new ≡ rows_of self.old)
            × (told_mounts F.files self.new ≡ told_mounts F.files self.old)) }
        ensures error { IfErr result (IsOfFolder (length self.old.folders)) }
        ensures kept { (IsErrOf result MountError.OutOfMemory × (self.new.folders ≡ self.old.folders))
            ⊎ AddsFolder F.files F.folder_faults F.folder_calls folder self.old self.new result }
    {
        let mut folder = folder;
        let Ok(mut filter) = Filter::create(alloc) else {
            return Err(MountError::OutOfMemory);
        };
        let Ok(()) = self.filters.reserve(1) else {
            return Err(MountError::OutOfMemory);
        };
        let read = read_mounts(alloc, &mut folder, self.folders.len() as u32, &mut filter);
        let Ok(()) = self.folders.push(folder) else {
            return Err(MountError::OutOfMemory);
        };
        self.filters.push(filter).unwrap();
        match read {
            Ok(own) => put_in_front(&mut self.mounts, own),
            Err(error) => Err(error),
        }
    }
}

// Puts these mounts in front of the others, one after another.
fn put_in_front(mounts: &mut Vec<Mounted>, own: Vec<Mounted>) -> Result<(), MountError>
    ensures front { OnOk result (mounts.new.items ≡ reverse own.items ++ mounts.old.items) }
    ensures same { OnErr result (mounts.new.items ≡ mounts.old.items) }
    ensures error { IfErr result (λ error. error ≡ MountError.OutOfMemory) }
{
    let mut own = own;
    own.reverse();
    let Ok(()) = own.append(mounts) else {
        return Err(MountError::OutOfMemory);
    };
    *mounts = own;
    Ok(())
}

// The mounts of the folder of this number in the order of mounting: the folder itself, and then its packs, whose names are
// added to the filter.
fn read_mounts<F: Folder>(
    alloc: Global,
    folder: &mut F,
    number: u32,
    filter: &mut Filter,
) -> Result<Vec<Mounted>, MountError>
    ensures mounted { IfSome (F.files folder.old) (λ files. IfOk result (λ own.
        IsOkAnd (own_mounts number files) (λ mounts. map (mount_in files) (reverse own.items) ≡ map Some mounts))) }
    ensures bad { IfSome (F.files folder.old) (λ files. IfErr result (λ error.
        IsMounted (own_mounts number files) [] [] (Err error))) }
    ensures rows { IfOk result (λ own. AddsRows number [] (map row_of (reverse own.items))) }
    ensures own { IfOk result (λ own. All (IsOwn number (F.files folder.old)) own.items) }
    ensures filtered { IfOk result (λ own. All (IsIn filter.new) own.items) }
    ensures error { IfErr result (IsOfFolder number) }
    ensures same { F.files folder.new ≡ F.files folder.old }
    ensures cause { IfErr result (λ error. IsCaused (F.folder_faults folder.old) (F.folder_faults folder.new) (Err error)) }
    ensures faults { F.folder_faults folder.old ≤ F.folder_faults folder.new }
    ensures asks { IfOk result (λ own. Asks F.files F.folder_calls (length own.items - 1) folder.old folder.new (Ok tt)) }
    ensures asked { IfErr result (λ error. Asks F.files F.folder_calls 0 folder.old folder.new (Err error)) }
{
    let mut mounts = Vec::new(alloc);
    let Ok(()) = mounts.push(Mounted::Folder { folder: number }) else {
        return Err(MountError::OutOfMemory);
    };
    for pack in 0..MOST_PACKS {
        let directory = match find_pack(alloc, folder, number, pack) {
            Ok(Some(directory)) => directory,
            Ok(None) => return Ok(mounts),
            Err(error) => return Err(error),
        };
        filter.add_all(pack, &directory);
        let mounted = Mounted::Pack {
            folder: number,
            pack,
            directory,
        };
        let Ok(()) = mounts.push(mounted) else {
            return Err(MountError::OutOfMemory);
        };
    }
    Ok(mounts)
}

// The directory of the pack of this number, or `None` where the folder has no such pack.
fn find_pack<F: Folder>(
    alloc: Global,
    folder: &mut F,
    number: u32,
    pack: u32,
) -> Result<Option<Pack>, MountError>
    requires { pack < 32 }
    ensures found { IfSome (F.files folder.old) (λ files.
        IsFound number pack (option_map pack_of (bytes_of (pack_name pack) files)) result) }
    ensures error { IfErr result (IsOfFolder number) }
    ensures same { F.files folder.new ≡ F.files folder.old }
    ensures cause { IfErr result (λ error. IsCaused (F.folder_faults folder.old) (F.folder_faults folder.new) (Err error)) }
    ensures faults { F.folder_faults folder.old ≤ F.folder_faults folder.new }
    ensures asks { AsksPack F.files F.folder_calls pack folder.old folder.new result }
{
    let text = name_of_pack(pack);
    let name = text.as_str().as_bytes();
    let length = match folder.len_of(name) {
        Ok(Some(length)) => length,
        Ok(None) => return Ok(None),
        Err(_) => return Err(MountError::FolderFault { folder: number }),
    };
    match read_pack(alloc, folder, name, length) {
        Ok(directory) => Ok(Some(directory)),
        Err(PackError::Bad(fault)) => Err(MountError::BadPack {
            folder: number,
            pack,
            fault,
        }),
        Err(PackError::FolderFault) => Err(MountError::FolderFault { folder: number }),
        Err(PackError::OutOfMemory) => Err(MountError::OutOfMemory),
    }
}
