// Finding a file on the path, and reading it.
ghost use Rattle.std.specs.Prelude.{◌≡◌, ◌<◌, ◌≤◌, ◌+◌, ◌*◌, ◌^◌, ℕ, List, length, map, option_map, slice_get};
ghost use Rattle.std.specs.Prelude.{◌∷◌, [], All, IfOk, IfErr, IfSome, OnOk};
ghost use Rattle.std.specs.Option.{option_flatten};
ghost use Rattle.pack_files.specs.Hashes.{hash_of};
ghost use Rattle.search_paths.specs.Answers.{ref_of, IsFirstOf, HasFile, IsFileRef, IsFilePart, AsksInOrder};
ghost use Rattle.search_paths.specs.Answers.{folders_among, folder_in};
ghost use Rattle.search_paths.specs.Counts.{NoneFalls, HasFolderCause, CallsOnce};
ghost use Rattle.search_paths.specs.Kept.{folder_of, row_of, mount_of, IsDirectory, IsFiltered};
ghost use Rattle.search_paths.specs.Mounts.{file_in, packed_file};
ghost use Rattle.search_paths.specs.Path.{rows_of, told_mounts, mount_at, counts_of, SamePath};

use crate::answers::{FileRef, FolderFault, MountRow};
use crate::folders::{length_in, read_in};
use crate::mounted::Mounted;
use crate::names::name_of_pack;
use crate::path::Paths;
use base_fields::GameName;
use outside_io::Folder;
use pack_files::{Filter, Pack, name_hash};

impl<F: Folder> Paths<F> {
    /// The file of the first mount that has the name, or `None` exactly where no mount has it. A contract tells which
    /// where the mounts up to that one are told, or all are. A folder's fault comes only where it is counted. The mounts
    /// are asked from the front of the path on, up to the one that has the file: a folder is called once, and a pack's
    /// directory is looked up without a call.
    pub fn find(&mut self, name: &GameName) -> Result<Option<FileRef>, FolderFault>
        ensures first { IfOk result (λ file. IsFirstOf name.now (told_mounts F.files self.old) file) }
        ensures there { IfOk result (λ file.
            IfSome file (λ found. HasFile name.now found (mount_at F.files found.mount self.old))) }
        ensures sized { IfOk result (λ file. IfSome file (IsFileRef (length (rows_of self.old)))) }
        ensures same { SamePath F.files self.old self.new }
        ensures cause { HasFolderCause (counts_of F.folder_faults self.old) (counts_of F.folder_faults self.new) result }
        ensures calls { NoneFalls (counts_of F.folder_calls self.old) (counts_of F.folder_calls self.new) }
        ensures asked { AsksInOrder F.folder_calls (rows_of self.old) self.old.folders self.new.folders result }
    {
        find_first(&mut self.folders, &self.mounts, &self.filters, name.bytes())
    }

    /// Fills `into` with the bytes from `at` on of the file that was found under this name. After an error `into` may hold
    /// anything. A folder's fault comes only where it is counted. The folder of the file's mount is called once, and no
    /// other.
    pub fn read(
        &mut self,
        file: &FileRef,
        name: &GameName,
        at: u64,
        into: &mut [u8],
    ) -> Result<(), FolderFault>
        requires mount { file.now.mount < length (rows_of self.old) }
        requires there { HasFile name.now file.now (mount_at F.files file.now.mount self.old) }
        requires short { file.now.length < 2 ^ 62 }
        requires inside { file.now.offset + file.now.length ≤ file.now.whole }
        requires range { at + length into.old ≤ file.now.length }
        ensures filled { OnOk result (IsFilePart name.now at into.new (mount_at F.files file.now.mount self.old)) }
        ensures same { SamePath F.files self.old self.new }
        ensures cause { HasFolderCause (counts_of F.folder_faults self.old) (counts_of F.folder_faults self.new) result }
        ensures calls { NoneFalls (counts_of F.folder_calls self.old) (counts_of F.folder_calls self.new) }
        ensures asked { IfSome (slice_get (rows_of self.old) file.now.mount) (λ mount.
            CallsOnce F.folder_calls (folder_in mount ∷ []) self.old.folders self.new.folders) }
    {
        let mounted = &self.mounts[file.mount as usize];
        read_from(&mut self.folders, mounted, file, name.bytes(), at, into)
    }
}

// The file of the first of these mounts that has the name.
fn find_first<F: Folder>(
    folders: &mut [F],
    mounts: &[Mounted],
    filters: &[Filter],
    name: &[u8],
) -> Result<Option<FileRef>, FolderFault>
    requires few { length mounts.now ≤ 33 * 65536 }
    requires inside { All (λ mounted. folder_of mounted < length folders.old) mounts.now }
    requires read { All (IsDirectory (map F.files folders.old)) mounts.now }
    requires filtered { All (IsFiltered filters.now) mounts.now }
    ensures first { IfOk result (λ file.
        IsFirstOf name.now (map (mount_of (map F.files folders.old)) mounts.now) file) }
    ensures there { IfOk result (λ file. IfSome file (λ found. HasFile name.now found
        (option_flatten (slice_get (map (mount_of (map F.files folders.old)) mounts.now) found.mount)))) }
    ensures sized { IfOk result (λ file. IfSome file (IsFileRef (length mounts.now))) }
    ensures told { map F.files folders.new ≡ map F.files folders.old }
    ensures cause { HasFolderCause (map F.folder_faults folders.old) (map F.folder_faults folders.new) result }
    ensures calls { NoneFalls (map F.folder_calls folders.old) (map F.folder_calls folders.new) }
    ensures asked { AsksInOrder F.folder_calls (map row_of mounts.now) folders.old folders.new result }
{
    let hash = name_hash(name);
    for number in 0..mounts.len() {
        match find_in(folders, &mounts[number], filters, number as u32, name, hash) {
            Ok(Some(file)) => return Ok(Some(file)),
            Ok(None) => {}
            Err(fault) => return Err(fault),
        }
    }
    Ok(None)
}

// The file of this name, which has this hash, in the mount of this number.
fn find_in<F: Folder>(
    folders: &mut [F],
    mounted: &Mounted,
    filters: &[Filter],
    number: u32,
    name: &[u8],
    hash: u32,
) -> Result<Option<FileRef>, FolderFault>
    requires hash { hash ≡ hash_of name.now }
    requires inside { folder_of mounted.now < length folders.old }
    requires read { IsDirectory (map F.files folders.old) mounted.now }
    requires filtered { IsFiltered filters.now mounted.now }
    ensures found { IfOk result (λ file. IfSome (mount_of (map F.files folders.old) mounted.now) (λ mount.
        file ≡ option_map (ref_of number) (file_in name.now mount.files))) }
    ensures number { IfOk result (λ file. IfSome file (λ found. found.mount ≡ number)) }
    ensures sized { IfOk result (λ file. IfSome file (IsFileRef (number + 1))) }
    ensures told { map F.files folders.new ≡ map F.files folders.old }
    ensures cause { HasFolderCause (map F.folder_faults folders.old) (map F.folder_faults folders.new) result }
    ensures failed { IfErr result (λ fault. row_of mounted.now ≡ MountRow.Folder fault.folder) }
    ensures calls { NoneFalls (map F.folder_calls folders.old) (map F.folder_calls folders.new) }
    ensures asked { CallsOnce F.folder_calls (folders_among (row_of mounted.now ∷ [])) folders.old folders.new }
{
    match mounted {
        Mounted::Folder { folder } => match length_in(folders, *folder, name) {
            Ok(Some(length)) => Ok(Some(FileRef {
                mount: number,
                offset: 0,
                length,
                whole: length,
            })),
            Ok(None) => Ok(None),
            Err(fault) => Err(fault),
        },
        Mounted::Pack {
            folder,
            pack,
            directory,
        } => {
            if filters[*folder as usize].may_have(*pack, hash) {
                Ok(find_packed(directory, number, name))
            } else {
                Ok(None)
            }
        }
    }
}

// The file of this name in the pack of this mount.
fn find_packed(directory: &Pack, number: u32, name: &[u8]) -> Option<FileRef>
    ensures number { IfSome result (λ found. found.mount ≡ number) }
    ensures sized { IfSome result (IsFileRef (number + 1)) }
    ensures found { (bytes : List ℕ) → length bytes ≡ directory.now.whole
        → result ≡ option_map (ref_of number) (file_in name.now (map (packed_file bytes) directory.now.rows)) }
{
    match directory.entry(name) {
        Some(entry) => Some(FileRef {
            mount: number,
            offset: u64::from(entry.offset),
            length: u64::from(entry.length),
            whole: directory.whole(),
        }),
        None => None,
    }
}

// Fills `into` with the bytes from `at` on of the file that was found under this name in this mount.
fn read_from<F: Folder>(
    folders: &mut [F],
    mounted: &Mounted,
    file: &FileRef,
    name: &[u8],
    at: u64,
    into: &mut [u8],
) -> Result<(), FolderFault>
    requires inside { folder_of mounted.now < length folders.old }
    requires read { IsDirectory (map F.files folders.old) mounted.now }
    requires there { HasFile name.now file.now (mount_of (map F.files folders.old) mounted.now) }
    requires within { file.now.offset + file.now.length ≤ file.now.whole }
    requires range { at + length into.old ≤ file.now.length }
    ensures filled { OnOk result (IsFilePart name.now at into.new (mount_of (map F.files folders.old) mounted.now)) }
    ensures told { map F.files folders.new ≡ map F.files folders.old }
    ensures cause { HasFolderCause (map F.folder_faults folders.old) (map F.folder_faults folders.new) result }
    ensures calls { NoneFalls (map F.folder_calls folders.old) (map F.folder_calls folders.new) }
    ensures asked { CallsOnce F.folder_calls (folder_of mounted.now ∷ []) folders.old folders.new }
{
    let place = file.offset + at;
    match mounted {
        Mounted::Folder { folder } => read_in(folders, *folder, name, place, into),
        Mounted::Pack { folder, pack, .. } => {
            let name = name_of_pack(*pack);
            read_in(folders, *folder, name.as_bytes(), place, into)
        }
    }
}
