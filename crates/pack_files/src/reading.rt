// Reading the directory of a pack.
ghost use Rattle.std.specs.Prelude.{◌≡◌, ◌≤◌, ◌*◌, ◌⊎◌, Some, None, Err, IfOk, IfErr, IsErrOf, vec_len};
ghost use Rattle.std.specs.Option.{ForSome};
ghost use Rattle.outside_io.specs.Causes.{Rose, many_more};
ghost use Rattle.outside_io.specs.Files.{length_of, HasRange};
ghost use Rattle.pack_files.specs.Packs.{fault_of, directory_at, count_of, directory_of, pack_of};
ghost use Rattle.pack_files.specs.Answers.{IfTold, IsAnswer, IsHeader};
ghost use Rattle.pack_files.specs.Reads.{Reads, HasRead, header_reads, row_reads};

use crate::directory::{directory_place, first_entries, first_fault, row_count};
use crate::entries::Pack;
use crate::faults::{PackError, PackFault};
use outside_io::Folder;
use std::alloc::Global;

/// The directory of the pack of this name, which has this length where the folder tells its files. A folder's fault may be
/// answered in the place of what the pack's bytes are, and a want of memory in the place of a directory. The folder is
/// called once for the header, unless the file is too short for one, and once for the directory of a pack without a fault.
pub fn read_pack<F: Folder>(
    alloc: Global,
    folder: &mut F,
    name: &[u8],
    length: u64,
) -> Result<Pack, PackError>
    requires { ForSome (F.files folder.old) (λ files. length_of name.now files ≡ Some length) }
    ensures told { IfTold (F.files folder.old) name.now (λ bytes. IsAnswer (pack_of bytes) result) }
    ensures whole { IfOk result (λ pack. pack.whole ≡ length) }
    ensures counted { IfOk result (λ pack. pack.count ≤ 2048) }
    ensures same { F.files folder.new ≡ F.files folder.old }
    ensures cause { IsErrOf result PackError.FolderFault → Rose (F.folder_faults folder.old) (F.folder_faults folder.new) }
    ensures faults { F.folder_faults folder.old ≤ F.folder_faults folder.new }
    ensures reads { Reads F.files F.folder_calls name.now length folder.old folder.new result }
{
    let header = read_header(folder, name, length)?;
    let bytes = read_rows(alloc, folder, name, &header)?;
    let (rows, _) = bytes.as_chunks::<64>();
    match first_entries(alloc, rows) {
        Ok(entries) => Ok(Pack {
            count: row_count(&header),
            whole: length,
            entries,
        }),
        Err(_) => Err(PackError::OutOfMemory),
    }
}

// The header of the pack, where it has no fault.
fn read_header<F: Folder>(folder: &mut F, name: &[u8], length: u64) -> Result<[u8; 12], PackError>
    requires { ForSome (F.files folder.old) (λ files. length_of name.now files ≡ Some length) }
    ensures told { IfTold (F.files folder.old) name.now (λ bytes. IsHeader bytes result) }
    ensures passes { IfOk result (λ header. fault_of header length ≡ None) }
    ensures same { F.files folder.new ≡ F.files folder.old }
    ensures cause { IsErrOf result PackError.FolderFault → Rose (F.folder_faults folder.old) (F.folder_faults folder.new) }
    ensures faults { F.folder_faults folder.old ≤ F.folder_faults folder.new }
    ensures calls { F.folder_calls folder.new ≡ many_more (header_reads length) (F.folder_calls folder.old) }
    ensures read { IfErr result (λ error. HasRead length (header_reads length) (Err error)) }
{
    if length < 12 {
        return Err(PackError::Bad(PackFault::NotPack));
    }
    let mut header = [0; 12];
    if let Err(_) = folder.read_at(name, 0, &mut header) {
        return Err(PackError::FolderFault);
    }
    match first_fault(&header, length) {
        Some(fault) => Err(PackError::Bad(fault)),
        None => Ok(header),
    }
}

// The bytes of the rows of the directory.
fn read_rows<F: Folder>(
    alloc: Global,
    folder: &mut F,
    name: &[u8],
    header: &[u8; 12],
) -> Result<Vec<u8>, PackError>
    requires few { count_of header.now ≤ 2048 }
    requires range { ForSome (F.files folder.old) (HasRange name.now (directory_at header.now) (64 * count_of header.now)) }
    ensures told { IfTold (F.files folder.old) name.now (λ bytes.
        IfOk result (λ rows. rows.items ≡ directory_of header.now bytes)) }
    ensures sized { IfOk result (λ rows. vec_len rows ≡ 64 * count_of header.now) }
    ensures error { IfErr result (λ error. (error ≡ PackError.FolderFault) ⊎ (error ≡ PackError.OutOfMemory)) }
    ensures same { F.files folder.new ≡ F.files folder.old }
    ensures cause { IsErrOf result PackError.FolderFault → Rose (F.folder_faults folder.old) (F.folder_faults folder.new) }
    ensures faults { F.folder_faults folder.old ≤ F.folder_faults folder.new }
    ensures calls { F.folder_calls folder.new ≡ many_more (row_reads result) (F.folder_calls folder.old) }
{
    let size = 64 * row_count(header) as usize;
    let Ok(mut rows) = vec![in alloc; 0; size] else {
        return Err(PackError::OutOfMemory);
    };
    let place = u64::from(directory_place(header));
    if let Err(_) = folder.read_at(name, place, &mut rows) {
        return Err(PackError::FolderFault);
    }
    Ok(rows)
}
