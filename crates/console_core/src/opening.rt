// Mounting the folders that a run asks for.
ghost use Rattle.std.specs.Prelude.{◌≡◌, ◌<◌, ◌≤◌, ◌+◌, ◌^◌, ℕ, length, vec_len, IfErr};
ghost use Rattle.console_core.specs.Ends.{IsOpened, IsUnopened};

use crate::status::Status;
use outside_io::Folder;
use search_paths::{MountError, Paths};
use std::alloc::Global;

// The status of a run whose last folder was not mounted. A folder's fault hands the folder back.
fn unopened<F: Folder>(paths: Paths<F>, first: u32, error: MountError) -> Status<F>
    requires last { (folder : ℕ) → error ≡ MountError.FolderFault folder → folder < length paths.folders }
    requires small { first + length paths.folders < 2 ^ 32 }
    ensures { IsUnopened error first paths result }
{
    match error {
        MountError::BadPack {
            folder,
            pack,
            fault,
        } => Status::BadPack {
            folder,
            pack,
            fault,
        },
        MountError::FolderFault { folder } => Status::FolderFault {
            word: first + folder,
            folder: paths.take_folder(folder),
        },
        MountError::OutOfMemory => Status::OutOfMemory,
    }
}

/// Mounts the folders, one after another. The word of the first has this number.
pub fn mount_all<F: Folder>(
    alloc: Global,
    first: u32,
    folders: Vec<F>,
) -> Result<Paths<F>, Status<F>>
    requires few { vec_len folders ≤ 65536 }
    requires small { first + vec_len folders < 2 ^ 32 }
    ensures opened { IsOpened first F.files F.folder_faults F.folder_calls folders.items result }
    ensures not_small { IfErr result (λ status. status ≡ Status.TooSmall → ⊥) }
{
    let Ok(mut paths) = Paths::create(alloc) else {
        return Err(Status::OutOfMemory);
    };
    for folder in folders {
        if let Err(error) = paths.mount(alloc, folder) {
            return Err(unopened(paths, first, error));
        }
    }
    Ok(paths)
}
