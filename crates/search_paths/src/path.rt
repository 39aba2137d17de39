// The path, and what it lists.
ghost use Rattle.std.specs.Prelude.{◌≡◌, ◌<◌, ◌≤◌, ◌*◌, [], Some, length, option_map, slice_get, IfOk, IfSome};
ghost use Rattle.search_paths.specs.Path.{rows_of, mounts_of};

use crate::answers::MountRow;
use crate::mounted::Mounted;
use outside_io::Folder;
use pack_files::Filter;
use std::alloc::{AllocError, Global};
use std::marker::Model;

/// The path on which files are looked for, and the folders that were handed to it, numbered from 0 in that order. Contracts
/// see the folders, and what is kept of the mounts.
#[derive(Drop)]
pub struct Paths<F: Folder = Box<dyn Folder>> {
    pub(crate) folders: Vec<F>,
    // from the path's front on
    pub(crate) mounts: Vec<Mounted>,
    // for each folder which of its packs may have a name
    pub(crate) filters: Vec<Filter>,
}

impl<F: Folder> Model for Paths<F> {
    ghost use Rattle.search_paths.specs.Path.{PathState, IsPath};

    ghost Value = { PathState F };

    ghost view = { λ p. record { folders = p.folders.items; mounts = p.mounts.items } };

    ghost invariant = { λ p.
        IsPath F.files p.filters.items (record { folders = p.folders.items; mounts = p.mounts.items }) };
}

impl<F: Folder> Paths<F> {
    /// A path with no mount and no folder.
    pub fn create(alloc: Global) -> Result<Paths<F>, AllocError>
        ensures { IfOk result (λ paths. paths ≡ record { folders = []; mounts = [] }) }
    {
        Ok(Paths {
            folders: Vec::new(alloc),
            mounts: Vec::new(alloc),
            filters: Vec::new(alloc),
        })
    }

    /// How the mount of this number is listed. The front of the path has the number 0.
    pub fn row(&self, number: u32) -> Option<MountRow>
        ensures row { result ≡ slice_get (rows_of self.now) number }
        ensures mount { IfSome (mounts_of F.files self.now) (λ mounts.
            result ≡ option_map (λ mount. mount.row) (slice_get mounts number)) }
        ensures few { length (rows_of self.now) ≤ 33 * 65536 }
    {
        match self.mounts.get(number as usize) {
            Some(mounted) => Some(mounted.row()),
            None => None,
        }
    }

    /// Hands the folder of this number back, and drops the rest.
    pub fn take_folder(self, folder: u32) -> F
        requires { folder < length self.folders }
        ensures { slice_get self.folders folder ≡ Some result }
    {
        let mut folders = self.folders;
        folders.swap_remove(folder as usize)
    }
}
