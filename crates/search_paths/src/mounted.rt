// What the path keeps of a mount.
use crate::answers::MountRow;
use pack_files::Pack;

// A folder by its number, or the directory of a pack of it.
#[derive(Drop)]
pub(crate) enum Mounted {
    Folder {
        folder: u32,
    },
    Pack {
        folder: u32,
        pack: u32,
        directory: Pack,
    },
}

impl Mounted {
    ghost use Rattle.std.specs.Prelude.{◌≡◌};
    ghost use Rattle.search_paths.specs.Kept.{row_of};

    // How it is listed.
    pub(crate) fn row(&self) -> MountRow
        ensures { result ≡ row_of self.now }
    {
        match self {
            Mounted::Folder { folder } => MountRow::Folder { folder: *folder },
            Mounted::Pack {
                folder,
                pack,
                directory,
            } => MountRow::Pack {
                folder: *folder,
                pack: *pack,
                count: directory.count(),
            },
        }
    }
}
