// A box of any folder is a folder.
use crate::outside::{Folder, FolderFailed};

impl Folder for Box<dyn Folder> {
    ghost files = { λ b. (Folder-box b).files b.value };

    ghost folder_faults = { λ b. (Folder-box b).folder_faults b.value };

    ghost folder_calls = { λ b. (Folder-box b).folder_calls b.value };

    fn len_of(&mut self, name: &[u8]) -> Result<Option<u64>, FolderFailed> {
        (**self).len_of(name)
    }

    fn read_at(&mut self, name: &[u8], at: u64, into: &mut [u8]) -> Result<(), FolderFailed> {
        (**self).read_at(name, at, into)
    }

    fn faults_seen(&self) -> u64 {
        (**self).faults_seen()
    }

    fn calls_seen(&self) -> u64 {
        (**self).calls_seen()
    }
}
