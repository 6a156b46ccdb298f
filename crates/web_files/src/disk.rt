//! What opens the paths of a disk.
ghost use Rattle.std.specs.Prelude.{IfOk, List, Option, ℕ};
ghost use Rattle.std.specs.Option.{option_map};
ghost use Rattle.web_folders.specs.declared.entry.FolderEntry.{FolderEntry as Entry};
ghost use Rattle.web_folders.specs.declared.folder_files.Found.{Found as FoundOf};

use std::alloc::Global;
use web_folders::{FolderEntry, Found};
use web_texts::NoMemory;

/// What opens the paths of a disk, and lists its folders. `SystemDisk` does it by `std::fs`.
///
/// `opens` and `lists` relate what a call got to what it may return, for disks of which that is
/// known.
pub trait Disk {
    /// An open file or folder.
    type File: Drop;

    ghost opens: { Self → List ℕ → FoundOf Self.File Self.File → Type 0 };

    ghost lists: { Self → Self.File → Option (List Entry) → Type 0 };

    /// Opens the file or the folder at a path, and nothing else that may be there. It returns
    /// `NoMemory` if an allocation failed.
    fn open_path(
        &self,
        alloc: Global,
        path: &str,
    ) -> Result<Found<Self::File, Self::File>, NoMemory>
        ensures { IfOk result (λ found. opens self.now path.now found) };

    /// The files and folders in an open folder, in any order. `None` if it cannot be read. It
    /// returns `NoMemory` if an allocation failed.
    fn entries(
        &self,
        alloc: Global,
        folder: &Self::File,
    ) -> Result<Option<Vec<FolderEntry>>, NoMemory>
        ensures { IfOk result (λ entries.
            lists self.now folder.now (option_map (λ v. v.items) entries)) };
}
