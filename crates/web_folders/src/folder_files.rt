//! What a folder gives of its files.
ghost use Rattle.std.specs.Prelude.{IfOk, List, Option};
ghost use Rattle.std.specs.Option.{option_map};
ghost use Rattle.web_paths.specs.PathsBelow.{NamesBelow};
ghost use Rattle.web_folders.specs.declared.entry.FolderEntry.{FolderEntry as Entry};
ghost use Rattle.web_folders.specs.declared.folder_files.Found.{Found as FoundOf};

use crate::entry::FolderEntry;
use crate::facts::FileFacts;
use std::alloc::Global;
use web_paths::Below;
use web_texts::NoMemory;

/// An open file.
#[derive(Drop)]
pub struct OpenedFile<F> {
    pub file: F,
    /// What the open file says of itself.
    pub facts: FileFacts,
}

/// What is at a path.
#[derive(Drop)]
pub enum Found<F, D> {
    /// A file, which is open.
    File(OpenedFile<F>),
    /// A folder.
    Folder(D),
    /// Nothing that is served: also a pipe, a socket or a device.
    Nothing,
    /// It could not be found out, since the system failed.
    Failed,
}

/// The files of a folder. A reply is made of what these calls return, and they get a `Below`
/// alone: a path that does not lead outside.
///
/// `finds` and `lists` relate what a call got to what it may return, for folders of which that is
/// known.
pub trait FolderFiles {
    /// An open file.
    type File: Drop;

    /// A folder that was found.
    type Folder: Drop;

    ghost finds: { Self → NamesBelow → FoundOf Self.File Self.Folder → Type 0 };

    ghost lists: { Self → Self.Folder → Option (List Entry) → Type 0 };

    /// Opens what is at a path. It returns `NoMemory` if an allocation failed.
    fn find(&self, alloc: Global, path: &Below) -> Result<Found<Self::File, Self::Folder>, NoMemory>
        ensures { IfOk result (λ found. finds self.now path.now found) };

    /// The files and folders in a folder that was found, in any order. `None` if it cannot be
    /// read. It returns `NoMemory` if an allocation failed.
    fn entries(
        &self,
        alloc: Global,
        folder: &Self::Folder,
    ) -> Result<Option<Vec<FolderEntry>>, NoMemory>
        ensures { IfOk result (λ entries.
            lists self.now folder.now (option_map (λ v. v.items) entries)) };
}
