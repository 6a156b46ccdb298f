//! The files of a folder of a disk.
ghost use Rattle.std.specs.Prelude.{◌≡◌, IfOk, string_bytes};
ghost use Rattle.web_files.specs.OpenedPaths.{opened_path, or_slash};

use crate::disk::Disk;
use crate::links::Links;
use crate::system_disk::SystemDisk;
use std::alloc::{Allocator, Global};
use std::fs::Files;
use std::{fs, io};
use web_folders::{FolderEntry, FolderFiles, Found};
use web_paths::Below;
use web_texts::NoMemory;

/// The files of a folder of a disk. For each `Below` it opens one path: that of the folder with the
/// names of the `Below`.
#[derive(Drop)]
pub struct DiskFiles<D> {
    disk: D,
    /// The path of the folder, without links and without a slash at its end.
    root: String,
}

/// The path, or that of the folder of all where it is empty.
fn or_slash(full: String) -> Result<String, NoMemory>
    ensures { IfOk result (λ path. string_bytes path ≡ or_slash (string_bytes full)) }
{
    if !full.as_str().is_empty() {
        return Ok(full);
    }
    let mut path = full;
    path.push_str("/")?;
    Ok(path)
}

/// The path of a `Below` in the folder at `root`.
fn opened_path(alloc: Global, root: &str, path: &Below) -> Result<String, NoMemory>
    ensures { IfOk result (λ full. string_bytes full ≡ opened_path root.now path.now.names) }
{
    let full = path.in_folder(alloc, root)?;
    or_slash(full)
}

impl<R: Files + Alloc<A = Global> + Drop> DiskFiles<SystemDisk<R>> {
    /// The files of the folder at this path, which may be reached by links.
    ///
    /// # Errors
    ///
    /// If the path leads to nothing, or is not UTF-8, and if memory failed.
    pub fn open(rt: R, folder: &str, links: Links) -> io::Result<DiskFiles<SystemDisk<R>>>
        ensures { IfOk result (λ files. files.disk ≡ record { rt = rt; links = links }) }
    {
        let real = fs::canonicalize(&rt, folder)?;
        let root = real.as_str();
        let root = root.strip_suffix('/').unwrap_or(root);
        let root = String::from_str(rt.alloc(), root)?;
        let disk = SystemDisk::new(rt, links);
        Ok(DiskFiles { disk, root })
    }
}

impl<D: Disk> FolderFiles for DiskFiles<D> {
    ghost use Rattle.std.specs.Prelude.{string_bytes};
    ghost use Rattle.web_files.specs.OpenedPaths.{opened_path};

    type File = D::File;

    type Folder = D::File;

    ghost finds = { λ files path found.
        D.opens files.disk (opened_path (string_bytes files.root) path.names) found };

    ghost lists = { λ files folder entries. D.lists files.disk folder entries };

    fn find(&self, alloc: Global, path: &Below) -> Result<Found<D::File, D::File>, NoMemory> {
        let full = opened_path(alloc, self.root.as_str(), path)?;
        self.disk.open_path(alloc, full.as_str())
    }

    fn entries(
        &self,
        alloc: Global,
        folder: &D::File,
    ) -> Result<Option<Vec<FolderEntry>>, NoMemory> {
        self.disk.entries(alloc, folder)
    }
}
