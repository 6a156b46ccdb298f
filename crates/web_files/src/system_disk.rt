//! The disk as `std::fs` opens it.
ghost use Rattle.std.specs.Prelude.{◌≡◌};

use crate::disk::Disk;
use crate::links::Links;
use std::alloc::{Allocator, Global};
use std::fs::{DirEntry, Files, Metadata, OpenFile};
use std::io::ErrorKind;
use std::os::fd::AsRawFd;
use std::os::unix::fs::MetadataExt;
use std::{fs, io};
use web_folders::{FileFacts, FileTime, FolderEntry, Found, OpenedFile};
use web_texts::{NoMemory, Text};

/// The disk as `std::fs` opens it. A path is looked at before it is opened, since to open a pipe
/// waits.
#[derive(Drop)]
pub struct SystemDisk<R> {
    rt: R,
    links: Links,
}

/// Whether an error says that nothing is there that may be read.
fn is_missing(error: &io::Error) -> bool {
    matches!(
        error.kind(),
        ErrorKind::NotFound
            | ErrorKind::NotADirectory
            | ErrorKind::PermissionDenied
            | ErrorKind::FilesystemLoop
            | ErrorKind::InvalidFilename
            | ErrorKind::InvalidInput
    )
}

/// What is found in place of what gave an error.
fn missing<F, D>(error: &io::Error) -> Found<F, D> {
    if is_missing(error) {
        Found::Nothing
    } else {
        Found::Failed
    }
}

/// When a file was last changed.
fn changed(metadata: &Metadata) -> FileTime {
    match u64::try_from(metadata.mtime()) {
        Ok(seconds) => FileTime::Since1970(seconds),
        Err(_) => FileTime::Before1970(metadata.mtime().unsigned_abs()),
    }
}

fn facts_of(metadata: &Metadata) -> FileFacts {
    FileFacts {
        inode: metadata.ino(),
        length: metadata.len(),
        changed: changed(metadata),
        nanos: u32::try_from(metadata.mtime_nsec()).unwrap_or(0),
    }
}

/// What an open file is, by what it says of itself.
fn found<F: Drop>(file: F, metadata: &Metadata) -> Found<F, F> {
    if metadata.is_dir() {
        return Found::Folder(file);
    }
    if metadata.is_file() {
        let facts = facts_of(metadata);
        return Found::File(OpenedFile { file, facts });
    }
    Found::Nothing
}

/// The path by which the system knows an open file.
fn descriptor_path<F: AsRawFd>(alloc: Global, file: &F) -> Result<String, NoMemory> {
    let fd = file.as_raw_fd();
    Ok(format!(in alloc; "/proc/self/fd/{fd}")?)
}

impl<R: Files + Drop> SystemDisk<R> {
    pub(crate) fn new(rt: R, links: Links) -> SystemDisk<R>
        ensures { result ≡ record { rt = rt; links = links } }
    {
        SystemDisk { rt, links }
    }

    /// What is at a path, without opening it.
    fn look(&self, full: &str) -> io::Result<Metadata> {
        match self.links {
            Links::Refused => fs::symlink_metadata(&self.rt, full),
            Links::Followed => fs::metadata(&self.rt, full),
        }
    }

    /// Whether an entry of a folder is a folder; `None` for what is neither a file nor a folder.
    fn is_folder<E: Files, A: Allocator>(&self, entry: &DirEntry<E, A>) -> Option<bool> {
        let mut metadata = entry.metadata().ok()?;
        if metadata.is_symlink() && self.links == Links::Followed {
            metadata = fs::metadata(&self.rt, entry.path()).ok()?;
        }
        if metadata.is_dir() {
            return Some(true);
        }
        if metadata.is_file() {
            Some(false)
        } else {
            None
        }
    }
}

impl<R: Files + Alloc<A = Global> + Drop> SystemDisk<R> {
    /// Whether an open file is at this path, and no link led to it.
    fn is_at<F: AsRawFd>(&self, alloc: Global, file: &F, full: &str) -> Result<bool, NoMemory> {
        if self.links == Links::Followed {
            return Ok(true);
        }
        let descriptor = descriptor_path(alloc, file)?;
        match fs::read_link(&self.rt, descriptor.as_str()) {
            Ok(real) => Ok(real.as_str() == full),
            Err(_) => Ok(false),
        }
    }

    /// Opens what was seen to be a file or a folder.
    fn open_seen(&self, alloc: Global, full: &str) -> Result<Found<R::File, R::File>, NoMemory>
    where
        R::File: AsRawFd,
    {
        let file = match fs::open(&self.rt, full) {
            Ok(file) => file,
            Err(error) => return Ok(missing(&error)),
        };
        if !self.is_at(alloc, &file, full)? {
            return Ok(Found::Nothing);
        }
        match OpenFile::metadata(&file) {
            Ok(metadata) => Ok(found(file, &metadata)),
            Err(_) => Ok(Found::Failed),
        }
    }
}

impl<R: Files + Alloc<A = Global> + Clone + Drop> Disk for SystemDisk<R>
where
    R::File: AsRawFd,
{
    ghost use Rattle.std.specs.Prelude.{⊤};

    type File = R::File;

    ghost opens = { λ disk path found. ⊤ };

    ghost lists = { λ disk folder entries. ⊤ };

    fn open_path(&self, alloc: Global, path: &str) -> Result<Found<R::File, R::File>, NoMemory> {
        let seen = match self.look(path) {
            Ok(seen) => seen,
            Err(error) => return Ok(missing(&error)),
        };
        if seen.is_dir() || seen.is_file() {
            return self.open_seen(alloc, path);
        }
        Ok(Found::Nothing)
    }

    fn entries(
        &self,
        alloc: Global,
        folder: &R::File,
    ) -> Result<Option<Vec<FolderEntry>>, NoMemory> {
        let path = descriptor_path(alloc, folder)?;
        let Ok(read) = fs::read_dir(&self.rt, path.as_str()) else {
            return Ok(None);
        };
        let mut entries = Vec::new(alloc);
        for entry in read {
            match entry {
                Ok(entry) => {
                    if let Some(is_folder) = self.is_folder(&entry) {
                        let name = Text::of(alloc, entry.file_name())?;
                        entries.push(FolderEntry { name, is_folder })?;
                    }
                }
                // A name that is not UTF-8, which no request can have.
                Err(error) if error.kind() == ErrorKind::InvalidFilename => {}
                Err(_) => return Ok(None),
            }
        }
        Ok(Some(entries))
    }
}
