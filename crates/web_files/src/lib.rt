//! A folder of the file system that is served: opening its files, and reading them as they are
//! sent.
#![tactic(auto)]

mod disk;
mod disk_files;
mod file_pieces;
mod laws;
mod links;
mod sent_body;
mod system_disk;

pub use disk::Disk;
pub use disk_files::DiskFiles;
pub use file_pieces::FilePieces;
pub use laws::file_bytes_law;
pub use links::Links;
pub use sent_body::streamed;
pub use system_disk::SystemDisk;
