//! A folder that is served: which of its files a request asks for, and the reply with it.
#![tactic(auto)]

mod added_headers;
mod body;
mod coding;
mod disposition;
mod entry;
mod facts;
mod file_reply;
mod folder;
mod folder_files;
mod listing;
mod media_type;
mod offers;
mod plain_replies;
mod settings;
mod variants;

pub use body::{FilePart, FolderBody};
pub use entry::FolderEntry;
pub use facts::{FileFacts, FileTime};
pub use folder::Folder;
pub use folder_files::{FolderFiles, Found, OpenedFile};
pub use media_type::{MEDIA_TYPES, media_type_of};
pub use settings::FolderSettings;
