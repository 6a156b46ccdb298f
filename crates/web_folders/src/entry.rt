//! What stands in a folder.
use web_texts::Text;

/// A file or a folder in a folder. Entries are sorted by their names.
#[derive(Debug, Drop, PartialEq, Eq, PartialOrd, Ord)]
pub struct FolderEntry {
    /// Its name, without a slash.
    pub name: Text,
    pub is_folder: bool,
}
