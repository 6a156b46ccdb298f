//! The body of a reply from a folder.
use bytes::Bytes;

/// A part of an open file.
#[derive(Drop)]
pub struct FilePart<F> {
    pub file: F,
    /// The position of its first byte, from 0.
    pub first: u64,
    /// How many bytes it has.
    pub count: u64,
}

/// The body of a reply from a folder, whose files have the type `F`.
#[derive(Drop)]
pub enum FolderBody<F> {
    Empty,
    /// The page that lists a folder.
    Page(Bytes),
    /// All of a file, or a part of it.
    File(FilePart<F>),
    /// No byte, at HEAD, where GET would get so many.
    Omitted(u64),
}
