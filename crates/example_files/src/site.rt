//! The handler, which answers each request from the folder.
use crate::words::Words;
use anyhow::Result;
use http_header::HeaderValue;
use std::alloc::Global;
use std::fs::File;
use web_extract::Ready;
use web_files::{DiskFiles, FilePieces, SystemDisk, streamed};
use web_folders::{Folder, FolderSettings};
use web_reply::{BoxBody, HttpResponse};
use web_request::{HttpRequest, PlainApp};
use web_texts::NoMemory;
use web_worker::Handler;

/// The application: no configuration or data of its own, and bodies that are read from files.
pub type Plain = PlainApp<FilePieces<File>>;

/// A reply with a file, or without one.
pub type Reply = HttpResponse<BoxBody<FilePieces<File>>>;

/// A folder that is served.
#[derive(Drop)]
pub struct Site {
    folder: Folder<DiskFiles<SystemDisk<HostRuntime>>>,
}

impl Site {
    /// The folder as the words say. Clients ask again before they show what they kept.
    ///
    /// # Errors
    ///
    /// If the folder is not there, and if memory failed.
    pub fn new(rt: HostRuntime, words: &Words) -> Result<Site> {
        let files = DiskFiles::open(rt, words.folder.as_str(), words.links)?;
        let settings = FolderSettings {
            hidden: words.hidden,
            lists: words.lists,
            compressed: true,
            dispositions: true,
            cache_control: Some(HeaderValue::from_static("no-cache")),
        };
        let folder = Folder::new(rt.alloc(), files, settings)?;
        Ok(Site { folder })
    }
}

impl Handler<(HttpRequest<Plain>,)> for Site {
    type Output = Reply;

    type Future = Ready<Reply>;

    fn call(
        &mut self,
        alloc: Global,
        args: (HttpRequest<Plain>,),
    ) -> Result<Ready<Reply>, NoMemory> {
        let reply = self.folder.answer(alloc, &args.0)?;
        Ok(Ready::new(streamed(alloc, reply)?))
    }
}
