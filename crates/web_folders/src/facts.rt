//! What is known of a file before it is read.
ghost use Rattle.std.specs.Prelude.{◌≡◌, IfOk};
ghost use Rattle.web_folders.specs.FileDescriptions.{DescribesFile, IsLastChange, file_tag};
ghost use Rattle.web_folders.specs.FileDescriptions.{file_tag_text};
ghost use Rattle.web_folders.specs.FileDescriptions.{time_text};

use crate::media_type::media_type_of;
use http_header::HeaderValue;
use httpdate::HttpDate;
use std::alloc::Global;
use std::fmt;
use web_docs::Described;
use web_entities::EntityTag;
use web_texts::{NoMemory, Text};

/// When a file was last changed, in whole seconds.
#[derive(Clone, Copy, Debug, PartialEq, Eq)]
pub enum FileTime {
    /// So many seconds after the beginning of 1970, UTC.
    Since1970(u64),
    /// So many seconds before it.
    Before1970(u64),
}

impl FileTime {
    /// The date of Last-Modified. `None` for a time that no such date can show: before 1970, or
    /// after the year 9999.
    fn date(self) -> Option<HttpDate>
        ensures { IsLastChange self result }
    {
        match self {
            FileTime::Since1970(seconds) => match HttpDate::from_unix_secs(seconds) {
                Ok(date) => Some(date),
                Err(_) => None,
            },
            FileTime::Before1970(_) => None,
        }
    }
}

impl fmt::Display for FileTime {
    ghost use Rattle.std.specs.Prelude.{Some};
    ghost use Rattle.web_folders.specs.FileDescriptions.{time_text};

    ghost output = { λ time. Some (time_text time) };

    /// In hexadecimal, with a minus sign before 1970.
    fn fmt<W: fmt::Write>(&self, f: &mut fmt::Formatter<W>) -> fmt::Result {
        match self {
            FileTime::Since1970(seconds) => write!(f, "{seconds:x}"),
            FileTime::Before1970(seconds) => write!(f, "-{seconds:x}"),
        }
    }
}

/// What is known of an open file.
#[derive(Clone, Copy, Debug, PartialEq, Eq)]
pub struct FileFacts {
    /// Its number on its device.
    pub inode: u64,
    /// Its length in bytes.
    pub length: u64,
    /// When it was last changed.
    pub changed: FileTime,
    /// The nanoseconds after that second.
    pub nanos: u32,
}

impl FileFacts {
    fn tag_text(&self, alloc: Global) -> Result<Text, NoMemory>
        ensures { IfOk result (λ text. text ≡ file_tag_text self.now) }
    {
        let FileFacts {
            inode,
            length,
            changed,
            nanos,
        } = *self;
        let text = format!(in alloc; "{inode:x}:{length:x}:{changed}:{nanos:x}")?;
        Ok(Text::from(text))
    }

    /// The strong tag of this version: inode, length, seconds and nanoseconds in hexadecimal, as
    /// `1a:c:65a0:0`.
    pub fn tag(&self, alloc: Global) -> Result<EntityTag, NoMemory>
        ensures { IfOk result (λ tag. tag ≡ file_tag self.now) }
    {
        let text = self.tag_text(alloc)?;
        Ok(EntityTag::new_strong(text))
    }

    /// What a reply says of the file of this name.
    pub(crate) fn described(&self, alloc: Global, path: &str) -> Result<Described, NoMemory>
        ensures { IfOk result (λ described. DescribesFile self.now path.now described) }
    {
        let tag = self.tag(alloc)?;
        let media_type = HeaderValue::from_static(media_type_of(path));
        match Described::new(alloc, media_type, tag, self.changed.date()) {
            Ok(described) => Ok(described),
            // The other error is none of such a tag: each of its bytes may stand in a header.
            Err(_) => Err(NoMemory),
        }
    }
}
