//! How a folder is served.
use http_header::HeaderValue;
use web_paths::HiddenNames;

/// How a folder is served. By default no file is served whose name begins with a dot, no folder is
/// listed, and no compressed file is sent.
#[derive(Drop)]
pub struct FolderSettings {
    /// Whether names may begin with a dot, as `.git`. It counts for lists too.
    pub hidden: HiddenNames,
    /// Whether a folder without an `index.html` is listed. Otherwise it is 404.
    pub lists: bool,
    /// Whether `NAME.br` or `NAME.gz` beside a file `NAME` is sent to a client that accepts it.
    pub compressed: bool,
    /// Whether replies with a file have a Content-Disposition: `inline` for types that a browser
    /// shows, and `attachment` for others.
    pub dispositions: bool,
    /// The value of Cache-Control in replies with a file, and in 304.
    pub cache_control: Option<HeaderValue>,
}

impl Default for FolderSettings {
    fn default() -> FolderSettings {
        FolderSettings {
            hidden: HiddenNames::Refused,
            lists: false,
            compressed: false,
            dispositions: false,
            cache_control: None,
        }
    }
}
