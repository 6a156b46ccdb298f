//! Media types by the ends of names.
ghost use Rattle.std.specs.Prelude.{◌≡◌, IsTrue, true};
ghost use Rattle.http_header.specs.FieldValue.{is_visible_text};
ghost use Rattle.web_folders.specs.FileMediaTypes.{are_visible, extension_of as extension_of_lem};
ghost use Rattle.web_folders.specs.FileMediaTypes.{media_type_in, media_type_of as media_type_lem};
ghost use Rattle.web_folders.specs.FileMediaTypes.{plain_rows};
ghost use Rattle.std.specs.Str.{str_eq_ignore_ascii_case};

use web_texts::cut_at_last;

/// Extensions with their media types, as they are registered at IANA, and for `.ico`, `.map`,
/// `.xz`, `.7z` and `.webmanifest` as browsers and other servers use them. Texts say that they are
/// UTF-8.
pub const MEDIA_TYPES: [(&str, &str); 46] = [
    ("html", "text/html; charset=utf-8"),
    ("htm", "text/html; charset=utf-8"),
    ("css", "text/css; charset=utf-8"),
    ("js", "text/javascript; charset=utf-8"),
    ("mjs", "text/javascript; charset=utf-8"),
    ("json", "application/json"),
    ("map", "application/json"),
    ("txt", "text/plain; charset=utf-8"),
    ("md", "text/markdown; charset=utf-8"),
    ("csv", "text/csv; charset=utf-8"),
    ("xml", "text/xml; charset=utf-8"),
    ("ics", "text/calendar; charset=utf-8"),
    ("vtt", "text/vtt; charset=utf-8"),
    ("svg", "image/svg+xml"),
    ("png", "image/png"),
    ("jpg", "image/jpeg"),
    ("jpeg", "image/jpeg"),
    ("gif", "image/gif"),
    ("webp", "image/webp"),
    ("avif", "image/avif"),
    ("ico", "image/x-icon"),
    ("bmp", "image/bmp"),
    ("tif", "image/tiff"),
    ("tiff", "image/tiff"),
    ("woff", "font/woff"),
    ("woff2", "font/woff2"),
    ("ttf", "font/ttf"),
    ("otf", "font/otf"),
    ("pdf", "application/pdf"),
    ("wasm", "application/wasm"),
    ("zip", "application/zip"),
    ("gz", "application/gzip"),
    ("tar", "application/x-tar"),
    ("bz2", "application/x-bzip2"),
    ("xz", "application/x-xz"),
    ("7z", "application/x-7z-compressed"),
    ("mp3", "audio/mpeg"),
    ("ogg", "audio/ogg"),
    ("wav", "audio/wav"),
    ("flac", "audio/flac"),
    ("mp4", "video/mp4"),
    ("webm", "video/webm"),
    ("ogv", "video/ogg"),
    ("mov", "video/quicktime"),
    ("rss", "application/rss+xml"),
    ("webmanifest", "application/manifest+json"),
];

/// The text after the last dot, or none.
fn extension_of(path: &str) -> &str
    ensures { result.now ≡ extension_of_lem path.now }
{
    match cut_at_last(path, b'.') {
        Some((_, extension)) => extension,
        None => "",
    }
}

fn is_same(extension: &str, other: &str) -> bool
    ensures { result ≡ str_eq_ignore_ascii_case extension.now other.now }
{
    extension.eq_ignore_ascii_case(other)
}

/// The media type of an extension, in any ASCII case, in these rows.
fn media_type_in(rows: &[(&'static str, &'static str)], extension: &str) -> &'static str
    requires { are_visible (plain_rows rows.now) ≡ true }
    ensures value { result.now ≡ media_type_in (plain_rows rows.now) extension.now }
    ensures visible { IsTrue (is_visible_text result.now) }
{
    for row in rows {
        if is_same(extension, row.0) {
            return row.1;
        }
    }
    "application/octet-stream"
}

/// The media type of the file at this path, by the text after the last dot: the first row of
/// `MEDIA_TYPES` with that extension, in any ASCII case, and `application/octet-stream` if there
/// is none.
#[tactic(auto, unfolding(crate::specs::FileMediaTypes::media_type_of))]
pub fn media_type_of(path: &str) -> &'static str
    ensures value { result.now ≡ media_type_lem path.now }
    ensures visible { IsTrue (is_visible_text result.now) }
{
    media_type_in(&MEDIA_TYPES, extension_of(path))
}
