//! The texts of common media types.

/// JSON (RFC 8259).
pub const APPLICATION_JSON: &str = "application/json";
/// Bytes of any kind.
pub const APPLICATION_OCTET_STREAM: &str = "application/octet-stream";
/// The fields of a form, URL encoded.
pub const APPLICATION_WWW_FORM_URLENCODED: &str = "application/x-www-form-urlencoded";
/// Any image.
pub const IMAGE_STAR: &str = "image/*";
/// Any media type.
pub const STAR_STAR: &str = "*/*";
/// HTML.
pub const TEXT_HTML: &str = "text/html";
/// HTML in UTF-8.
pub const TEXT_HTML_UTF_8: &str = "text/html; charset=utf-8";
/// Plain text.
pub const TEXT_PLAIN: &str = "text/plain";
/// Plain text in UTF-8.
pub const TEXT_PLAIN_UTF_8: &str = "text/plain; charset=utf-8";
/// Any text.
pub const TEXT_STAR: &str = "text/*";
/// XML.
pub const TEXT_XML: &str = "text/xml";
