//! The names of the versions of HTTP.
ghost use Rattle.std.specs.Prelude.{◌≡◌};
ghost use Rattle.web_request_log.specs.VersionNames.{version_name};

use http::Version;

/// The name of a version, as `HTTP/1.1`.
pub fn version_name(version: Version) -> &'static str
    ensures { result.now ≡ version_name version }
{
    if version == Version::HTTP_11 {
        "HTTP/1.1"
    } else if version == Version::HTTP_2 {
        "HTTP/2.0"
    } else if version == Version::HTTP_3 {
        "HTTP/3.0"
    } else if version == Version::HTTP_10 {
        "HTTP/1.0"
    } else {
        "HTTP/0.9"
    }
}
