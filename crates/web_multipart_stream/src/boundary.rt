//! The boundary that a head names.
ghost use Rattle.std.specs.Prelude.{◌≡◌};
ghost use Rattle.std.specs.List.{list_all};
ghost use Rattle.std.specs.Option.{option_map};
ghost use Rattle.web_multipart_stream.specs.FormBoundaries.{boundary_in, is_boundary};
ghost use Rattle.web_multipart_stream.specs.FormBoundaries.{is_boundary_byte};

use web_texts::Mime;

/// The most bytes of a boundary.
const LONGEST: usize = 70;

/// The boundary of `multipart/form-data` (RFC 7578, section 4.1), where the type names one.
pub fn boundary_in(media_type: &Mime) -> Option<&str>
    ensures { option_map (λ text. text.now) result ≡ boundary_in media_type.now }
{
    if media_type.essence() != "multipart/form-data" {
        return None;
    }
    let boundary = media_type.param("boundary")?;
    if is_boundary(boundary.as_bytes()) {
        Some(boundary)
    } else {
        None
    }
}

/// Whether these bytes can be a boundary: 1 to 70 of them, printable ASCII or spaces, the last of
/// which is no space.
fn is_boundary(bytes: &[u8]) -> bool
    ensures { result ≡ is_boundary bytes.now }
{
    if bytes.is_empty() || bytes.len() > LONGEST {
        return false;
    }
    are_boundary_bytes(bytes) && bytes[bytes.len() - 1] != b' '
}

fn are_boundary_bytes(bytes: &[u8]) -> bool
    ensures { result ≡ list_all is_boundary_byte bytes.now }
{
    bytes.iter().all(|b| is_boundary_byte(*b))
}

/// Printable ASCII, or a space.
fn is_boundary_byte(byte: u8) -> bool
    ensures { result ≡ is_boundary_byte byte }
{
    b' ' <= byte && byte <= b'~'
}
