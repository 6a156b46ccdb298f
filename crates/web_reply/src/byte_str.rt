//! Text in shared bytes.
ghost use Rattle.std.specs.Prelude.{◌≡◌, ◌↔◌, IsOk, IfOk, IfErr, IsUtf8};

use bytes::Bytes;
use std::marker::Model;

/// Text in reference-counted bytes, which are UTF-8. Contracts see it as its bytes.
#[derive(Debug, Drop)]
pub struct ByteStr {
    text: bytes::ByteStr,
}

impl Model for ByteStr {
    ghost use Rattle.std.specs.Prelude.{List, ℕ};

    ghost Value = { List ℕ };

    ghost view = { λ t. t.text };
}

impl ByteStr {
    /// The bytes as text, uncopied. Returns the bytes themselves if they are not UTF-8.
    pub fn of(bytes: Bytes) -> Result<ByteStr, Bytes>
        ensures ok { IfOk result (λ text. text ≡ bytes) }
        ensures utf8 { IsOk result ↔ IsUtf8 bytes }
        ensures back { IfErr result (λ refused. refused ≡ bytes) }
    {
        match bytes::ByteStr::from_utf8(bytes) {
            Ok(text) => Ok(ByteStr { text }),
            Err(refused) => Err(refused.bytes),
        }
    }

    pub fn as_str(&self) -> &str
        ensures { result.now ≡ self.now }
    {
        self.text.as_str()
    }

    pub(crate) fn into_bytes(self) -> Bytes
        ensures { result ≡ self }
    {
        self.text.into_bytes()
    }
}
