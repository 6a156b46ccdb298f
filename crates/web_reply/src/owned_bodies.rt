//! Byte and text types as bodies. A value of no bytes is `Bytes` of length 0, and not `Empty`.
ghost use Rattle.std.specs.Prelude.{◌≡◌, IfOk, IsOk, ⊤};
ghost use Rattle.web_reply.specs.ResponseBodies.{box_plain};

use crate::body::{BodySize, BoxBody, MessageBody};
use bytes::Bytes;
use std::alloc::Global;
use web_request::Source;
use web_texts::{NoMemory, Text};

impl<S: Source> MessageBody<S> for Bytes {
    ghost use Rattle.web_reply.specs.ResponseBodies.{Plain.Bytes as bytes_body};

    ghost plain = { λ bytes. bytes_body bytes };

    ghost needs_no_memory = { λ _. ⊤ };

    fn size(&self) -> BodySize {
        BodySize::Sized(self.len() as u64)
    }

    fn boxed(self, _alloc: Global) -> Result<BoxBody<S>, NoMemory>
        ensures value { IfOk result (λ body. box_plain S.feed body ≡ bytes_body self) }
        ensures memory { IsOk result }
    {
        Ok(BoxBody::Bytes(self))
    }
}

impl<S: Source> MessageBody<S> for Vec<u8> {
    ghost use Rattle.web_reply.specs.ResponseBodies.{Plain.Bytes as bytes_body};

    ghost plain = { λ bytes. bytes_body bytes.items };

    fn size(&self) -> BodySize {
        BodySize::Sized(self.len() as u64)
    }

    fn boxed(self, _alloc: Global) -> Result<BoxBody<S>, NoMemory> {
        Ok(BoxBody::Bytes(Bytes::from_vec(self)?))
    }
}

impl<S: Source> MessageBody<S> for String {
    ghost use Rattle.std.specs.Prelude.{string_bytes};
    ghost use Rattle.web_reply.specs.ResponseBodies.{Plain.Bytes as bytes_body};

    ghost plain = { λ text. bytes_body (string_bytes text) };

    fn size(&self) -> BodySize {
        BodySize::Sized(self.len() as u64)
    }

    fn boxed(self, _alloc: Global) -> Result<BoxBody<S>, NoMemory> {
        Ok(BoxBody::Bytes(Bytes::from_string(self)?))
    }
}

impl<S: Source> MessageBody<S> for Text {
    ghost use Rattle.web_reply.specs.ResponseBodies.{Plain.Bytes as bytes_body};

    ghost plain = { λ text. bytes_body text };

    fn size(&self) -> BodySize {
        BodySize::Sized(self.as_str().len() as u64)
    }

    fn boxed(self, _alloc: Global) -> Result<BoxBody<S>, NoMemory> {
        Ok(BoxBody::Bytes(Bytes::from_string(self.into_string())?))
    }
}
