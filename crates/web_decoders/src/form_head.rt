//! The tests of a form by the head of its request.
ghost use Rattle.std.specs.Prelude.{◌≡◌, IfOk, IsOk, codes};
ghost use Rattle.std.specs.Str.{str_eq_ignore_ascii_case};
ghost use Rattle.web_request.specs.MessageFields.{first_content_type};
ghost use Rattle.web_decoders.specs.WrittenTypes.{NeedsNoReading};
ghost use Rattle.web_decoders.specs.FormHeads.{form_head, form_length_refusal, form_refusal};
ghost use Rattle.web_decoders.specs.FormHeads.{is_form_of, takes_form};

use crate::written_type::is_written;
use std::alloc::Global;
use web_body::{Declared, PayloadError, UrlencodedError, declared_length, is_coded};
use web_request::{App, HttpMessage, HttpRequest};
use web_texts::{APPLICATION_WWW_FORM_URLENCODED, Fail, NoMemory};

/// What a form is tested by before any of it is read.
#[derive(Clone, Copy, Debug)]
pub struct FormHead {
    /// The content type is that of a form.
    pub is_form: bool,
    /// The length that the head declares.
    pub declared: Declared,
    /// The head names a coding.
    pub is_coded: bool,
}

impl FormHead {
    /// What the head of a request says.
    pub fn of<A: App>(alloc: Global, req: &HttpRequest<A>) -> Result<FormHead, NoMemory>
        ensures value { IfOk result (λ h. h ≡ form_head req.now.request.head.headers) }
        ensures memory { NeedsNoReading (codes "application/x-www-form-urlencoded")
            (first_content_type req.now.request.head.headers) → IsOk result }
    {
        let is_form = is_form(alloc, req)?;
        let headers = &req.head().headers;
        Ok(FormHead {
            is_form,
            declared: declared_length(headers),
            is_coded: is_coded(headers),
        })
    }

    /// Whether the payload is taken.
    pub fn takes(self) -> bool
        ensures { result ≡ takes_form self }
    {
        match self.declared {
            Declared::Unreadable => false,
            Declared::Nothing | Declared::Length(_) => self.is_form,
        }
    }

    /// The first test that refuses the body under a limit, in bytes.
    pub fn refusal(self, limit: usize) -> Option<UrlencodedError>
        ensures { result ≡ form_refusal self limit }
    {
        if self.is_form {
            length_refusal(self.declared, self.is_coded, limit)
        } else {
            Some(UrlencodedError::ContentType)
        }
    }
}

fn length_refusal(declared: Declared, is_coded: bool, limit: usize) -> Option<UrlencodedError>
    ensures { result ≡ form_length_refusal declared is_coded limit }
{
    match declared {
        Declared::Unreadable => return Some(UrlencodedError::UnknownLength),
        Declared::Length(size) if limit < size => {
            return Some(UrlencodedError::Overflow { size, limit });
        }
        Declared::Length(_) | Declared::Nothing => {}
    }
    if is_coded {
        Some(UrlencodedError::Payload(PayloadError::UnsupportedEncoding))
    } else {
        None
    }
}

/// Whether the content type is that of a form, and its charset UTF-8.
fn is_form<A: App>(alloc: Global, req: &HttpRequest<A>) -> Result<bool, NoMemory>
    ensures value { IfOk result (λ b. b ≡ is_form_of req.now.request.head.headers) }
    ensures memory { NeedsNoReading (codes "application/x-www-form-urlencoded")
        (first_content_type req.now.request.head.headers) → IsOk result }
{
    // The usual spelling takes no memory.
    if is_written(
        &req.head().headers,
        APPLICATION_WWW_FORM_URLENCODED.as_bytes(),
    ) {
        return Ok(true);
    }
    if !names_form(req.content_type()) {
        return Ok(false);
    }
    match req.encoding(alloc) {
        Ok(()) => Ok(true),
        Err(Fail::Of(_)) => Ok(false),
        Err(Fail::NoMemory) => Err(NoMemory),
    }
}

fn names_form(content_type: &str) -> bool
    ensures { result ≡ str_eq_ignore_ascii_case content_type.now
        (codes "application/x-www-form-urlencoded") }
{
    content_type.eq_ignore_ascii_case(APPLICATION_WWW_FORM_URLENCODED)
}
