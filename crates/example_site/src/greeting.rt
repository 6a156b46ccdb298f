//! `GET /greeting`: a page in two languages.
use crate::files::media_type;
use crate::reply::{Plain, Reply};
use anyhow::{Result, bail};
use bytes::Bytes;
use std::alloc::Global;
use web_headers::Encoding;
use web_request::HttpRequest;
use web_texts::{Fail, LanguageTag, NoMemory};
use web_variants::{Page, Variant, Variants, answer_page};

/// The page in a language.
fn variant(alloc: Global, language: &str, body: &'static [u8]) -> Result<Variant> {
    let language = match LanguageTag::parse(alloc, language) {
        Ok(language) => language,
        Err(Fail::NoMemory) => return Err(NoMemory.into()),
        Err(Fail::Of(_)) => bail!("{language} is no language"),
    };
    Ok(Variant {
        media_type: media_type(alloc, "text/html; charset=utf-8")?,
        language: Some(language),
        coding: Encoding::identity(),
        body: Bytes::from_static(body),
    })
}

/// The page in English, which comes where the client says nothing or reads neither, and in German.
pub fn new_greetings(alloc: Global) -> Result<Page> {
    let mut variants = Vec::new(alloc);
    variants.push(variant(alloc, "en", b"<p lang=en>Good morning</p>\n")?)?;
    variants.push(variant(alloc, "de", b"<p lang=de>Guten Morgen</p>\n")?)?;
    match Variants::new(alloc, variants) {
        Ok(variants) => Ok(Page::with_fallback(variants, 0)?),
        Err(Fail::NoMemory) => Err(NoMemory.into()),
        Err(Fail::Of(fault)) => Err(fault.into()),
    }
}

/// Responds with the page in the language that the client would rather read.
pub fn answer_greeting(
    alloc: Global,
    greetings: &Page,
    request: &HttpRequest<Plain>,
) -> Result<Reply, NoMemory> {
    answer_page(alloc, greetings, request)?.map_into_boxed_body(alloc)
}
