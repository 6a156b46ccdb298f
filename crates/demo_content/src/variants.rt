//! The variants of `/variant`.
ghost use Rattle.std.specs.Prelude.{◌≡◌, IfOk, OnOk, codes};
ghost use Rattle.web_variants.specs.VariantReplies.{variant_reply};
ghost use Rattle.demo_content.specs.StoredVariants.{AreKeptVariants, demo_variants, html};
ghost use Rattle.demo_content.specs.StoredVariants.{json, object, page};

use crate::media_types::media_type;
use bytes::Bytes;
use std::alloc::Global;
use std::marker::Model;
use web_headers::Encoding;
use web_reply::{HttpResponse, WholeBody};
use web_request::{App, HttpRequest};
use web_texts::{Fail, LanguageTag, Mime, NoMemory, TagFault};
use web_variants::{Variant, Variants, answer_variant};

/// The variants of `/variant`, which are stored when one of them is asked for.
#[derive(Drop)]
pub struct DemoVariants {
    variants: Option<Variants>,
}

impl Model for DemoVariants {
    ghost use Rattle.std.specs.Prelude.{⊤};
    ghost use Rattle.demo_content.specs.StoredVariants.{AreKeptVariants};

    ghost Value = { ⊤ };

    ghost view = { λ _. tt };

    ghost invariant = { λ v. AreKeptVariants v.variants };
}

fn html(alloc: Global) -> Result<Mime, NoMemory>
    ensures { IfOk result (λ made. made ≡ html) }
{
    let made = media_type(alloc, "text/html")?;
    Ok(made)
}

fn json(alloc: Global) -> Result<Mime, NoMemory>
    ensures { IfOk result (λ made. made ≡ json) }
{
    let made = media_type(alloc, "application/json")?;
    Ok(made)
}

fn english(alloc: Global) -> Result<LanguageTag, NoMemory>
    ensures { IfOk result (λ made. made ≡ codes "en") }
{
    match LanguageTag::parse(alloc, "en") {
        Ok(tag) => Ok(tag),
        Err(Fail::NoMemory) => Err(NoMemory),
        Err(Fail::Of(TagFault)) => unreachable!(),
    }
}

fn german(alloc: Global) -> Result<LanguageTag, NoMemory>
    ensures { IfOk result (λ made. made ≡ codes "de") }
{
    match LanguageTag::parse(alloc, "de") {
        Ok(tag) => Ok(tag),
        Err(Fail::NoMemory) => Err(NoMemory),
        Err(Fail::Of(TagFault)) => unreachable!(),
    }
}

/// A page of a language and a coding.
fn page(
    alloc: Global,
    language: LanguageTag,
    coding: Encoding,
    body: &'static [u8],
) -> Result<Variant, NoMemory>
    ensures { IfOk result (λ made. made ≡ page language coding body.now) }
{
    Ok(Variant {
        media_type: html(alloc)?,
        language: Some(language),
        coding,
        body: Bytes::from_static(body),
    })
}

/// An empty object, of no language.
fn object(alloc: Global) -> Result<Variant, NoMemory>
    ensures { IfOk result (λ made. made ≡ object) }
{
    Ok(Variant {
        media_type: json(alloc)?,
        language: None,
        coding: Encoding::identity(),
        body: Bytes::from_static(b"{}"),
    })
}

/// All four variants.
fn all_variants(alloc: Global) -> Result<Vec<Variant>, NoMemory>
    ensures { IfOk result (λ made. made.items ≡ demo_variants) }
{
    let mut variants = Vec::with_capacity(alloc, 4)?;
    variants.push(page(alloc, english(alloc)?, Encoding::identity(), b"hello")?)?;
    variants.push(page(alloc, german(alloc)?, Encoding::identity(), b"hallo")?)?;
    variants.push(object(alloc)?)?;
    variants.push(page(alloc, english(alloc)?, Encoding::gzip(), b"\x1f\x8b")?)?;
    Ok(variants)
}

fn make_variants(alloc: Global) -> Result<Variants, NoMemory>
    ensures { IfOk result (λ made. made ≡ demo_variants) }
{
    match Variants::new(alloc, all_variants(alloc)?) {
        Ok(stored) => Ok(stored),
        Err(Fail::NoMemory) => Err(NoMemory),
        Err(Fail::Of(_)) => unreachable!(),
    }
}

/// Stores the variants where none are stored.
fn keep_variants(alloc: Global, kept: &mut Option<Variants>) -> Result<(), NoMemory>
    requires { AreKeptVariants kept.old }
    ensures kept { AreKeptVariants kept.new }
    ensures stored { OnOk result (kept.new ≡ Some demo_variants) }
{
    if kept.is_none() {
        *kept = Some(make_variants(alloc)?);
    }
    Ok(())
}

impl DemoVariants {
    /// No variant is stored yet.
    pub const fn new() -> DemoVariants {
        DemoVariants { variants: None }
    }

    /// The reply to a request for a variant. Returns `NoMemory` where allocation failed.
    pub fn answer<A: App>(
        &mut self,
        alloc: Global,
        req: &HttpRequest<A>,
    ) -> Result<HttpResponse<WholeBody>, NoMemory>
        ensures { IfOk result (λ reply.
            reply ≡ variant_reply req.now.request.head.headers demo_variants) }
    {
        keep_variants(alloc, &mut self.variants)?;
        let Some(variants) = &self.variants else {
            unreachable!()
        };
        let reply = answer_variant(alloc, variants, req)?;
        Ok(reply)
    }
}
