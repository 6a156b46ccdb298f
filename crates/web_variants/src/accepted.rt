//! What the headers of a request accept.
ghost use Rattle.std.specs.Prelude.{◌≡◌, IfOk, codes};
ghost use Rattle.http_header.specs.HeaderMap.{get_all};
ghost use Rattle.web_texts.specs.HeaderTexts.{value_bytes};
ghost use Rattle.web_variants.specs.Acceptance.{coding_quality as coding_quality_of};
ghost use Rattle.web_variants.specs.Acceptance.{language_quality as language_quality_of};
ghost use Rattle.web_variants.specs.Acceptance.{media_quality as media_quality_of};
ghost use Rattle.web_variants.specs.Acceptance.{codings, variant_rank};
ghost use Rattle.web_variants.specs.AcceptedHeaders.{accepted_codings, accepted_languages};
ghost use Rattle.web_variants.specs.AcceptedHeaders.{accepted_rank, accepted_types};
ghost use Rattle.web_variants.specs.AcceptedHeaders.{has_values};
ghost use Rattle.web_variants.specs.declared.stored_variants.Variant.{Variant as Stored};

use crate::coding_quality::{by_identity, coding_quality};
use crate::language_quality::language_quality;
use crate::media_quality::media_quality;
use crate::stored_variants::Variant;
use http_header::{ACCEPT_ENCODING, HeaderMap, HeaderName, HeaderValue};
use std::alloc::Global;
use web_headers::{Accept, AcceptEncoding, AcceptLanguage, Encoding, Header};
use web_negotiate::Ranking;
use web_texts::{Fail, LanguageTag, Mime, NoMemory};

/// What the three headers of a request say. A header that is absent, or that cannot be read, says
/// nothing.
#[derive(Drop)]
pub(crate) struct Accepted {
    types: Option<Accept>,
    languages: Option<AcceptLanguage>,
    codings: Option<AcceptEncoding>,
}

fn type_accepted(media_type: &Mime, types: &Option<Accept>) -> u16
    ensures { result ≡ media_quality_of media_type.now (accepted_types types.now) }
{
    match types {
        Some(types) => media_quality(media_type, types.0.as_slice()),
        None => 1000,
    }
}

fn language_accepted(language: &Option<LanguageTag>, languages: &Option<AcceptLanguage>) -> u16
    ensures { result ≡ language_quality_of language.now (accepted_languages languages.now) }
{
    match (language, languages) {
        (Some(tag), Some(languages)) => language_quality(tag, languages.0.as_slice()),
        _ => 1000,
    }
}

fn coding_accepted(coding: &Encoding, codings: &Option<AcceptEncoding>) -> u16
    ensures { result ≡ coding_quality_of coding.now (accepted_codings codings.now) }
{
    match codings {
        Some(codings) => coding_quality(coding, codings.0.as_slice()),
        None => by_identity(coding, 1000, 1),
    }
}

impl Ranking<Variant> for Accepted {
    ghost use Rattle.web_variants.specs.AcceptedHeaders.{accepted_rank};

    ghost ranks = { accepted_rank };

    fn rank(&self, variant: &Variant) -> u64 {
        u64::from(type_accepted(&variant.media_type, &self.types))
            * u64::from(language_accepted(&variant.language, &self.languages))
            * u64::from(coding_accepted(&variant.coding, &self.codings))
    }
}

/// The header as it is read, or `None` where its reader refuses it.
fn read<H: Header + Drop>(
    alloc: Global,
    headers: &HeaderMap<HeaderValue>,
) -> Result<Option<H>, NoMemory>
    ensures { IfOk result (λ said. H.says (value_bytes (get_all headers.now H.called)) said) }
{
    match H::parse(alloc, headers) {
        Ok(header) => Ok(Some(header)),
        Err(Fail::NoMemory) => Err(NoMemory),
        Err(Fail::Of(_)) => Ok(None),
    }
}

fn has_header(headers: &HeaderMap<HeaderValue>, name: &HeaderName) -> bool
    ensures { result ≡ has_values (get_all headers.now name.now) }
{
    match headers.get(name) {
        Some(_) => true,
        None => false,
    }
}

fn read_codings(
    alloc: Global,
    headers: &HeaderMap<HeaderValue>,
) -> Result<Option<AcceptEncoding>, NoMemory>
    ensures { IfOk result (λ said. accepted_codings said ≡ codings headers.now) }
{
    if has_header(headers, &ACCEPT_ENCODING) {
        read(alloc, headers)
    } else {
        Ok(None)
    }
}

/// Reads each of the three headers once.
pub(crate) fn read_accepted(
    alloc: Global,
    headers: &HeaderMap<HeaderValue>,
) -> Result<Accepted, NoMemory>
    ensures { IfOk result (λ accepted. (v : Stored)
        → accepted_rank accepted v ≡ variant_rank headers.now v) }
{
    let types = read(alloc, headers)?;
    let languages = read(alloc, headers)?;
    let codings = read_codings(alloc, headers)?;
    Ok(Accepted {
        types,
        languages,
        codings,
    })
}
