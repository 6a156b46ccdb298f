//! The choice among the codings of a file.
ghost use Rattle.std.specs.Prelude.{◌≡◌, IfOk, map, slice_get, unwrap_or};
ghost use Rattle.std.specs.Option.{option_and_then};
ghost use Rattle.http_header.specs.HeaderMap.{remove};
ghost use Rattle.web_folders.specs.FileCodings.{IsCodingFor, SendsCoding, encoding_of};
ghost use Rattle.web_folders.specs.FileCodings.{coding_headers as coding_headers_lem};

use crate::coding::FileCoding;
use bytes::Bytes;
use http_header::{ACCEPT, ACCEPT_LANGUAGE, HeaderMap, HeaderName, HeaderValue};
use std::alloc::Global;
use std::marker::Model;
use web_texts::{APPLICATION_OCTET_STREAM, Fail, Mime, NoMemory};
use web_variants::{Variant, Variants, choose};

/// The codings in which a file may be there, as variants without content. They are made once.
#[derive(Drop)]
pub(crate) struct CodingOffers {
    brotli: Variants,
    gzip: Variants,
    both: Variants,
}

impl Model for CodingOffers {
    ghost use Rattle.std.specs.Prelude.{◌≡◌, map, true, false};
    ghost use Rattle.web_folders.specs.FileCodings.{codings_there, encoding_of};

    ghost Value = { Unit {0} };

    ghost view = { λ o. tt };

    ghost invariant = { λ o.
        (map (λ v. v.coding) o.brotli ≡ map encoding_of (codings_there true false))
        × (map (λ v. v.coding) o.gzip ≡ map encoding_of (codings_there false true))
        × (map (λ v. v.coding) o.both ≡ map encoding_of (codings_there true true)) };
}

/// A variant in this coding. Its media type counts for nothing.
fn variant(alloc: Global, coding: FileCoding) -> Result<Variant, NoMemory>
    ensures { IfOk result (λ v. v.coding ≡ encoding_of coding) }
{
    match Mime::parse(alloc, APPLICATION_OCTET_STREAM) {
        Ok(media_type) => Ok(Variant {
            media_type,
            language: None,
            coding: coding.encoding(),
            body: Bytes::new(),
        }),
        Err(_) => Err(NoMemory),
    }
}

/// One variant in each of these codings.
fn variants(alloc: Global, codings: &[FileCoding]) -> Result<Variants, NoMemory>
    ensures { IfOk result (λ made. map (λ v. v.coding) made ≡ map encoding_of codings.now) }
{
    let mut variants = Vec::with_capacity(alloc, codings.len())?;
    for coding in codings {
        variants.push(variant(alloc, *coding)?)?;
    }
    match Variants::new(alloc, variants) {
        Ok(variants) => Ok(variants),
        Err(_) => Err(NoMemory),
    }
}

fn copy_headers(headers: &HeaderMap<HeaderValue>) -> Result<HeaderMap<HeaderValue>, NoMemory>
    ensures { IfOk result (λ copy. copy ≡ headers.now) }
{
    Ok(headers.clone()?)
}

fn without(headers: HeaderMap<HeaderValue>, name: HeaderName) -> HeaderMap<HeaderValue>
    ensures { result ≡ remove headers name }
{
    let mut rest = headers;
    rest.remove(name);
    rest
}

/// The request's headers without those that ask for a media type or a language.
fn coding_headers(headers: &HeaderMap<HeaderValue>) -> Result<HeaderMap<HeaderValue>, NoMemory>
    ensures { IfOk result (λ rest. rest ≡ coding_headers_lem headers.now) }
{
    let copy = copy_headers(headers)?;
    Ok(without(without(copy, ACCEPT), ACCEPT_LANGUAGE))
}

/// The coding at this place, or none.
fn coding_at(there: &[FileCoding], place: Option<usize>) -> FileCoding
    ensures { result ≡ unwrap_or (option_and_then (slice_get there.now) place) FileCoding.Identity }
{
    match place {
        Some(place) => match there.get(place) {
            Some(coding) => *coding,
            None => FileCoding::Identity,
        },
        None => FileCoding::Identity,
    }
}

fn chosen(
    alloc: Global,
    headers: &HeaderMap<HeaderValue>,
    variants: &Variants,
    there: &[FileCoding],
) -> Result<FileCoding, NoMemory>
    requires { map (λ v. v.coding) variants.now ≡ map encoding_of there.now }
    ensures { IfOk result (λ coding. IsCodingFor headers.now there.now coding) }
{
    let rest = coding_headers(headers)?;
    let place = choose(alloc, variants, &rest)?;
    Ok(coding_at(there, place))
}

impl CodingOffers {
    pub(crate) fn new(alloc: Global) -> Result<CodingOffers, NoMemory> {
        let brotli = variants(alloc, &[FileCoding::Identity, FileCoding::Brotli])?;
        let gzip = variants(alloc, &[FileCoding::Identity, FileCoding::Gzip])?;
        let both = variants(
            alloc,
            &[FileCoding::Identity, FileCoding::Brotli, FileCoding::Gzip],
        )?;
        Ok(CodingOffers { brotli, gzip, both })
    }

    /// The coding in which a file is sent to a client with these headers, if it is there in these.
    pub(crate) fn coding_for(
        &self,
        alloc: Global,
        headers: &HeaderMap<HeaderValue>,
        has_brotli: bool,
        has_gzip: bool,
    ) -> Result<FileCoding, NoMemory>
        ensures { IfOk result (λ coding.
            SendsCoding headers.now has_brotli has_gzip coding) }
    {
        let plain = FileCoding::Identity;
        if has_brotli && has_gzip {
            let there = [plain, FileCoding::Brotli, FileCoding::Gzip];
            return chosen(alloc, headers, &self.both, &there);
        }
        if has_brotli {
            return chosen(alloc, headers, &self.brotli, &[plain, FileCoding::Brotli]);
        }
        if has_gzip {
            return chosen(alloc, headers, &self.gzip, &[plain, FileCoding::Gzip]);
        }
        Ok(plain)
    }
}
