//! Pages: variants, and the one for a client that accepts none of them.
ghost use Rattle.std.specs.Prelude.{◌≡◌, ◌<◌, IfSome, None, length};
ghost use Rattle.web_variants.specs.PageReplies.{with_fallback};

use crate::page_fault::NoSuchVariant;
use crate::stored_variants::Variants;
use std::marker::Model;

/// The variants of a page and, where one is set, the variant that a client gets which accepts none
/// of them. Contracts see the variants and the place of that one.
#[derive(Drop)]
pub struct Page {
    variants: Variants,
    fallback: Option<usize>,
}

impl Model for Page {
    ghost use Rattle.std.specs.Prelude.{◌<◌, IfSome, length};
    ghost use Rattle.web_variants.specs.PageReplies.{StoredPage};

    ghost Value = { StoredPage };

    ghost view = { λ p. record { variants = p.variants; fallback = p.fallback } };

    ghost invariant = { λ p. IfSome p.fallback (λ place. place < length p.variants) };
}

impl Page {
    /// A page without a fallback: a client that accepts none of the variants gets 406.
    pub fn new(variants: Variants) -> Page
        ensures { result ≡ record { variants = variants; fallback = None } }
    {
        Page {
            variants,
            fallback: None,
        }
    }

    /// A page whose fallback is the variant at this place, from 0: a client that accepts none of
    /// the variants gets that one. `NoSuchVariant` comes where there are not so many.
    pub fn with_fallback(variants: Variants, place: usize) -> Result<Page, NoSuchVariant>
        ensures { result ≡ with_fallback variants place }
    {
        if place < variants.as_slice().len() {
            Ok(Page {
                variants,
                fallback: Some(place),
            })
        } else {
            Err(NoSuchVariant { place })
        }
    }

    /// The variants.
    pub fn variants(&self) -> &Variants
        ensures { result.now ≡ self.now.variants }
    {
        &self.variants
    }

    /// The place of the fallback, where one is set.
    pub fn fallback(&self) -> Option<usize>
        ensures value { result ≡ self.now.fallback }
        ensures inside { IfSome result (λ place. place < length self.now.variants) }
    {
        self.fallback
    }
}
