//! Accept.
ghost use Rattle.std.specs.Prelude.{◌≡◌, IfOk, true, codes};
ghost use Rattle.std.specs.Option.{is_some};
ghost use Rattle.web_texts.specs.MediaTypes.{media_type_of};
ghost use Rattle.web_headers.specs.ListHeaders.{IsOne};

use crate::content_type::media_type;
use crate::list_reader::read_list;
use crate::printed_list::fmt_comma_delimited;
use crate::typed_header::Header;
use http_header::{ACCEPT, HeaderMap, HeaderName, HeaderValue};
use std::alloc::Global;
use std::fmt;
use std::ops::{Deref, DerefMut};
use web_texts::{
    APPLICATION_JSON, Duplicate, Fail, IMAGE_STAR, InvalidHeaderValue, Items, Mime, NoMemory,
    ParseError, QualityItem, STAR_STAR, TEXT_HTML, TEXT_STAR, TryIntoHeaderValue, printed_value,
};

/// Accept (RFC 9110, section 12.5.1): the media types that a client accepts, in order.
#[derive(Debug, Drop, PartialEq, Eq)]
pub struct Accept(pub Items<QualityItem<Mime>>);

fn item_of(alloc: Global, text: &str) -> Result<Accept, NoMemory>
    requires { is_some (media_type_of text.now) ≡ true }
    ensures { IfOk result (λ made. IsOne text.now made.0) }
{
    let mime = media_type(alloc, text)?;
    let mut items = Vec::new(alloc);
    items.push(QualityItem::max(mime))?;
    Ok(Accept(Items::of(items)))
}

impl Accept {
    /// `*/*`
    pub fn star(alloc: Global) -> Result<Accept, NoMemory>
        ensures { IfOk result (λ made. IsOne (codes "*/*") made.0) }
    {
        item_of(alloc, STAR_STAR)
    }

    /// `application/json`
    pub fn json(alloc: Global) -> Result<Accept, NoMemory>
        ensures { IfOk result (λ made. IsOne (codes "application/json") made.0) }
    {
        item_of(alloc, APPLICATION_JSON)
    }

    /// `text/*`
    pub fn text(alloc: Global) -> Result<Accept, NoMemory>
        ensures { IfOk result (λ made. IsOne (codes "text/*") made.0) }
    {
        item_of(alloc, TEXT_STAR)
    }

    /// `image/*`
    pub fn image(alloc: Global) -> Result<Accept, NoMemory>
        ensures { IfOk result (λ made. IsOne (codes "image/*") made.0) }
    {
        item_of(alloc, IMAGE_STAR)
    }

    /// `text/html`
    pub fn html(alloc: Global) -> Result<Accept, NoMemory>
        ensures { IfOk result (λ made. IsOne (codes "text/html") made.0) }
    {
        item_of(alloc, TEXT_HTML)
    }
}

impl Header for Accept {
    ghost use Rattle.std.specs.Prelude.{◌≡◌, codes};
    ghost use Rattle.std.specs.Option.{option_map};
    ghost use Rattle.web_headers.specs.ListHeaders.{accept_of};

    ghost says = { λ values said. option_map (λ header. header.0) said ≡ accept_of values };

    ghost called = { codes "accept" };

    fn name() -> HeaderName {
        ACCEPT
    }

    fn parse(alloc: Global, headers: &HeaderMap<HeaderValue>) -> Result<Self, Fail<ParseError>> {
        Ok(Accept(read_list(alloc, headers, &ACCEPT)?))
    }
}

impl fmt::Display for Accept {
    ghost use Rattle.std.specs.Prelude.{Some};
    ghost use Rattle.web_headers.specs.ListHeaders.{accept_text};

    ghost output = { λ header. Some (accept_text header.0) };

    fn fmt<W: fmt::Write>(&self, f: &mut fmt::Formatter<W>) -> fmt::Result {
        fmt_comma_delimited(f, self.0.as_slice())
    }
}

impl TryIntoHeaderValue for Accept {
    ghost use Rattle.http_header.specs.FieldValue.{plain_value};
    ghost use Rattle.web_headers.specs.ListHeaders.{accept_text};

    ghost value = { λ header. plain_value (accept_text header.0) };

    fn try_into_value(self, alloc: Global) -> Result<HeaderValue, Fail<InvalidHeaderValue>> {
        printed_value(alloc, &self)
    }
}

impl Duplicate for Accept {
    fn duplicate(&self, alloc: Global) -> Result<Accept, NoMemory> {
        Ok(Accept(self.0.duplicate(alloc)?))
    }
}

impl Deref for Accept {
    ghost use Rattle.std.specs.Prelude.{◌≡◌};

    type Target = Items<QualityItem<Mime>>;

    ghost deref_gives = { λ header items. items ≡ header.0 };

    fn deref(&self) -> &Items<QualityItem<Mime>> {
        &self.0
    }
}

impl DerefMut for Accept {
    ghost use Rattle.std.specs.Prelude.{◌≡◌};
    ghost use Rattle.std.specs.Borrow.{Lends, sem};
    ghost use Rattle.web_headers.specs.contracts.accepts.accept_header.Accept.{the_row};
    ghost use Rattle.web_texts.specs.contracts.texts.items.Items as items;
    ghost use Rattle.web_texts.specs.contracts.media.quality_item.QualityItem as quality_item;
    ghost use Rattle.web_texts.specs.contracts.media.media_type.Mime as mime;

    ghost deref_mut_gives = { λ header items. items ≡ header.0 };

    fn deref_mut(&mut self) -> &mut Items<QualityItem<Mime>>
        ensures* writes_back { sem 𝓛 (Lends the_row
            (items.the_row (quality_item.the_row mime.the_row))
            self.entry result (λ x. record { 0 = x })) }
        ensures shows { result.now ≡ self.old.0 }
    {
        &mut self.0
    }
}
