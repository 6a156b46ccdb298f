//! Choices among the media types of Accept.
ghost use Rattle.std.specs.Prelude.{◌≡◌, [], true, List, Some, IfOk, IsOk, map};
ghost use Rattle.std.specs.Option.{is_some};
ghost use Rattle.web_texts.specs.MediaTypes.{MediaType, media_type_of};
ghost use Rattle.web_texts.specs.declared.media.quality_item.QualityItem.{QualityItem as Weighted};
ghost use Rattle.web_negotiate.specs.MediaChoices.{any_media_type, media_class as class_of};
ghost use Rattle.web_negotiate.specs.MediaChoices.{IsMediaPreference, IsMediaRanking};

use crate::greatest::first_greatest;
use crate::rankings::{ByQuality, Ranking, ranked_item_references, ranked_items};
use std::alloc::Global;
use web_headers::Accept;
use web_texts::{Duplicate, Fail, Mime, MimeFault, NoMemory, QualityItem, STAR_STAR};

/// By quality, and at equal quality exact types before `type/*`, and these before type `*`.
#[derive(Clone, Copy)]
struct BySpecificity;

fn media_class(mime: &Mime) -> u64
    ensures { result ≡ class_of mime.now }
{
    if mime.type_() == "*" {
        0
    } else if mime.subtype() == "*" {
        1
    } else {
        2
    }
}

impl Ranking<QualityItem<Mime>> for BySpecificity {
    ghost use Rattle.web_negotiate.specs.MediaChoices.{media_rank};

    ghost ranks = { λ ranking. media_rank };

    fn rank(&self, item: &QualityItem<Mime>) -> u64 {
        u64::from(item.quality.thousandths()) * 4 + media_class(&item.item)
    }
}

/// The media type of a text that is one.
fn media_type(alloc: Global, text: &str) -> Result<Mime, NoMemory>
    requires { is_some (media_type_of text.now) ≡ true }
    ensures { IfOk result (λ mime. media_type_of text.now ≡ Some mime) }
{
    match Mime::parse(alloc, text) {
        Ok(mime) => Ok(mime),
        Err(Fail::NoMemory) => Err(NoMemory),
        Err(Fail::Of(MimeFault)) => unreachable!(),
    }
}

fn any_mime(alloc: Global) -> Result<Mime, NoMemory>
    ensures { IfOk result (λ mime. mime ≡ any_media_type) }
{
    media_type(alloc, STAR_STAR)
}

/// Choices among the media types of Accept (RFC 9110, section 12.5.1).
pub trait AcceptChoices {
    ghost items: { Self → List (Weighted MediaType) };

    /// The first media type of the greatest quality above zero, and `*/*` where there is none.
    fn preference(&self, alloc: Global) -> Result<Mime, NoMemory>
        ensures { IfOk result (IsMediaPreference (items self.now)) };

    /// The media types by quality, the greatest first. At equal quality exact types come before
    /// `type/*`, and these before every item of type `*`; equal ones keep their order. Those of
    /// quality zero stand at the end.
    fn ranked(&self, alloc: Global) -> Result<Vec<Mime>, NoMemory>
        ensures value { IfOk result (λ ranked. IsMediaRanking (items self.now) ranked.items) }
        ensures memory { items self.now ≡ [] → IsOk result };

    /// As `ranked`, without copies of the media types.
    fn ranked_references(&self, alloc: Global) -> Result<Vec<&Mime>, NoMemory>
        ensures { IfOk result (λ ranked.
            IsMediaRanking (items self.now) (map (λ mime. mime.now) ranked.items)) };
}

impl AcceptChoices for Accept {
    ghost items = { λ header. header.0 };

    fn preference(&self, alloc: Global) -> Result<Mime, NoMemory> {
        match first_greatest(&ByQuality, self.0.as_slice()) {
            Some(found) => found.item.duplicate(alloc),
            None => any_mime(alloc),
        }
    }

    fn ranked(&self, alloc: Global) -> Result<Vec<Mime>, NoMemory> {
        ranked_items(alloc, &BySpecificity, &self.0)
    }

    fn ranked_references(&self, alloc: Global) -> Result<Vec<&Mime>, NoMemory> {
        ranked_item_references(alloc, &BySpecificity, self.0.as_slice())
    }
}
