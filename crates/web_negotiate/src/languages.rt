//! Choices among the languages of Accept-Language.
ghost use Rattle.std.specs.Prelude.{◌≡◌, List, [], IfOk, IsOk};
ghost use Rattle.web_texts.specs.declared.media.quality_item.QualityItem.{QualityItem as Weighted};
ghost use Rattle.web_negotiate.specs.LanguageChoices.{Language, IsLanguagePreference};
ghost use Rattle.web_negotiate.specs.LanguageChoices.{IsLanguageRanking};

use crate::greatest::first_greatest;
use crate::rankings::{ByQuality, ranked_items};
use std::alloc::Global;
use web_headers::{AcceptLanguage, Preference};
use web_texts::{Duplicate, LanguageTag, NoMemory};

/// Choices among the languages of Accept-Language (RFC 9110, section 12.5.4).
pub trait AcceptLanguageChoices {
    ghost items: { Self → List (Weighted Language) };

    /// The first language of the greatest quality above zero, and `Any` where there is none. That
    /// of an empty header takes no memory.
    fn preference(&self, alloc: Global) -> Result<Preference<LanguageTag>, NoMemory>
        ensures value { IfOk result (IsLanguagePreference (items self.now)) }
        ensures memory { items self.now ≡ [] → IsOk result };

    /// The languages by quality, the greatest first. Equal ones keep their order. Those of quality
    /// zero stand at the end. Those of an empty header take no memory.
    fn ranked(&self, alloc: Global) -> Result<Vec<Preference<LanguageTag>>, NoMemory>
        ensures value { IfOk result (λ ranked. IsLanguageRanking (items self.now) ranked.items) }
        ensures memory { items self.now ≡ [] → IsOk result };
}

impl AcceptLanguageChoices for AcceptLanguage {
    ghost items = { λ header. header.0 };

    fn preference(&self, alloc: Global) -> Result<Preference<LanguageTag>, NoMemory> {
        match first_greatest(&ByQuality, self.0.as_slice()) {
            Some(found) => found.item.duplicate(alloc),
            None => Ok(Preference::Any),
        }
    }

    fn ranked(&self, alloc: Global) -> Result<Vec<Preference<LanguageTag>>, NoMemory> {
        ranked_items(alloc, &ByQuality, &self.0)
    }
}
