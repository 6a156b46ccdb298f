//! Media types of what is stored.
ghost use Rattle.std.specs.Prelude.{◌≡◌, IfOk, Some, true};
ghost use Rattle.std.specs.Option.{is_some};
ghost use Rattle.web_texts.specs.MediaTypes.{media_type_of};

use std::alloc::Global;
use web_texts::{Fail, Mime, MimeFault, NoMemory};

/// The media type of a text that is one.
pub(crate) fn media_type(alloc: Global, text: &str) -> Result<Mime, NoMemory>
    requires { is_some (media_type_of text.now) ≡ true }
    ensures { IfOk result (λ made. media_type_of text.now ≡ Some made) }
{
    match Mime::parse(alloc, text) {
        Ok(made) => Ok(made),
        Err(Fail::NoMemory) => Err(NoMemory),
        Err(Fail::Of(MimeFault)) => unreachable!(),
    }
}
