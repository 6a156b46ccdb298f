//! Setting of headers, for the crates that build responses.
ghost use Rattle.std.specs.Prelude.{◌≡◌, IfOk};
ghost use Rattle.http_header.specs.HeaderMap.{pairs};
ghost use Rattle.web_reply.specs.HeaderSteps.{AllStepTo, StepsTo, named, place};
ghost use Rattle.web_reply.specs.HeaderSteps.{place_each, place_one, valued};

use crate::errors::cause::HttpError;
use http_header::{HeaderMap, HeaderMapError, HeaderName, HeaderNameError, HeaderValue};
use std::alloc::Global;
use web_texts::{Fail, NoMemory, TryIntoHeaderValue};

/// Where a header goes.
#[derive(Clone, Copy, Debug, PartialEq, Eq)]
pub enum Placing {
    /// In place of all those of its name.
    Replace,
    /// After those of its name.
    Append,
}

/// Sets a header. Returns `MaxSize` where the headers have no room for it, and `NoMemory` where
/// allocation failed; the headers are then unchanged.
pub fn place_header(
    headers: &mut HeaderMap<HeaderValue>,
    placing: Placing,
    name: HeaderName,
    value: HeaderValue,
) -> Result<(), Fail<HttpError>>
    ensures { StepsTo (place placing name value headers.old) headers.old result headers.new }
{
    match placing {
        Placing::Replace => replace(headers, name, value),
        Placing::Append => append(headers, name, value),
    }
}

/// Puts a header in place of those of its name.
fn replace(
    headers: &mut HeaderMap<HeaderValue>,
    name: HeaderName,
    value: HeaderValue,
) -> Result<(), Fail<HttpError>>
    ensures { StepsTo (place Placing.Replace name value headers.old)
        headers.old result headers.new }
{
    match headers.insert(name, value) {
        Ok(_old) => Ok(()),
        Err(HeaderMapError::MaxSizeReached) => Err(Fail::Of(HttpError::MaxSize)),
        Err(HeaderMapError::OutOfMemory) => Err(Fail::NoMemory),
    }
}

/// Puts a header after those of its name.
fn append(
    headers: &mut HeaderMap<HeaderValue>,
    name: HeaderName,
    value: HeaderValue,
) -> Result<(), Fail<HttpError>>
    ensures { StepsTo (place Placing.Append name value headers.old)
        headers.old result headers.new }
{
    match headers.append(name, value) {
        Ok(_) => Ok(()),
        Err(HeaderMapError::MaxSizeReached) => Err(Fail::Of(HttpError::MaxSize)),
        Err(HeaderMapError::OutOfMemory) => Err(Fail::NoMemory),
    }
}

/// A header of a known name, or why its value is refused.
pub fn valued<V: TryIntoHeaderValue + Drop>(
    alloc: Global,
    name: HeaderName,
    value: V,
) -> Result<Result<(HeaderName, HeaderValue), HttpError>, NoMemory>
    ensures { IfOk result (λ header. header ≡ valued name (V.value value)) }
{
    match value.try_into_value(alloc) {
        Ok(value) => {
            // It says that a header may hold the value.
            let _bytes = value.as_bytes();
            Ok(Ok((name, value)))
        }
        Err(Fail::Of(_)) => Ok(Err(HttpError::Value)),
        Err(Fail::NoMemory) => Err(NoMemory),
    }
}

/// A header, or why its name, or else its value, is refused.
pub fn named<V: TryIntoHeaderValue + Drop>(
    alloc: Global,
    name: &str,
    value: V,
) -> Result<Result<(HeaderName, HeaderValue), HttpError>, NoMemory>
    ensures { IfOk result (λ header. header ≡ named name.now (V.value value)) }
{
    match HeaderName::from_bytes(alloc, name.as_bytes()) {
        Ok(name) => valued(alloc, name, value),
        Err(HeaderNameError::Invalid) => Ok(Err(HttpError::Name)),
        Err(HeaderNameError::OutOfMemory) => Err(NoMemory),
    }
}

/// Sets a header, unless it was refused before. Returns that refusal, `MaxSize` where the headers
/// have no room for one more, and `NoMemory` where allocation failed; the headers are then
/// unchanged.
pub fn place_one(
    headers: &mut HeaderMap<HeaderValue>,
    placing: Placing,
    header: Result<(HeaderName, HeaderValue), HttpError>,
) -> Result<(), Fail<HttpError>>
    ensures { StepsTo (place_one placing header headers.old) headers.old result headers.new }
{
    let (name, value) = match header {
        Ok(header) => header,
        Err(error) => return Err(Fail::Of(error)),
    };
    place_header(headers, placing, name, value)
}

/// Sets copies of all headers of a map, in their order, up to the first that has no room.
pub fn place_each(
    headers: &mut HeaderMap<HeaderValue>,
    placing: Placing,
    added: &HeaderMap<HeaderValue>,
) -> Result<(), Fail<HttpError>>
    ensures { AllStepTo (place_each placing (pairs added.now) headers.old) result headers.new }
{
    for (name, value) in added {
        let copy = (name.clone()?, value.clone()?);
        place_one(headers, placing, Ok(copy))?;
    }
    Ok(())
}
