//! The parameters of a path, decoded.
ghost use Rattle.std.specs.Prelude.{◌≡◌, IfOk, map};
ghost use Rattle.web_extract_head.specs.PathArgument.{decoded_parameter};

use percent_encoding::percent_decode;
use std::alloc::Global;
use web_request::NoMemory;
use web_texts::Pair;

/// The parameters with their values percent-decoded (RFC 3986, section 2.1). Bytes that are no
/// UTF-8 are replaced by U+FFFD. Names stay as they are.
pub fn decoded_parameters(alloc: Global, params: &[Pair]) -> Result<Vec<Pair>, NoMemory>
    ensures { IfOk result (λ pairs. pairs.items ≡ map decoded_parameter params.now) }
{
    let mut pairs = Vec::with_capacity(alloc, params.len())?;
    for param in params {
        pairs.push(decoded_parameter(alloc, param)?)?;
    }
    Ok(pairs)
}

fn decoded_parameter(alloc: Global, param: &Pair) -> Result<Pair, NoMemory>
    ensures { IfOk result (λ pair. pair ≡ decoded_parameter param.now) }
{
    let value = percent_decode(param.value().as_bytes()).decode_utf8_lossy(alloc)?;
    Pair::new(alloc, param.name(), &value)
}
