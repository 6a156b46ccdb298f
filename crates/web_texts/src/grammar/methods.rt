//! Methods of requests, as items of a list.
ghost use Rattle.web_texts.specs.Methods.{method_of};
ghost use Rattle.web_texts.specs.TextReaders.{Reads};

use crate::errors::ParseError;
use crate::grammar::readers::ReadText;
use crate::memory::duplicate::Duplicate;
use crate::memory::{Fail, NoMemory};
use http::Method;
use http::method::MethodError;
use std::alloc::Global;

fn read_method(alloc: Global, text: &[u8]) -> Result<Method, Fail<ParseError>>
    ensures { Reads result (method_of text.now) }
{
    match Method::from_bytes(alloc, text) {
        Ok(method) => Ok(method),
        Err(MethodError::Invalid) => Err(Fail::Of(ParseError::Header)),
        Err(MethodError::OutOfMemory) => Err(Fail::NoMemory),
    }
}

impl ReadText for Method {
    ghost use Rattle.web_texts.specs.Methods.{method_of};

    ghost reads = { method_of };

    fn parse(alloc: Global, text: &str) -> Result<Method, Fail<ParseError>> {
        read_method(alloc, text.as_bytes())
    }
}

impl Duplicate for Method {
    fn duplicate(&self, _alloc: Global) -> Result<Method, NoMemory> {
        Ok(self.clone()?)
    }
}
