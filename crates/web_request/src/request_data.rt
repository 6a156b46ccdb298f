//! Data of a single request as an argument.
ghost use Rattle.std.specs.Prelude.{◌≡◌};

use std::alloc::Global;
use std::marker::Model;
use std::ops::Deref;
use web_texts::{Duplicate, NoMemory};

/// A copy of data that a single request has. Contracts see the data itself.
///
/// `HttpRequest::extensions` lends all data of a request; this is the one value that an argument of
/// a handler asks for.
#[derive(Debug, Drop)]
pub struct ReqData<T> {
    value: T,
}

impl<T> Model for ReqData<T> {
    ghost Value = { T };

    ghost view = { λ d. d.value };
}

impl<T> ReqData<T> {
    /// Data of a request.
    pub fn new(value: T) -> ReqData<T>
        ensures { result ≡ value }
    {
        ReqData { value }
    }

    /// The data.
    pub fn into_inner(self) -> T
        ensures { result ≡ self }
    {
        let ReqData { value } = self;
        value
    }
}

impl<T> Deref for ReqData<T> {
    type Target = T;

    ghost deref_gives = { λ d value. value ≡ d };

    fn deref(&self) -> &T {
        &self.value
    }
}

impl<T: Duplicate> Duplicate for ReqData<T> {
    fn duplicate(&self, alloc: Global) -> Result<ReqData<T>, NoMemory> {
        Ok(ReqData {
            value: self.value.duplicate(alloc)?,
        })
    }
}
