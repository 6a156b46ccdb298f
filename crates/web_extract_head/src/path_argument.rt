//! The parameters of a path as an argument.
ghost use Rattle.std.specs.Prelude.{◌≡◌};

use crate::path_parameters::decoded_parameters;
use std::alloc::Global;
use std::fmt;
use std::marker::Model;
use std::ops::{Deref, DerefMut};
use web_body::{PathError, Payload};
use web_codec::ReadPairs;
use web_extract::{Configs, Error, FromRequest, Ready, path_refused};
use web_request::{App, HttpRequest, NoMemory};
use web_texts::Fail;

/// What is read from the parameters that a router matched in the path of a request, as an argument.
/// It leaves the body to the other arguments. Contracts see the value itself.
#[derive(Debug, Drop, PartialEq, Eq, PartialOrd, Ord)]
pub struct Path<T> {
    value: T,
}

impl<T> Model for Path<T> {
    ghost Value = { T };

    ghost view = { λ p. p.value };

    ghost inverse = { λ v. record { value = v } };
}

impl<T> Path<T> {
    /// What was read.
    pub fn into_inner(self) -> T
        ensures { result ≡ self }
    {
        let Path { value } = self;
        value
    }
}

impl<T> From<T> for Path<T> {
    ghost from_gives = { λ value path. path ≡ value };

    fn from(value: T) -> Path<T> {
        Path { value }
    }
}

impl<T> AsRef<T> for Path<T> {
    fn as_ref(&self) -> &T
        ensures { result.now ≡ self.now }
    {
        &self.value
    }
}

impl<T> Deref for Path<T> {
    type Target = T;

    ghost deref_gives = { λ path value. value ≡ path };

    fn deref(&self) -> &T {
        &self.value
    }
}

impl<T> DerefMut for Path<T> {
    ghost use Rattle.std.specs.Borrow.{Lends, sem};
    ghost use Rattle.web_extract_head.specs.contracts.path_argument.Path.{the_row};

    ghost deref_mut_gives = { λ path value. value ≡ path };

    fn deref_mut(&mut self) -> &mut T
        ensures* writes_back { sem 𝓛 (Lends (the_row T.row) T.row self.entry result (λ x. x)) }
        ensures shows { result.now ≡ self.old }
    {
        &mut self.value
    }
}

impl<T: fmt::Display> fmt::Display for Path<T> {
    ghost output = { λ path. T.output path };

    fn fmt<W: fmt::Write>(&self, f: &mut fmt::Formatter<W>) -> fmt::Result {
        write!(f, "{}", self.value)
    }
}

/// What the reader of `T` makes of the parameters of the path, at the first poll. Their values are
/// percent-decoded, and their names stay as they are. Refused exactly where the reader refuses
/// them: with status 404 and the reader's text, or as the handler of the configuration of paths
/// answers to the `PathError`.
impl<A: App, T: ReadPairs> FromRequest<A> for Path<T>
where
    A::Layer: Configs,
{
    ghost use Rattle.std.specs.Prelude.{⊤};
    ghost use Rattle.web_extract.specs.LayerConfigurations.{path_settings};
    ghost use Rattle.web_extract.specs.SomeAnswer.{itself};
    ghost use Rattle.web_extract_head.specs.PathArgument.{PathRefused, decoded_parameters};
    ghost use Rattle.web_extract_head.specs.PathArgument.{path_refused_some};
    ghost use Rattle.web_extract_head.specs.ReadArguments.{MeansRead, read_some};

    type Error = Error;

    type Future = Ready<Result<Path<T>, Error>>;

    ghost means = { λ q m rest n x. MeansRead (λ v. v)
        (PathRefused A.Layer.OnPath.refuses
        (path_settings A.Layer.Configs.configurations q.layers).handler q.head)
        (T.reads_pairs (decoded_parameters q.params)) m rest n x };

    ghost leaves = { λ _. ⊤ };

    ghost some = { λ q m. read_some (λ v. v)
        (PathRefused A.Layer.OnPath.refuses
        (path_settings A.Layer.Configs.configurations q.layers).handler q.head)
        (path_refused_some A.Layer.OnPath.refuses
        (path_settings A.Layer.Configs.configurations q.layers).handler q.head)
        (T.reads_pairs (decoded_parameters q.params)) m };

    ghost converted = { itself };

    fn from_request(
        alloc: Global,
        req: &HttpRequest<A>,
        _payload: &mut Payload<A::Source>,
    ) -> Result<Ready<Result<Path<T>, Error>>, NoMemory> {
        let params = decoded_parameters(alloc, req.match_info())?;
        match T::read_pairs(alloc, &params) {
            Ok(value) => Ok(Ready::new(Ok(Path::from(value)))),
            Err(Fail::NoMemory) => Err(NoMemory),
            Err(Fail::Of(refusal)) => {
                let error = path_refused(alloc, req, PathError::Deserialize(refusal))?;
                Ok(Ready::new(Err(error)))
            }
        }
    }
}
