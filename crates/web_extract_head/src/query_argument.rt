//! The query as an argument.
ghost use Rattle.std.specs.Prelude.{◌≡◌};
ghost use Rattle.web_codec.specs.Answers.{Answers};
ghost use Rattle.web_extract_head.specs.QueryArgument.{DecodesQuery};

use std::alloc::Global;
use std::fmt;
use std::ops::{Deref, DerefMut};
use web_body::{Payload, QueryPayloadError};
use web_codec::{ReadPairs, decode_form};
use web_extract::{Configs, Error, FromRequest, Ready, query_refused};
use web_request::{App, HttpRequest, NoMemory};
use web_texts::{Duplicate, Fail};

/// What is read from the query of a request, as an argument. It leaves the body to the other
/// arguments.
#[derive(Debug, Drop, PartialEq, Eq, PartialOrd, Ord)]
pub struct Query<T>(pub T);

impl<T> Query<T> {
    /// What was read.
    pub fn into_inner(self) -> T
        ensures { result ≡ self.0 }
    {
        let Query(value) = self;
        value
    }
}

impl<T: ReadPairs> Query<T> {
    /// Reads a query, without its question mark, as a form (the URL standard, section 5). Returns
    /// `QueryPayloadError::Deserialize` where the reader of `T` refuses the pairs, and `NoMemory`
    /// where allocation failed.
    pub fn from_query(alloc: Global, text: &str) -> Result<Query<T>, Fail<QueryPayloadError>>
        ensures { Answers (DecodesQuery T.reads_pairs text.now) result }
    {
        match decode_form(alloc, text.as_bytes()) {
            Ok(value) => Ok(Query(value)),
            Err(Fail::NoMemory) => Err(Fail::NoMemory),
            Err(Fail::Of(refusal)) => Err(Fail::Of(QueryPayloadError::Deserialize(refusal))),
        }
    }
}

impl<T> Deref for Query<T> {
    type Target = T;

    ghost deref_gives = { λ query value. value ≡ query.0 };

    fn deref(&self) -> &T {
        &self.0
    }
}

impl<T> DerefMut for Query<T> {
    ghost use Rattle.std.specs.Borrow.{Lends, sem};
    ghost use Rattle.web_extract_head.specs.contracts.query_argument.Query.{the_row};

    ghost deref_mut_gives = { λ query value. value ≡ query.0 };

    fn deref_mut(&mut self) -> &mut T
        ensures* writes_back { sem 𝓛 (Lends (the_row T.row) T.row
            self.entry result (λ x. record { 0 = x })) }
        ensures shows { result.now ≡ self.old.0 }
    {
        &mut self.0
    }
}

impl<T: fmt::Display> fmt::Display for Query<T> {
    ghost output = { λ query. T.output query.0 };

    fn fmt<W: fmt::Write>(&self, f: &mut fmt::Formatter<W>) -> fmt::Result {
        write!(f, "{}", self.0)
    }
}

impl<T: Duplicate> Duplicate for Query<T> {
    fn duplicate(&self, alloc: Global) -> Result<Query<T>, NoMemory> {
        Ok(Query(self.0.duplicate(alloc)?))
    }
}

/// What the reader of `T` makes of the pairs of the query, which is read as a form, at the first
/// poll. Refused exactly where the reader refuses them: with `QueryPayloadError`, or as the handler
/// of the configuration of queries answers to it.
impl<A: App, T: ReadPairs> FromRequest<A> for Query<T>
where
    A::Layer: Configs,
{
    ghost use Rattle.std.specs.Prelude.{⊤};
    ghost use Rattle.web_codec.specs.FormPairs.{form_pairs};
    ghost use Rattle.web_request.specs.Head.{head_query};
    ghost use Rattle.web_extract.specs.LayerConfigurations.{query_settings};
    ghost use Rattle.web_extract.specs.SomeAnswer.{itself};
    ghost use Rattle.web_extract_head.specs.QueryArgument.{QueryRefused, query_refused_some};
    ghost use Rattle.web_extract_head.specs.ReadArguments.{MeansRead, read_some};

    type Error = Error;

    type Future = Ready<Result<Query<T>, Error>>;

    ghost means = { λ q m rest n x. MeansRead (λ v. record { 0 = v })
        (QueryRefused A.Layer.OnQuery.refuses
        (query_settings A.Layer.Configs.configurations q.layers).handler q.head)
        (T.reads_pairs (form_pairs (head_query q.head))) m rest n x };

    ghost leaves = { λ _. ⊤ };

    ghost some = { λ q m. read_some (λ v. record { 0 = v })
        (QueryRefused A.Layer.OnQuery.refuses
        (query_settings A.Layer.Configs.configurations q.layers).handler q.head)
        (query_refused_some A.Layer.OnQuery.refuses
        (query_settings A.Layer.Configs.configurations q.layers).handler q.head)
        (T.reads_pairs (form_pairs (head_query q.head))) m };

    ghost converted = { itself };

    fn from_request(
        alloc: Global,
        req: &HttpRequest<A>,
        _payload: &mut Payload<A::Source>,
    ) -> Result<Ready<Result<Query<T>, Error>>, NoMemory> {
        match Query::from_query(alloc, req.query_string()) {
            Ok(query) => Ok(Ready::new(Ok(query))),
            Err(Fail::NoMemory) => Err(NoMemory),
            Err(Fail::Of(fault)) => { Ok(Ready::new(Err(query_refused(alloc, req, fault)?))) }
        }
    }
}
