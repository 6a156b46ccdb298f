//! Laws of arguments, as contracts of functions that callers cite in proofs. A call of one has no
//! effect.
ghost use Rattle.web_request.specs.Request.{Request};
ghost use Rattle.web_request.specs.Head.{head_query};
ghost use Rattle.web_codec.specs.FormPairs.{form_pairs};
ghost use Rattle.web_extract.specs.LayerConfigurations.{path_settings, query_settings};
ghost use Rattle.web_extract_head.specs.HeaderArgument.{GivesOne, GivesOnly, request_values};
ghost use Rattle.web_extract_head.specs.PathArgument.{PathRefused, decoded_parameters};
ghost use Rattle.web_extract_head.specs.QueryArgument.{QueryRefused};
ghost use Rattle.web_extract_head.specs.ReadArguments.{MeansOnlyRead};

use crate::header_argument::Header;
use crate::path_argument::Path;
use crate::query_argument::Query;
use web_codec::ReadPairs;
use web_extract::{Configs, FromRequest};
use web_headers::{Date, Expires, IfModifiedSince, IfUnmodifiedSince, LastModified, date_law};
use web_request::App;

/// Where the values of a typed header say exactly one thing, `Header` allows exactly one result:
/// the value, or the refusal where they say none. It comes at the first poll, and the payload is
/// left.
pub fn header_law<P: App, T: web_headers::Header + Drop>()
    ensures { (q : Request P.Layer P.Local P.Conn) → GivesOnly
        (T.says (request_values T.called q))
        (⟦<Header<T> as FromRequest<P>>⟧.means q) }
{}

/// `Header` of each header of one date allows exactly one result: the date that the first value
/// shows, or the refusal where it shows none.
pub fn date_header_law<P: App>()
    ensures date { (q : Request P.Layer P.Local P.Conn)
        → GivesOne (⟦<Header<Date> as FromRequest<P>>⟧.means q) }
    ensures expires { (q : Request P.Layer P.Local P.Conn)
        → GivesOne (⟦<Header<Expires> as FromRequest<P>>⟧.means q) }
    ensures if_modified_since { (q : Request P.Layer P.Local P.Conn)
        → GivesOne (⟦<Header<IfModifiedSince> as FromRequest<P>>⟧.means q) }
    ensures if_unmodified_since { (q : Request P.Layer P.Local P.Conn)
        → GivesOne (⟦<Header<IfUnmodifiedSince> as FromRequest<P>>⟧.means q) }
    ensures last_modified { (q : Request P.Layer P.Local P.Conn)
        → GivesOne (⟦<Header<LastModified> as FromRequest<P>>⟧.means q) }
{
    date_law()
}

/// Where the reader of `T` allows exactly one thing of the decoded parameters, and each of its
/// refusals has exactly one error, by the configured handler or by the refusal itself, `Path`
/// allows exactly one result. It comes at the first poll, and the payload is left.
pub fn path_law<P: App, T: ReadPairs>()
where
    P::Layer: Configs,
    ensures { (q : Request P.Layer P.Local P.Conn) → MeansOnlyRead (λ v. v)
        (PathRefused P.Layer.OnPath.refuses
        (path_settings P.Layer.Configs.configurations q.layers).handler q.head)
        (T.reads_pairs (decoded_parameters q.params))
        (⟦<Path<T> as FromRequest<P>>⟧.means q) }
{}

/// The same of `Query`, which is read from the pairs of the query.
pub fn query_law<P: App, T: ReadPairs>()
where
    P::Layer: Configs,
    ensures { (q : Request P.Layer P.Local P.Conn) → MeansOnlyRead (λ v. record { 0 = v })
        (QueryRefused P.Layer.OnQuery.refuses
        (query_settings P.Layer.Configs.configurations q.layers).handler q.head)
        (T.reads_pairs (form_pairs (head_query q.head)))
        (⟦<Query<T> as FromRequest<P>>⟧.means q) }
{}
