//! A service of many routes, each with extractors of its own.

ghost use Rattle.std.specs.Prelude.{◌≡◌, IfErr, IfOk};
ghost use Rattle.web_reply.specs.ResponseBodies.{box_plain};
ghost use Rattle.web_reply.specs.Replies.{plain_reply};
ghost use Rattle.web_routing.specs.RoutedPaths.{methods_reply, resource_of};

use crate::route_table::{Found, RefusedRoute, RouteTable};
use crate::services::{Routes, Services};
use http::{Method, StatusCode};
use http_header::ALLOW;
use std::alloc::Global;
use web_body::Payload;
use web_reply::header_setting::{Placing, place_header};
use web_reply::{BoxBody, HttpResponse};
use web_request::{App, HttpRequest};
use web_texts::NoMemory;
use web_worker::{Outcome, Service, Whole};

/// A call of a router.
#[derive(Drop)]
pub enum RouterCall<C, D> {
    /// Of the service of a route.
    Route(C),
    /// Of the service of all other paths.
    Other(D),
    /// The methods of the resource of this number are replied.
    Methods(usize),
}

/// Routes, and a service of all other paths. The route of a request is that of the pattern that
/// `matchit` gives for its path, and of its method; `Path` extracts the parameters of the pattern.
///
/// A HEAD without a route of its own is served by that of GET. Where the path has routes of other
/// methods alone, the reply to OPTIONS is 204 and to others 405, both with the header Allow (RFC
/// 9110, sections 9.3.7 and 15.5.6).
#[derive(Drop)]
pub struct Router<S, T> {
    table: RouteTable,
    routes: S,
    other: T,
}

impl<S: Routes + Drop, T: Drop> Router<S, T> {
    ghost use Rattle.std.specs.Prelude.{◌≡◌};
    ghost use Rattle.web_routing.specs.RouteTables.{AddedAll, RefusesOneOf, empty_table};

    /// The router of these routes and of a service of all other paths.
    ///
    /// # Errors
    ///
    /// The first route that is refused: `matchit` does not read its pattern or another one is in
    /// its way, the pattern is not ASCII, or a route before it has this method and this pattern.
    pub fn new(alloc: Global, routes: S, other: T) -> Result<Router<S, T>, RefusedRoute>
        ensures table { IfOk result (λ r. AddedAll (S.rows routes) empty_table r.table) }
        ensures routes { IfOk result (λ r. r.routes ≡ routes) }
        ensures other { IfOk result (λ r. r.other ≡ other) }
        ensures refused { IfErr result (λ e. RefusesOneOf (S.rows routes) empty_table e) }
    {
        let mut table = RouteTable::new(alloc);
        routes.add_to(alloc, &mut table)?;
        Ok(Router {
            table,
            routes,
            other,
        })
    }
}

impl<A: App, S: Services<A>, T: Service<A, Whole>> Service<A, Whole> for Router<S, T> {
    ghost use Rattle.std.specs.Prelude.{◌≡◌, refl};
    ghost use Rattle.web_routing.specs.RoutedPaths.{by_route, by_route_request, methods_promise};
    ghost use Rattle.web_routing.specs.RoutedPaths.{routed, router_finished, router_keeps};
    ghost use Rattle.web_routing.specs.RoutedPaths.{router_left, router_open, router_states};
    ghost use Rattle.web_routing.specs.RoutedPaths.{with_parameters};
    ghost use Rattle.web_routing.specs.ServiceRoutes.{same_still};

    type Call = RouterCall<S::Call, T::Call>;

    ghost completed = { λ s q. by_route_request (routed s.table q)
        (λ n params. S.completed s.routes n (with_parameters params q))
        q (T.completed s.other q) };

    ghost promise = { λ s q m. by_route (routed s.table q)
        (λ n params. S.promise s.routes n (with_parameters params q) m)
        (λ rs. methods_promise q.head.method rs) (T.promise s.other q m) };

    ghost left = { λ s c q. router_left s.table (S.left s.routes) (T.left s.other) c q };

    ghost is_finished = { λ c. router_finished S.is_finished T.is_finished c };

    ghost ready = { λ s. S.ready s.routes × T.ready s.other };

    ghost states = { router_states (λ s. s.table) (λ s. s.routes) (λ s. s.other)
        S.states T.states };

    ghost same_promises = { λ a b. (b.table ≡ a.table)
        × S.same_promises a.routes b.routes × T.same_promises a.other b.other };

    ghost open = { λ s c q. router_open s.table (S.left s.routes) (T.left s.other)
        S.is_finished T.is_finished (S.open s.routes) (T.open s.other) c q };

    ghost same_itself = { λ a. (refl, S.same_itself a.routes, T.same_itself a.other) };

    ghost same_on = { λ a b c f g. (
      same_still f.0 g.0,
      S.same_on a.routes b.routes c.routes f.1 g.1,
      T.same_on a.other b.other c.other f.2 g.2,
    ) };

    ghost keeps = { λ a b same. router_keeps a.table b.table
        (S.completed a.routes) (S.completed b.routes)
        (S.promise a.routes) (S.promise b.routes) (S.left a.routes) (S.left b.routes)
        (T.completed a.other) (T.completed b.other) (T.promise a.other) (T.promise b.other)
        (T.left a.other) (T.left b.other) same.0
        (λ n. S.keeps n a.routes b.routes same.1) (T.keeps a.other b.other same.2) };

    fn begin(
        &mut self,
        alloc: Global,
        request: &mut HttpRequest<A>,
        payload: &mut Payload<A::Source>,
    ) -> Result<RouterCall<S::Call, T::Call>, NoMemory> {
        let (found, params) = self.table.find(alloc, request.method(), request.path())?;
        match found {
            Found::Route(number) => {
                request.set_match_info(params);
                let call = self.routes.begin_at(alloc, number, request, payload)?;
                Ok(RouterCall::Route(call))
            }
            Found::OtherMethods(place) => Ok(RouterCall::Methods(place)),
            Found::Nothing => Ok(RouterCall::Other(self.other.begin(alloc, request, payload)?)),
        }
    }

    fn poll(
        &mut self,
        alloc: Global,
        call: &mut RouterCall<S::Call, T::Call>,
        request: &HttpRequest<A>,
        outcome: &mut Outcome<A>,
    ) {
        match call {
            RouterCall::Route(call) => self.routes.poll_at(alloc, call, request, outcome),
            RouterCall::Other(call) => self.other.poll(alloc, call, request, outcome),
            RouterCall::Methods(place) => {
                let place = *place;
                match methods_reply::<A>(alloc, &self.table, place, request.method()) {
                    Ok(reply) => *outcome = Outcome::Reply(reply),
                    Err(_) => *outcome = Outcome::NoMemory,
                }
            }
        }
    }
}

/// The reply with the methods of a resource.
fn methods_reply<A: App>(
    alloc: Global,
    table: &RouteTable,
    place: usize,
    method: &Method,
) -> Result<HttpResponse<BoxBody<A::Source>>, NoMemory>
    ensures { IfOk result (λ reply. plain_reply (box_plain A.Source.feed) reply
        ≡ methods_reply method.now (resource_of table.now place)) }
{
    let status = if *method == Method::OPTIONS {
        StatusCode::NO_CONTENT
    } else {
        StatusCode::METHOD_NOT_ALLOWED
    };
    let mut reply = HttpResponse::new(alloc, status);
    let allowed = table.allowed(alloc, place)?;
    match place_header(reply.headers_mut(), Placing::Replace, ALLOW, allowed) {
        Ok(()) => reply.map_into_boxed_body(alloc),
        Err(_) => Err(NoMemory),
    }
}
