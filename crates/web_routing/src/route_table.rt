//! Routes by method and pattern.
ghost use Rattle.std.specs.Prelude.{◌≡◌, [], ◌∷◌, IfErr, IfOk, OnErr, OnOk};
ghost use Rattle.std.specs.String.{string_bytes};
ghost use Rattle.http_header.specs.FieldValue.{plain_value};
ghost use Rattle.matchit.specs.Params.{AllText};
ghost use Rattle.web_routing.specs.RoutedPaths.{IsFound, allowed_text, found_for, of_pairs};
ghost use Rattle.web_routing.specs.RoutedPaths.{resource_of, route_of, served_by};
ghost use Rattle.web_routing.specs.RouteTables.{Added, AddsResource, AddsRoute, PlaceOf};
ghost use Rattle.web_routing.specs.RouteTables.{RefusesMethod, RefusesPattern, RefusesRoute};
ghost use Rattle.web_routing.specs.RouteTables.{walked};

use http::Method;
use http_header::HeaderValue;
use matchit::{InsertError, Params, Router as Patterns};
use std::alloc::Global;
use std::error::Error;
use std::fmt;
use std::marker::Model;
use web_texts::{NoMemory, Pair, Text};

/// Why a route is refused.
#[derive(Debug, Drop)]
pub enum RouteError {
    /// `matchit` does not read the pattern, or another one is in its way.
    Pattern(InsertError),
    /// The pattern is not ASCII, as a path is.
    NotAscii,
    /// The pattern has a route of this method.
    Twice,
    NoMemory,
}

impl From<NoMemory> for RouteError {
    fn from(_error: NoMemory) -> RouteError {
        RouteError::NoMemory
    }
}

impl fmt::Display for RouteError {
    fn fmt<W: fmt::Write>(&self, f: &mut fmt::Formatter<W>) -> fmt::Result {
        match self {
            RouteError::Pattern(error) => error.fmt(f),
            RouteError::NotAscii => f.write_str("The pattern has bytes that are not ASCII"),
            RouteError::Twice => f.write_str("The pattern has a route of this method already"),
            RouteError::NoMemory => f.write_str("There was no memory for the route"),
        }
    }
}

impl Error for RouteError {}

/// A route that is refused. It prints its pattern and the cause.
#[derive(Debug, Drop)]
pub struct RefusedRoute {
    /// Empty if there was no memory for it.
    pub pattern: String,
    pub cause: RouteError,
}

impl fmt::Display for RefusedRoute {
    fn fmt<W: fmt::Write>(&self, f: &mut fmt::Formatter<W>) -> fmt::Result {
        write!(f, "{}: {}", self.pattern.as_str(), self.cause)
    }
}

impl Error for RefusedRoute {}

/// The route of one method.
#[derive(Drop)]
pub struct MethodRoute {
    method: Method,
    number: usize,
}

/// The routes of one pattern.
#[derive(Drop)]
struct Resource {
    pattern: Text,
    routes: Vec<MethodRoute>,
}

impl Model for Resource {
    ghost use Rattle.web_routing.specs.RoutedPaths.{ResourceView};

    ghost Value = { ResourceView };

    ghost view = { λ r. record { pattern = r.pattern; routes = r.routes.items } };
}

/// What a table has for a request.
#[derive(Clone, Copy, Debug, PartialEq, Eq)]
pub enum Found {
    /// The route of this number.
    Route(usize),
    /// Routes of other methods, in the resource of this number.
    OtherMethods(usize),
    /// No pattern matches the path.
    Nothing,
}

/// Routes by method and pattern. They are numbered in the order in which they are added, from 0.
///
/// A pattern is one of the kit's `matchit`, as `/items/{id}` or `/files/{*path}`.
#[derive(Drop)]
pub struct RouteTable {
    patterns: Patterns<usize>,
    resources: Vec<Resource>,
    count: usize,
}

impl Model for RouteTable {
    ghost use Rattle.web_routing.specs.RoutedPaths.{TableView};
    ghost use Rattle.web_routing.specs.RouteTables.{AreAsciiRows};

    ghost Value = { TableView };

    ghost view = { λ t. record {
      patterns = t.patterns;
      resources = t.resources.items;
      count = t.count;
    } };

    ghost invariant = { λ t. AreAsciiRows t.patterns };
}

impl RouteTable {
    ghost use Rattle.web_routing.specs.RouteTables.{empty_table};

    /// A table without routes.
    pub fn new(alloc: Global) -> RouteTable
        ensures { result ≡ empty_table }
    {
        RouteTable {
            patterns: Patterns::new(alloc),
            resources: Vec::new(alloc),
            count: 0,
        }
    }

    /// How many routes there are, which is the number of the next one.
    pub fn len(&self) -> usize
        ensures { result ≡ self.now.count }
    {
        self.count
    }

    /// Adds a route for this method and the paths that the pattern matches. A route that is refused
    /// leaves the table as it is.
    #[tactic(auto, using(crate::proofs::Refused::by_method, crate::proofs::Refused::by_pattern))]
    pub fn add(&mut self, alloc: Global, method: Method, pattern: &str) -> Result<(), RouteError>
        ensures ok { OnOk result (Added method pattern.now self.old self.new) }
        ensures err { OnErr result (self.new ≡ self.old) }
        ensures refused { IfErr result (λ e. RefusesRoute method pattern.now self.old e) }
    {
        let number = self.count;
        let Some(next) = number.checked_add(1) else {
            return Err(RouteError::NoMemory);
        };
        let route = MethodRoute { method, number };
        match place_of(self.resources.as_slice(), pattern) {
            Some(place) => add_method(&mut self.resources[place], route)?,
            None => self.add_resource(alloc, pattern, route)?,
        }
        self.count = next;
        Ok(())
    }

    /// Adds a resource with its first route.
    fn add_resource(
        &mut self,
        alloc: Global,
        pattern: &str,
        route: MethodRoute,
    ) -> Result<(), RouteError>
        ensures ok { OnOk result (AddsResource route pattern.now self.old self.new) }
        ensures err { OnErr result (self.new ≡ self.old) }
        ensures refused { IfErr result (λ e. RefusesPattern pattern.now self.old e) }
    {
        if !pattern.is_ascii() {
            return Err(RouteError::NotAscii);
        }
        let Ok(resource) = resource_of(alloc, pattern, route) else {
            return Err(RouteError::NoMemory);
        };
        if self.resources.reserve(1).is_err() {
            return Err(RouteError::NoMemory);
        }
        match self.patterns.insert(pattern, self.resources.len()) {
            Ok(()) => {}
            Err(error) => return Err(RouteError::Pattern(error)),
        }
        match self.resources.push(resource) {
            Ok(()) => Ok(()),
            Err(_) => unreachable!(),
        }
    }

    /// What there is for a path and a method, and the parameters of the path, not decoded. A HEAD
    /// without a route of its own is one of GET. A path that is not ASCII, which a request target
    /// may not have, matches no pattern.
    ///
    /// `Err(NoMemory)` if an allocation failed.
    pub fn find(
        &self,
        alloc: Global,
        method: &Method,
        path: &str,
    ) -> Result<(Found, Vec<Pair>), NoMemory>
        ensures { IfOk result (λ found.
            IsFound self.now (found_for self.now method.now path.now) found.0 found.1.items) }
    {
        if !path.is_ascii() {
            return Ok((Found::Nothing, Vec::new(alloc)));
        }
        let Ok(found) = self.patterns.at(path) else {
            return Ok((Found::Nothing, Vec::new(alloc)));
        };
        let place = *found.value;
        let Some(resource) = self.resources.get(place) else {
            return Ok((Found::Nothing, Vec::new(alloc)));
        };
        match served_by(resource.routes.as_slice(), method) {
            Some(number) => Ok((Found::Route(number), pairs_of(alloc, &found.params)?)),
            None => Ok((Found::OtherMethods(place), Vec::new(alloc))),
        }
    }

    /// The methods of the resource of this number, as the header Allow lists them: those of its
    /// routes, HEAD beside GET, and OPTIONS.
    ///
    /// `Err(NoMemory)` if an allocation failed.
    pub fn allowed(&self, alloc: Global, place: usize) -> Result<HeaderValue, NoMemory>
        ensures { IfOk result (λ value.
            value ≡ plain_value (allowed_text (resource_of self.now place))) }
    {
        match self.resources.get(place) {
            Some(resource) => allowed_methods(alloc, resource.routes.as_slice()),
            None => allowed_methods(alloc, &[]),
        }
    }
}

/// The resource of this pattern with its first route.
fn resource_of(alloc: Global, pattern: &str, route: MethodRoute) -> Result<Resource, NoMemory>
    ensures { IfOk result (λ r. r ≡ record { pattern = pattern.now; routes = route ∷ [] }) }
{
    let mut routes = Vec::new(alloc);
    routes.push(route)?;
    Ok(Resource {
        pattern: Text::of(alloc, pattern)?,
        routes,
    })
}

/// The place of the resource of this pattern.
fn place_of(resources: &[Resource], pattern: &str) -> Option<usize>
    ensures { PlaceOf pattern.now resources.now result }
{
    let mut place = 0;
    for resource in resources {
        if resource.pattern.as_str() == pattern {
            return Some(place);
        }
        place += 1;
    }
    None
}

/// Adds a route of a method that the resource has no route of.
fn add_method(resource: &mut Resource, route: MethodRoute) -> Result<(), RouteError>
    ensures ok { OnOk result (AddsRoute route resource.old resource.new) }
    ensures err { OnErr result (resource.new ≡ resource.old) }
    ensures refused { IfErr result (λ e. RefusesMethod route.method resource.old e) }
{
    if route_of(resource.routes.as_slice(), &route.method).is_some() {
        return Err(RouteError::Twice);
    }
    match resource.routes.push(route) {
        Ok(()) => Ok(()),
        Err(_) => Err(RouteError::NoMemory),
    }
}

/// The number of the route of this method.
fn route_of(routes: &[MethodRoute], method: &Method) -> Option<usize>
    ensures { result ≡ route_of routes.now method.now }
{
    for route in routes {
        if route.method == *method {
            return Some(route.number);
        }
    }
    None
}

/// The number of the route that serves this method: its own, or for HEAD that of GET.
fn served_by(routes: &[MethodRoute], method: &Method) -> Option<usize>
    ensures { result ≡ served_by routes.now method.now }
{
    match route_of(routes, method) {
        Some(number) => Some(number),
        None if *method == Method::HEAD => route_of(routes, &Method::GET),
        None => None,
    }
}

/// The parameters of a path as pairs.
fn pairs_of(alloc: Global, params: &Params<'_, '_>) -> Result<Vec<Pair>, NoMemory>
    ensures { IfOk result (λ pairs. AllText (walked params.now)
        → pairs.items ≡ of_pairs (walked params.now)) }
{
    let mut pairs = Vec::new(alloc);
    for (name, value) in params.iter() {
        pairs.push(Pair::new(alloc, name, value)?)?;
    }
    Ok(pairs)
}

/// The text of the header Allow over these routes.
fn allowed_text(alloc: Global, routes: &[MethodRoute]) -> Result<String, NoMemory>
    ensures { IfOk result (λ text. string_bytes text ≡ allowed_text routes.now) }
{
    let mut text = String::new(alloc);
    for route in routes {
        text.push_str(route.method.as_str())?;
        text.push_str(", ")?;
    }
    if route_of(routes, &Method::GET).is_some() && route_of(routes, &Method::HEAD).is_none() {
        text.push_str("HEAD, ")?;
    }
    text.push_str("OPTIONS")?;
    Ok(text)
}

/// The header Allow over these routes.
fn allowed_methods(alloc: Global, routes: &[MethodRoute]) -> Result<HeaderValue, NoMemory>
    ensures { IfOk result (λ value. value ≡ plain_value (allowed_text routes.now)) }
{
    let text = allowed_text(alloc, routes)?;
    match HeaderValue::from_bytes(alloc, text.as_bytes()) {
        Ok(value) => Ok(value),
        Err(_) => Err(NoMemory),
    }
}
