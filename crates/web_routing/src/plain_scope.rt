//! A configuration scope as a plain struct.
ghost use Rattle.std.specs.Prelude.{◌≡◌, None};

use std::marker::PhantomData;
use web_body::{FormConfig, JsonConfig, PathConfig, PayloadConfig, QueryConfig};
use web_extract::{Configs, LayerConfigs, NoHandler, NoType};
use web_request::{App, AppLayer, Holds, NoData, Source};

/// A configuration scope with limits and media types of its own and with a value of the
/// application, which handlers find as they find the data of each scope. Where a configuration is
/// `None`, an outer scope decides, and else the default.
///
/// A scope with handlers of refusals is a struct of its own, which implements `Configs`.
///
/// ```
/// let scope = PlainScope {
///     json: Some(JsonConfig::<NoHandler, NoType>::new().limit(4096)),
///     ..PlainScope::new(Greeting("hello"))
/// };
/// ```
#[derive(Drop)]
pub struct PlainScope<T> {
    /// How bodies are read.
    pub payload: Option<PayloadConfig>,
    /// How JSON bodies are read.
    pub json: Option<JsonConfig<NoHandler, NoType>>,
    /// How forms are read.
    pub form: Option<FormConfig<NoHandler>>,
    /// How the parameters of paths are read.
    pub path: Option<PathConfig<NoHandler>>,
    /// How queries are read.
    pub query: Option<QueryConfig<NoHandler>>,
    /// The value of the application.
    pub data: T,
}

impl<T> PlainScope<T> {
    /// A scope with this value and without configurations of its own.
    pub fn new(value: T) -> PlainScope<T>
        ensures value { result.«data» ≡ value }
        ensures payload { result.payload ≡ None }
        ensures json { result.json ≡ None }
        ensures form { result.form ≡ None }
        ensures path { result.path ≡ None }
        ensures query { result.query ≡ None }
    {
        PlainScope {
            payload: None,
            json: None,
            form: None,
            path: None,
            query: None,
            data: value,
        }
    }
}

impl<T: Drop> AppLayer for PlainScope<T> {}

impl<T> Holds<T> for PlainScope<T> {
    ghost use Rattle.std.specs.Prelude.{Some};

    ghost held = { λ scope. Some scope.«data» };

    fn held(&self) -> Option<&T> {
        Some(&self.data)
    }
}

impl<T: Drop> Configs for PlainScope<T> {
    ghost use Rattle.web_extract.specs.LayerConfigurations.{holds_nothing};

    type OnJson = NoHandler;

    type OnForm = NoHandler;

    type OnPath = NoHandler;

    type OnQuery = NoHandler;

    type JsonType = NoType;

    ghost configurations = { λ scope. record (holds_nothing) {
      payload = scope.payload;
      json = scope.json;
      form = scope.form;
      path = scope.path;
      query = scope.query;
    } };

    fn configurations(
        &self,
    ) -> LayerConfigs<'_, NoHandler, NoHandler, NoHandler, NoHandler, NoType> {
        LayerConfigs {
            payload: self.payload.as_ref(),
            json: self.json.as_ref(),
            form: self.form.as_ref(),
            path: self.path.as_ref(),
            query: self.query.as_ref(),
            ..LayerConfigs::none()
        }
    }
}

/// An application whose scopes are `PlainScope<T>`, without data of a request or a connection. Its
/// bodies come from sources of the type `S`.
#[derive(Drop)]
pub struct ScopedApp<T, S> {
    types: PhantomData<(T, S)>,
}

impl<T: Drop, S: Source> App for ScopedApp<T, S> {
    type Layer = PlainScope<T>;

    type Local = NoData;

    type Conn = NoData;

    type Source = S;
}
