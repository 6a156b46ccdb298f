//! The configurations that a layer has.
ghost use Rattle.std.specs.Prelude.{◌≡◌, IfSome, option_copied};
ghost use Rattle.web_extract.specs.LayerConfigurations.{AreUsable, Configurations, Lends};
ghost use Rattle.web_extract.specs.LayerConfigurations.{IsUsable, IsUsableForm, IsUsableJson};
ghost use Rattle.web_extract.specs.LayerConfigurations.{holds_nothing};

use crate::config::refuse::{NoHandler, NoType, Refuse};
use web_body::{
    AllowType, FormConfig, JsonConfig, JsonPayloadError, PathConfig, PathError, PayloadConfig,
    QueryConfig, QueryPayloadError, UrlencodedError,
};
use web_request::{AppLayer, Data, NoData};

/// The configurations that a layer lends, each where the layer has one.
///
/// A layer sets those that it has, and takes the others from [`LayerConfigs::none`]. So it need not
/// be changed when there are further ones.
#[derive(Drop)]
pub struct LayerConfigs<'a, OnJson, OnForm, OnPath, OnQuery, JsonType> {
    /// How bodies are read.
    pub payload: Option<&'a PayloadConfig>,
    /// How bodies are read, where no layer has a configuration of its own.
    pub shared_payload: Option<&'a Data<PayloadConfig>>,
    /// How JSON bodies are read.
    pub json: Option<&'a JsonConfig<OnJson, JsonType>>,
    /// How JSON bodies are read, where no layer has a configuration of its own.
    pub shared_json: Option<&'a Data<JsonConfig<OnJson, JsonType>>>,
    /// How forms are read.
    pub form: Option<&'a FormConfig<OnForm>>,
    /// How forms are read, where no layer has a configuration of its own.
    pub shared_form: Option<&'a Data<FormConfig<OnForm>>>,
    /// How the parameters of paths are read.
    pub path: Option<&'a PathConfig<OnPath>>,
    /// How the parameters of paths are read, where no layer has a configuration of its own.
    pub shared_path: Option<&'a Data<PathConfig<OnPath>>>,
    /// How queries are read. This configuration is not shared.
    pub query: Option<&'a QueryConfig<OnQuery>>,
}

impl<'a, OnJson, OnForm, OnPath, OnQuery, JsonType> LayerConfigs<
    'a,
    OnJson,
    OnForm,
    OnPath,
    OnQuery,
    JsonType,
> {
    /// No configuration.
    pub fn none() -> LayerConfigs<'a, OnJson, OnForm, OnPath, OnQuery, JsonType>
        ensures { Lends result holds_nothing }
    {
        LayerConfigs {
            payload: None,
            shared_payload: None,
            json: None,
            shared_json: None,
            form: None,
            shared_form: None,
            path: None,
            shared_path: None,
            query: None,
        }
    }
}

/// A layer that may have configurations of the arguments of handlers.
///
/// Of the layers of a request the last one that has a configuration of its own decides. Only where
/// none has one, the last one that shares one does; and otherwise the default.
///
/// A layer implements `configurations` alone. Where it has no handler or no predicate of some kind,
/// it names [`NoHandler`] or [`NoType`] as the type.
pub trait Configs: AppLayer {
    /// A handler of refusals of JSON bodies.
    type OnJson: Refuse<JsonPayloadError>;

    /// A handler of refusals of bodies that are forms.
    type OnForm: Refuse<UrlencodedError>;

    /// A handler of refusals of the parameters of a path.
    type OnPath: Refuse<PathError>;

    /// A handler of refusals of a query.
    type OnQuery: Refuse<QueryPayloadError>;

    /// A predicate of the media types that are read as JSON.
    type JsonType: AllowType;

    /// The configurations.
    ghost configurations: { Self → Configurations
        Self.OnJson Self.OnForm Self.OnPath Self.OnQuery Self.JsonType };

    /// The configurations. Their handlers and predicates may be called where the layer is ready.
    fn configurations(
        &self,
    ) -> LayerConfigs<'_, Self::OnJson, Self::OnForm, Self::OnPath, Self::OnQuery, Self::JsonType>
        requires { Self.ready self.now }
        ensures lends { Lends result (configurations self.now) }
        ensures usable { AreUsable Self.OnJson.ready Self.OnForm.ready Self.OnPath.ready
            Self.OnQuery.ready Self.JsonType.ready result };

    /// The layer's own configuration of payloads.
    fn payload(&self) -> Option<&PayloadConfig>
        requires { Self.ready self.now }
        ensures { option_copied result ≡ (configurations self.now).payload }
    {
        self.configurations().payload
    }

    /// The configuration of payloads that the layer shares.
    fn shared_payload(&self) -> Option<&Data<PayloadConfig>>
        requires { Self.ready self.now }
        ensures { option_copied result ≡ (configurations self.now).shared_payload }
    {
        self.configurations().shared_payload
    }

    /// The layer's own configuration of JSON bodies.
    fn json(&self) -> Option<&JsonConfig<Self::OnJson, Self::JsonType>>
        requires { Self.ready self.now }
        ensures value { option_copied result ≡ (configurations self.now).json }
        ensures usable { IfSome result
            (λ c. IsUsableJson Self.OnJson.ready Self.JsonType.ready c.now) }
    {
        self.configurations().json
    }

    /// The configuration of JSON bodies that the layer shares.
    fn shared_json(&self) -> Option<&Data<JsonConfig<Self::OnJson, Self::JsonType>>>
        requires { Self.ready self.now }
        ensures value { option_copied result ≡ (configurations self.now).shared_json }
        ensures usable { IfSome result
            (λ c. IsUsableJson Self.OnJson.ready Self.JsonType.ready c.now) }
    {
        self.configurations().shared_json
    }

    /// The layer's own configuration of forms.
    fn form(&self) -> Option<&FormConfig<Self::OnForm>>
        requires { Self.ready self.now }
        ensures value { option_copied result ≡ (configurations self.now).form }
        ensures usable { IfSome result (λ c. IsUsableForm Self.OnForm.ready c.now) }
    {
        self.configurations().form
    }

    /// The configuration of forms that the layer shares.
    fn shared_form(&self) -> Option<&Data<FormConfig<Self::OnForm>>>
        requires { Self.ready self.now }
        ensures value { option_copied result ≡ (configurations self.now).shared_form }
        ensures usable { IfSome result (λ c. IsUsableForm Self.OnForm.ready c.now) }
    {
        self.configurations().shared_form
    }

    /// The layer's own configuration of the parameters of paths.
    fn path(&self) -> Option<&PathConfig<Self::OnPath>>
        requires { Self.ready self.now }
        ensures value { option_copied result ≡ (configurations self.now).path }
        ensures usable { IfSome result (λ c. IsUsable Self.OnPath.ready c.now) }
    {
        self.configurations().path
    }

    /// The configuration of the parameters of paths that the layer shares.
    fn shared_path(&self) -> Option<&Data<PathConfig<Self::OnPath>>>
        requires { Self.ready self.now }
        ensures value { option_copied result ≡ (configurations self.now).shared_path }
        ensures usable { IfSome result (λ c. IsUsable Self.OnPath.ready c.now) }
    {
        self.configurations().shared_path
    }

    /// The layer's own configuration of queries.
    fn query(&self) -> Option<&QueryConfig<Self::OnQuery>>
        requires { Self.ready self.now }
        ensures value { option_copied result ≡ (configurations self.now).query }
        ensures usable { IfSome result (λ c. IsUsable Self.OnQuery.ready c.now) }
    {
        self.configurations().query
    }
}

impl Configs for NoData {
    ghost use Rattle.web_extract.specs.LayerConfigurations.{holds_nothing};

    type OnJson = NoHandler;

    type OnForm = NoHandler;

    type OnPath = NoHandler;

    type OnQuery = NoHandler;

    type JsonType = NoType;

    ghost configurations = { λ _. holds_nothing };

    fn configurations(
        &self,
    ) -> LayerConfigs<'_, NoHandler, NoHandler, NoHandler, NoHandler, NoType> {
        LayerConfigs::none()
    }
}
