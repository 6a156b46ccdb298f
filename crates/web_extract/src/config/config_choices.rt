//! Which configuration of the layers of a request is asked for.
ghost use Rattle.std.specs.Prelude.{None};
ghost use Rattle.web_extract.specs.LayerConfigurations.{IsUsable, IsUsableForm, IsUsableJson};

use crate::config::layer_configs::Configs;
use web_body::{FormConfig, JsonConfig, PathConfig, PayloadConfig, QueryConfig};
use web_request::ConfigChoice;

/// The choice of the configuration of payloads, for `HttpRequest::nearest_config`.
pub struct PayloadChoice;

impl<L: Configs> ConfigChoice<L> for PayloadChoice {
    type Config = PayloadConfig;

    ghost own = { λ l. (L.configurations l).payload };

    ghost shared = { λ l. (L.configurations l).shared_payload };

    fn own(layer: &L) -> Option<&PayloadConfig> {
        layer.payload()
    }

    fn shared(layer: &L) -> Option<&PayloadConfig> {
        match layer.shared_payload() {
            Some(shared) => Some(shared.get_ref()),
            None => None,
        }
    }
}

/// The choice of the configuration of JSON bodies, for `HttpRequest::nearest_config`.
pub struct JsonChoice;

impl<L: Configs> ConfigChoice<L> for JsonChoice {
    type Config = JsonConfig<L::OnJson, L::JsonType>;

    ghost own = { λ l. (L.configurations l).json };

    ghost shared = { λ l. (L.configurations l).shared_json };

    ghost usable = { λ c. IsUsableJson L.OnJson.ready L.JsonType.ready c };

    fn own(layer: &L) -> Option<&JsonConfig<L::OnJson, L::JsonType>> {
        layer.json()
    }

    fn shared(layer: &L) -> Option<&JsonConfig<L::OnJson, L::JsonType>> {
        match layer.shared_json() {
            Some(shared) => Some(shared.get_ref()),
            None => None,
        }
    }
}

/// The choice of the configuration of forms, for `HttpRequest::nearest_config`.
pub struct FormChoice;

impl<L: Configs> ConfigChoice<L> for FormChoice {
    type Config = FormConfig<L::OnForm>;

    ghost own = { λ l. (L.configurations l).form };

    ghost shared = { λ l. (L.configurations l).shared_form };

    ghost usable = { λ c. IsUsableForm L.OnForm.ready c };

    fn own(layer: &L) -> Option<&FormConfig<L::OnForm>> {
        layer.form()
    }

    fn shared(layer: &L) -> Option<&FormConfig<L::OnForm>> {
        match layer.shared_form() {
            Some(shared) => Some(shared.get_ref()),
            None => None,
        }
    }
}

/// The choice of the configuration of the parameters of paths, for `HttpRequest::nearest_config`.
pub struct PathChoice;

impl<L: Configs> ConfigChoice<L> for PathChoice {
    type Config = PathConfig<L::OnPath>;

    ghost own = { λ l. (L.configurations l).path };

    ghost shared = { λ l. (L.configurations l).shared_path };

    ghost usable = { λ c. IsUsable L.OnPath.ready c };

    fn own(layer: &L) -> Option<&PathConfig<L::OnPath>> {
        layer.path()
    }

    fn shared(layer: &L) -> Option<&PathConfig<L::OnPath>> {
        match layer.shared_path() {
            Some(shared) => Some(shared.get_ref()),
            None => None,
        }
    }
}

/// The choice of the configuration of queries, for `HttpRequest::nearest_config`.
pub struct QueryChoice;

impl<L: Configs> ConfigChoice<L> for QueryChoice {
    type Config = QueryConfig<L::OnQuery>;

    ghost own = { λ l. (L.configurations l).query };

    ghost shared = { λ _. None };

    ghost usable = { λ c. IsUsable L.OnQuery.ready c };

    fn own(layer: &L) -> Option<&QueryConfig<L::OnQuery>> {
        layer.query()
    }

    fn shared(_layer: &L) -> Option<&QueryConfig<L::OnQuery>> {
        None
    }
}
