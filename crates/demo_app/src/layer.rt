//! Layers of configuration.
ghost use Rattle.std.specs.Prelude.{◌≡◌, ◌++◌, ◌∷◌, [], IfOk, OnOk, map, option_map};
ghost use Rattle.web_request.specs.Shared.{values};
ghost use Rattle.demo_app.specs.DemoLayers.{demo_layer, form_config, handled, json_config};
ghost use Rattle.demo_app.specs.DemoLayers.{limited, own_payload};

use crate::teapot::{Teapot, VendorType};
use cli_script::LayerSettings;
use std::alloc::Global;
use std::rc::Rc;
use web_body::PayloadConfig;
use web_decoders::{FormConfig, JsonConfig, PathConfig, QueryConfig};
use web_extract::{Configs, LayerConfigs};
use web_request::{AppLayer, Data, Holds};
use web_texts::{Mime, NoMemory};

/// A layer of configuration: the settings of one `layer` line, or of none.
#[derive(Drop)]
pub struct DemoLayer {
    /// How a body is read, which goes before any shared configuration.
    pub payload: Option<PayloadConfig>,
    /// How a body is read where no layer has a configuration of its own.
    pub shared_payload: Option<Data<PayloadConfig>>,
    /// How a JSON body is read.
    pub json: Option<JsonConfig<Teapot, VendorType>>,
    /// How a form is read.
    pub form: Option<FormConfig<Teapot>>,
    /// How the parameters of a path are read.
    pub path: Option<PathConfig<Teapot>>,
    /// How a query is read.
    pub query: Option<QueryConfig<Teapot>>,
    /// A number that handlers may ask for.
    pub number: Option<Data<u64>>,
}

impl AppLayer for DemoLayer {}

impl Holds<Data<u64>> for DemoLayer {
    ghost held = { λ layer. layer.number };

    fn held(&self) -> Option<&Data<u64>> {
        self.number.as_ref()
    }
}

impl Configs for DemoLayer {
    ghost use Rattle.demo_app.specs.DemoLayers.{demo_configurations};

    type OnJson = Teapot;

    type OnForm = Teapot;

    type OnPath = Teapot;

    type OnQuery = Teapot;

    type JsonType = VendorType;

    ghost configurations = { λ layer. demo_configurations layer };

    fn configurations(&self) -> LayerConfigs<'_, Teapot, Teapot, Teapot, Teapot, VendorType> {
        LayerConfigs {
            payload: self.payload.as_ref(),
            shared_payload: self.shared_payload.as_ref(),
            json: self.json.as_ref(),
            form: self.form.as_ref(),
            path: self.path.as_ref(),
            query: self.query.as_ref(),
            ..LayerConfigs::none()
        }
    }
}

/// The configuration of a line that names a limit or a required media type.
fn own_payload(limit: Option<u64>, required: Option<Mime>) -> Option<PayloadConfig>
    ensures { result ≡ own_payload limit required }
{
    match (limit, required) {
        (None, None) => None,
        (Some(limit), None) => Some(PayloadConfig::new(limit as usize)),
        (None, Some(media_type)) => Some(PayloadConfig::default().mimetype(media_type)),
        (Some(limit), Some(media_type)) => {
            Some(PayloadConfig::new(limit as usize).mimetype(media_type))
        }
    }
}

/// A value that is shared, if there is one.
fn shared<T: Drop>(alloc: Global, value: Option<T>) -> Result<Option<Data<T>>, NoMemory>
    ensures { IfOk result (λ made. made ≡ value) }
{
    match value {
        Some(value) => Ok(Some(Data::new(alloc, value)?)),
        None => Ok(None),
    }
}

/// The shared configuration of a line that names its limit.
fn shared_payload(
    alloc: Global,
    limit: Option<u64>,
) -> Result<Option<Data<PayloadConfig>>, NoMemory>
    ensures { IfOk result (λ made. made ≡ option_map limited limit) }
{
    shared(alloc, limit.map(|limit| PayloadConfig::new(limit as usize)))
}

/// The configuration of a line that names a setting of JSON.
fn json_config(settings: &LayerSettings) -> Option<JsonConfig<Teapot, VendorType>>
    ensures { result ≡ json_config settings.now }
{
    if settings.json.is_none()
        && !settings.json_any
        && !settings.json_vendor
        && !settings.json_teapot
    {
        return None;
    }
    let mut config = JsonConfig::new().content_type_required(!settings.json_any);
    if let Some(limit) = settings.json {
        config = config.limit(limit as usize);
    }
    if settings.json_vendor {
        config = config.content_type(VendorType);
    }
    if settings.json_teapot {
        config = config.error_handler(Teapot);
    }
    Some(config)
}

/// The configuration of a line that names a setting of forms.
fn form_config(limit: Option<u64>, has_teapot: bool) -> Option<FormConfig<Teapot>>
    ensures { result ≡ form_config limit has_teapot }
{
    if limit.is_none() && !has_teapot {
        return None;
    }
    let mut config = FormConfig::new();
    if let Some(limit) = limit {
        config = config.limit(limit as usize);
    }
    if has_teapot {
        config = config.error_handler(Teapot);
    }
    Some(config)
}

/// The configuration of the parameters of paths, of a line that names their handler.
fn path_config(has_teapot: bool) -> Option<PathConfig<Teapot>>
    ensures { result ≡ handled has_teapot }
{
    if has_teapot {
        let config: PathConfig<Teapot> = PathConfig::new();
        Some(config.error_handler(Teapot))
    } else {
        None
    }
}

/// The configuration of queries, of a line that names their handler.
fn query_config(has_teapot: bool) -> Option<QueryConfig<Teapot>>
    ensures { result ≡ handled has_teapot }
{
    if has_teapot {
        let config: QueryConfig<Teapot> = QueryConfig::new();
        Some(config.error_handler(Teapot))
    } else {
        None
    }
}

impl DemoLayer {
    ghost use Rattle.demo_app.specs.DemoLayers.{no_layer};

    /// Configures nothing.
    pub fn new() -> DemoLayer
        ensures { result ≡ no_layer }
    {
        DemoLayer {
            payload: None,
            shared_payload: None,
            json: None,
            form: None,
            path: None,
            query: None,
            number: None,
        }
    }
}

/// The layer that a line asks for. What a line does not name has its default. Only a shared
/// configuration and a number need memory.
pub fn demo_layer(alloc: Global, settings: LayerSettings) -> Result<DemoLayer, NoMemory>
    ensures { IfOk result (λ layer. layer ≡ demo_layer settings) }
{
    let json = json_config(&settings);
    let form = form_config(settings.form, settings.form_teapot);
    let path = path_config(settings.path_teapot);
    let query = query_config(settings.query_teapot);
    let shared_payload = shared_payload(alloc, settings.shared_payload)?;
    let number = shared(alloc, settings.number)?;
    Ok(DemoLayer {
        payload: own_payload(settings.payload, settings.mime),
        shared_payload,
        json,
        form,
        path,
        query,
        number,
    })
}

/// Adds the layer that a line asks for, after the others.
fn add_layer(
    alloc: Global,
    layers: &mut Vec<Rc<DemoLayer>>,
    settings: LayerSettings,
) -> Result<(), NoMemory>
    ensures { OnOk result (values layers.new.items
        ≡ values layers.old.items ++ demo_layer settings ∷ []) }
{
    let layer = demo_layer(alloc, settings)?;
    let shared = Rc::new(alloc, layer)?;
    Ok(layers.push(shared)?)
}

/// The layers that the lines of an exchange ask for, in their order.
pub fn demo_layers(alloc: Global, lines: Vec<LayerSettings>) -> Result<Vec<Rc<DemoLayer>>, NoMemory>
    ensures { IfOk result (λ layers. values layers.items ≡ map demo_layer lines.items) }
{
    let mut layers = Vec::with_capacity(alloc, lines.len())?;
    for settings in lines {
        add_layer(alloc, &mut layers, settings)?;
    }
    Ok(layers)
}
