//! The shop's configuration: how long a JSON body may be, and what answers one that is refused.
use std::alloc::Global;
use web::body::{JsonConfig, JsonPayloadError};
use web::extract::{Configs, NoHandler, NoType, Refuse};
use web::reply::Cause;
use web::{
    App, AppLayer, Error, LayerConfigs, Marks, NoData, NoMemory, RequestHead, StatusCode, Text,
};

/// Answers each JSON body that is refused with 422 and a text of the shop's own.
#[derive(Drop)]
pub struct Unprocessable;

impl Refuse<JsonPayloadError> for Unprocessable {
    fn refuse(
        &self,
        alloc: Global,
        fault: JsonPayloadError,
        _head: &RequestHead,
    ) -> Result<Error, NoMemory> {
        let text = format!(in alloc; "the shop cannot read this: {fault}")?;
        Ok(Error::from(Cause::Custom {
            status: StatusCode::UNPROCESSABLE_ENTITY,
            text: Text::from(text),
        }))
    }
}

/// The one layer of the shop.
#[derive(Drop)]
pub struct ShopLayer {
    json: JsonConfig<Unprocessable, NoType>,
}

impl ShopLayer {
    /// A layer that reads JSON bodies up to this limit, in bytes.
    pub fn new(limit: usize) -> ShopLayer {
        let json = JsonConfig::<NoHandler, NoType>::new();
        ShopLayer {
            json: json.limit(limit).error_handler(Unprocessable),
        }
    }
}

impl AppLayer for ShopLayer {}

impl Configs for ShopLayer {
    ghost use Rattle.std.specs.Prelude.{Some};
    ghost use Rattle.web_extract.specs.LayerConfigurations.{holds_nothing};

    type OnJson = Unprocessable;

    type OnForm = NoHandler;

    type OnPath = NoHandler;

    type OnQuery = NoHandler;

    type JsonType = NoType;

    ghost configurations = { λ layer. record (holds_nothing) { json = Some layer.json } };

    fn configurations(
        &self,
    ) -> LayerConfigs<'_, Unprocessable, NoHandler, NoHandler, NoHandler, NoType> {
        LayerConfigs {
            json: Some(&self.json),
            ..LayerConfigs::none()
        }
    }
}

/// The application: this layer, no data of its own, and bodies in memory.
pub struct Shop;

impl App for Shop {
    type Layer = ShopLayer;

    type Local = NoData;

    type Conn = NoData;

    type Source = Marks;
}
