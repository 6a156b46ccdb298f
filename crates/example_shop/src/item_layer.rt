//! How the items of JSON bodies are read and refused.
ghost use Rattle.std.specs.Prelude.{◌≡◌};
ghost use Rattle.example_shop.specs.ItemReplies.{item_layer};

use std::alloc::Global;
use web::body::{JsonConfig, JsonPayloadError};
use web::extract::{Configs, NoHandler, NoType, Refuse};
use web::status::{JsonErrors, UnprocessableJson};
use web::{App, AppLayer, Error, LayerConfigs, Marks, NoData, NoMemory, RequestHead};

/// What a refused body is answered with: `{"error":TEXT}`, and the status of the refusal.
#[derive(Clone, Copy, Debug, Drop)]
pub enum ItemErrors {
    /// 400 where the body is no item, as without a handler.
    BadRequest,
    /// 422 (RFC 9110, section 15.5.21) where the body is no item.
    UnprocessableContent,
}

impl Refuse<JsonPayloadError> for ItemErrors {
    ghost use Rattle.std.specs.Prelude.{◌≡◌};
    ghost use Rattle.example_shop.specs.ItemReplies.{item_error};

    ghost refuses = { λ errors e head x. x ≡ item_error errors e };

    fn refuse(
        &self,
        alloc: Global,
        fault: JsonPayloadError,
        head: &RequestHead,
    ) -> Result<Error, NoMemory> {
        match self {
            ItemErrors::BadRequest => JsonErrors.refuse(alloc, fault, head),
            ItemErrors::UnprocessableContent => UnprocessableJson.refuse(alloc, fault, head),
        }
    }
}

/// A layer that configures how items are read.
#[derive(Drop)]
pub struct ItemLayer {
    json: JsonConfig<ItemErrors, NoType>,
}

impl ItemLayer {
    /// A layer that reads bodies up to this limit, in bytes, and answers those that it refuses.
    pub fn new(limit: usize, errors: ItemErrors) -> ItemLayer
        ensures { result ≡ item_layer limit errors }
    {
        let json = JsonConfig::<NoHandler, NoType>::new();
        ItemLayer {
            json: json.limit(limit).error_handler(errors),
        }
    }
}

impl AppLayer for ItemLayer {}

impl Configs for ItemLayer {
    ghost use Rattle.example_shop.specs.ItemReplies.{configurations_of};

    type OnJson = ItemErrors;

    type OnForm = NoHandler;

    type OnPath = NoHandler;

    type OnQuery = NoHandler;

    type JsonType = NoType;

    ghost configurations = { λ layer. configurations_of layer };

    fn configurations(
        &self,
    ) -> LayerConfigs<'_, ItemErrors, NoHandler, NoHandler, NoHandler, NoType> {
        LayerConfigs {
            json: Some(&self.json),
            ..LayerConfigs::none()
        }
    }
}

/// The application of items: such layers, no data of its own, and bodies in memory.
pub struct Catalogue;

impl App for Catalogue {
    type Layer = ItemLayer;

    type Local = NoData;

    type Conn = NoData;

    type Source = Marks;
}
