//! The settings of a `layer` line.
ghost use Rattle.std.specs.Prelude.{◌≡◌, IfOk, is_some};
ghost use Rattle.web_texts.specs.MediaTypes.{media_type_of};
ghost use Rattle.cli_script.specs.Acceptance.{Accepts};
ghost use Rattle.cli_script.specs.LayerLines.{is_layer, layer_of, mime_of, no_settings};
ghost use Rattle.cli_script.specs.LayerLines.{plain_setting, setting_of, valued_setting};
ghost use Rattle.cli_script.specs.LayerLines.{with_setting, IsSet};
ghost use Rattle.cli_script.specs.LineFaults.{unless};
ghost use Rattle.cli_script.specs.declared.reason.LineFault.TheVariants.{BadLayer};

use crate::reason::LineFault;
use std::alloc::Global;
use std::str;
use web_texts::{Fail, Mime, NoMemory, bytes_equal, number_of, split_once_at};

/// What a `layer` line sets. What it does not name is `None` or false.
#[derive(Drop)]
pub struct LayerSettings {
    /// `payload=N`: the most bytes of a body.
    pub payload: Option<u64>,
    /// `mime=TYPE`: the media type that a body has to have.
    pub mime: Option<Mime>,
    /// `shared-payload=N`: the most bytes of a body, of a configuration that is shared.
    pub shared_payload: Option<u64>,
    /// `json=N`: the most bytes of a JSON body.
    pub json: Option<u64>,
    /// `json-any`: a JSON body needs no media type.
    pub json_any: bool,
    /// `json-vendor`: one more media type is that of a JSON body.
    pub json_vendor: bool,
    /// `json-teapot`: a handler says what a refused JSON body comes to.
    pub json_teapot: bool,
    /// `form=N`: the most bytes of a form.
    pub form: Option<u64>,
    /// `form-teapot`: a handler says what a refused form comes to.
    pub form_teapot: bool,
    /// `path-teapot`: a handler says what refused parameters come to.
    pub path_teapot: bool,
    /// `query-teapot`: a handler says what a refused query comes to.
    pub query_teapot: bool,
    /// `number=N`: a number that handlers may ask for.
    pub number: Option<u64>,
}

/// One setting of a `layer` line.
#[derive(Drop)]
pub(crate) enum Setting {
    Payload(u64),
    Mime(Mime),
    SharedPayload(u64),
    Json(u64),
    JsonAny,
    JsonVendor,
    JsonTeapot,
    Form(u64),
    FormTeapot,
    PathTeapot,
    QueryTeapot,
    Number(u64),
}

fn read_media_type(alloc: Global, text: &str) -> Result<Option<Mime>, NoMemory>
    ensures { IfOk result (λ read. read ≡ media_type_of text.now) }
{
    match Mime::parse(alloc, text) {
        Ok(mime) => Ok(Some(mime)),
        Err(Fail::Of(_)) => Ok(None),
        Err(Fail::NoMemory) => Err(NoMemory),
    }
}

/// The media type that is written so, if the text is UTF-8 and one.
fn read_mime(alloc: Global, text: &[u8]) -> Result<Option<Mime>, NoMemory>
    ensures { IfOk result (λ read. read ≡ mime_of text.now) }
{
    match str::from_utf8(text) {
        Ok(text) => read_media_type(alloc, text),
        Err(_) => Ok(None),
    }
}

/// The setting NAME=VALUE, if it is one.
fn valued_setting(alloc: Global, name: &[u8], value: &[u8]) -> Result<Option<Setting>, NoMemory>
    ensures { IfOk result (λ read. read ≡ valued_setting name.now value.now) }
{
    let setting = if bytes_equal(name, b"mime") {
        read_mime(alloc, value)?.map(|mime| Setting::Mime(mime))
    } else if bytes_equal(name, b"payload") {
        number_of(value, u64::MAX).map(|most| Setting::Payload(most))
    } else if bytes_equal(name, b"shared-payload") {
        number_of(value, u64::MAX).map(|most| Setting::SharedPayload(most))
    } else if bytes_equal(name, b"json") {
        number_of(value, u64::MAX).map(|most| Setting::Json(most))
    } else if bytes_equal(name, b"form") {
        number_of(value, u64::MAX).map(|most| Setting::Form(most))
    } else if bytes_equal(name, b"number") {
        number_of(value, u64::MAX).map(|number| Setting::Number(number))
    } else {
        None
    };
    Ok(setting)
}

/// The setting NAME, which has no value, if it is one.
fn plain_setting(name: &[u8]) -> Option<Setting>
    ensures { result ≡ plain_setting name.now }
{
    if bytes_equal(name, b"json-any") {
        Some(Setting::JsonAny)
    } else if bytes_equal(name, b"json-vendor") {
        Some(Setting::JsonVendor)
    } else if bytes_equal(name, b"json-teapot") {
        Some(Setting::JsonTeapot)
    } else if bytes_equal(name, b"form-teapot") {
        Some(Setting::FormTeapot)
    } else if bytes_equal(name, b"path-teapot") {
        Some(Setting::PathTeapot)
    } else if bytes_equal(name, b"query-teapot") {
        Some(Setting::QueryTeapot)
    } else {
        None
    }
}

/// The setting of a text without spaces, if it is one.
fn read_setting(alloc: Global, text: &[u8]) -> Result<Option<Setting>, NoMemory>
    ensures { IfOk result (λ read. read ≡ setting_of text.now) }
{
    match split_once_at(text, b'=') {
        Some((name, value)) => valued_setting(alloc, name, value),
        None => Ok(plain_setting(text)),
    }
}

impl LayerSettings {
    /// A layer that sets nothing.
    fn none() -> Self
        ensures { result ≡ no_settings }
    {
        LayerSettings {
            payload: None,
            mime: None,
            shared_payload: None,
            json: None,
            json_any: false,
            json_vendor: false,
            json_teapot: false,
            form: None,
            form_teapot: false,
            path_teapot: false,
            query_teapot: false,
            number: None,
        }
    }

    /// Sets one setting in place of an earlier one of its name.
    fn set(&mut self, setting: Setting)
        ensures { self.new ≡ with_setting self.old setting }
    {
        match setting {
            Setting::Payload(most) => self.payload = Some(most),
            Setting::Mime(mime) => self.mime = Some(mime),
            Setting::SharedPayload(most) => self.shared_payload = Some(most),
            Setting::Json(most) => self.json = Some(most),
            Setting::JsonAny => self.json_any = true,
            Setting::JsonVendor => self.json_vendor = true,
            Setting::JsonTeapot => self.json_teapot = true,
            Setting::Form(most) => self.form = Some(most),
            Setting::FormTeapot => self.form_teapot = true,
            Setting::PathTeapot => self.path_teapot = true,
            Setting::QueryTeapot => self.query_teapot = true,
            Setting::Number(number) => self.number = Some(number),
        }
    }

    /// Reads one setting and sets it.
    fn read(&mut self, alloc: Global, text: &[u8]) -> Result<(), Fail<LineFault>>
        ensures { Accepts result (unless (is_some (setting_of text.now)) BadLayer)
            (λ _. IsSet self.old self.new (setting_of text.now)) }
    {
        match read_setting(alloc, text)? {
            Some(setting) => Ok(self.set(setting)),
            None => Err(Fail::Of(LineFault::BadLayer)),
        }
    }
}

/// What the argument of a `layer` line sets: one or more settings with one space between. Of a
/// setting that is repeated, the last counts.
pub fn read_layer(alloc: Global, text: &[u8]) -> Result<LayerSettings, Fail<LineFault>>
    ensures { Accepts result (unless (is_layer text.now) BadLayer)
        (λ layer. layer ≡ layer_of text.now) }
{
    let mut layer = LayerSettings::none();
    let mut rest = text;
    'settings: while let Some((setting, behind)) = split_once_at(rest, b' ') {
        layer.read(alloc, setting)?;
        rest = behind;
    }
    layer.read(alloc, rest)?;
    Ok(layer)
}
