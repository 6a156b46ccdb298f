//! The texts that the handler replies with.
ghost use Rattle.std.specs.Prelude.{◌≡◌, ◌++◌, IfOk, OnOk, flat_map, string_bytes};
ghost use Rattle.demo_content.specs.DemoTexts.{bar, cookies_text, lines_text, pair_text, space};
ghost use Rattle.demo_content.specs.DemoTexts.{without_newline};
ghost use Rattle.demo_app.specs.Items.{item_text};

use bytes::Bytes;
use demo_app::Item;
use demo_arguments::{AllLines, DataArguments};
use std::alloc::Global;
use std::fmt;
use web_extract_body::{Either, Form, Json};
use web_extract_head::{Header, Path, Query};
use web_headers::{Accept, fmt_comma_delimited};
use web_negotiate::prelude::AcceptChoices;
use web_reply::{Error, ResponseError};
use web_request::cookies::CookiePair;
use web_request::{ConnectionInfo, NoMemory};
use web_texts::{Mime, Text};

/// Room for most lists of cookies and most origins, in bytes, so that their texts need not grow.
const ROOM: usize = 128;

/// A value of which the handler replies with a text.
pub trait PlainText {
    ghost use Rattle.std.specs.Prelude.{ℕ, List};

    /// The text.
    ghost text: { Self → List ℕ };

    /// The text.
    fn plain_text(&self, alloc: Global) -> Result<Text, NoMemory>
        ensures { IfOk result (λ t. t ≡ text self.now) };
}

/// The name and the number of an item.
fn item_text(alloc: Global, item: &Item) -> Result<Text, NoMemory>
    ensures { IfOk result (λ text. text ≡ item_text item.now) }
{
    Ok(Text::from(item.to_string(alloc)?))
}

/// The item of the parameters.
impl PlainText for Path<Item> {
    ghost use Rattle.demo_app.specs.Items.{item_text};

    ghost text = { λ path. item_text path };

    fn plain_text(&self, alloc: Global) -> Result<Text, NoMemory> {
        item_text(alloc, self.as_ref())
    }
}

/// The item of the query.
impl PlainText for Query<Item> {
    ghost use Rattle.demo_app.specs.Items.{item_text};

    ghost text = { λ query. item_text query.0 };

    fn plain_text(&self, alloc: Global) -> Result<Text, NoMemory> {
        item_text(alloc, &self.0)
    }
}

/// The side that was read, and its item.
impl PlainText for Either<Json<Item>, Form<Item>> {
    ghost use Rattle.demo_content.specs.DemoTexts.{either_text};

    ghost text = { either_text };

    fn plain_text(&self, alloc: Global) -> Result<Text, NoMemory> {
        match self {
            Either::Left(json) => Ok(Text::from(format!(in alloc; "left {}", json.0)?)),
            Either::Right(form) => Ok(Text::from(format!(in alloc; "right {}", form.0)?)),
        }
    }
}

/// The item, where there is one, and the size of the body that was left.
impl PlainText for (Option<Json<Item>>, Bytes) {
    ghost use Rattle.std.specs.Prelude.{length};
    ghost use Rattle.demo_content.specs.DemoTexts.{option_text};

    ghost text = { λ both. option_text both.0 (length both.1) };

    fn plain_text(&self, alloc: Global) -> Result<Text, NoMemory> {
        let left = self.1.len();
        match &self.0 {
            Some(json) => Ok(Text::from(format!(in alloc; "some {} {left}", json.0)?)),
            None => Ok(Text::from(format!(in alloc; "none {left}")?)),
        }
    }
}

/// The item, or the status of the refusal.
impl PlainText for Result<Json<Item>, Error> {
    ghost use Rattle.demo_content.specs.DemoTexts.{result_text};

    ghost text = { result_text };

    fn plain_text(&self, alloc: Global) -> Result<Text, NoMemory> {
        match self {
            Ok(json) => Ok(Text::from(format!(in alloc; "ok {}", json.0)?)),
            Err(error) => {
                let status = error.cause().status_code().as_u16();
                Ok(Text::from(format!(in alloc; "refused {status}")?))
            }
        }
    }
}

/// The numbers of the layers, of the request and of the connection.
impl PlainText for DataArguments {
    ghost use Rattle.demo_content.specs.DemoTexts.{data_text};

    ghost text = { data_text };

    fn plain_text(&self, alloc: Global) -> Result<Text, NoMemory> {
        let number = *self.number.get_ref();
        let local = self.local.0;
        match self.request.conn_data::<u64>() {
            Some(conn) => Ok(Text::from(format!(in alloc; "{number} {local} {conn}")?)),
            None => Ok(Text::from(format!(in alloc; "{number} {local} -")?)),
        }
    }
}

/// Adds a name with what stands before and after it, and its value.
fn push_named(text: &mut String, name: &str, value: &str) -> Result<(), NoMemory>
    ensures { OnOk result
        (string_bytes text.new ≡ string_bytes text.old ++ (name.now ++ value.now)) }
{
    text.push_str(name)?;
    Ok(text.push_str(value)?)
}

/// Where a request came from and was sent to.
impl PlainText for ConnectionInfo {
    ghost use Rattle.demo_content.specs.DemoTexts.{who_text};

    ghost text = { who_text };

    fn plain_text(&self, alloc: Global) -> Result<Text, NoMemory> {
        let mut text = String::with_capacity(alloc, ROOM)?;
        push_named(&mut text, "host=", self.host())?;
        push_named(&mut text, " scheme=", self.scheme())?;
        push_named(&mut text, " peer=", self.peer_addr().unwrap_or("-"))?;
        push_named(
            &mut text,
            " realip=",
            self.realip_remote_addr().unwrap_or("-"),
        )?;
        Ok(Text::from(text))
    }
}

fn push_pair(text: &mut String, cookie: &CookiePair) -> Result<(), NoMemory>
    ensures { OnOk result
        (string_bytes text.new ≡ string_bytes text.old ++ pair_text cookie.now) }
{
    text.push_str(cookie.name())?;
    text.push_str("=")?;
    Ok(text.push_str(cookie.value())?)
}

fn push_later_pair(text: &mut String, cookie: &CookiePair) -> Result<(), NoMemory>
    ensures { OnOk result
        (string_bytes text.new ≡ string_bytes text.old ++ (space ++ pair_text cookie.now)) }
{
    text.push_str(" ")?;
    push_pair(text, cookie)
}

/// Adds the names and values of cookies, each with a space before it.
fn push_later_pairs(text: &mut String, cookies: &[CookiePair]) -> Result<(), NoMemory>
    ensures { OnOk result (string_bytes text.new
        ≡ string_bytes text.old ++ flat_map (λ c. space ++ pair_text c) cookies.now) }
{
    for cookie in cookies {
        push_later_pair(text, cookie)?;
    }
    Ok(())
}

/// Adds the names and values of cookies, with spaces between.
fn push_pairs(text: &mut String, cookies: &[CookiePair]) -> Result<(), NoMemory>
    ensures { OnOk result
        (string_bytes text.new ≡ string_bytes text.old ++ cookies_text cookies.now) }
{
    match cookies {
        [] => Ok(()),
        [first, later @ ..] => {
            push_pair(text, first)?;
            push_later_pairs(text, later)
        }
    }
}

/// The names and values of cookies, with spaces between.
pub(crate) fn cookies_text(alloc: Global, cookies: &[CookiePair]) -> Result<Text, NoMemory>
    ensures { IfOk result (λ text. text ≡ cookies_text cookies.now) }
{
    let mut text = String::with_capacity(alloc, ROOM)?;
    push_pairs(&mut text, cookies)?;
    Ok(Text::from(text))
}

/// The line without the newline at its end, if it has one.
fn without_newline(line: &Text) -> &str
    ensures { result.now ≡ without_newline line.now }
{
    let text = line.as_str();
    match text.strip_suffix('\n') {
        Some(front) => front,
        None => text,
    }
}

fn push_line(text: &mut String, line: &Text) -> Result<(), NoMemory>
    ensures { OnOk result
        (string_bytes text.new ≡ string_bytes text.old ++ without_newline line.now) }
{
    Ok(text.push_str(without_newline(line))?)
}

fn push_later_line(text: &mut String, line: &Text) -> Result<(), NoMemory>
    ensures { OnOk result
        (string_bytes text.new ≡ string_bytes text.old ++ (bar ++ without_newline line.now)) }
{
    text.push_str("|")?;
    push_line(text, line)
}

/// Adds the lines without their newlines, each with a vertical bar before it.
fn push_later_lines(text: &mut String, lines: &[Text]) -> Result<(), NoMemory>
    ensures { OnOk result (string_bytes text.new
        ≡ string_bytes text.old ++ flat_map (λ l. bar ++ without_newline l) lines.now) }
{
    for line in lines {
        push_later_line(text, line)?;
    }
    Ok(())
}

/// Adds the lines without their newlines, with vertical bars between.
fn push_lines(text: &mut String, lines: &[Text]) -> Result<(), NoMemory>
    ensures { OnOk result
        (string_bytes text.new ≡ string_bytes text.old ++ lines_text lines.now) }
{
    match lines {
        [] => Ok(()),
        [first, later @ ..] => {
            push_line(text, first)?;
            push_later_lines(text, later)
        }
    }
}

/// The lines without their newlines, with vertical bars between.
impl PlainText for AllLines {
    ghost use Rattle.demo_content.specs.DemoTexts.{lines_text};

    ghost text = { lines_text };

    fn plain_text(&self, alloc: Global) -> Result<Text, NoMemory> {
        let mut text = String::new(alloc);
        push_lines(&mut text, self.as_slice())?;
        Ok(Text::from(text))
    }
}

/// Media types in their order.
#[derive(Drop)]
struct MediaTypes<'a> {
    types: Vec<&'a Mime>,
}

impl fmt::Display for MediaTypes<'_> {
    ghost use Rattle.std.specs.Prelude.{Some};
    ghost use Rattle.web_headers.specs.PrintedLists.{comma_joined};
    ghost use Rattle.web_texts.specs.MediaTypeTexts.{media_type_text};

    ghost output = { λ list.
        Some (comma_joined (λ mime. media_type_text mime.now) list.types.items) };

    fn fmt<W: fmt::Write>(&self, f: &mut fmt::Formatter<W>) -> fmt::Result {
        fmt_comma_delimited(f, self.types.as_slice())
    }
}

/// The media types that are accepted, the most wanted first.
impl PlainText for Header<Accept> {
    ghost use Rattle.demo_content.specs.DemoTexts.{accept_text};

    ghost text = { accept_text };

    fn plain_text(&self, alloc: Global) -> Result<Text, NoMemory> {
        let types = self.0.ranked_references(alloc)?;
        let ranked = MediaTypes { types };
        Ok(Text::from(ranked.to_string(alloc)?))
    }
}
