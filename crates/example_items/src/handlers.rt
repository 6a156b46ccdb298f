//! The handlers of the routes.
use std::alloc::Global;
use web_extract::Ready;
use web_extract_head::Path;
use web_request::NoMemory;
use web_worker::Handler;

/// `GET /`: what there is.
#[derive(Drop)]
pub struct ListItems;

impl Handler<()> for ListItems {
    ghost use Rattle.std.specs.Prelude.{◌≡◌, codes};

    type Output = &'static str;

    type Future = Ready<&'static str>;

    ghost answers = { λ _ none n y. (n ≡ 0) × (y.now ≡ codes "items") };

    fn call(&mut self, _alloc: Global, _none: ()) -> Result<Ready<&'static str>, NoMemory> {
        Ok(Ready::new("items"))
    }
}

/// `GET /items/{id}`: the item of this number.
#[derive(Drop)]
pub struct ShowItem;

impl Handler<Path<u32>> for ShowItem {
    ghost use Rattle.std.specs.Prelude.{◌≡◌, string_bytes};
    ghost use Rattle.example_items.specs.ItemReplies.{item_text};

    type Output = String;

    type Future = Ready<String>;

    ghost answers = { λ _ id n y. (n ≡ 0) × (string_bytes y ≡ item_text id) };

    fn call(&mut self, alloc: Global, id: Path<u32>) -> Result<Ready<String>, NoMemory> {
        let id = id.into_inner();
        Ok(Ready::new(format!(in alloc; "item {id}")?))
    }
}

/// `POST /items/{id}`: the number with the text of the body.
#[derive(Drop)]
pub struct NoteItem;

impl Handler<(Path<u32>, String)> for NoteItem {
    ghost use Rattle.std.specs.Prelude.{◌≡◌, string_bytes};
    ghost use Rattle.example_items.specs.ItemReplies.{note_text};

    type Output = String;

    type Future = Ready<String>;

    ghost answers = { λ _ args n y.
        (n ≡ 0) × (string_bytes y ≡ note_text (args.0, string_bytes args.1)) };

    fn call(
        &mut self,
        alloc: Global,
        args: (Path<u32>, String),
    ) -> Result<Ready<String>, NoMemory> {
        let (id, note) = args;
        let id = id.into_inner();
        Ok(Ready::new(format!(in alloc; "{id}: {note}")?))
    }
}

/// All other paths: 404.
#[derive(Drop)]
pub struct NoItem;

impl Handler<()> for NoItem {
    ghost use Rattle.std.specs.Prelude.{◌≡◌, None};

    type Output = Option<&'static str>;

    type Future = Ready<Option<&'static str>>;

    ghost answers = { λ _ none n y. (n ≡ 0) × (y ≡ None) };

    fn call(&mut self, _alloc: Global, _none: ()) -> Result<Ready<Option<&'static str>>, NoMemory> {
        Ok(Ready::new(None))
    }
}
