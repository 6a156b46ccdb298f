//! The handlers.
use std::alloc::Global;
use web::status::{ErrorNotFound, ErrorUnprocessableEntity};
use web::{Error, Fail, Path, Text};

/// `GET /`: a text.
pub fn hello(alloc: Global) -> Result<Text, Fail<Error>> {
    Ok(Text::of(alloc, "Hello, world!\n")?)
}

/// `GET /hello/{name}`: a text with the name in the path.
pub fn greet(alloc: Global, name: Path<Text>) -> Result<String, Fail<Error>> {
    let name = name.into_inner();
    Ok(format!(in alloc; "Hello, {}!\n", name.as_str())?)
}

/// `PUT /notes/{id}`: a text with the number in the path and the body. An empty body is refused.
pub fn note(alloc: Global, args: (Path<u64>, String)) -> Result<String, Fail<Error>> {
    let (id, text) = args;
    if text.is_empty() {
        let text = "a note needs a text";
        return Err(Fail::Of(ErrorUnprocessableEntity(alloc, text)?));
    }
    let id = id.into_inner();
    Ok(format!(in alloc; "note {id}: {text}\n")?)
}

/// All other paths: 404.
pub fn missing(alloc: Global) -> Result<Text, Fail<Error>> {
    Err(Fail::Of(ErrorNotFound(alloc, "there is no such page")?))
}
