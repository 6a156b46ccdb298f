//! The value of a JSON body or of a form.
ghost use Rattle.std.specs.Prelude.{◌≡◌};
ghost use Rattle.web_extract_body.specs.EitherValues.{form_or_json, json_or_form};

use crate::either::Either;
use crate::form_value::Form;
use crate::json_value::Json;

impl<T> Either<Json<T>, Form<T>> {
    /// The value, whichever side it is of.
    pub fn into_inner(self) -> T
        ensures { result ≡ json_or_form self }
    {
        match self {
            Either::Left(Json(value)) => value,
            Either::Right(Form(value)) => value,
        }
    }
}

impl<T> Either<Form<T>, Json<T>> {
    /// The value, whichever side it is of.
    pub fn into_inner(self) -> T
        ensures { result ≡ form_or_json self }
    {
        match self {
            Either::Left(Form(value)) => value,
            Either::Right(Json(value)) => value,
        }
    }
}
