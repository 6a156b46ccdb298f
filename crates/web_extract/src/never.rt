//! The error of arguments that are never refused.
use web_reply::{Cause, Error, IoKind};

/// The error of an argument that is never refused. It has no value: no function returns one, and
/// only this module could make one.
#[derive(Clone, Copy, Debug)]
pub struct Never {
    sealed: (),
}

/// The conversion that every error of an argument needs. There is no value to convert.
impl From<Never> for Error {
    ghost use Rattle.web_extract.specs.Never.{NeverGives};

    ghost from_gives = { λ e f. NeverGives e f };

    fn from(never: Never) -> Error {
        let () = never.sealed;
        Error::from(Cause::Io(IoKind::Other))
    }
}
