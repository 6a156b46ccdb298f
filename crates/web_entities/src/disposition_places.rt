//! Where a reader stands in the parameters of a disposition, and in quoted text.
ghost use Rattle.std.specs.Prelude.{◌≡◌};

use web_texts::Mode;

/// A place in the parameters.
#[derive(Clone, Copy, Debug, PartialEq, Eq)]
pub enum ParameterState {
    /// In a name.
    Name,
    /// In a name, after an asterisk and blanks alone.
    Starred,
    /// After the equals sign, before the value.
    Lead,
    /// In a value, or in what follows its closing quote.
    Value,
    /// Between quotes.
    Quoted,
    /// Between quotes, after a backslash.
    Escaped,
}

impl Mode for ParameterState {
    ghost use Rattle.std.proofs.Common.{lit<};
    ghost use Rattle.web_entities.specs.DispositionPlaces.{in_parameters};

    ghost rule = { in_parameters };

    fn first() -> Self {
        ParameterState::Name
    }

    fn ends(self, b: u8) -> bool {
        match self {
            ParameterState::Lead | ParameterState::Value => b == b';',
            _ => false,
        }
    }

    fn behind(self, b: u8) -> Self {
        match (self, b) {
            (ParameterState::Name | ParameterState::Starred, b'*') => ParameterState::Starred,
            (ParameterState::Name, b'=') => ParameterState::Lead,
            (ParameterState::Name, _) => ParameterState::Name,
            (ParameterState::Starred, b'=') => ParameterState::Value,
            (ParameterState::Starred, b' ' | b'\t') => ParameterState::Starred,
            (ParameterState::Starred, _) => ParameterState::Name,
            (ParameterState::Lead, b'"') => ParameterState::Quoted,
            (ParameterState::Lead, b' ' | b'\t') => ParameterState::Lead,
            (ParameterState::Lead | ParameterState::Value, _) => ParameterState::Value,
            (ParameterState::Quoted, b'"') => ParameterState::Value,
            (ParameterState::Quoted, b'\\') => ParameterState::Escaped,
            (ParameterState::Quoted | ParameterState::Escaped, _) => ParameterState::Quoted,
        }
    }

    ghost ascii = { lit< tt };
}

/// A place between quotes.
#[derive(Clone, Copy, Debug, PartialEq, Eq)]
pub enum Inside {
    /// Not after a backslash.
    Plain,
    /// After a backslash, which keeps the next byte.
    Escaped,
}

impl Mode for Inside {
    ghost use Rattle.std.proofs.Common.{lit<};
    ghost use Rattle.web_entities.specs.DispositionPlaces.{in_quotes};

    ghost rule = { in_quotes };

    fn first() -> Self {
        Inside::Plain
    }

    fn ends(self, b: u8) -> bool {
        match self {
            Inside::Plain => b == b'"',
            Inside::Escaped => false,
        }
    }

    fn behind(self, b: u8) -> Self {
        match (self, b) {
            (Inside::Plain, b'\\') => Inside::Escaped,
            _ => Inside::Plain,
        }
    }

    ghost ascii = { lit< tt };
}
