//! The types of one application.
ghost use Rattle.std.specs.Prelude.{◌≡◌, Ok, ⊤};

use crate::source::Source;
use std::alloc::Global;
use std::marker::PhantomData;
use web_texts::{Duplicate, NoMemory};

/// A layer of configuration.
pub trait AppLayer: Drop {
    /// What its closures need so that they may be called. A layer without closures keeps the
    /// default.
    ghost ready: { Self → Type 0 } = { λ _. ⊤ };

    /// The layer itself, borrowed. With a method in the trait, a type that holds closures can
    /// implement it.
    fn as_layer(&self) -> &Self {
        self
    }
}

/// The types of one application.
///
/// A request has a list of layers, the worker's root layer first. Of those that hold a value, the
/// last one decides.
pub trait App {
    /// Layers of configuration.
    type Layer: AppLayer;

    /// Data of a single request.
    type Local: Duplicate;

    /// Data of a connection, shared by its requests.
    type Conn: Drop;

    /// Sources of bodies.
    type Source: Source;
}

/// An application without configuration or data of its own, whose bodies come from sources of the
/// type `S`.
#[derive(Drop)]
pub struct PlainApp<S> {
    source: PhantomData<S>,
}

/// The layer and the data of a `PlainApp`: no value at all.
#[derive(Clone, Copy, Debug, PartialEq, Eq)]
pub struct NoData;

impl AppLayer for NoData {}

impl Duplicate for NoData {
    fn duplicate(&self, _alloc: Global) -> Result<NoData, NoMemory>
        ensures { result ≡ Ok self.now }
    {
        Ok(NoData)
    }
}

impl<S: Source> App for PlainApp<S> {
    type Layer = NoData;

    type Local = NoData;

    type Conn = NoData;

    type Source = S;
}
