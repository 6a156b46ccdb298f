//! What the layers of a request hold.
ghost use Rattle.std.specs.Prelude.{◌≡◌, IfSome, None, Option, ⊤, option_copied};

use crate::app::{AppLayer, NoData};
use std::marker::PhantomData;

/// A layer, or the data of a connection, that may hold a `T`.
pub trait Holds<T> {
    /// The `T` that it holds, if there is one.
    ghost held: { Self → Option T };

    /// The `T` that it holds, if there is one.
    fn held(&self) -> Option<&T>
        ensures { option_copied result ≡ held self.now };
}

impl<T> Holds<T> for NoData {
    ghost held = { λ _. None };

    fn held(&self) -> Option<&T> {
        None
    }
}

/// Names one configuration of the layers of a request, of which a layer may have one of its own,
/// and one that it shares with other layers.
///
/// It is met by a type without values, one for each kind of configuration. The search in a request
/// is `HttpRequest::nearest_config`.
pub trait ConfigChoice<L: AppLayer> {
    /// The configuration.
    type Config;

    /// The layer's own one.
    ghost own: { L → Option Self.Config };

    /// The one that the layer shares.
    ghost shared: { L → Option Self.Config };

    /// What holds of a configuration in a layer whose closures may be called.
    ghost usable: { Self.Config → Type 0 } = { λ _. ⊤ };

    /// The layer's own one.
    fn own(layer: &L) -> Option<&Self::Config>
        requires { L.ready layer.now }
        ensures value { option_copied result ≡ own layer.now }
        ensures usable { IfSome result (λ found. usable found.now) };

    /// The one that the layer shares.
    fn shared(layer: &L) -> Option<&Self::Config>
        requires { L.ready layer.now }
        ensures value { option_copied result ≡ shared layer.now }
        ensures usable { IfSome result (λ found. usable found.now) };
}

/// Names what a search in the layers looks for.
pub trait Wanted<L: AppLayer> {
    /// What a layer may have.
    type Value;

    /// What a layer has.
    ghost value: { L → Option Self.Value };

    /// What holds of a value in a layer whose closures may be called.
    ghost usable: { Self.Value → Type 0 };

    /// What a layer has.
    fn value_in(layer: &L) -> Option<&Self::Value>
        requires { L.ready layer.now }
        ensures value { option_copied result ≡ value layer.now }
        ensures usable { IfSome result (λ found. usable found.now) };
}

/// The `T` that a layer holds.
pub struct HeldValue<T> {
    value: PhantomData<T>,
}

impl<T, L: AppLayer + Holds<T>> Wanted<L> for HeldValue<T> {
    type Value = T;

    ghost value = { L.Holds.held };

    ghost usable = { λ _. ⊤ };

    fn value_in(layer: &L) -> Option<&T> {
        layer.held()
    }
}

/// A layer's own configuration.
pub struct OwnConfig<C> {
    choice: PhantomData<C>,
}

impl<L: AppLayer, C: ConfigChoice<L>> Wanted<L> for OwnConfig<C> {
    type Value = C::Config;

    ghost value = { C.own };

    ghost usable = { C.usable };

    fn value_in(layer: &L) -> Option<&C::Config> {
        C::own(layer)
    }
}

/// A configuration that a layer shares.
pub struct SharedConfig<C> {
    choice: PhantomData<C>,
}

impl<L: AppLayer, C: ConfigChoice<L>> Wanted<L> for SharedConfig<C> {
    type Value = C::Config;

    ghost value = { C.shared };

    ghost usable = { C.usable };

    fn value_in(layer: &L) -> Option<&C::Config> {
        C::shared(layer)
    }
}
