//! What the polls of a worker are judged by.

use crate::service::Service;
use web_request::App;

/// A service as the contracts of a worker see it.
///
/// Each service has it; nobody implements it. Its ghost member brings together what the service and
/// the worker make of an exchange.
pub trait Serves<A: App, Args>: Service<A, Args> {
    ghost use Rattle.web_request.specs.Pool.{Pool};
    ghost use Rattle.web_worker.specs.Setting.{Setting};

    /// The setting of a worker with this pool.
    ghost setting: { Self → Pool A.Layer → Setting A.Source A.Layer A.Local A.Conn Args Self.Call };
}

impl<A: App, Args, S: Service<A, Args>> Serves<A, Args> for S {
    ghost use Rattle.web_worker.specs.Setting.{setting_of};

    ghost setting = { λ service pool. setting_of (S.completed service) (S.promise service)
        (S.left service) A.Source.feed pool };
}
