//! The worker of the application.
ghost use Rattle.std.specs.Prelude.{◌≡◌, IfOk};
ghost use Rattle.web_cli.specs.DemoExchanges.{demo_pool};

use demo_app::{Demo, DemoLayer};
use std::alloc::Global;
use std::rc::Rc;
use web_request::AppConfig;
use web_texts::NoMemory;
use web_worker::Worker;

/// A worker for `localhost:8080` whose root layer configures nothing, and whose pool keeps up to
/// `capacity` records. Returns `NoMemory` where an allocation failed.
pub(crate) fn new_worker(alloc: Global, capacity: u16) -> Result<Worker<Demo>, NoMemory>
    ensures { IfOk result (λ w. w ≡ demo_pool capacity) }
{
    let root = Rc::new(alloc, DemoLayer::new())?;
    let config = AppConfig::local(alloc)?;
    Worker::new(alloc, root, config, usize::from(capacity))
}
