//! One connection, from its first byte to its last.
ghost use Rattle.std.specs.Prelude.{◌≡◌, IfOk};

use crate::reply::Plain;
use crate::settings::read_settings;
use crate::site::Site;
use anyhow::Result;
use std::alloc::Global;
use std::rc::Rc;
use web_request::{AppConfig, NoData, NoMemory};
use web_stdio::serve;
use web_worker::Worker;

/// A worker, which keeps the record of one request for the next.
fn new_worker(alloc: Global) -> Result<Worker<Plain>, NoMemory>
    ensures { IfOk result (λ worker. worker.made ≡ 0) }
{
    let config = AppConfig::local(alloc)?;
    Worker::new(alloc, Rc::new(alloc, NoData)?, config, 1)
}

/// Serves the connection that standard input and output are.
///
/// # Errors
///
/// Where reading, writing or memory failed.
pub fn serve_connection(rt: &HostRuntime) -> Result<()> {
    let alloc = rt.alloc();
    let settings = read_settings(rt)?;
    let mut site = Site::new(alloc)?;
    let mut worker = new_worker(alloc)?;
    serve(
        alloc,
        rt,
        &mut worker,
        &mut site,
        settings,
        &mut rt.stdin(),
        &mut rt.stdout(),
    )?;
    Ok(())
}
