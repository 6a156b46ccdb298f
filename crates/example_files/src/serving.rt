//! The connection, from its first byte to its last.
ghost use Rattle.std.specs.Prelude.{◌≡◌, IfOk};

use crate::site::{Plain, Site};
use crate::words::Words;
use anyhow::Result;
use std::alloc::Global;
use std::rc::Rc;
use web_request::{AppConfig, NoData};
use web_stdio::serve;
use web_texts::NoMemory;
use web_worker::Worker;

/// A worker, which keeps the record of one request for the next.
fn new_worker(alloc: Global) -> Result<Worker<Plain>, NoMemory>
    ensures { IfOk result (λ worker. worker.made ≡ 0) }
{
    let config = AppConfig::local(alloc)?;
    Worker::new(alloc, Rc::new(alloc, NoData)?, config, 1)
}

/// Serves the connection that standard input and output are.
///
/// # Errors
///
/// If the folder is not there, and if reading, writing or memory failed.
pub fn serve_folder(rt: HostRuntime, words: Words) -> Result<()> {
    let alloc = rt.alloc();
    let mut site = Site::new(rt, &words)?;
    let mut worker = new_worker(alloc)?;
    serve(
        alloc,
        &rt,
        &mut worker,
        &mut site,
        words.serving,
        &mut rt.stdin(),
        &mut rt.stdout(),
    )?;
    Ok(())
}
