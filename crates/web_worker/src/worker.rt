//! The worker that serves exchanges.
ghost use Rattle.std.specs.Prelude.{◌≡◌, IfOk};
ghost use Rattle.std.specs.Borrow.{Lends, sem};
ghost use Rattle.web_request.specs.LocalConfigs.{local_config};
ghost use Rattle.web_request.specs.Pool.{new_pool};
ghost use Rattle.web_request.specs.contracts.records.pool.HttpRequestPool.{the_row as pool_row};
ghost use Rattle.web_worker.specs.contracts.worker.Worker.{the_row};

use std::alloc::Global;
use std::marker::Model;
use std::rc::Rc;
use web_request::{App, AppConfig, HttpRequestPool, NoMemory};

/// Serves exchanges with one root layer, one configuration and one pool of records.
///
/// A record that an exchange gave back is used again.
#[derive(Drop)]
pub struct Worker<A: App> {
    pub(crate) pool: HttpRequestPool<A>,
}

impl<A: App> Model for Worker<A> {
    ghost use Rattle.web_request.specs.Pool.{Pool};

    ghost Value = { Pool A.Layer };

    ghost view = { λ w. w.pool };
}

impl<A: App> Worker<A> {
    /// A worker with this root layer and configuration, whose pool keeps up to `capacity` records.
    ///
    /// `Err(NoMemory)` if an allocation failed.
    pub fn new(
        alloc: Global,
        root: Rc<A::Layer>,
        config: AppConfig,
        capacity: usize,
    ) -> Result<Worker<A>, NoMemory>
        requires ready { A.Layer.ready root.value }
        ensures { IfOk result (λ w. w ≡ new_pool root.value config capacity) }
    {
        let pool = HttpRequestPool::with_capacity(alloc, root, config, capacity)?;
        Ok(Worker { pool })
    }

    /// A worker with this root layer that serves as `localhost:8080` without TLS, at port 8080 of
    /// this machine, and keeps up to 128 records: for a first program, and for tries.
    ///
    /// `Err(NoMemory)` if an allocation failed.
    ///
    /// ```
    /// let mut worker = Worker::local(alloc, NoData)?;
    /// ```
    pub fn local(alloc: Global, root: A::Layer) -> Result<Worker<A>, NoMemory>
        requires ready { A.Layer.ready root }
        ensures { IfOk result (λ w. w ≡ new_pool root local_config 128) }
    {
        let config = AppConfig::local(alloc)?;
        Worker::new(alloc, Rc::new(alloc, root)?, config, 128)
    }

    /// The pool, for the records that it keeps and how many it made.
    pub fn pool(&self) -> &HttpRequestPool<A>
        ensures pool { result.now ≡ self.now }
    {
        &self.pool
    }

    /// The pool, to start requests in its records, to give records back, or to disable it.
    pub fn pool_mut(&mut self) -> &mut HttpRequestPool<A>
        ensures* writes_back { sem 𝓛 (Lends
            (the_row A.row A.Layer.row A.Local.row A.Conn.row A.Source.row
            A.Layer.AppLayer A.Source.Source)
            (pool_row A.row A.Layer.row A.Local.row A.Conn.row A.Source.row
            A.Layer.AppLayer A.Source.Source)
            self.entry result (λ pool. pool)) }
        ensures shows { result.now ≡ self.old }
    {
        &mut self.pool
    }
}
