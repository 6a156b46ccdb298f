//! The configuration of a worker.
ghost use Rattle.std.specs.Prelude.{◌≡◌, IfOk};
ghost use Rattle.web_request.specs.LocalConfigs.{local_config};

use crate::peers::address::{IpAddr, SocketAddr};
use std::alloc::Global;
use web_texts::{NoMemory, Text};

/// The settings of a worker that its requests see.
#[derive(Debug, Drop)]
pub struct AppConfig {
    /// The host name that is assumed where a request has none.
    pub host: Text,
    /// Whether connections are encrypted, so that `https` is the scheme of a request without one.
    pub secure: bool,
    /// The address on which the worker listens.
    pub local_addr: SocketAddr,
}

impl AppConfig {
    /// A worker at port 8080 of this machine alone (`127.0.0.1`), over connections that are not
    /// encrypted, whose host name is `localhost:8080`.
    pub fn local(alloc: Global) -> Result<AppConfig, NoMemory>
        ensures { IfOk result (λ config. config ≡ local_config) }
    {
        Ok(AppConfig {
            host: Text::of(alloc, "localhost:8080")?,
            secure: false,
            local_addr: SocketAddr {
                ip: IpAddr::V4([127, 0, 0, 1]),
                port: 8080,
            },
        })
    }
}
