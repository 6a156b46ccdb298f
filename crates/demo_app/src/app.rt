//! The types of the application.
use crate::layer::DemoLayer;
use std::alloc::Global;
use web_body::Marks;
use web_request::{App, Duplicate, Holds};
use web_texts::NoMemory;

/// The application of the program.
#[derive(Drop)]
pub struct Demo;

/// The data of a request: the number of its `local` line.
#[derive(Drop)]
pub struct DemoLocal(pub u64);

/// The data of a connection: the number of the `conn` line.
#[derive(Drop)]
pub struct DemoConn(pub u64);

impl Duplicate for DemoLocal {
    fn duplicate(&self, _alloc: Global) -> Result<DemoLocal, NoMemory> {
        Ok(DemoLocal(self.0))
    }
}

/// As an argument, the data of a request is taken whole.
impl Holds<DemoLocal> for DemoLocal {
    ghost use Rattle.std.specs.Prelude.{Some};

    ghost held = { λ local. Some local };

    fn held(&self) -> Option<&DemoLocal> {
        Some(self)
    }
}

impl Holds<u64> for DemoConn {
    ghost use Rattle.std.specs.Prelude.{Some};

    ghost held = { λ conn. Some conn.0 };

    fn held(&self) -> Option<&u64> {
        Some(&self.0)
    }
}

impl App for Demo {
    type Layer = DemoLayer;

    type Local = DemoLocal;

    type Conn = DemoConn;

    type Source = Marks;
}
