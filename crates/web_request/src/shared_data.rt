//! Data that the requests of an application share.
ghost use Rattle.std.specs.Prelude.{◌≡◌, IfOk};

use std::alloc::Global;
use std::marker::Model;
use std::ops::Deref;
use std::rc::Rc;
use web_texts::{Duplicate, NoMemory};

/// Data that the requests of an application share.
///
/// A layer that holds a `Data<T>` lends it to its requests. Contracts see the data itself.
#[derive(Drop)]
pub struct Data<T> {
    shared: Rc<T>,
}

impl<T> Model for Data<T> {
    ghost Value = { T };

    ghost view = { λ d. d.shared.value };
}

impl<T> Data<T> {
    /// Moves the data to shared memory. Returns `NoMemory` where the allocation failed.
    pub fn new(alloc: Global, state: T) -> Result<Data<T>, NoMemory>
    where
        T: Drop,
        ensures { IfOk result (λ made. made ≡ state) }
    {
        Ok(Data {
            shared: Rc::new(alloc, state)?,
        })
    }

    /// The data.
    pub fn get_ref(&self) -> &T
        ensures { result.now ≡ self.now }
    {
        &self.shared
    }

    /// The counted pointer to the data.
    pub fn into_inner(self) -> Rc<T>
        ensures { result.value ≡ self }
    {
        let Data { shared } = self;
        shared
    }
}

impl<T: Drop> Duplicate for Data<T> {
    /// Shares the data once more. Nothing is copied, and no memory is taken: `NoMemory` comes only
    /// where the count of the pointers is full.
    fn duplicate(&self, _alloc: Global) -> Result<Data<T>, NoMemory> {
        Ok(Data {
            shared: self.shared.clone()?,
        })
    }
}

impl<T> From<Rc<T>> for Data<T> {
    ghost from_gives = { λ shared made. made ≡ shared.value };

    fn from(shared: Rc<T>) -> Data<T> {
        Data { shared }
    }
}

impl<T> Deref for Data<T> {
    type Target = Rc<T>;

    ghost deref_gives = { λ d shared. shared.value ≡ d };

    fn deref(&self) -> &Rc<T> {
        &self.shared
    }
}
