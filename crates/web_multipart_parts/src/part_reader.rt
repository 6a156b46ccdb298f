//! A reader of parts, which is fed pieces of a body.
ghost use Rattle.std.specs.Prelude.{◌≡◌, ◌+◌, ◌++◌, ◌<◌, ◌≤◌, ◌^◌, [], IfOk, OnErr, OnOk, length};
ghost use Rattle.web_multipart_parts.specs.Parts.{delimiter_of};
ghost use Rattle.web_multipart_parts.specs.PartMachines.{IsMachine, reader_of};
ghost use Rattle.web_multipart_parts.specs.Settled.{HasMemory, IsSettled, OnMore};
ghost use Rattle.web_multipart_parts.specs.PartReading.{Keeps, StepGives, new_reader, parts_left};

use crate::part_machine::{PartMachine, PartState, PartStep};
use bytes::BytesMut;
use std::alloc::Global;
use std::marker::Model;
use web_texts::NoMemory;

/// The most parts.
const PARTS: u8 = 64;

/// Reads the parts of a multipart body from pieces as they come.
#[derive(Drop)]
pub struct PartReader {
    machine: PartMachine,
}

impl Model for PartReader {
    ghost use Rattle.web_multipart_parts.specs.PartReading.{Reader};
    ghost use Rattle.web_multipart_parts.specs.PartMachines.{IsMachine, reader_of};

    ghost Value = { Reader };

    ghost view = { λ r. reader_of r.machine };

    ghost invariant = { λ r. IsMachine r.machine };
}

fn delimiter_for(alloc: Global, boundary: &[u8]) -> Result<Vec<u8>, NoMemory>
    ensures { IfOk result (λ made. made.items ≡ delimiter_of boundary.now) }
{
    let mut delimiter = Vec::with_capacity(alloc, boundary.len() + 4)?;
    delimiter.extend_from_slice(b"\r\n--")?;
    delimiter.extend_from_slice(boundary)?;
    Ok(delimiter)
}

/// Reads on until nothing more is to be read.
fn run(machine: &mut PartMachine, alloc: Global) -> PartStep
    requires machine { IsMachine machine.old }
    ensures gives { StepGives (reader_of machine.old) result (reader_of machine.new) }
    ensures machine { IsMachine machine.new }
    ensures keeps { Keeps (reader_of machine.old) (reader_of machine.new) }
    ensures settles { OnMore result (IsSettled (reader_of machine.new)) }
    ensures memory { IsSettled (reader_of machine.old) → HasMemory result }
{
    'places: loop {
        match machine.step(alloc) {
            Some(found) => return found,
            None => {}
        }
    }
}

impl PartReader {
    /// A reader of a body of this boundary. Its parts have at most `limit` bytes, which is at most
    /// 2^62. Returns `NoMemory` where an allocation failed.
    pub fn new(alloc: Global, boundary: &[u8], limit: usize) -> Result<PartReader, NoMemory>
        requires { limit ≤ 2 ^ 62 }
        ensures { IfOk result (λ reader. reader ≡ new_reader boundary.now limit) }
    {
        let delimiter = delimiter_for(alloc, boundary)?;
        Ok(PartReader {
            machine: PartMachine {
                held: BytesMut::new(alloc),
                searched: 0,
                delimiter,
                limit,
                place: PartState::Opening,
                left: PARTS,
            },
        })
    }

    /// Adds a piece of the body. Where allocation failed, the reader is as before.
    pub fn feed(&mut self, piece: &[u8]) -> Result<(), NoMemory>
        ensures ok { OnOk result (self.new
            ≡ record self.old { came = self.old.came ++ piece.now }) }
        ensures err { OnErr result (self.new ≡ self.old) }
    {
        self.machine.held.extend_from_slice(piece)?;
        Ok(())
    }

    /// The number of bytes that came and are not read yet.
    pub fn buffered(&self) -> usize
        ensures { result ≡ length self.now.came }
    {
        self.machine.held.len()
    }

    /// The next part that stands in the bytes that came; `More` asks for another piece. After
    /// `Closed`, `Failed` or `NoMemory` the reader is spent: what a later call gives is not stated.
    pub fn next(&mut self, alloc: Global) -> PartStep
        ensures gives { StepGives self.old result self.new }
        ensures form { self.new.form ≡ self.old.form }
        ensures held { length self.new.came ≤ length self.old.came }
        ensures fewer { parts_left self.new ≤ parts_left self.old }
        ensures settles { OnMore result (IsSettled self.new) }
        ensures memory { IsSettled self.old → HasMemory result }
    {
        run(&mut self.machine, alloc)
    }
}
