//! The steps by which the parts of a body are read.
ghost use Rattle.std.specs.Prelude.{◌≡◌, ◌+◌, ◌<◌, ◌≤◌, ◌^◌, IfOk, OnErr, OnOk, drop, length, take};
ghost use Rattle.web_multipart_parts.specs.Places.{IsSearched};
ghost use Rattle.web_multipart_parts.specs.Parts.{empty_line, part_of};
ghost use Rattle.web_multipart_parts.specs.PartReading.{Keeps, StepGives};
ghost use Rattle.web_multipart_parts.specs.PartMachines.{IsMachine, IsMachineAt, Tells, form_of};
ghost use Rattle.web_multipart_parts.specs.PartMachines.{reader_at, reader_of};
ghost use Rattle.web_multipart_parts.specs.PartSteps.{BoundaryGives, ContentGives, HeadGives};
ghost use Rattle.web_multipart_parts.specs.PartSteps.{OpeningGives, ReadsHead};
ghost use Rattle.web_multipart_parts.specs.Settled.{IsQuiet, IsSettled, OnMoreStep};
ghost use Rattle.web_multipart_parts.specs.declared.part_machine.PartState.TheVariants as place;

use crate::part::{Part, PartError};
use crate::part_head::{PartHead, read_part_head};
use crate::places::{place_from, places_searched};
use bytes::{Bytes, BytesMut};
use std::alloc::Global;
use std::mem;
use web_texts::{Fail, NoMemory};

/// The most bytes of a head, with the line end before it.
const HEAD_SIZE: usize = 4098;

/// What the bytes that come next are.
#[derive(Drop)]
pub enum PartState {
    /// The first boundary.
    Opening,
    /// What follows a boundary.
    Boundary,
    /// The head of a part, with the line end before it.
    Head,
    /// The content of a part of this head.
    Content(PartHead),
}

/// What the bytes that came show.
#[derive(Drop)]
pub enum PartStep {
    /// No more can be read of the bytes that came: another piece is awaited.
    More,
    /// A part.
    Part(Part),
    /// The closing boundary.
    Closed,
    /// An error.
    Failed(PartError),
    /// Allocation failed.
    NoMemory,
}

/// What is held of a body, and where reading stands.
#[derive(Drop)]
pub struct PartMachine {
    /// The bytes that came and are not read yet.
    pub held: BytesMut,
    /// What is searched for begins at none of so many places.
    pub searched: usize,
    /// A line end and the boundary, with its two hyphens.
    pub delimiter: Vec<u8>,
    /// The most bytes of a part's content.
    pub limit: usize,
    /// What is read next.
    pub place: PartState,
    /// How many parts may still begin.
    pub left: u8,
}

/// What stands where a head does.
#[derive(Drop)]
pub enum HeadStep {
    /// A head of so many bytes, with the line end before it.
    Head(PartHead, usize),
    /// No empty line yet.
    More,
    Failed(PartError),
    NoMemory,
}

/// What stands where a content does.
#[derive(Drop)]
pub enum ContentStep {
    /// A content of so many bytes.
    Content(usize),
    /// No delimiter yet.
    More,
    /// More bytes than the limit.
    TooLong,
}

/// What stands where a boundary ends.
#[derive(Drop)]
pub enum BoundaryStep {
    /// Two hyphens.
    Closed,
    /// A line end.
    Begun,
    /// Nothing, or the first byte of one of them.
    More,
    Wrong,
}

/// What stands where the first boundary does.
#[derive(Drop)]
pub enum OpeningStep {
    Opened,
    /// A front of it.
    More,
    Wrong,
}

fn opening_step(bytes: &[u8], opening: &[u8]) -> OpeningStep
    ensures { OpeningGives opening.now bytes.now result }
{
    if bytes.starts_with(opening) {
        OpeningStep::Opened
    } else if opening.starts_with(bytes) {
        OpeningStep::More
    } else {
        OpeningStep::Wrong
    }
}

fn boundary_step(bytes: &[u8]) -> BoundaryStep
    ensures { BoundaryGives bytes.now result }
{
    match opening_step(bytes, b"--") {
        OpeningStep::Opened => BoundaryStep::Closed,
        OpeningStep::More => BoundaryStep::More,
        OpeningStep::Wrong => match opening_step(bytes, b"\r\n") {
            OpeningStep::Opened => BoundaryStep::Begun,
            OpeningStep::More => BoundaryStep::More,
            OpeningStep::Wrong => BoundaryStep::Wrong,
        },
    }
}

/// Reads a head with the line end before it.
fn read_head(alloc: Global, bytes: &[u8]) -> HeadStep
    requires { 2 ≤ length bytes.now }
    ensures { ReadsHead bytes.now result }
{
    match read_part_head(alloc, &bytes[2..]) {
        Ok(head) => HeadStep::Head(head, bytes.len()),
        Err(Fail::NoMemory) => HeadStep::NoMemory,
        Err(Fail::Of(_)) => HeadStep::Failed(PartError::Head),
    }
}

fn head_step(alloc: Global, bytes: &[u8], searched: usize) -> HeadStep
    requires { IsSearched empty_line bytes.now searched }
    ensures { HeadGives bytes.now result }
{
    match place_from(bytes, b"\r\n\r\n", searched) {
        Some(place) => {
            if place + 4 <= HEAD_SIZE {
                read_head(alloc, &bytes[..place + 4])
            } else {
                HeadStep::Failed(PartError::Grammar)
            }
        }
        None => {
            if HEAD_SIZE <= bytes.len() {
                HeadStep::Failed(PartError::Grammar)
            } else {
                HeadStep::More
            }
        }
    }
}

fn content_step(bytes: &[u8], delimiter: &[u8], limit: usize, searched: usize) -> ContentStep
    requires some { 0 < length delimiter.now }
    requires limit { limit ≤ 2 ^ 62 }
    requires searched { IsSearched delimiter.now bytes.now searched }
    ensures { ContentGives delimiter.now limit bytes.now result }
{
    match place_from(bytes, delimiter, searched) {
        Some(place) => {
            if place <= limit {
                ContentStep::Content(place)
            } else {
                ContentStep::TooLong
            }
        }
        None => {
            if limit + delimiter.len() <= bytes.len() {
                ContentStep::TooLong
            } else {
                ContentStep::More
            }
        }
    }
}

/// Takes a content and the delimiter after it.
fn take_content(held: &mut BytesMut, content: usize, delimiter: usize) -> Result<Bytes, NoMemory>
    requires { content + delimiter ≤ length held.old.items }
    ensures body { IfOk result (λ body. body ≡ take content held.old.items) }
    ensures rest { OnOk result (held.new.items ≡ drop (content + delimiter) held.old.items) }
    ensures err { OnErr result (held.new.items ≡ held.old.items) }
{
    let body = held.freeze_to(content)?;
    held.advance(delimiter);
    Ok(body)
}

fn with_body(head: PartHead, body: Bytes) -> Part
    ensures { result ≡ part_of head body }
{
    Part {
        name: head.name,
        filename: head.filename,
        media_type: head.media_type,
        body,
    }
}

impl PartMachine {
    /// Reads on to another place; `Some` where nothing more is to be read.
    pub fn step(&mut self, alloc: Global) -> Option<PartStep>
        requires { IsMachine self.old }
        ensures tells { Tells (reader_of self.old) result self.new }
        ensures machine { IsMachine self.new }
        ensures keeps { Keeps (reader_of self.old) (reader_of self.new) }
        ensures settles { OnMoreStep result (IsSettled (reader_of self.new)) }
        ensures quiet { IsSettled (reader_of self.old) → IsQuiet result }
    {
        match mem::replace(&mut self.place, PartState::Boundary) {
            PartState::Opening => self.read_opening(),
            PartState::Boundary => self.read_boundary(),
            PartState::Head => self.read_head(alloc),
            PartState::Content(head) => self.read_content(head),
        }
    }

    fn read_opening(&mut self) -> Option<PartStep>
        requires machine { IsMachineAt place.Opening self.old }
        requires moved { self.old.place ≡ place.Boundary }
        ensures tells { Tells (reader_at place.Opening self.old) result self.new }
        ensures machine { IsMachine self.new }
        ensures keeps { Keeps (reader_at place.Opening self.old) (reader_of self.new) }
        ensures settles { OnMoreStep result (IsSettled (reader_of self.new)) }
        ensures quiet { IsSettled (reader_at place.Opening self.old) → IsQuiet result }
    {
        match opening_step(self.held.as_slice(), &self.delimiter[2..]) {
            OpeningStep::Opened => {
                self.held.advance(self.delimiter.len() - 2);
                None
            }
            OpeningStep::More => {
                self.place = PartState::Opening;
                Some(PartStep::More)
            }
            OpeningStep::Wrong => Some(PartStep::Failed(PartError::Grammar)),
        }
    }

    fn read_boundary(&mut self) -> Option<PartStep>
        requires machine { IsMachineAt place.Boundary self.old }
        requires moved { self.old.place ≡ place.Boundary }
        ensures tells { Tells (reader_at place.Boundary self.old) result self.new }
        ensures machine { IsMachine self.new }
        ensures keeps { Keeps (reader_at place.Boundary self.old) (reader_of self.new) }
        ensures settles { OnMoreStep result (IsSettled (reader_of self.new)) }
        ensures quiet { IsSettled (reader_at place.Boundary self.old) → IsQuiet result }
    {
        match boundary_step(self.held.as_slice()) {
            BoundaryStep::Closed => Some(PartStep::Closed),
            BoundaryStep::Begun => {
                if self.left == 0 {
                    return Some(PartStep::Failed(PartError::TooMany));
                }
                self.left -= 1;
                self.searched = 0;
                self.place = PartState::Head;
                None
            }
            BoundaryStep::More => Some(PartStep::More),
            BoundaryStep::Wrong => Some(PartStep::Failed(PartError::Grammar)),
        }
    }

    fn read_head(&mut self, alloc: Global) -> Option<PartStep>
        requires machine { IsMachineAt place.Head self.old }
        requires moved { self.old.place ≡ place.Boundary }
        ensures tells { Tells (reader_at place.Head self.old) result self.new }
        ensures machine { IsMachine self.new }
        ensures keeps { Keeps (reader_at place.Head self.old) (reader_of self.new) }
        ensures settles { OnMoreStep result (IsSettled (reader_of self.new)) }
        ensures quiet { IsSettled (reader_at place.Head self.old) → IsQuiet result }
    {
        match head_step(alloc, self.held.as_slice(), self.searched) {
            HeadStep::Head(head, size) => {
                self.held.advance(size);
                self.searched = 0;
                self.place = PartState::Content(head);
                None
            }
            HeadStep::More => {
                self.searched = places_searched(self.held.as_slice(), b"\r\n\r\n");
                self.place = PartState::Head;
                Some(PartStep::More)
            }
            HeadStep::Failed(error) => Some(PartStep::Failed(error)),
            HeadStep::NoMemory => Some(PartStep::NoMemory),
        }
    }

    fn read_content(&mut self, head: PartHead) -> Option<PartStep>
        requires machine { IsMachineAt (place.Content head) self.old }
        requires moved { self.old.place ≡ place.Boundary }
        ensures tells { Tells (reader_at (place.Content head) self.old) result self.new }
        ensures machine { IsMachine self.new }
        ensures keeps { Keeps (reader_at (place.Content head) self.old) (reader_of self.new) }
        ensures settles { OnMoreStep result (IsSettled (reader_of self.new)) }
        ensures quiet { IsSettled (reader_at (place.Content head) self.old) → IsQuiet result }
    {
        match content_step(
            self.held.as_slice(),
            self.delimiter.as_slice(),
            self.limit,
            self.searched,
        ) {
            ContentStep::Content(size) => {
                match take_content(&mut self.held, size, self.delimiter.len()) {
                    Ok(body) => Some(PartStep::Part(with_body(head, body))),
                    Err(_) => Some(PartStep::NoMemory),
                }
            }
            ContentStep::More => {
                self.searched = places_searched(self.held.as_slice(), self.delimiter.as_slice());
                self.place = PartState::Content(head);
                Some(PartStep::More)
            }
            ContentStep::TooLong => Some(PartStep::Failed(PartError::PartOverflow)),
        }
    }
}
