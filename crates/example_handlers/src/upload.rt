//! Forms with files: a handler that gets a whole form, and one that reads a form part by part.
ghost use Rattle.std.specs.Prelude.{◌≡◌, IfOk, false, option_copied};
ghost use Rattle.example_handlers.specs.Uploads.{part_named, receipt_of};

use http::StatusCode;
use std::alloc::Global;
use web_body::{Payload, Poll, Step};
use web_extract::Ready;
use web_multipart::{Multipart, MultipartError, MultipartStream, Part};
use web_reply::Error;
use web_request::{App, HttpRequest, NoMemory, Source, Text};
use web_worker::Handler;

/// Takes forms whose parts have at most 65,536 bytes each. It responds with 201 and the number of
/// bytes of the file, which is the first part of the name `file`, or with 400 where there is none.
#[derive(Drop)]
pub struct Upload;

impl Handler<Multipart<65_536>> for Upload {
    ghost use Rattle.std.specs.Prelude.{◌≡◌};
    ghost use Rattle.example_handlers.specs.Uploads.{receipt_of};

    type Output = (Text, StatusCode);

    type Future = Ready<(Text, StatusCode)>;

    ghost answers = { λ h form n y. (n ≡ 0) × (y ≡ receipt_of form) };

    fn call(
        &mut self,
        alloc: Global,
        form: Multipart<65_536>,
    ) -> Result<Ready<(Text, StatusCode)>, NoMemory> {
        Ok(Ready::new(receipt(alloc, form.parts())?))
    }
}

/// The first part of this name.
fn part_named<'a>(parts: &'a [Part], name: &str) -> Option<&'a Part>
    ensures { option_copied result ≡ part_named name.now parts.now }
{
    parts.iter().find(|part| part.name.as_str() == name)
}

fn receipt(alloc: Global, parts: &[Part]) -> Result<(Text, StatusCode), NoMemory>
    ensures { IfOk result (λ reply. reply ≡ receipt_of parts.now) }
{
    match part_named(parts, "file") {
        Some(file) => {
            let text = format!(in alloc; "{} bytes", file.body.len())?;
            Ok((Text::from(text), StatusCode::CREATED))
        }
        None => {
            let text = Text::of(alloc, "a file is missing")?;
            Ok((text, StatusCode::BAD_REQUEST))
        }
    }
}

/// Reads forms part by part, keeps none of the parts, and responds with the sum of their sizes.
#[derive(Drop)]
pub struct PartByPart;

impl<A: App> Handler<(HttpRequest<A>, Payload<A::Source>)> for PartByPart {
    type Output = Result<Text, Error>;

    type Future = PartSizes<A::Source>;

    fn call(
        &mut self,
        alloc: Global,
        args: (HttpRequest<A>, Payload<A::Source>),
    ) -> Result<PartSizes<A::Source>, NoMemory> {
        let (request, mut payload) = args;
        let stream = MultipartStream::new(alloc, &request, &mut payload, 1_048_576)?;
        Ok(PartSizes::new(stream))
    }
}

/// The sum of the sizes of parts, as they come.
#[derive(Drop)]
pub struct PartSizes<S> {
    stream: MultipartStream<S>,
    size: u64,
    is_finished: bool,
}

impl<S> PartSizes<S> {
    fn new(stream: MultipartStream<S>) -> PartSizes<S>
        ensures { result.is_finished ≡ false }
    {
        PartSizes {
            stream,
            size: 0,
            is_finished: false,
        }
    }
}

/// Takes the parts that are known by now, and drops each before the next is read.
fn add_sizes<S: Source>(
    alloc: Global,
    stream: &mut MultipartStream<S>,
    size: &mut u64,
) -> Step<Result<(), MultipartError>> {
    'parts: loop {
        match stream.poll_next(alloc) {
            Step::Pending => return Step::Pending,
            Step::Ready(Some(Ok(part))) => *size = size.saturating_add(part.body.len() as u64),
            Step::Ready(Some(Err(error))) => return Step::Ready(Err(error)),
            Step::Ready(None) => return Step::Ready(Ok(())),
            Step::NoMemory => return Step::NoMemory,
        }
    }
}

/// What the parts of a form are answered with.
fn sizes_reply(
    alloc: Global,
    parts: Result<(), MultipartError>,
    size: u64,
) -> Result<Result<Text, Error>, NoMemory> {
    match parts {
        Ok(()) => Ok(Ok(Text::from(format!(in alloc; "{size} bytes")?))),
        Err(error) => Ok(Err(error.into_error(alloc)?)),
    }
}

impl<S: Source> Poll for PartSizes<S> {
    ghost use Rattle.std.specs.Prelude.{Ok, [], ⊤};

    type Output = Result<Text, Error>;

    ghost is_finished = { λ f. f.is_finished };

    ghost gives = { λ f n x. ⊤ };

    ghost some = { λ f h none. none 0 (Ok []) tt };

    fn finished(&self) -> bool {
        self.is_finished
    }

    fn poll(&mut self, alloc: Global) -> Step<Result<Text, Error>> {
        let step = add_sizes(alloc, &mut self.stream, &mut self.size);
        self.is_finished = !matches!(&step, Step::Pending);
        match step {
            Step::Pending => Step::Pending,
            Step::NoMemory => Step::NoMemory,
            Step::Ready(parts) => match sizes_reply(alloc, parts, self.size) {
                Ok(reply) => Step::Ready(reply),
                Err(NoMemory) => Step::NoMemory,
            },
        }
    }
}
