//! The lines of a body as an argument.
ghost use Rattle.std.specs.Prelude.{◌≡◌, [], false};
ghost use Rattle.web_lines.specs.LineReading.{schedule_of};
ghost use Rattle.demo_arguments.specs.LinesArgument.{Gathers, limit_in};

use crate::params::number_in;
use std::alloc::Global;
use std::marker::Model;
use std::mem;
use web_body::{Payload, Poll, ReadlinesError, Step};
use web_extract::FromRequest;
use web_lines::{DEFAULT_LIMIT, Readlines};
use web_reply::Error;
use web_request::{App, HttpRequest, NoMemory, Source};
use web_service::ServiceRequest;
use web_texts::{Pair, Text};

/// All lines of the body, each with its newline, read by `Readlines` over a `ServiceRequest`.
/// Contracts see their list.
///
/// The path's parameter `limit` is the limit of a line, in bytes with its newline; where it is no
/// number, that of `Readlines` is.
#[derive(Debug, Drop)]
pub struct AllLines {
    lines: Vec<Text>,
}

impl Model for AllLines {
    ghost use Rattle.demo_arguments.specs.LinesArgument.{Lines};

    ghost Value = { Lines };

    ghost view = { λ l. l.lines.items };
}

impl AllLines {
    /// The lines.
    pub fn as_slice(&self) -> &[Text]
        ensures { result.now ≡ self.now }
    {
        self.lines.as_slice()
    }
}

/// The future of [`AllLines`].
#[derive(Drop)]
pub struct AllLinesFuture<S> {
    reader: Readlines<S>,
    /// The lines that came.
    lines: Vec<Text>,
    is_finished: bool,
}

impl<S> Model for AllLinesFuture<S> {
    ghost use Rattle.demo_arguments.specs.LinesArgument.{LinesFutureView};

    ghost Value = { LinesFutureView S };

    ghost view = { λ f. record {
      reader = f.reader;
      lines = f.lines.items;
      is_finished = f.is_finished;
    } };
}

impl<S> AllLinesFuture<S> {
    fn new(alloc: Global, reader: Readlines<S>) -> AllLinesFuture<S>
        ensures { result ≡ record { reader = reader; lines = []; is_finished = false } }
    {
        AllLinesFuture {
            reader,
            lines: Vec::new(alloc),
            is_finished: false,
        }
    }
}

/// The limit of a line that the parameters ask for, else the default.
fn limit_in(params: &[Pair]) -> usize
    ensures { result ≡ limit_in params.now }
{
    match number_in(params, "limit", u64::MAX) {
        Some(limit) => limit as usize,
        None => DEFAULT_LIMIT,
    }
}

/// Adds lines until there is a stall, an error or the end.
fn gather<S: Source>(
    alloc: Global,
    reader: &mut Readlines<S>,
    lines: &mut Vec<Text>,
) -> Step<Result<(), ReadlinesError>>
    ensures { Gathers (schedule_of S.feed reader.old) lines.old.items
        result (schedule_of S.feed reader.new) lines.new.items }
{
    'lines: loop {
        match reader.poll_next(alloc) {
            Step::Ready(Some(Ok(line))) => {
                if lines.push(line).is_err() {
                    return Step::NoMemory;
                }
            }
            Step::Ready(Some(Err(error))) => return Step::Ready(Err(error)),
            Step::Ready(None) => return Step::Ready(Ok(())),
            Step::Pending => return Step::Pending,
            Step::NoMemory => return Step::NoMemory,
        }
    }
}

impl<S: Source> Poll for AllLinesFuture<S> {
    ghost use Rattle.demo_arguments.specs.LinesArgument.{AllowsLines, allows_lines_some};

    type Output = Result<AllLines, Error>;

    ghost is_finished = { λ f. f.is_finished };

    ghost gives = { λ f n x. AllowsLines f.lines (schedule_of S.feed f.reader) n x };

    ghost some = { λ f h. allows_lines_some f.lines (schedule_of S.feed f.reader) };

    fn finished(&self) -> bool {
        self.is_finished
    }

    fn poll(&mut self, alloc: Global) -> Step<Result<AllLines, Error>> {
        let gathered = gather(alloc, &mut self.reader, &mut self.lines);
        match gathered {
            Step::Pending => return Step::Pending,
            _ => self.is_finished = true,
        }
        match gathered {
            Step::Ready(Ok(())) => {
                let lines = mem::replace(&mut self.lines, Vec::new(alloc));
                Step::Ready(Ok(AllLines { lines }))
            }
            Step::Ready(Err(error)) => Step::Ready(Err(Error::from(error))),
            Step::Pending | Step::NoMemory => Step::NoMemory,
        }
    }
}

/// The lines of the body, or the first error that ends them. Where the content type of the request
/// is refused, the payload is left, else it is taken.
impl<A: App> FromRequest<A> for AllLines {
    ghost use Rattle.web_extract.specs.SomeAnswer.{itself};
    ghost use Rattle.demo_arguments.specs.LinesArgument.{MeansLines, lines_some};

    type Error = Error;

    type Future = AllLinesFuture<A::Source>;

    ghost means = { λ q m rest n x. MeansLines q m rest n x };

    ghost some = { λ q m. lines_some q m };

    ghost converted = { itself };

    fn from_request(
        alloc: Global,
        req: &HttpRequest<A>,
        payload: &mut Payload<A::Source>,
    ) -> Result<AllLinesFuture<A::Source>, NoMemory> {
        let request = req.duplicate(alloc)?;
        let mut service = ServiceRequest::from_parts(request, payload.take());
        let reader = Readlines::new(alloc, &mut service);
        let (_, left) = service.into_parts();
        *payload = left;
        let reader = reader?.limit(limit_in(req.match_info()));
        Ok(AllLinesFuture::new(alloc, reader))
    }
}
