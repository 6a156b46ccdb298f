//! The handler of the program.
ghost use Rattle.std.specs.Prelude.{◌≡◌, IfOk, IsOk};
ghost use Rattle.web_reply.specs.Responders.{text_reply};
ghost use Rattle.demo_handler.specs.DemoReplies.{AnswersWithoutMemory, demo_reply};
ghost use Rattle.demo_content.specs.AnswerReplies.{output_reply};
ghost use Rattle.demo_handler.specs.DemoReplies.{wait_of};

use demo_content::{
    Answer, Answering, DemoDocuments, DemoOutput, DemoVariants, PlainText, cookies_answer,
    document_answer, raw_answer, variant_answer,
};
use demo_picked::Picked;
use std::alloc::Global;
use web_request::NoMemory;
use web_worker::Handler;

/// The handler of the program. What it replies to the arguments of each segment stands in the
/// command's page.
///
/// `call` needs memory for the texts that it prints, to read cookies, and for the responses to
/// `/raw`, `/doc` and `/variant`. A poll of its future needs none.
#[derive(Drop)]
pub struct DemoHandler {
    documents: DemoDocuments,
    variants: DemoVariants,
}

fn wait_of(picked: &Picked) -> u64
    ensures { result ≡ wait_of picked.now }
{
    match picked {
        Picked::Wait(wait) => wait.0,
        Picked::Bytes(_)
        | Picked::Text(_)
        | Picked::Json(_)
        | Picked::Capped(_)
        | Picked::CappedJson(_)
        | Picked::Form(_)
        | Picked::Either(_)
        | Picked::Option(_, _)
        | Picked::Result(_)
        | Picked::Path(_)
        | Picked::Query(_)
        | Picked::Header(_)
        | Picked::Data(_)
        | Picked::Raw(_)
        | Picked::Who(_)
        | Picked::Cookies(_)
        | Picked::Lines(_)
        | Picked::Parts(_)
        | Picked::Document(_)
        | Picked::Variant(_)
        | Picked::Both(_, _)
        | Picked::Other => 0,
    }
}

/// The answer that is the text about a value.
fn text_answer<P: PlainText + Drop>(alloc: Global, value: P) -> Result<DemoOutput, NoMemory>
    ensures { IfOk result (λ output. output_reply output ≡ text_reply (P.text value)) }
{
    match value.plain_text(alloc) {
        Ok(text) => Ok(Answer::Text(text)),
        Err(e) => Err(e),
    }
}

/// The output for these arguments.
fn output_of(
    alloc: Global,
    handler: &mut DemoHandler,
    picked: Picked,
) -> Result<DemoOutput, NoMemory>
    ensures value { IfOk result (λ output. output_reply output ≡ demo_reply picked) }
    ensures memory { AnswersWithoutMemory picked → IsOk result }
{
    match picked {
        Picked::Bytes(bytes) => Ok(Answer::Bytes(bytes)),
        Picked::Text(text) => Ok(Answer::Text(text)),
        Picked::Json(json) => Ok(Answer::Json(json.into_inner())),
        Picked::Capped(capped) => Ok(Answer::Bytes(capped.into_inner())),
        Picked::CappedJson(capped) => Ok(Answer::Json(capped.into_inner().into_inner())),
        Picked::Form(form) => Ok(Answer::Form(form.into_inner())),
        Picked::Either(either) => text_answer(alloc, either),
        Picked::Option(item, left) => text_answer(alloc, (item, left)),
        Picked::Result(read) => text_answer(alloc, read),
        Picked::Path(path) => text_answer(alloc, path),
        Picked::Query(query) => text_answer(alloc, query),
        Picked::Header(header) => text_answer(alloc, header),
        Picked::Data(arguments) => text_answer(alloc, arguments),
        Picked::Raw(body) => raw_answer(alloc, body),
        Picked::Who(info) => text_answer(alloc, info),
        Picked::Cookies(arguments) => cookies_answer(alloc, arguments),
        Picked::Lines(lines) => text_answer(alloc, lines),
        Picked::Parts(parts) => text_answer(alloc, parts),
        Picked::Document(arguments) => { document_answer(alloc, &mut handler.documents, arguments) }
        Picked::Variant(arguments) => variant_answer(alloc, &mut handler.variants, arguments),
        Picked::Both(text, _) => Ok(Answer::Text(text)),
        Picked::Wait(_) => Ok(Answer::Done),
        Picked::Other => Ok(Answer::None),
    }
}

impl DemoHandler {
    /// A handler that has answered nothing yet.
    pub fn new() -> DemoHandler {
        DemoHandler {
            documents: DemoDocuments::new(),
            variants: DemoVariants::new(),
        }
    }
}

impl Handler<Picked> for DemoHandler {
    ghost use Rattle.std.specs.Prelude.{IfOk, None, false, is_none};
    ghost use Rattle.web_worker.specs.HandlerPromises.{Within};
    ghost use Rattle.demo_arguments.specs.DelayedValue.{GivesDelayed};
    ghost use Rattle.demo_handler.specs.DemoReplies.{HandlerAnswers};

    type Output = DemoOutput;

    type Future = Answering;

    ghost answers = { λ h picked n output. HandlerAnswers picked n output };

    ghost calls = { λ h. None };

    fn call(&mut self, alloc: Global, picked: Picked) -> Result<Answering, NoMemory>
        ensures fresh { IfOk result (λ f. is_none f.value ≡ false) }
        ensures answers { IfOk result (λ f. Within
            (λ n x. GivesDelayed f n x) (λ n x. HandlerAnswers picked n x)) }
        ensures memory { AnswersWithoutMemory picked → IsOk result }
    {
        let wait = wait_of(&picked);
        Ok(Answering::new(wait, output_of(alloc, self, picked)?))
    }
}
