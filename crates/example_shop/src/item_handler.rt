//! The handler of items, whose replies are promised.
ghost use Rattle.std.specs.Prelude.{◌≡◌, ◌+◌, ◌++◌, ◌<◌, ◌^◌, List, ℕ, IfOk, codes, length};
ghost use Rattle.web_request.specs.Head.{Head};
ghost use Rattle.web_request.specs.declared.source.Mark.{Mark};
ghost use Rattle.web_body.specs.DecoderSettings.{JsonSettings};
ghost use Rattle.web_extract.specs.declared.config.refuse.NoType.{NoType};
ghost use Rattle.web_worker.specs.Outcomes.{outcome_views};
ghost use Rattle.example_shop.specs.ItemReplies.{
  HoldsBody,
  ItemsAnswered,
  body_reply,
  item_reply,
  item_result,
  json_text,
  refused_json,
};
ghost use Rattle.example_shop.specs.declared.item_layer.ItemErrors.{ItemErrors};
ghost use Rattle.example_shop.specs.declared.item_layer.ItemErrors.TheVariants.{
  BadRequest,
  UnprocessableContent,
};

use crate::item::Item;
use crate::item_layer::Catalogue;
use std::alloc::Global;
use web::request::Source;
use web::{Exchange, FnHandler, Json, Marks, NoMemory, Outcome, Ready, Worker, serve_all};
use web_extract::Itself;
use web_extract_body::json_law;
use web_worker::{list_exchange_law, plan_law};

/// The outcome of each exchange, or the exchanges where an allocation failed before the first poll.
pub type Outcomes = Result<Vec<Outcome<Catalogue>>, (NoMemory, Vec<Exchange<Catalogue>>)>;

/// Serves the exchanges by a closure that responds with the item of a JSON body, as JSON.
///
/// An exchange whose body states its marks is answered once the plan has polled it more often than
/// its body stalls: with 200 and the item, or with the refusal that its nearest layer configures.
/// Before that it is unfinished. Where the head refuses the body, the reply to that comes at the
/// first poll. A failed allocation is the exception. `item_reply_law` says what the replies are.
pub fn serve_items(
    alloc: Global,
    worker: &mut Worker<Catalogue>,
    exchanges: Vec<Exchange<Catalogue>>,
    plan: &[usize],
) -> Outcomes
    requires room { worker.old.made + length exchanges.items < 2 ^ 64 }
    ensures { IfOk result (λ os. ItemsAnswered ⟦<Marks as Source>⟧.feed worker.old
        plan.now exchanges.items (outcome_views ⟦<Marks as Source>⟧.feed os.items)) }
{
    json_law::<Catalogue, Item>();
    let mut handler = FnHandler(|item: Json<Item>| -> Result<Ready<Json<Item>>, NoMemory> {
        Ok(Ready::new(item))
    });
    list_exchange_law::<Catalogue, Json<Item>, Itself, _>(&handler);
    plan_law::<Catalogue, Json<Item>, _>(&handler);
    serve_all(alloc, worker, exchanges, plan, &mut handler)
}

/// The reply to a body that is read to its end is a function of its bytes, and of three bodies it
/// is this one, to the byte.
///
/// The three are a good item, one that lacks its price (400), and one whose price is 0 (422).
/// A call has no effect.
pub fn item_reply_law()
    ensures body { (settings : JsonSettings ItemErrors NoType) (errors : ItemErrors)
        (head : Head) (m : List Mark) (body : List ℕ) → HoldsBody settings errors head m body
        → item_reply (item_result settings head m).result ≡ body_reply errors body }
    ensures good { (errors : ItemErrors) → body_reply errors
        (codes "{\"name\":\"tea\",\"price\":{\"cents\":250,\"currency\":\"EUR\"}}")
        ≡ json_text 200 (codes "{\"name\":\"tea\",\"note\":null,"
        ++ codes "\"price\":{\"cents\":250,\"currency\":\"EUR\"},\"tags\":[]}") }
    ensures missing { body_reply BadRequest (codes "{\"name\":\"tea\"}")
        ≡ refused_json 400 (codes "Json deserialize error: price: missing")
        (codes "{\"error\":\"Json deserialize error: price: missing\"}") }
    ensures out_of_range { body_reply UnprocessableContent
        (codes "{\"name\":\"tea\",\"price\":{\"cents\":0,\"currency\":\"EUR\"}}")
        ≡ refused_json 422 (codes "Json deserialize error: price: cents: not in 1..=1000000")
        (codes "{\"error\":\"Json deserialize error: price: cents: not in 1..=1000000\"}") }
{}
