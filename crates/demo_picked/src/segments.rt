//! What is picked of the arguments of each segment.
ghost use Rattle.std.specs.Prelude.{◌≡◌};

use crate::picked::Picked;
use crate::picked_future::IntoPicked;
use bytes::Bytes;
use demo_app::{Demo, DemoLocal, Item};
use demo_arguments::{AllLines, DataArguments, Late, RawBody, Wait};
use web_body::{Marks, Payload};
use web_extract::{Capped, IntoSome};
use web_extract_body::{Either, Form, Json};
use web_extract_head::{Header, Path, Query};
use web_headers::Accept;
use web_multipart::Multipart;
use web_reply::Error;
use web_request::{ConnectionInfo, Data, HttpRequest, ReqData};
use web_texts::Text;

impl IntoPicked for Bytes {
    ghost use Rattle.demo_picked.specs.declared.picked.Picked.TheVariants as picked;

    ghost picked = { λ bytes. picked.Bytes bytes };

    fn into_picked(self) -> Picked {
        Picked::Bytes(self)
    }
}

impl IntoPicked for String {
    ghost use Rattle.std.specs.Prelude.{string_bytes};
    ghost use Rattle.demo_picked.specs.declared.picked.Picked.TheVariants as picked;

    ghost picked = { λ text. picked.Text (string_bytes text) };

    fn into_picked(self) -> Picked {
        Picked::Text(Text::from(self))
    }
}

impl IntoPicked for (String, Late) {
    ghost use Rattle.std.specs.Prelude.{string_bytes};
    ghost use Rattle.demo_picked.specs.declared.picked.Picked.TheVariants as picked;

    ghost picked = { λ both. picked.Both (string_bytes both.0) both.1 };

    fn into_picked(self) -> Picked {
        let (text, late) = self;
        Picked::Both(Text::from(text), late)
    }
}

impl IntoPicked for Json<Item> {
    ghost use Rattle.demo_picked.specs.declared.picked.Picked.TheVariants as picked;

    ghost picked = { λ json. picked.Json json };

    fn into_picked(self) -> Picked {
        Picked::Json(self)
    }
}

impl IntoPicked for Capped<Bytes, 4> {
    ghost use Rattle.demo_picked.specs.declared.picked.Picked.TheVariants as picked;

    ghost picked = { λ capped. picked.Capped capped };

    fn into_picked(self) -> Picked {
        Picked::Capped(self)
    }
}

impl From<Capped<Json<Item>, 16>> for Picked {
    ghost use Rattle.demo_picked.specs.declared.picked.Picked.TheVariants as picked;

    ghost from_gives = { λ capped x. x ≡ picked.CappedJson capped };

    fn from(capped: Capped<Json<Item>, 16>) -> Picked {
        Picked::CappedJson(capped)
    }
}

impl IntoSome<Picked> for Capped<Json<Item>, 16> {
    ghost use Rattle.web_extract.specs.ConvertedFutures.{converts_by};
    ghost use Rattle.demo_picked.specs.declared.picked.Picked.TheVariants as picked;

    ghost converted = { converts_by (λ capped. picked.CappedJson capped) };
}

impl IntoPicked for Form<Item> {
    ghost use Rattle.demo_picked.specs.declared.picked.Picked.TheVariants as picked;

    ghost picked = { λ form. picked.Form form };

    fn into_picked(self) -> Picked {
        Picked::Form(self)
    }
}

impl IntoPicked for Either<Json<Item>, Form<Item>> {
    ghost use Rattle.demo_picked.specs.declared.picked.Picked.TheVariants as picked;

    ghost picked = { λ either. picked.Either either };

    fn into_picked(self) -> Picked {
        Picked::Either(self)
    }
}

impl IntoPicked for (Option<Json<Item>>, Bytes) {
    ghost use Rattle.demo_picked.specs.declared.picked.Picked.TheVariants as picked;

    ghost picked = { λ both. picked.Option both.0 both.1 };

    fn into_picked(self) -> Picked {
        let (item, left) = self;
        Picked::Option(item, left)
    }
}

impl IntoPicked for Result<Json<Item>, Error> {
    ghost use Rattle.demo_picked.specs.declared.picked.Picked.TheVariants as picked;

    ghost picked = { λ read. picked.Result read };

    fn into_picked(self) -> Picked {
        Picked::Result(self)
    }
}

impl IntoPicked for (Data<u64>, ReqData<DemoLocal>, HttpRequest<Demo>) {
    ghost use Rattle.demo_arguments.specs.DemoArguments.{data_view};
    ghost use Rattle.demo_picked.specs.declared.picked.Picked.TheVariants as picked;

    ghost picked = { λ list. picked.Data (data_view list) };

    fn into_picked(self) -> Picked {
        let (number, local, request) = self;
        Picked::Data(DataArguments {
            number,
            local,
            request,
        })
    }
}

impl IntoPicked for AllLines {
    ghost use Rattle.demo_picked.specs.declared.picked.Picked.TheVariants as picked;

    ghost picked = { λ lines. picked.Lines lines };

    fn into_picked(self) -> Picked {
        Picked::Lines(self)
    }
}

impl From<Multipart<65536>> for Picked {
    ghost use Rattle.demo_picked.specs.declared.picked.Picked.TheVariants as picked;

    ghost from_gives = { λ parts x. x ≡ picked.Parts parts };

    fn from(parts: Multipart<65536>) -> Picked {
        Picked::Parts(parts)
    }
}

impl IntoSome<Picked> for Multipart<65536> {
    ghost use Rattle.web_extract.specs.ConvertedFutures.{converts_by};
    ghost use Rattle.demo_picked.specs.declared.picked.Picked.TheVariants as picked;

    ghost converted = { converts_by (λ parts. picked.Parts parts) };
}

impl IntoPicked for Path<Item> {
    ghost use Rattle.demo_picked.specs.declared.picked.Picked.TheVariants as picked;

    ghost picked = { λ path. picked.Path path };

    fn into_picked(self) -> Picked {
        Picked::Path(self)
    }
}

impl IntoPicked for Query<Item> {
    ghost use Rattle.demo_picked.specs.declared.picked.Picked.TheVariants as picked;

    ghost picked = { λ query. picked.Query query };

    fn into_picked(self) -> Picked {
        Picked::Query(self)
    }
}

impl IntoPicked for Header<Accept> {
    ghost use Rattle.demo_picked.specs.declared.picked.Picked.TheVariants as picked;

    ghost picked = { λ header. picked.Header header };

    fn into_picked(self) -> Picked {
        Picked::Header(self)
    }
}

impl IntoPicked for Payload<Marks> {
    ghost use Rattle.demo_arguments.specs.DemoArguments.{raw_view};
    ghost use Rattle.demo_picked.specs.declared.picked.Picked.TheVariants as picked;

    ghost picked = { λ payload. picked.Raw (raw_view payload) };

    fn into_picked(self) -> Picked {
        Picked::Raw(RawBody { payload: self })
    }
}

impl IntoPicked for ConnectionInfo {
    ghost use Rattle.demo_picked.specs.declared.picked.Picked.TheVariants as picked;

    ghost picked = { λ info. picked.Who info };

    fn into_picked(self) -> Picked {
        Picked::Who(self)
    }
}

impl IntoPicked for Wait {
    ghost use Rattle.demo_picked.specs.declared.picked.Picked.TheVariants as picked;

    ghost picked = { λ wait. picked.Wait wait };

    fn into_picked(self) -> Picked {
        Picked::Wait(self)
    }
}

impl IntoPicked for () {
    ghost use Rattle.demo_picked.specs.declared.picked.Picked.TheVariants as picked;

    ghost picked = { λ _. picked.Other };

    fn into_picked(self) -> Picked {
        Picked::Other
    }
}
