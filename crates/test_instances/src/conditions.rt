//! Calls whose conditions no program of this repository meets.
use crate::compare::assert_same;
use crate::requests::{request, stalling};
use bytes::Bytes;
use http::StatusCode;
use std::alloc::Global;
use std::process::Abort;
use std::rc::Rc;
use web_body::Marks;
use web_build::HttpResponseBuilder;
use web_entities::EntityTag;
use web_reply::{HttpResponse, ResponseHead};
use web_request::{NoData, PlainApp, Text};
use web_service::{ServiceRequest, ServiceResponse};
use web_status::prelude::*;

type Site = PlainApp<Marks>;

/// The layer is ready. Returns the length of the path.
fn add_layer(rt: &impl Abort, alloc: Global) -> usize {
    let request = request::<Site>(rt, alloc, NoData);
    let mut service = ServiceRequest::from_parts(request, stalling(rt, alloc));
    let layer = Rc::new(alloc, NoData).expect(rt, "memory");
    service.add_data_container(layer).expect(rt, "memory");
    service.path().len()
}

/// The closure may be called. Returns the length of the body.
fn map_body(rt: &impl Abort, alloc: Global) -> usize {
    let body = Bytes::from_static(b"ab");
    let response = HttpResponse::with_body(alloc, StatusCode::OK, body);
    let answered = ServiceResponse::new(request::<Site>(rt, alloc, NoData), response);
    let mapped = answered.map_body(|head: &mut ResponseHead, body: Bytes| -> usize {
        head.status = StatusCode::CREATED;
        body.len()
    });
    mapped.into_body()
}

/// The builder is not spent.
fn stream(rt: &impl Abort, alloc: Global) -> u16 {
    let builder: HttpResponseBuilder = HttpResponse::Ok(alloc);
    if builder.is_spent() {
        panic!(rt; "the builder is spent");
    }
    let response = builder.streaming(stalling(rt, alloc)).expect(rt, "memory");
    response.status().as_u16()
}

/// Each byte of the text may stand in a tag.
fn set_tag(rt: &impl Abort, alloc: Global, text: &str) -> bool {
    let (first, other) = (Text::of(alloc, "a"), Text::of(alloc, text));
    let (first, other) = (first.expect(rt, "memory"), other.expect(rt, "memory"));
    if !EntityTag::is_tag_text(first.as_str()) || !EntityTag::is_tag_text(other.as_str()) {
        panic!(rt; "no text of a tag");
    }
    let mut tag = EntityTag::strong(first);
    tag.set_tag(other);
    tag.tag() == text
}

#[test]
fn conditions_are_met(rt: HostRuntime) {
    let alloc = rt.alloc();
    assert_same(&rt, (add_layer(&rt, alloc), map_body(&rt, alloc)), (1, 2));
    assert_same(
        &rt,
        (stream(&rt, alloc), set_tag(&rt, alloc, "b")),
        (200, true),
    );
}
