//! Each law that has parameters, at the types of an application.
use bytes::Bytes;
use example_handlers::{Booking, Echo};
use std::alloc::Global;
use web_body::{Marks, buffered_law, pending_count_law};
use web_build::layering_law;
use web_cutting::{
    argument_cutting_law, argument_within_law, capped_cutting_law, capped_over_limit_law,
    capped_taking_law, capped_within_law, data_cutting_law, data_taking_law, decoder_cutting_law,
    either_cutting_law, either_taking_law, head_cutting_law, head_taking_law, list_cutting_law,
    list_over_limit_law, list_taking_law, list_within_law, multipart_cutting_law,
    multipart_taking_law, over_limit_law, payload_taking_law, place_cutting_law, read_cutting_law,
    read_taking_law, reply_cutting_law, reply_within_law, value_cutting_law, value_taking_law,
};
use web_extract::{
    ByBytes, Error, Itself, Ready, bytes_law, connection_law, data_law, first_taker_law, head_law,
    list_law, nesting_law, optional_law, payload_law, payload_place_law, place_law, same_error_law,
    seen_places_law, string_law,
};
use web_extract_body::{either_law, form_law, json_law};
use web_extract_head::{date_header_law, header_law, path_law, query_law};
use web_headers::ContentLength;
use web_http1::{answers_law, calls_law, pieces_law};
use web_multipart::multipart_law;
use web_request::{NoData, NoMemory, PlainApp};
use web_worker::{Handler, distinct_serials_law, isolation_law};

type Site = PlainApp<Marks>;

/// The arguments of the handler.
type Arguments = (Bytes, Option<Bytes>);

/// A handler of any arguments that responds with an empty body.
#[derive(Drop)]
struct Empty;

impl<Args: Drop> Handler<Args> for Empty {
    type Output = Bytes;

    type Future = Ready<Bytes>;

    fn call(&mut self, _alloc: Global, _args: Args) -> Result<Ready<Bytes>, NoMemory> {
        Ok(Ready::new(Bytes::new()))
    }
}

fn laws_of_bodies() {
    buffered_law::<Marks>();
    pending_count_law::<Ready<Bytes>>();
    decoder_cutting_law::<Booking, Booking>();
    layering_law::<&'static str>();
}

fn laws_of_single_arguments() {
    header_law::<Site, ContentLength>();
    date_header_law::<Site>();
    path_law::<Site, Booking>();
    query_law::<Site, Booking>();
    data_law::<Site, NoData, NoData>();
    head_law::<Site>();
    connection_law::<Site>();
    payload_law::<Marks, Site>();
    bytes_law::<Site>();
    string_law::<Site>();
    optional_law::<Site, Bytes, Error>();
    json_law::<Site, Booking>();
    form_law::<Site, Booking>();
    either_law::<Site, Bytes, String>();
    multipart_law::<Site, 9>();
}

fn laws_of_lists() {
    same_error_law::<Site, String, ByBytes>();
    seen_places_law::<Site>();
    payload_place_law::<Marks, Site>();
    list_law::<Site, Bytes, String, Bytes, String, Itself, ByBytes, Itself, ByBytes>();
    place_law::<Site, Bytes, String, Bytes, String>();
    nesting_law::<Site, Bytes, String, Bytes, String, Itself, ByBytes, Itself, ByBytes>();
    first_taker_law::<Site, Bytes, String, Bytes, String>();
}

fn laws_of_cutting() {
    argument_cutting_law::<Site, Bytes, Error>();
    place_cutting_law::<Site, Bytes>();
    capped_cutting_law::<Site, Bytes, 9>();
    list_cutting_law::<Site, Bytes, String, Bytes, String>();
    reply_cutting_law::<Site, Arguments, Echo>();
    multipart_cutting_law::<Site, 9>();
    value_cutting_law::<Site, Booking, Booking>();
    either_cutting_law::<Site, Bytes, String>();
    head_cutting_law::<Site>();
    data_cutting_law::<Site, NoData, NoData>();
    read_cutting_law::<Site, Booking, ContentLength>();
}

fn laws_of_taking() {
    multipart_taking_law::<Site, 9>();
    value_taking_law::<Site, Booking, Booking>();
    capped_taking_law::<Site, Bytes, 9>();
    either_taking_law::<Site, Bytes, String>();
    payload_taking_law::<Marks, Site>();
    head_taking_law::<Site>();
    data_taking_law::<Site, NoData, NoData>();
    read_taking_law::<Site, Booking, ContentLength>();
    list_taking_law::<Site, Bytes, String, Bytes, String>();
}

fn laws_under_limits() {
    argument_within_law::<Site, Bytes, Error>();
    capped_within_law::<Site, Bytes, 9>();
    list_within_law::<Site, Bytes, String, Bytes, String>();
    reply_within_law::<Site, Arguments, Echo>();
    over_limit_law::<Site, Empty, Empty>();
    list_over_limit_law::<Site, Empty, Empty>();
    capped_over_limit_law::<Site, Empty, Empty, 9>();
}

fn laws_of_serving() {
    isolation_law::<Site, Arguments, Echo>();
    distinct_serials_law::<Site>();
    answers_law::<Site, Arguments, Echo>();
    pieces_law::<Site, Arguments, Echo>();
    calls_law::<Site, Arguments, Echo>();
}

#[test]
fn an_application_has_the_laws(_rt: HostRuntime) {
    laws_of_bodies();
    laws_of_single_arguments();
    laws_of_lists();
    laws_of_cutting();
    laws_of_taking();
    laws_under_limits();
    laws_of_serving();
}
