//! The builders of responses by the names of statuses.
ghost use Rattle.std.specs.Prelude.{◌≡◌, codes};
ghost use Rattle.web_build.specs.Builders.{new_building};
ghost use Rattle.web_status.specs.StatusNames.{status_of};

use http::StatusCode;
use std::alloc::Global;
use web_build::HttpResponseBuilder;
use web_reply::{HttpResponse, WholeBody};

/// The builder of a response by the name of its status, as `HttpResponse::NotFound(alloc)`.
#[allow(non_snake_case)]
pub trait StatusNames {
    /// 100 (RFC 9110, section 15.2.1).
    fn Continue(alloc: Global) -> HttpResponseBuilder
        ensures { result ≡ new_building (status_of (codes "Continue")) }
    {
        HttpResponseBuilder::new(alloc, StatusCode::CONTINUE)
    }

    /// 101 (RFC 9110, section 15.2.2).
    fn SwitchingProtocols(alloc: Global) -> HttpResponseBuilder
        ensures { result ≡ new_building (status_of (codes "SwitchingProtocols")) }
    {
        HttpResponseBuilder::new(alloc, StatusCode::SWITCHING_PROTOCOLS)
    }

    /// 102 (RFC 2518, section 10.1).
    fn Processing(alloc: Global) -> HttpResponseBuilder
        ensures { result ≡ new_building (status_of (codes "Processing")) }
    {
        HttpResponseBuilder::new(alloc, StatusCode::PROCESSING)
    }

    /// 200 (RFC 9110, section 15.3.1).
    fn Ok(alloc: Global) -> HttpResponseBuilder
        ensures { result ≡ new_building (status_of (codes "Ok")) }
    {
        HttpResponseBuilder::new(alloc, StatusCode::OK)
    }

    /// 201 (RFC 9110, section 15.3.2).
    fn Created(alloc: Global) -> HttpResponseBuilder
        ensures { result ≡ new_building (status_of (codes "Created")) }
    {
        HttpResponseBuilder::new(alloc, StatusCode::CREATED)
    }

    /// 202 (RFC 9110, section 15.3.3).
    fn Accepted(alloc: Global) -> HttpResponseBuilder
        ensures { result ≡ new_building (status_of (codes "Accepted")) }
    {
        HttpResponseBuilder::new(alloc, StatusCode::ACCEPTED)
    }

    /// 203 (RFC 9110, section 15.3.4).
    fn NonAuthoritativeInformation(alloc: Global) -> HttpResponseBuilder
        ensures { result ≡ new_building (status_of (codes "NonAuthoritativeInformation")) }
    {
        HttpResponseBuilder::new(alloc, StatusCode::NON_AUTHORITATIVE_INFORMATION)
    }

    /// 204 (RFC 9110, section 15.3.5).
    fn NoContent(alloc: Global) -> HttpResponseBuilder
        ensures { result ≡ new_building (status_of (codes "NoContent")) }
    {
        HttpResponseBuilder::new(alloc, StatusCode::NO_CONTENT)
    }

    /// 205 (RFC 9110, section 15.3.6).
    fn ResetContent(alloc: Global) -> HttpResponseBuilder
        ensures { result ≡ new_building (status_of (codes "ResetContent")) }
    {
        HttpResponseBuilder::new(alloc, StatusCode::RESET_CONTENT)
    }

    /// 206 (RFC 9110, section 15.3.7).
    fn PartialContent(alloc: Global) -> HttpResponseBuilder
        ensures { result ≡ new_building (status_of (codes "PartialContent")) }
    {
        HttpResponseBuilder::new(alloc, StatusCode::PARTIAL_CONTENT)
    }

    /// 207 (RFC 4918, section 11.1).
    fn MultiStatus(alloc: Global) -> HttpResponseBuilder
        ensures { result ≡ new_building (status_of (codes "MultiStatus")) }
    {
        HttpResponseBuilder::new(alloc, StatusCode::MULTI_STATUS)
    }

    /// 208 (RFC 5842, section 7.1).
    fn AlreadyReported(alloc: Global) -> HttpResponseBuilder
        ensures { result ≡ new_building (status_of (codes "AlreadyReported")) }
    {
        HttpResponseBuilder::new(alloc, StatusCode::ALREADY_REPORTED)
    }

    /// 226 (RFC 3229, section 10.4.1).
    fn ImUsed(alloc: Global) -> HttpResponseBuilder
        ensures { result ≡ new_building (status_of (codes "ImUsed")) }
    {
        HttpResponseBuilder::new(alloc, StatusCode::IM_USED)
    }

    /// 300 (RFC 9110, section 15.4.1).
    fn MultipleChoices(alloc: Global) -> HttpResponseBuilder
        ensures { result ≡ new_building (status_of (codes "MultipleChoices")) }
    {
        HttpResponseBuilder::new(alloc, StatusCode::MULTIPLE_CHOICES)
    }

    /// 301 (RFC 9110, section 15.4.2).
    fn MovedPermanently(alloc: Global) -> HttpResponseBuilder
        ensures { result ≡ new_building (status_of (codes "MovedPermanently")) }
    {
        HttpResponseBuilder::new(alloc, StatusCode::MOVED_PERMANENTLY)
    }

    /// 302 (RFC 9110, section 15.4.3).
    fn Found(alloc: Global) -> HttpResponseBuilder
        ensures { result ≡ new_building (status_of (codes "Found")) }
    {
        HttpResponseBuilder::new(alloc, StatusCode::FOUND)
    }

    /// 303 (RFC 9110, section 15.4.4).
    fn SeeOther(alloc: Global) -> HttpResponseBuilder
        ensures { result ≡ new_building (status_of (codes "SeeOther")) }
    {
        HttpResponseBuilder::new(alloc, StatusCode::SEE_OTHER)
    }

    /// 304 (RFC 9110, section 15.4.5).
    fn NotModified(alloc: Global) -> HttpResponseBuilder
        ensures { result ≡ new_building (status_of (codes "NotModified")) }
    {
        HttpResponseBuilder::new(alloc, StatusCode::NOT_MODIFIED)
    }

    /// 305 (RFC 9110, section 15.4.6).
    fn UseProxy(alloc: Global) -> HttpResponseBuilder
        ensures { result ≡ new_building (status_of (codes "UseProxy")) }
    {
        HttpResponseBuilder::new(alloc, StatusCode::USE_PROXY)
    }

    /// 307 (RFC 9110, section 15.4.8).
    fn TemporaryRedirect(alloc: Global) -> HttpResponseBuilder
        ensures { result ≡ new_building (status_of (codes "TemporaryRedirect")) }
    {
        HttpResponseBuilder::new(alloc, StatusCode::TEMPORARY_REDIRECT)
    }

    /// 308 (RFC 9110, section 15.4.9).
    fn PermanentRedirect(alloc: Global) -> HttpResponseBuilder
        ensures { result ≡ new_building (status_of (codes "PermanentRedirect")) }
    {
        HttpResponseBuilder::new(alloc, StatusCode::PERMANENT_REDIRECT)
    }

    /// 400 (RFC 9110, section 15.5.1).
    fn BadRequest(alloc: Global) -> HttpResponseBuilder
        ensures { result ≡ new_building (status_of (codes "BadRequest")) }
    {
        HttpResponseBuilder::new(alloc, StatusCode::BAD_REQUEST)
    }

    /// 401 (RFC 9110, section 15.5.2).
    fn Unauthorized(alloc: Global) -> HttpResponseBuilder
        ensures { result ≡ new_building (status_of (codes "Unauthorized")) }
    {
        HttpResponseBuilder::new(alloc, StatusCode::UNAUTHORIZED)
    }

    /// 402 (RFC 9110, section 15.5.3).
    fn PaymentRequired(alloc: Global) -> HttpResponseBuilder
        ensures { result ≡ new_building (status_of (codes "PaymentRequired")) }
    {
        HttpResponseBuilder::new(alloc, StatusCode::PAYMENT_REQUIRED)
    }

    /// 403 (RFC 9110, section 15.5.4).
    fn Forbidden(alloc: Global) -> HttpResponseBuilder
        ensures { result ≡ new_building (status_of (codes "Forbidden")) }
    {
        HttpResponseBuilder::new(alloc, StatusCode::FORBIDDEN)
    }

    /// 404 (RFC 9110, section 15.5.5).
    fn NotFound(alloc: Global) -> HttpResponseBuilder
        ensures { result ≡ new_building (status_of (codes "NotFound")) }
    {
        HttpResponseBuilder::new(alloc, StatusCode::NOT_FOUND)
    }

    /// 405 (RFC 9110, section 15.5.6).
    fn MethodNotAllowed(alloc: Global) -> HttpResponseBuilder
        ensures { result ≡ new_building (status_of (codes "MethodNotAllowed")) }
    {
        HttpResponseBuilder::new(alloc, StatusCode::METHOD_NOT_ALLOWED)
    }

    /// 406 (RFC 9110, section 15.5.7).
    fn NotAcceptable(alloc: Global) -> HttpResponseBuilder
        ensures { result ≡ new_building (status_of (codes "NotAcceptable")) }
    {
        HttpResponseBuilder::new(alloc, StatusCode::NOT_ACCEPTABLE)
    }

    /// 407 (RFC 9110, section 15.5.8).
    fn ProxyAuthenticationRequired(alloc: Global) -> HttpResponseBuilder
        ensures { result ≡ new_building (status_of (codes "ProxyAuthenticationRequired")) }
    {
        HttpResponseBuilder::new(alloc, StatusCode::PROXY_AUTHENTICATION_REQUIRED)
    }

    /// 408 (RFC 9110, section 15.5.9).
    fn RequestTimeout(alloc: Global) -> HttpResponseBuilder
        ensures { result ≡ new_building (status_of (codes "RequestTimeout")) }
    {
        HttpResponseBuilder::new(alloc, StatusCode::REQUEST_TIMEOUT)
    }

    /// 409 (RFC 9110, section 15.5.10).
    fn Conflict(alloc: Global) -> HttpResponseBuilder
        ensures { result ≡ new_building (status_of (codes "Conflict")) }
    {
        HttpResponseBuilder::new(alloc, StatusCode::CONFLICT)
    }

    /// 410 (RFC 9110, section 15.5.11).
    fn Gone(alloc: Global) -> HttpResponseBuilder
        ensures { result ≡ new_building (status_of (codes "Gone")) }
    {
        HttpResponseBuilder::new(alloc, StatusCode::GONE)
    }

    /// 411 (RFC 9110, section 15.5.12).
    fn LengthRequired(alloc: Global) -> HttpResponseBuilder
        ensures { result ≡ new_building (status_of (codes "LengthRequired")) }
    {
        HttpResponseBuilder::new(alloc, StatusCode::LENGTH_REQUIRED)
    }

    /// 412 (RFC 9110, section 15.5.13).
    fn PreconditionFailed(alloc: Global) -> HttpResponseBuilder
        ensures { result ≡ new_building (status_of (codes "PreconditionFailed")) }
    {
        HttpResponseBuilder::new(alloc, StatusCode::PRECONDITION_FAILED)
    }

    /// 413 (RFC 9110, section 15.5.14).
    fn PayloadTooLarge(alloc: Global) -> HttpResponseBuilder
        ensures { result ≡ new_building (status_of (codes "PayloadTooLarge")) }
    {
        HttpResponseBuilder::new(alloc, StatusCode::PAYLOAD_TOO_LARGE)
    }

    /// 414 (RFC 9110, section 15.5.15).
    fn UriTooLong(alloc: Global) -> HttpResponseBuilder
        ensures { result ≡ new_building (status_of (codes "UriTooLong")) }
    {
        HttpResponseBuilder::new(alloc, StatusCode::URI_TOO_LONG)
    }

    /// 415 (RFC 9110, section 15.5.16).
    fn UnsupportedMediaType(alloc: Global) -> HttpResponseBuilder
        ensures { result ≡ new_building (status_of (codes "UnsupportedMediaType")) }
    {
        HttpResponseBuilder::new(alloc, StatusCode::UNSUPPORTED_MEDIA_TYPE)
    }

    /// 416 (RFC 9110, section 15.5.17).
    fn RangeNotSatisfiable(alloc: Global) -> HttpResponseBuilder
        ensures { result ≡ new_building (status_of (codes "RangeNotSatisfiable")) }
    {
        HttpResponseBuilder::new(alloc, StatusCode::RANGE_NOT_SATISFIABLE)
    }

    /// 417 (RFC 9110, section 15.5.18).
    fn ExpectationFailed(alloc: Global) -> HttpResponseBuilder
        ensures { result ≡ new_building (status_of (codes "ExpectationFailed")) }
    {
        HttpResponseBuilder::new(alloc, StatusCode::EXPECTATION_FAILED)
    }

    /// 418 (RFC 2324, section 2.3.2).
    fn ImATeapot(alloc: Global) -> HttpResponseBuilder
        ensures { result ≡ new_building (status_of (codes "ImATeapot")) }
    {
        HttpResponseBuilder::new(alloc, StatusCode::IM_A_TEAPOT)
    }

    /// 421 (RFC 9110, section 15.5.20).
    fn MisdirectedRequest(alloc: Global) -> HttpResponseBuilder
        ensures { result ≡ new_building (status_of (codes "MisdirectedRequest")) }
    {
        HttpResponseBuilder::new(alloc, StatusCode::MISDIRECTED_REQUEST)
    }

    /// 422 (RFC 9110, section 15.5.21).
    fn UnprocessableEntity(alloc: Global) -> HttpResponseBuilder
        ensures { result ≡ new_building (status_of (codes "UnprocessableEntity")) }
    {
        HttpResponseBuilder::new(alloc, StatusCode::UNPROCESSABLE_ENTITY)
    }

    /// 423 (RFC 4918, section 11.3).
    fn Locked(alloc: Global) -> HttpResponseBuilder
        ensures { result ≡ new_building (status_of (codes "Locked")) }
    {
        HttpResponseBuilder::new(alloc, StatusCode::LOCKED)
    }

    /// 424 (RFC 4918, section 11.4).
    fn FailedDependency(alloc: Global) -> HttpResponseBuilder
        ensures { result ≡ new_building (status_of (codes "FailedDependency")) }
    {
        HttpResponseBuilder::new(alloc, StatusCode::FAILED_DEPENDENCY)
    }

    /// 426 (RFC 9110, section 15.5.22).
    fn UpgradeRequired(alloc: Global) -> HttpResponseBuilder
        ensures { result ≡ new_building (status_of (codes "UpgradeRequired")) }
    {
        HttpResponseBuilder::new(alloc, StatusCode::UPGRADE_REQUIRED)
    }

    /// 428 (RFC 6585, section 3).
    fn PreconditionRequired(alloc: Global) -> HttpResponseBuilder
        ensures { result ≡ new_building (status_of (codes "PreconditionRequired")) }
    {
        HttpResponseBuilder::new(alloc, StatusCode::PRECONDITION_REQUIRED)
    }

    /// 429 (RFC 6585, section 4).
    fn TooManyRequests(alloc: Global) -> HttpResponseBuilder
        ensures { result ≡ new_building (status_of (codes "TooManyRequests")) }
    {
        HttpResponseBuilder::new(alloc, StatusCode::TOO_MANY_REQUESTS)
    }

    /// 431 (RFC 6585, section 5).
    fn RequestHeaderFieldsTooLarge(alloc: Global) -> HttpResponseBuilder
        ensures { result ≡ new_building (status_of (codes "RequestHeaderFieldsTooLarge")) }
    {
        HttpResponseBuilder::new(alloc, StatusCode::REQUEST_HEADER_FIELDS_TOO_LARGE)
    }

    /// 451 (RFC 7725, section 3).
    fn UnavailableForLegalReasons(alloc: Global) -> HttpResponseBuilder
        ensures { result ≡ new_building (status_of (codes "UnavailableForLegalReasons")) }
    {
        HttpResponseBuilder::new(alloc, StatusCode::UNAVAILABLE_FOR_LEGAL_REASONS)
    }

    /// 500 (RFC 9110, section 15.6.1).
    fn InternalServerError(alloc: Global) -> HttpResponseBuilder
        ensures { result ≡ new_building (status_of (codes "InternalServerError")) }
    {
        HttpResponseBuilder::new(alloc, StatusCode::INTERNAL_SERVER_ERROR)
    }

    /// 501 (RFC 9110, section 15.6.2).
    fn NotImplemented(alloc: Global) -> HttpResponseBuilder
        ensures { result ≡ new_building (status_of (codes "NotImplemented")) }
    {
        HttpResponseBuilder::new(alloc, StatusCode::NOT_IMPLEMENTED)
    }

    /// 502 (RFC 9110, section 15.6.3).
    fn BadGateway(alloc: Global) -> HttpResponseBuilder
        ensures { result ≡ new_building (status_of (codes "BadGateway")) }
    {
        HttpResponseBuilder::new(alloc, StatusCode::BAD_GATEWAY)
    }

    /// 503 (RFC 9110, section 15.6.4).
    fn ServiceUnavailable(alloc: Global) -> HttpResponseBuilder
        ensures { result ≡ new_building (status_of (codes "ServiceUnavailable")) }
    {
        HttpResponseBuilder::new(alloc, StatusCode::SERVICE_UNAVAILABLE)
    }

    /// 504 (RFC 9110, section 15.6.5).
    fn GatewayTimeout(alloc: Global) -> HttpResponseBuilder
        ensures { result ≡ new_building (status_of (codes "GatewayTimeout")) }
    {
        HttpResponseBuilder::new(alloc, StatusCode::GATEWAY_TIMEOUT)
    }

    /// 505 (RFC 9110, section 15.6.6).
    fn VersionNotSupported(alloc: Global) -> HttpResponseBuilder
        ensures { result ≡ new_building (status_of (codes "VersionNotSupported")) }
    {
        HttpResponseBuilder::new(alloc, StatusCode::HTTP_VERSION_NOT_SUPPORTED)
    }

    /// 506 (RFC 2295, section 8.1).
    fn VariantAlsoNegotiates(alloc: Global) -> HttpResponseBuilder
        ensures { result ≡ new_building (status_of (codes "VariantAlsoNegotiates")) }
    {
        HttpResponseBuilder::new(alloc, StatusCode::VARIANT_ALSO_NEGOTIATES)
    }

    /// 507 (RFC 4918, section 11.5).
    fn InsufficientStorage(alloc: Global) -> HttpResponseBuilder
        ensures { result ≡ new_building (status_of (codes "InsufficientStorage")) }
    {
        HttpResponseBuilder::new(alloc, StatusCode::INSUFFICIENT_STORAGE)
    }

    /// 508 (RFC 5842, section 7.2).
    fn LoopDetected(alloc: Global) -> HttpResponseBuilder
        ensures { result ≡ new_building (status_of (codes "LoopDetected")) }
    {
        HttpResponseBuilder::new(alloc, StatusCode::LOOP_DETECTED)
    }

    /// 510 (RFC 2774, section 7).
    fn NotExtended(alloc: Global) -> HttpResponseBuilder
        ensures { result ≡ new_building (status_of (codes "NotExtended")) }
    {
        HttpResponseBuilder::new(alloc, StatusCode::NOT_EXTENDED)
    }

    /// 511 (RFC 6585, section 6).
    fn NetworkAuthenticationRequired(alloc: Global) -> HttpResponseBuilder
        ensures { result ≡ new_building (status_of (codes "NetworkAuthenticationRequired")) }
    {
        HttpResponseBuilder::new(alloc, StatusCode::NETWORK_AUTHENTICATION_REQUIRED)
    }
}

impl StatusNames for HttpResponse<WholeBody> {}
