//! Errors by the names of their statuses.
ghost use Rattle.std.specs.Prelude.{IfOk, codes};
ghost use Rattle.web_reply.specs.InternalErrors.{IsCustomFault};
ghost use Rattle.web_status.specs.StatusNames.{status_of};

use http::StatusCode;
use std::alloc::Global;
use std::fmt::Display;
use web_reply::{Error, InternalError};
use web_texts::NoMemory;

/// An error of what the value prints. The status is 400 (RFC 9110, section 15.5.1).
#[allow(non_snake_case)]
pub fn ErrorBadRequest<T: Display + Drop>(alloc: Global, err: T) -> Result<Error, NoMemory>
    ensures { IfOk result (λ error. IsCustomFault (T.output err)
        (status_of (codes "BadRequest")) error) }
{
    InternalError::new(err, StatusCode::BAD_REQUEST).into_error(alloc)
}

/// An error of what the value prints. The status is 401 (RFC 9110, section 15.5.2).
#[allow(non_snake_case)]
pub fn ErrorUnauthorized<T: Display + Drop>(alloc: Global, err: T) -> Result<Error, NoMemory>
    ensures { IfOk result (λ error. IsCustomFault (T.output err)
        (status_of (codes "Unauthorized")) error) }
{
    InternalError::new(err, StatusCode::UNAUTHORIZED).into_error(alloc)
}

/// An error of what the value prints. The status is 402 (RFC 9110, section 15.5.3).
#[allow(non_snake_case)]
pub fn ErrorPaymentRequired<T: Display + Drop>(alloc: Global, err: T) -> Result<Error, NoMemory>
    ensures { IfOk result (λ error. IsCustomFault (T.output err)
        (status_of (codes "PaymentRequired")) error) }
{
    InternalError::new(err, StatusCode::PAYMENT_REQUIRED).into_error(alloc)
}

/// An error of what the value prints. The status is 403 (RFC 9110, section 15.5.4).
#[allow(non_snake_case)]
pub fn ErrorForbidden<T: Display + Drop>(alloc: Global, err: T) -> Result<Error, NoMemory>
    ensures { IfOk result (λ error. IsCustomFault (T.output err)
        (status_of (codes "Forbidden")) error) }
{
    InternalError::new(err, StatusCode::FORBIDDEN).into_error(alloc)
}

/// An error of what the value prints. The status is 404 (RFC 9110, section 15.5.5).
#[allow(non_snake_case)]
pub fn ErrorNotFound<T: Display + Drop>(alloc: Global, err: T) -> Result<Error, NoMemory>
    ensures { IfOk result (λ error. IsCustomFault (T.output err)
        (status_of (codes "NotFound")) error) }
{
    InternalError::new(err, StatusCode::NOT_FOUND).into_error(alloc)
}

/// An error of what the value prints. The status is 405 (RFC 9110, section 15.5.6).
#[allow(non_snake_case)]
pub fn ErrorMethodNotAllowed<T: Display + Drop>(alloc: Global, err: T) -> Result<Error, NoMemory>
    ensures { IfOk result (λ error. IsCustomFault (T.output err)
        (status_of (codes "MethodNotAllowed")) error) }
{
    InternalError::new(err, StatusCode::METHOD_NOT_ALLOWED).into_error(alloc)
}

/// An error of what the value prints. The status is 406 (RFC 9110, section 15.5.7).
#[allow(non_snake_case)]
pub fn ErrorNotAcceptable<T: Display + Drop>(alloc: Global, err: T) -> Result<Error, NoMemory>
    ensures { IfOk result (λ error. IsCustomFault (T.output err)
        (status_of (codes "NotAcceptable")) error) }
{
    InternalError::new(err, StatusCode::NOT_ACCEPTABLE).into_error(alloc)
}

/// An error of what the value prints. The status is 407 (RFC 9110, section 15.5.8).
#[allow(non_snake_case)]
pub fn ErrorProxyAuthenticationRequired<T: Display + Drop>(
    alloc: Global,
    err: T,
) -> Result<Error, NoMemory>
    ensures { IfOk result (λ error. IsCustomFault (T.output err)
        (status_of (codes "ProxyAuthenticationRequired")) error) }
{
    InternalError::new(err, StatusCode::PROXY_AUTHENTICATION_REQUIRED).into_error(alloc)
}

/// An error of what the value prints. The status is 408 (RFC 9110, section 15.5.9).
#[allow(non_snake_case)]
pub fn ErrorRequestTimeout<T: Display + Drop>(alloc: Global, err: T) -> Result<Error, NoMemory>
    ensures { IfOk result (λ error. IsCustomFault (T.output err)
        (status_of (codes "RequestTimeout")) error) }
{
    InternalError::new(err, StatusCode::REQUEST_TIMEOUT).into_error(alloc)
}

/// An error of what the value prints. The status is 409 (RFC 9110, section 15.5.10).
#[allow(non_snake_case)]
pub fn ErrorConflict<T: Display + Drop>(alloc: Global, err: T) -> Result<Error, NoMemory>
    ensures { IfOk result (λ error. IsCustomFault (T.output err)
        (status_of (codes "Conflict")) error) }
{
    InternalError::new(err, StatusCode::CONFLICT).into_error(alloc)
}

/// An error of what the value prints. The status is 410 (RFC 9110, section 15.5.11).
#[allow(non_snake_case)]
pub fn ErrorGone<T: Display + Drop>(alloc: Global, err: T) -> Result<Error, NoMemory>
    ensures { IfOk result (λ error. IsCustomFault (T.output err)
        (status_of (codes "Gone")) error) }
{
    InternalError::new(err, StatusCode::GONE).into_error(alloc)
}

/// An error of what the value prints. The status is 411 (RFC 9110, section 15.5.12).
#[allow(non_snake_case)]
pub fn ErrorLengthRequired<T: Display + Drop>(alloc: Global, err: T) -> Result<Error, NoMemory>
    ensures { IfOk result (λ error. IsCustomFault (T.output err)
        (status_of (codes "LengthRequired")) error) }
{
    InternalError::new(err, StatusCode::LENGTH_REQUIRED).into_error(alloc)
}

/// An error of what the value prints. The status is 412 (RFC 9110, section 15.5.13).
#[allow(non_snake_case)]
pub fn ErrorPreconditionFailed<T: Display + Drop>(alloc: Global, err: T) -> Result<Error, NoMemory>
    ensures { IfOk result (λ error. IsCustomFault (T.output err)
        (status_of (codes "PreconditionFailed")) error) }
{
    InternalError::new(err, StatusCode::PRECONDITION_FAILED).into_error(alloc)
}

/// An error of what the value prints. The status is 413 (RFC 9110, section 15.5.14).
#[allow(non_snake_case)]
pub fn ErrorPayloadTooLarge<T: Display + Drop>(alloc: Global, err: T) -> Result<Error, NoMemory>
    ensures { IfOk result (λ error. IsCustomFault (T.output err)
        (status_of (codes "PayloadTooLarge")) error) }
{
    InternalError::new(err, StatusCode::PAYLOAD_TOO_LARGE).into_error(alloc)
}

/// An error of what the value prints. The status is 414 (RFC 9110, section 15.5.15).
#[allow(non_snake_case)]
pub fn ErrorUriTooLong<T: Display + Drop>(alloc: Global, err: T) -> Result<Error, NoMemory>
    ensures { IfOk result (λ error. IsCustomFault (T.output err)
        (status_of (codes "UriTooLong")) error) }
{
    InternalError::new(err, StatusCode::URI_TOO_LONG).into_error(alloc)
}

/// An error of what the value prints. The status is 415 (RFC 9110, section 15.5.16).
#[allow(non_snake_case)]
pub fn ErrorUnsupportedMediaType<T: Display + Drop>(
    alloc: Global,
    err: T,
) -> Result<Error, NoMemory>
    ensures { IfOk result (λ error. IsCustomFault (T.output err)
        (status_of (codes "UnsupportedMediaType")) error) }
{
    InternalError::new(err, StatusCode::UNSUPPORTED_MEDIA_TYPE).into_error(alloc)
}

/// An error of what the value prints. The status is 416 (RFC 9110, section 15.5.17).
#[allow(non_snake_case)]
pub fn ErrorRangeNotSatisfiable<T: Display + Drop>(alloc: Global, err: T) -> Result<Error, NoMemory>
    ensures { IfOk result (λ error. IsCustomFault (T.output err)
        (status_of (codes "RangeNotSatisfiable")) error) }
{
    InternalError::new(err, StatusCode::RANGE_NOT_SATISFIABLE).into_error(alloc)
}

/// An error of what the value prints. The status is 417 (RFC 9110, section 15.5.18).
#[allow(non_snake_case)]
pub fn ErrorExpectationFailed<T: Display + Drop>(alloc: Global, err: T) -> Result<Error, NoMemory>
    ensures { IfOk result (λ error. IsCustomFault (T.output err)
        (status_of (codes "ExpectationFailed")) error) }
{
    InternalError::new(err, StatusCode::EXPECTATION_FAILED).into_error(alloc)
}

/// An error of what the value prints. The status is 418 (RFC 2324, section 2.3.2).
#[allow(non_snake_case)]
pub fn ErrorImATeapot<T: Display + Drop>(alloc: Global, err: T) -> Result<Error, NoMemory>
    ensures { IfOk result (λ error. IsCustomFault (T.output err)
        (status_of (codes "ImATeapot")) error) }
{
    InternalError::new(err, StatusCode::IM_A_TEAPOT).into_error(alloc)
}

/// An error of what the value prints. The status is 421 (RFC 9110, section 15.5.20).
#[allow(non_snake_case)]
pub fn ErrorMisdirectedRequest<T: Display + Drop>(alloc: Global, err: T) -> Result<Error, NoMemory>
    ensures { IfOk result (λ error. IsCustomFault (T.output err)
        (status_of (codes "MisdirectedRequest")) error) }
{
    InternalError::new(err, StatusCode::MISDIRECTED_REQUEST).into_error(alloc)
}

/// An error of what the value prints. The status is 422 (RFC 9110, section 15.5.21).
#[allow(non_snake_case)]
pub fn ErrorUnprocessableEntity<T: Display + Drop>(alloc: Global, err: T) -> Result<Error, NoMemory>
    ensures { IfOk result (λ error. IsCustomFault (T.output err)
        (status_of (codes "UnprocessableEntity")) error) }
{
    InternalError::new(err, StatusCode::UNPROCESSABLE_ENTITY).into_error(alloc)
}

/// An error of what the value prints. The status is 423 (RFC 4918, section 11.3).
#[allow(non_snake_case)]
pub fn ErrorLocked<T: Display + Drop>(alloc: Global, err: T) -> Result<Error, NoMemory>
    ensures { IfOk result (λ error. IsCustomFault (T.output err)
        (status_of (codes "Locked")) error) }
{
    InternalError::new(err, StatusCode::LOCKED).into_error(alloc)
}

/// An error of what the value prints. The status is 424 (RFC 4918, section 11.4).
#[allow(non_snake_case)]
pub fn ErrorFailedDependency<T: Display + Drop>(alloc: Global, err: T) -> Result<Error, NoMemory>
    ensures { IfOk result (λ error. IsCustomFault (T.output err)
        (status_of (codes "FailedDependency")) error) }
{
    InternalError::new(err, StatusCode::FAILED_DEPENDENCY).into_error(alloc)
}

/// An error of what the value prints. The status is 426 (RFC 9110, section 15.5.22).
#[allow(non_snake_case)]
pub fn ErrorUpgradeRequired<T: Display + Drop>(alloc: Global, err: T) -> Result<Error, NoMemory>
    ensures { IfOk result (λ error. IsCustomFault (T.output err)
        (status_of (codes "UpgradeRequired")) error) }
{
    InternalError::new(err, StatusCode::UPGRADE_REQUIRED).into_error(alloc)
}

/// An error of what the value prints. The status is 428 (RFC 6585, section 3).
#[allow(non_snake_case)]
pub fn ErrorPreconditionRequired<T: Display + Drop>(
    alloc: Global,
    err: T,
) -> Result<Error, NoMemory>
    ensures { IfOk result (λ error. IsCustomFault (T.output err)
        (status_of (codes "PreconditionRequired")) error) }
{
    InternalError::new(err, StatusCode::PRECONDITION_REQUIRED).into_error(alloc)
}

/// An error of what the value prints. The status is 429 (RFC 6585, section 4).
#[allow(non_snake_case)]
pub fn ErrorTooManyRequests<T: Display + Drop>(alloc: Global, err: T) -> Result<Error, NoMemory>
    ensures { IfOk result (λ error. IsCustomFault (T.output err)
        (status_of (codes "TooManyRequests")) error) }
{
    InternalError::new(err, StatusCode::TOO_MANY_REQUESTS).into_error(alloc)
}

/// An error of what the value prints. The status is 431 (RFC 6585, section 5).
#[allow(non_snake_case)]
pub fn ErrorRequestHeaderFieldsTooLarge<T: Display + Drop>(
    alloc: Global,
    err: T,
) -> Result<Error, NoMemory>
    ensures { IfOk result (λ error. IsCustomFault (T.output err)
        (status_of (codes "RequestHeaderFieldsTooLarge")) error) }
{
    InternalError::new(err, StatusCode::REQUEST_HEADER_FIELDS_TOO_LARGE).into_error(alloc)
}

/// An error of what the value prints. The status is 451 (RFC 7725, section 3).
#[allow(non_snake_case)]
pub fn ErrorUnavailableForLegalReasons<T: Display + Drop>(
    alloc: Global,
    err: T,
) -> Result<Error, NoMemory>
    ensures { IfOk result (λ error. IsCustomFault (T.output err)
        (status_of (codes "UnavailableForLegalReasons")) error) }
{
    InternalError::new(err, StatusCode::UNAVAILABLE_FOR_LEGAL_REASONS).into_error(alloc)
}

/// An error of what the value prints. The status is 500 (RFC 9110, section 15.6.1).
#[allow(non_snake_case)]
pub fn ErrorInternalServerError<T: Display + Drop>(alloc: Global, err: T) -> Result<Error, NoMemory>
    ensures { IfOk result (λ error. IsCustomFault (T.output err)
        (status_of (codes "InternalServerError")) error) }
{
    InternalError::new(err, StatusCode::INTERNAL_SERVER_ERROR).into_error(alloc)
}

/// An error of what the value prints. The status is 501 (RFC 9110, section 15.6.2).
#[allow(non_snake_case)]
pub fn ErrorNotImplemented<T: Display + Drop>(alloc: Global, err: T) -> Result<Error, NoMemory>
    ensures { IfOk result (λ error. IsCustomFault (T.output err)
        (status_of (codes "NotImplemented")) error) }
{
    InternalError::new(err, StatusCode::NOT_IMPLEMENTED).into_error(alloc)
}

/// An error of what the value prints. The status is 502 (RFC 9110, section 15.6.3).
#[allow(non_snake_case)]
pub fn ErrorBadGateway<T: Display + Drop>(alloc: Global, err: T) -> Result<Error, NoMemory>
    ensures { IfOk result (λ error. IsCustomFault (T.output err)
        (status_of (codes "BadGateway")) error) }
{
    InternalError::new(err, StatusCode::BAD_GATEWAY).into_error(alloc)
}

/// An error of what the value prints. The status is 503 (RFC 9110, section 15.6.4).
#[allow(non_snake_case)]
pub fn ErrorServiceUnavailable<T: Display + Drop>(alloc: Global, err: T) -> Result<Error, NoMemory>
    ensures { IfOk result (λ error. IsCustomFault (T.output err)
        (status_of (codes "ServiceUnavailable")) error) }
{
    InternalError::new(err, StatusCode::SERVICE_UNAVAILABLE).into_error(alloc)
}

/// An error of what the value prints. The status is 504 (RFC 9110, section 15.6.5).
#[allow(non_snake_case)]
pub fn ErrorGatewayTimeout<T: Display + Drop>(alloc: Global, err: T) -> Result<Error, NoMemory>
    ensures { IfOk result (λ error. IsCustomFault (T.output err)
        (status_of (codes "GatewayTimeout")) error) }
{
    InternalError::new(err, StatusCode::GATEWAY_TIMEOUT).into_error(alloc)
}

/// An error of what the value prints. The status is 505 (RFC 9110, section 15.6.6).
#[allow(non_snake_case)]
pub fn ErrorHttpVersionNotSupported<T: Display + Drop>(
    alloc: Global,
    err: T,
) -> Result<Error, NoMemory>
    ensures { IfOk result (λ error. IsCustomFault (T.output err)
        (status_of (codes "VersionNotSupported")) error) }
{
    InternalError::new(err, StatusCode::HTTP_VERSION_NOT_SUPPORTED).into_error(alloc)
}

/// An error of what the value prints. The status is 506 (RFC 2295, section 8.1).
#[allow(non_snake_case)]
pub fn ErrorVariantAlsoNegotiates<T: Display + Drop>(
    alloc: Global,
    err: T,
) -> Result<Error, NoMemory>
    ensures { IfOk result (λ error. IsCustomFault (T.output err)
        (status_of (codes "VariantAlsoNegotiates")) error) }
{
    InternalError::new(err, StatusCode::VARIANT_ALSO_NEGOTIATES).into_error(alloc)
}

/// An error of what the value prints. The status is 507 (RFC 4918, section 11.5).
#[allow(non_snake_case)]
pub fn ErrorInsufficientStorage<T: Display + Drop>(alloc: Global, err: T) -> Result<Error, NoMemory>
    ensures { IfOk result (λ error. IsCustomFault (T.output err)
        (status_of (codes "InsufficientStorage")) error) }
{
    InternalError::new(err, StatusCode::INSUFFICIENT_STORAGE).into_error(alloc)
}

/// An error of what the value prints. The status is 508 (RFC 5842, section 7.2).
#[allow(non_snake_case)]
pub fn ErrorLoopDetected<T: Display + Drop>(alloc: Global, err: T) -> Result<Error, NoMemory>
    ensures { IfOk result (λ error. IsCustomFault (T.output err)
        (status_of (codes "LoopDetected")) error) }
{
    InternalError::new(err, StatusCode::LOOP_DETECTED).into_error(alloc)
}

/// An error of what the value prints. The status is 510 (RFC 2774, section 7).
#[allow(non_snake_case)]
pub fn ErrorNotExtended<T: Display + Drop>(alloc: Global, err: T) -> Result<Error, NoMemory>
    ensures { IfOk result (λ error. IsCustomFault (T.output err)
        (status_of (codes "NotExtended")) error) }
{
    InternalError::new(err, StatusCode::NOT_EXTENDED).into_error(alloc)
}

/// An error of what the value prints. The status is 511 (RFC 6585, section 6).
#[allow(non_snake_case)]
pub fn ErrorNetworkAuthenticationRequired<T: Display + Drop>(
    alloc: Global,
    err: T,
) -> Result<Error, NoMemory>
    ensures { IfOk result (λ error. IsCustomFault (T.output err)
        (status_of (codes "NetworkAuthenticationRequired")) error) }
{
    InternalError::new(err, StatusCode::NETWORK_AUTHENTICATION_REQUIRED).into_error(alloc)
}
