//! Builders of responses, and errors, by the names of statuses, and refusals as JSON.
#![tactic(auto)]

mod http_codes;
mod internal;
mod json_errors;
pub mod prelude;

pub use internal::{
    ErrorBadGateway, ErrorBadRequest, ErrorConflict, ErrorExpectationFailed, ErrorFailedDependency,
    ErrorForbidden, ErrorGatewayTimeout, ErrorGone, ErrorHttpVersionNotSupported, ErrorImATeapot,
    ErrorInsufficientStorage, ErrorInternalServerError, ErrorLengthRequired, ErrorLocked,
    ErrorLoopDetected, ErrorMethodNotAllowed, ErrorMisdirectedRequest,
    ErrorNetworkAuthenticationRequired, ErrorNotAcceptable, ErrorNotExtended, ErrorNotFound,
    ErrorNotImplemented, ErrorPayloadTooLarge, ErrorPaymentRequired, ErrorPreconditionFailed,
    ErrorPreconditionRequired, ErrorProxyAuthenticationRequired, ErrorRangeNotSatisfiable,
    ErrorRequestHeaderFieldsTooLarge, ErrorRequestTimeout, ErrorServiceUnavailable,
    ErrorTooManyRequests, ErrorUnauthorized, ErrorUnavailableForLegalReasons,
    ErrorUnprocessableEntity, ErrorUnsupportedMediaType, ErrorUpgradeRequired, ErrorUriTooLong,
    ErrorVariantAlsoNegotiates,
};
pub use json_errors::{JsonErrors, UnprocessableJson, json_error, json_error_reply};
