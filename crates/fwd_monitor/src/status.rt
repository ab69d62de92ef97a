/// The status of a reply (RFC 9110, section 15).
#[derive(Clone, Copy)]
pub(crate) enum HttpStatus {
    /// 200, to a request for the page.
    Found,
    /// 503 where the relay drains and else 200, to a request that asks whether it is ready.
    Ready,
    /// To a request for the metrics page: 404, where none is served.
    Metrics,
    /// 404, to any other request.
    NotFound,
    /// 400, to what is no request, or too long for one.
    BadRequest,
}
