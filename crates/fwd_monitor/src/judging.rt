ghost use Rattle.std.specs.Prelude.{◌≡◌, ◌+◌, ◌↔◌, IsTrue, nat_lt};
ghost use Rattle.fwd_monitor.specs.Lines.{head_lines};
ghost use Rattle.fwd_monitor.specs.Requests.{
  WantsMetrics,
  WantsPage,
  is_for_metrics,
  is_for_page,
  is_for_ready,
};
ghost use Rattle.fwd_monitor.specs.Statuses.{IsJudged, is_found, is_metrics};

use crate::limits::{HEAD_LIMIT, MAX_HEADERS};
use crate::status::HttpStatus;
use httparse::Status as Parsed;
use httparse::spans::{EMPTY_HEADER_SPAN, parse_request};

/// The status of the reply to these bytes, or none while there is none to be given. A head is what
/// `httparse` takes, and a whole one wins over the limit of bytes. Bytes that end in their target
/// may wait though nothing can follow them: it tests a target for UTF-8 only at its end.
pub(crate) fn judge(heard: &[u8]) -> Option<HttpStatus>
    ensures { IsJudged heard.now result }
{
    let mut headers = [EMPTY_HEADER_SPAN; MAX_HEADERS];
    match parse_request(heard, &mut headers) {
        Ok(Parsed::Complete(head)) => {
            let (method, target) = (head.method.of(heard), head.path.of(heard));
            if asks_for_page(method, target) {
                Some(HttpStatus::Found)
            } else if asks_for_ready(method, target) {
                Some(HttpStatus::Ready)
            } else if asks_for_metrics(method, target) {
                Some(HttpStatus::Metrics)
            } else {
                Some(HttpStatus::NotFound)
            }
        }
        Ok(Parsed::Partial) if heard.len() < HEAD_LIMIT && !has_many_lines(heard) => None,
        Ok(Parsed::Partial) | Err(_) => Some(HttpStatus::BadRequest),
    }
}

/// Whether a monitor that has sent these bytes so far is told the page: before that nobody has to
/// make the reports that are shown on it. It takes no memory.
pub fn wants_page(heard: &[u8]) -> bool
    ensures { IsTrue result ↔ WantsPage heard.now }
{
    is_found(judge(heard))
}

/// Whether a monitor that has sent these bytes so far asks for the metrics page. It takes no
/// memory.
pub fn wants_metrics(heard: &[u8]) -> bool
    ensures { IsTrue result ↔ WantsMetrics heard.now }
{
    is_metrics(judge(heard))
}

/// Whether the status is that of the page.
fn is_found(status: Option<HttpStatus>) -> bool
    ensures { result ≡ is_found status }
{
    matches!(status, Some(HttpStatus::Found))
}

/// Whether the status is that of a request for the metrics page.
fn is_metrics(status: Option<HttpStatus>) -> bool
    ensures { result ≡ is_metrics status }
{
    matches!(status, Some(HttpStatus::Metrics))
}

/// Whether a request is for the page.
fn asks_for_page(method: &[u8], target: &[u8]) -> bool
    ensures { result ≡ is_for_page method.now target.now }
{
    method == b"GET".as_slice() && target == b"/".as_slice()
}

/// Whether a request asks whether the relay is ready for new sources.
fn asks_for_ready(method: &[u8], target: &[u8]) -> bool
    ensures { result ≡ is_for_ready method.now target.now }
{
    method == b"GET".as_slice() && target == b"/ready".as_slice()
}

/// Whether a request is for the metrics page.
fn asks_for_metrics(method: &[u8], target: &[u8]) -> bool
    ensures { result ≡ is_for_metrics method.now target.now }
{
    method == b"GET".as_slice() && target == b"/metrics".as_slice()
}

/// Whether more header lines stand behind a request line than a head may have.
fn has_many_lines(heard: &[u8]) -> bool
    ensures { result ≡ nat_lt (MAX_HEADERS + 1) (head_lines heard.now) }
{
    head_lines(heard) > MAX_HEADERS + 1
}

/// How many lines of a head have come, each with its end. Empty lines in front of it do not count.
fn head_lines(heard: &[u8]) -> usize
    ensures { result ≡ head_lines heard.now }
{
    let mut lines = 0;
    let mut begun = false;
    for byte in heard {
        match *byte {
            b'\n' if begun => lines += 1,
            b'\n' | b'\r' => {}
            _ => begun = true,
        }
    }
    lines
}
