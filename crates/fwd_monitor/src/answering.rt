ghost use Rattle.std.specs.Prelude.{◌≡◌, IfOk, OnErr};
ghost use Rattle.std.specs.String.{string_bytes};
ghost use Rattle.fwd_monitor.specs.Replies as replies;
ghost use Rattle.fwd_monitor.specs.Replies.{
  HasReason,
  IsReplyTo,
  Sends,
  metrics_reply_of,
  page_reply,
  ready_reply,
};
ghost use Rattle.fwd_monitor.specs.Requests.{IsDue, MustWait, WantsReady};
ghost use Rattle.fwd_monitor.specs.Statuses.{reply_of};

use crate::figures::{Figures, OutputFigures};
use crate::judging::judge;
use crate::metrics::metrics_page;
use crate::pages::page;
use crate::reply::Reply;
use crate::status::HttpStatus;
use crate::tally::RelayTally;
use fwd_base::Report;
use std::alloc::{AllocError, Global};

/// What a monitor that has sent the bytes of `head` so far is told, where the relay drains or not.
/// A whole request head (RFC 9112, sections 2 to 5) of at most `MAX_HEADERS` headers is told this,
/// whatever stands behind it: `GET /` the page; `GET /ready`, which load balancers ask, 503 and
/// `draining` where the relay drains, and 200 and `ready` otherwise; any other 404. A head of more
/// headers is told 400 once their lines have come, finished or not, and so are bytes that nothing
/// can make a head, and `HEAD_LIMIT` bytes or more without a whole head. Others wait. The only
/// error is out of memory, and to wait takes none.
pub fn answer(
    alloc: Global,
    head: &[u8],
    reports: &[Report],
    is_draining: bool,
) -> Result<Reply, AllocError>
    ensures reply { IfOk result (IsReplyTo head.now is_draining reports.now) }
    ensures reason { IfOk result (HasReason head.now is_draining reports.now) }
    ensures ready { WantsReady head.now
        → IfOk result (λ reply. Sends reply (ready_reply is_draining)) }
    ensures memory { OnErr result (IsDue head.now) }
    ensures waits { MustWait head.now → result ≡ Ok Reply.More }
{
    match judge(head) {
        Some(status) => {
            let text = text(alloc, status, reports, is_draining)?;
            Ok(Reply::Bytes(text.into_bytes()))
        }
        None => Ok(Reply::More),
    }
}

/// The bytes of a status's reply, where the relay drains or not.
fn text(
    alloc: Global,
    status: HttpStatus,
    reports: &[Report],
    is_draining: bool,
) -> Result<String, AllocError>
    ensures { IfOk result (λ text. string_bytes text ≡ reply_of status is_draining reports.now) }
{
    match status {
        HttpStatus::Found => found(alloc, reports),
        HttpStatus::Ready => ready(alloc, is_draining),
        HttpStatus::Metrics | HttpStatus::NotFound => String::from_str(
            alloc,
            "HTTP/1.1 404 Not Found\r\nContent-Length: 0\r\nConnection: close\r\n\r\n",
        ),
        HttpStatus::BadRequest => String::from_str(
            alloc,
            "HTTP/1.1 400 Bad Request\r\nContent-Length: 0\r\nConnection: close\r\n\r\n",
        ),
    }
}

/// The page behind its head.
fn found(alloc: Global, reports: &[Report]) -> Result<String, AllocError>
    ensures { IfOk result (λ text. string_bytes text ≡ page_reply reports.now) }
{
    let body = page(alloc, reports)?;
    text_reply(alloc, "HTTP/1.1 200 OK", &body)
}

/// What a load balancer is told, where the relay drains or not.
fn ready(alloc: Global, is_draining: bool) -> Result<String, AllocError>
    ensures { IfOk result (λ text. string_bytes text ≡ ready_reply is_draining) }
{
    if is_draining {
        text_reply(alloc, "HTTP/1.1 503 Service Unavailable", "draining\n")
    } else {
        text_reply(alloc, "HTTP/1.1 200 OK", "ready\n")
    }
}

/// A text behind its head, with this status line.
fn text_reply(alloc: Global, line: &str, body: &str) -> Result<String, AllocError>
    ensures { IfOk result (λ text. string_bytes text ≡ replies.text_reply line.now body.now) }
{
    let mut text = text_head(alloc, line, body.len())?;
    text.push_str(body)?;
    Ok(text)
}

/// The head for a text of so many bytes, with this status line.
fn text_head(alloc: Global, line: &str, size: usize) -> Result<String, AllocError>
    ensures { IfOk result (λ text. string_bytes text ≡ replies.text_head line.now size) }
{
    format!(in alloc;
        "{line}\r\nContent-Type: text/plain\r\nContent-Length: {size}\r\n\
        Connection: close\r\n\r\n"
    )
}

/// What a monitor is told that asks for the metrics page where one is served: the page behind its
/// head. Its only error is out of memory.
pub fn metrics_reply(
    alloc: Global,
    figures: Figures,
    outputs: &[OutputFigures],
    reports: &[Report],
    tally: &RelayTally,
) -> Result<Vec<u8>, AllocError>
    ensures { IfOk result
        (λ reply. reply.items ≡ metrics_reply_of figures outputs.now reports.now tally.now) }
{
    let page = metrics_page(alloc, figures, outputs, reports, tally)?;
    let mut reply = metrics_head(alloc, page.len())?.into_bytes();
    reply.extend_from_slice(&page)?;
    Ok(reply)
}

/// The head for a metrics page of so many bytes.
fn metrics_head(alloc: Global, size: usize) -> Result<String, AllocError>
    ensures { IfOk result (λ text. string_bytes text ≡ replies.metrics_head size) }
{
    format!(in alloc;
        "HTTP/1.1 200 OK\r\nContent-Type: text/plain; version=0.0.4; charset=utf-8\r\n\
        Content-Length: {size}\r\nConnection: close\r\n\r\n"
    )
}
