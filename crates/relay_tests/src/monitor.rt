//! The texts that the rules give for a few worked heads.

use fwd_base::{Bytes, Seq};
use fwd_chunks::{Counts, Report, TagCount};
use fwd_monitor::{Reply, answer, page, wants_page};
use std::alloc::{AllocError, Global};

const FIRST: Counts = Counts {
    accepted: 3,
    settled: 2,
    held: 1,
    bytes: 3,
    chunks: 1,
};

const SECOND: Counts = Counts {
    accepted: 18_446_744_073_709_551_615,
    settled: 18_446_744_073_709_551_605,
    held: 10,
    bytes: 120,
    chunks: 2,
};

const PAGE: &str = "HTTP/1.1 200 OK\r\nContent-Type: text/plain\r\nContent-Length: 218\r\n\
    Connection: close\r\n\r\n\
    output 0 accepted 3 settled 2 held 1 bytes 3 chunks 1\n\
    tag 61 held 1 bytes 3\n\
    output 1 accepted 18446744073709551615 settled 18446744073709551605 held 10 \
    bytes 120 chunks 2\n\
    tag - held 4 bytes 50\ntag 61ff held 6 bytes 70\n";

/// The page of the first output alone: 76 bytes.
const FIRST_PAGE: &str =
    "output 0 accepted 3 settled 2 held 1 bytes 3 chunks 1\ntag 61 held 1 bytes 3\n";

const NOT_FOUND: &str = "HTTP/1.1 404 Not Found\r\nContent-Length: 0\r\nConnection: close\r\n\r\n";

const BAD_REQUEST: &str =
    "HTTP/1.1 400 Bad Request\r\nContent-Length: 0\r\nConnection: close\r\n\r\n";

/// What is told where no answer is due yet.
const MORE: &str = "";

const READY: &str = "HTTP/1.1 200 OK\r\nContent-Type: text/plain\r\nContent-Length: 6\r\n\
    Connection: close\r\n\r\nready\n";

const DRAINING: &str = "HTTP/1.1 503 Service Unavailable\r\nContent-Type: text/plain\r\n\
    Content-Length: 9\r\nConnection: close\r\n\r\ndraining\n";

const ASKED: &[u8] = b"GET / HTTP/1.1\r\nHost: a\r\n\r\n";

/// What an output holds of tags: of each its bytes, how many entries, and how many bytes of them.
fn report(alloc: Global, counts: Counts, held: &[(&[u8], u64, u64)]) -> Result<Report, AllocError> {
    let mut tags = Seq::new(alloc);
    for (tag, held, bytes) in held {
        tags.push(TagCount {
            tag: Bytes::from_slice(alloc, tag)?,
            held: *held,
            bytes: *bytes,
        })?;
    }
    Ok(Report { counts, tags })
}

/// The first output, which holds an entry of the tag `a`.
fn first(alloc: Global) -> Result<Report, AllocError> {
    report(alloc, FIRST, &[(b"a", 1, 3)])
}

/// The second one, which holds entries of the empty tag and of one that is no text.
fn second(alloc: Global) -> Result<Report, AllocError> {
    report(alloc, SECOND, &[(b"", 4, 50), (b"a\xff", 6, 70)])
}

/// Whether these bytes are told this text, where the relay drains or not.
fn is_told_where(
    alloc: Global,
    head: &[u8],
    is_draining: bool,
    text: &str,
) -> Result<bool, AllocError> {
    let reports = [first(alloc)?, second(alloc)?];
    Ok(match answer(alloc, head, &reports, is_draining)? {
        Reply::More => text == MORE,
        Reply::Bytes(bytes) => bytes.as_slice() == text.as_bytes(),
    })
}

/// Whether these bytes are told this text. A load balancer is told another one where the relay
/// drains; any other head is told the same then.
fn is_told(alloc: Global, head: &[u8], text: &str) -> Result<bool, AllocError> {
    let draining = if text == READY { DRAINING } else { text };
    let is_told = is_told_where(alloc, head, false, text)?;
    let is_told_later = is_told_where(alloc, head, true, draining)?;
    Ok(is_told && is_told_later && wants_page(head) == (text == PAGE))
}

/// Whether the page of the first output is its text.
fn is_page(alloc: Global) -> Result<bool, AllocError> {
    let text = page(alloc, &[first(alloc)?])?;
    Ok(text.as_str() == FIRST_PAGE && text.len() == 76)
}

#[test]
fn a_line_for_each_output_and_tag(rt: HostRuntime) {
    assert!(rt; is_page(rt.alloc()) == Ok(true));
}

const HEADS: &[(&[u8], &str)] = &[
    (ASKED, PAGE),
    (b"GET / HTTP/1.0\n\n", PAGE),
    (b"GET / HTTP/1.1\r\n\r\nGET /", PAGE),
    (b"GET /ready HTTP/1.1\r\nHost: a\r\n\r\n", READY),
    (b"GET /ready HTTP/1.0\n\n", READY),
    (b"HEAD /ready HTTP/1.1\r\n\r\n", NOT_FOUND),
    (b"POST /ready HTTP/1.1\r\n\r\n", NOT_FOUND),
    (b"GET /ready/ HTTP/1.1\r\n\r\n", NOT_FOUND),
    (b"GET /ready? HTTP/1.1\r\n\r\n", NOT_FOUND),
    (b"GET /readiness HTTP/1.1\r\n\r\n", NOT_FOUND),
    (b"GET ready HTTP/1.1\r\n\r\n", NOT_FOUND),
    (b"GET /metrics HTTP/1.1\r\n\r\n", NOT_FOUND),
    (b"GET /? HTTP/1.1\r\n\r\n", NOT_FOUND),
    (b"HEAD / HTTP/1.1\r\n\r\n", NOT_FOUND),
    (b"get / HTTP/1.1\r\n\r\n", NOT_FOUND),
    (b"\x01", BAD_REQUEST),
    (b"GET  / HTTP/1.1\r\n\r\n", BAD_REQUEST),
    (b"GET / HTTP/1.2\r\n\r\n", BAD_REQUEST),
    (b"GET / HTTP/1.9\r\n\r\n", BAD_REQUEST),
    (b"GET / HTTP/2.0\r\n\r\n", BAD_REQUEST),
    (b"GET / HTTP/1.1\r\n: b\r\n", BAD_REQUEST),
];

#[test]
fn each_head_has_its_answer(rt: HostRuntime) {
    for (head, text) in HEADS {
        assert!(rt; is_told(rt.alloc(), head, text) == Ok(true), "{text}");
    }
    for end in 0..ASKED.len() {
        assert!(rt;
            is_told(rt.alloc(), &ASKED[..end], MORE) == Ok(true),
            "cut at {end}"
        );
    }
}

const LINE: &[u8] = b"a: b\r\n";

/// Heads for the page behind their first line: a front, what comes behind it so many times, and a
/// back. Those of 8,173 times have 8,192 bytes without their back.
const LONG_HEADS: &[(&[u8], &[u8], usize, &[u8], &str)] = &[
    (b"", LINE, 63, b"", MORE),
    (b"", LINE, 63, b"a: b", MORE),
    (b"", LINE, 64, b"", MORE),
    (b"", LINE, 64, b"a: b", MORE),
    (b"", LINE, 64, b"\r\n", PAGE),
    (b"", LINE, 65, b"", BAD_REQUEST),
    (b"", LINE, 65, b"a: b", BAD_REQUEST),
    (b"", LINE, 65, b"\r\n", BAD_REQUEST),
    (b"", LINE, 66, b"", BAD_REQUEST),
    (b"", LINE, 66, b"a: b", BAD_REQUEST),
    (b"a: ", b"b", 8172, b"", MORE),
    (b"a: ", b"b", 8173, b"", BAD_REQUEST),
    (b"a: ", b"b", 8173, b"\r\n\r\n", PAGE),
];

/// A head for the page, of these parts.
fn head_of(
    alloc: Global,
    front: &[u8],
    unit: &[u8],
    count: usize,
    back: &[u8],
) -> Result<Vec<u8>, AllocError> {
    let mut head = b"GET / HTTP/1.1\r\n".to_vec(alloc)?;
    head.extend_from_slice(front)?;
    for _ in 0..count {
        head.extend_from_slice(unit)?;
    }
    head.extend_from_slice(back)?;
    Ok(head)
}

/// The first of the long heads that is told another text, if there is memory for all.
fn first_wrong(alloc: Global) -> Result<Option<usize>, AllocError> {
    for (place, (front, unit, count, back, text)) in LONG_HEADS.iter().enumerate() {
        let head = head_of(alloc, front, unit, *count, back)?;
        if !is_told(alloc, &head, text)? {
            return Ok(Some(place));
        }
    }
    Ok(None)
}

#[test]
fn headers_and_bytes_are_counted(rt: HostRuntime) {
    assert_eq!(rt; first_wrong(rt.alloc()), Ok(None));
}
