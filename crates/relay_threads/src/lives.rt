//! The lives of workers that are told.

use crate::acts::Act;
use crate::life::{Life, PLAIN, Servers, lived};
use crate::watched::Interrupt;
use anyhow::Result;
use fwd_workers::{Pass, Place};
use std::alloc::Global;
use std::sync::Wait;

/// A gate that stops its worker from the first turn on.
const STOP: Interrupt = Interrupt {
    place: Place::BeforeTake,
    from: 0,
    before: u64::MAX,
    pass: Pass::Stop,
};

/// Servers that cannot be had, and chunks that are not there or not due.
static BEGINNINGS: [Life; 4] = [
    Life {
        name: "no server can be had",
        turns: 3,
        meetings: &[None, None],
        looks: [3, 500, 501],
        ..PLAIN
    },
    Life {
        name: "the first server cannot be had",
        turns: 6,
        meetings: &[None, Some(&[Act::Acks])],
        looks: [6, 500, 501],
        ..PLAIN
    },
    Life {
        name: "a chunk is due at 1000",
        is_closed: false,
        requests: 2,
        tick: 500,
        turns: 3,
        meetings: &[Some(&[])],
        looks: [1500, 1501, 1502],
        ..PLAIN
    },
    Life {
        name: "no chunk",
        requests: 0,
        turns: 2,
        meetings: &[Some(&[])],
        looks: [2, 3, 4],
        ..PLAIN
    },
];

/// A gate that stops its worker, or holds it up.
static INTERRUPTS: [Life; 6] = [
    Life {
        name: "stopped before it takes",
        turns: 9,
        meetings: &[Some(&[])],
        interrupt: Some(Interrupt {
            place: Place::BeforeTake,
            ..STOP
        }),
        looks: [0, 1, 2],
        ..PLAIN
    },
    Life {
        name: "stopped before it loads",
        turns: 9,
        meetings: &[Some(&[])],
        interrupt: Some(Interrupt {
            place: Place::BeforeLoad,
            ..STOP
        }),
        looks: [1, 2, 3],
        ..PLAIN
    },
    Life {
        name: "stopped before it settles",
        turns: 9,
        meetings: &[Some(&[Act::Acks])],
        interrupt: Some(Interrupt {
            place: Place::BeforeSettle,
            ..STOP
        }),
        looks: [3, 4, 5],
        ..PLAIN
    },
    Life {
        name: "stopped after it settled",
        turns: 9,
        meetings: &[Some(&[Act::Acks])],
        interrupt: Some(Interrupt {
            place: Place::AfterSettle,
            ..STOP
        }),
        looks: [4, 5, 6],
        ..PLAIN
    },
    Life {
        name: "stopped in a session without a chunk",
        turns: 9,
        meetings: &[Some(&[Act::Acks])],
        interrupt: Some(Interrupt {
            place: Place::BeforeTake,
            from: 6,
            ..STOP
        }),
        looks: [6, 7, 8],
        ..PLAIN
    },
    Life {
        name: "held before it loads",
        turns: 4,
        meetings: &[Some(&[])],
        interrupt: Some(Interrupt {
            place: Place::BeforeLoad,
            from: 0,
            before: 3,
            pass: Pass::Hold,
        }),
        looks: [4, 503, 504],
        ..PLAIN
    },
];

/// Sessions that go on after a chunk, or end by a server that keeps no connection.
static SESSIONS: [Life; 4] = [
    Life {
        name: "two chunks in one session",
        requests: 2,
        turns: 10,
        meetings: &[Some(&[Act::Acks, Act::Silent, Act::Acks])],
        looks: [10, 11, 12],
        ..PLAIN
    },
    Life {
        name: "two chunks after a login",
        requests: 2,
        is_keyed: true,
        turns: 12,
        meetings: &[Some(&[
            Act::Greets(true),
            Act::LetsIn,
            Act::Acks,
            Act::Silent,
            Act::Acks,
        ])],
        looks: [12, 13, 14],
        ..PLAIN
    },
    Life {
        name: "a server that keeps no connection",
        requests: 2,
        is_keyed: true,
        turns: 14,
        meetings: &[
            Some(&[Act::Greets(false), Act::LetsIn, Act::Acks]),
            Some(&[Act::Greets(true), Act::LetsIn, Act::Acks]),
        ],
        looks: [14, 15, 16],
        ..PLAIN
    },
    Life {
        name: "the server closes a session without a chunk",
        turns: 6,
        meetings: &[Some(&[Act::Acks, Act::Closes])],
        looks: [6, 7, 8],
        ..PLAIN
    },
];

/// Handshakes that fail.
static HANDSHAKES: [Life; 4] = [
    Life {
        name: "not let in",
        is_keyed: true,
        turns: 3,
        meetings: &[Some(&[Act::Greets(true), Act::Denies])],
        looks: [3, 501, 502],
        ..PLAIN
    },
    Life {
        name: "a server with another key",
        is_keyed: true,
        turns: 3,
        meetings: &[Some(&[Act::Greets(true), Act::OtherKey])],
        looks: [3, 501, 502],
        ..PLAIN
    },
    Life {
        name: "a handshake that is late",
        is_keyed: true,
        ack_wait: 3,
        turns: 5,
        meetings: &[None, Some(&[Act::Greets(true)])],
        looks: [5, 500, 501],
        ..PLAIN
    },
    Life {
        name: "turns are spent in the handshake",
        is_keyed: true,
        turns: 3,
        meetings: &[Some(&[Act::Greets(true)])],
        looks: [3, 502, 503],
        ..PLAIN
    },
];

/// Sessions that end with a chunk.
static ENDINGS: [Life; 8] = [
    Life {
        name: "closed before the acknowledgement, and sent again",
        tick: 250,
        turns: 9,
        meetings: &[Some(&[Act::Closes]), Some(&[Act::Silent, Act::Acks])],
        looks: [2250, 2251, 2252],
        ..PLAIN
    },
    Life {
        name: "the read fails",
        turns: 3,
        meetings: &[Some(&[Act::FailsRead])],
        looks: [3, 501, 502],
        ..PLAIN
    },
    Life {
        name: "the write fails",
        turns: 3,
        meetings: &[Some(&[Act::FailsWrite])],
        looks: [3, 501, 502],
        ..PLAIN
    },
    Life {
        name: "the write fails after 20 bytes",
        turns: 4,
        meetings: &[Some(&[Act::Takes(20), Act::FailsWrite])],
        looks: [4, 502, 503],
        ..PLAIN
    },
    Life {
        name: "another chunk is acknowledged",
        turns: 3,
        meetings: &[Some(&[Act::AcksAnother])],
        looks: [3, 501, 502],
        ..PLAIN
    },
    Life {
        name: "a fault behind an acknowledgement",
        turns: 5,
        meetings: &[Some(&[Act::AcksAndFaults])],
        looks: [5, 503, 504],
        ..PLAIN
    },
    Life {
        name: "turns are spent before the settling",
        turns: 3,
        meetings: &[Some(&[Act::Acks])],
        looks: [3, 4, 5],
        ..PLAIN
    },
    Life {
        name: "turns are spent before the acknowledgement",
        turns: 3,
        meetings: &[Some(&[Act::Silent])],
        looks: [3, 502, 503],
        ..PLAIN
    },
];

/// Acknowledgements in time, and late ones.
static WAITS: [Life; 4] = [
    Life {
        name: "acknowledged in the last moment of 5",
        ack_wait: 5,
        turns: 8,
        meetings: &[Some(&[Act::Silent, Act::Silent, Act::Silent, Act::Acks])],
        looks: [8, 9, 10],
        ..PLAIN
    },
    Life {
        name: "late after 5",
        ack_wait: 5,
        turns: 8,
        meetings: &[Some(&[
            Act::Silent,
            Act::Silent,
            Act::Silent,
            Act::Silent,
            Act::Acks,
        ])],
        looks: [8, 505, 506],
        ..PLAIN
    },
    Life {
        name: "the same acknowledgement within 6",
        ack_wait: 6,
        turns: 9,
        meetings: &[Some(&[
            Act::Silent,
            Act::Silent,
            Act::Silent,
            Act::Silent,
            Act::Acks,
        ])],
        looks: [9, 10, 11],
        ..PLAIN
    },
    Life {
        name: "late after 1",
        ack_wait: 1,
        turns: 3,
        meetings: &[Some(&[Act::Acks])],
        looks: [3, 501, 502],
        ..PLAIN
    },
];

/// Servers that are sought behind a loss, among two primaries and a standby.
static SOUGHT: [Life; 2] = [
    Life {
        name: "the next primary is sought behind a loss",
        servers: Servers::Three,
        tick: 250,
        turns: 9,
        meetings: &[Some(&[Act::Closes]), Some(&[Act::Silent, Act::Acks])],
        looks: [2250, 2251, 2252],
        ..PLAIN
    },
    Life {
        name: "both primaries close, and the standby is sought",
        servers: Servers::Three,
        tick: 100,
        turns: 12,
        meetings: &[
            Some(&[Act::Closes]),
            Some(&[Act::Closes]),
            Some(&[Act::Silent, Act::Silent, Act::Acks]),
        ],
        looks: [1200, 1201, 1202],
        ..PLAIN
    },
];

/// Ways back from a standby. A primary that cannot be had costs a try, and no chunk.
static RETURNS: [Life; 2] = [
    Life {
        name: "a standby is left for its primary",
        requests: 2,
        tick: 250,
        turns: 12,
        meetings: &[None, Some(&[Act::Acks]), Some(&[Act::Silent, Act::Acks])],
        looks: [3250, 3251, 3252],
        ..PLAIN
    },
    Life {
        name: "a standby is kept while its primary cannot be had",
        requests: 2,
        tick: 250,
        turns: 11,
        meetings: &[None, Some(&[Act::Acks, Act::Silent, Act::Acks]), None],
        looks: [3250, 3251, 3252],
        ..PLAIN
    },
];

/// Windows of two chunks: one more is taken while the first is not acknowledged, unless another
/// server is to be tried.
static WINDOWS: [Life; 4] = [
    Life {
        name: "two chunks at once, acknowledged in reverse order",
        requests: 2,
        window: 2,
        turns: 10,
        meetings: &[Some(&[Act::Silent, Act::AcksAll])],
        looks: [10, 11, 12],
        ..PLAIN
    },
    Life {
        name: "the second of two is acknowledged, and the server closes",
        requests: 2,
        window: 2,
        tick: 250,
        turns: 16,
        meetings: &[
            Some(&[Act::Silent, Act::Acks, Act::Closes]),
            Some(&[Act::Silent, Act::Acks]),
        ],
        looks: [4000, 4001, 4002],
        ..PLAIN
    },
    Life {
        name: "a window is not filled at a standby once its primary is to be tried",
        requests: 2,
        window: 2,
        tick: 250,
        turns: 15,
        meetings: &[
            None,
            Some(&[Act::Silent, Act::Acks, Act::Silent]),
            Some(&[Act::Silent, Act::Acks]),
        ],
        looks: [4000, 4001, 4002],
        ..PLAIN
    },
    Life {
        name: "stopped with a chunk in the session, before it takes another",
        requests: 2,
        window: 2,
        turns: 9,
        meetings: &[Some(&[])],
        interrupt: Some(Interrupt {
            place: Place::BeforeTake,
            from: 1,
            ..STOP
        }),
        looks: [4, 502, 503],
        ..PLAIN
    },
];

/// Chunks that their server refuses, and others, where there is no other server.
static REFUSED: [Life; 5] = [
    Life {
        name: "a chunk is refused, and its server is asked once more with the next",
        servers: Servers::One,
        requests: 2,
        turns: 9,
        meetings: &[Some(&[Act::Closes]), Some(&[Act::Silent, Act::Acks])],
        looks: [9, 502, 503],
        ..PLAIN
    },
    Life {
        name: "two are refused, and behind the server's wait a third goes first",
        servers: Servers::One,
        requests: 3,
        tick: 250,
        turns: 18,
        meetings: &[
            Some(&[Act::Closes]),
            Some(&[Act::Silent, Act::Closes]),
            Some(&[Act::Silent, Act::Acks]),
        ],
        looks: [4500, 4501, 4502],
        ..PLAIN
    },
    Life {
        name: "a chunk is refused three times, and told",
        servers: Servers::One,
        requests: 4,
        tick: 250,
        turns: 42,
        meetings: &[
            Some(&[Act::Closes]),
            Some(&[Act::Silent, Act::Acks, Act::Silent, Act::Closes]),
            Some(&[
                Act::Silent,
                Act::Acks,
                Act::Silent,
                Act::Silent,
                Act::Closes,
            ]),
            Some(&[Act::Silent, Act::Acks]),
        ],
        looks: [10500, 10501, 10502],
        ..PLAIN
    },
    Life {
        name: "a window of four is lost, and each goes alone",
        servers: Servers::One,
        requests: 4,
        window: 8,
        tick: 100,
        turns: 46,
        meetings: &[
            Some(&[
                Act::Silent,
                Act::Silent,
                Act::Silent,
                Act::Silent,
                Act::Closes,
            ]),
            Some(&[Act::Silent, Act::Silent, Act::Closes]),
            Some(&[
                Act::Silent,
                Act::Silent,
                Act::Acks,
                Act::Silent,
                Act::Silent,
                Act::Acks,
                Act::Silent,
                Act::Silent,
                Act::Acks,
            ]),
        ],
        looks: [4600, 4601, 4602],
        ..PLAIN
    },
    Life {
        name: "the server is away when it is asked once more",
        servers: Servers::One,
        requests: 2,
        tick: 100,
        turns: 14,
        meetings: &[Some(&[Act::Closes]), None, Some(&[Act::Silent, Act::Acks])],
        looks: [1400, 1401, 1402],
        ..PLAIN
    },
];

/// A primary that closes each connection behind a chunk, and its standby. Two of its losses count.
static CLOSING: [Life; 1] = [Life {
    name: "what a primary lost goes by its standby, though the primary's wait is over",
    requests: 4,
    tick: 100,
    turns: 28,
    meetings: &[
        Some(&[Act::Closes]),
        Some(&[Act::Silent, Act::Closes]),
        Some(&[
            Act::Silent,
            Act::Acks,
            Act::Silent,
            Act::Acks,
            Act::Silent,
            Act::Acks,
            Act::Silent,
            Act::Acks,
        ]),
        None,
    ],
    looks: [2900, 2901, 2902],
    ..PLAIN
}];

/// Numbers of workers, servers, chunks and outputs.
static NUMBERS: [Life; 4] = [
    Life {
        name: "worker 1 of two primaries",
        servers: Servers::Three,
        worker: 1,
        requests: 2,
        turns: 10,
        meetings: &[Some(&[Act::Acks, Act::Silent, Act::Acks])],
        looks: [10, 11, 12],
        ..PLAIN
    },
    Life {
        name: "worker 1 loses its server",
        servers: Servers::Three,
        worker: 1,
        turns: 3,
        meetings: &[Some(&[Act::Closes])],
        looks: [3, 501, 502],
        ..PLAIN
    },
    Life {
        name: "worker 2 of two primaries",
        servers: Servers::Three,
        worker: 2,
        turns: 2,
        meetings: &[None, None],
        looks: [2, 500, 501],
        ..PLAIN
    },
    Life {
        name: "output 1",
        is_second: true,
        turns: 5,
        meetings: &[Some(&[Act::Acks])],
        looks: [5, 6, 7],
        ..PLAIN
    },
];

/// Tells some lives, each with a line for each answer of its worker's gate.
fn tell<R: Wait + Print>(rt: &R, alloc: Global, lives: &[Life]) -> Result<()> {
    for life in lives {
        let text = lived(rt, alloc, *life)?;
        let _ = println!(rt; "{text}");
    }
    Ok(())
}

/// Tells all lives.
pub fn tell_all<R: Wait + Print>(rt: &R, alloc: Global) -> Result<()> {
    tell(rt, alloc, &BEGINNINGS)?;
    tell(rt, alloc, &INTERRUPTS)?;
    tell(rt, alloc, &SESSIONS)?;
    tell(rt, alloc, &HANDSHAKES)?;
    tell(rt, alloc, &ENDINGS)?;
    tell(rt, alloc, &WAITS)?;
    tell(rt, alloc, &SOUGHT)?;
    tell(rt, alloc, &RETURNS)?;
    tell(rt, alloc, &WINDOWS)?;
    tell(rt, alloc, &REFUSED)?;
    tell(rt, alloc, &CLOSING)?;
    tell(rt, alloc, &NUMBERS)
}
