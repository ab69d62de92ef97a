//! Scenes of several chunks that are sent and not acknowledged: a source sends eight requests, each
//! of which is a chunk, and the window is eight. They are acknowledged in another order, or some of
//! them, or a name comes that none of them has. The source is told of each once.

use crate::frame::MESSAGE;
use crate::run_events::Said;
use crate::scene::{Play, SCENE, Scene};
use crate::step::Step;
use crate::test_relay::{Output, PLAIN};

/// Eight Messages under the tag `a`, of the times 1 to 8, that ask to be acknowledged as `1` to
/// `8`.
const EIGHT: &[u8] = b"\
    \x94\xa1a\x01\x80\x81\xa5chunk\xa11\x94\xa1a\x02\x80\x81\xa5chunk\xa12\
    \x94\xa1a\x03\x80\x81\xa5chunk\xa13\x94\xa1a\x04\x80\x81\xa5chunk\xa14\
    \x94\xa1a\x05\x80\x81\xa5chunk\xa15\x94\xa1a\x06\x80\x81\xa5chunk\xa16\
    \x94\xa1a\x07\x80\x81\xa5chunk\xa17\x94\xa1a\x08\x80\x81\xa5chunk\xa18";

/// The last chunk is acknowledged first, and the source is told of each request once its frame is
/// acknowledged, and of no other.
const BACKWARDS: &[Step] = &[
    Step::Source(EIGHT),
    Step::Accept(0),
    Step::Values("frames", 1, 8),
    Step::Silent("silent", 0),
    Step::Acks(1, &[7]),
    Step::Told("told", 0),
    Step::Acks(1, &[6]),
    Step::Told("told", 0),
    Step::Acks(1, &[5]),
    Step::Told("told", 0),
    Step::Acks(1, &[4]),
    Step::Told("told", 0),
    Step::Acks(1, &[3]),
    Step::Told("told", 0),
    Step::Acks(1, &[2]),
    Step::Told("told", 0),
    Step::Acks(1, &[1]),
    Step::Told("told", 0),
    Step::Acks(1, &[0]),
    Step::Told("told", 0),
    Step::Silent("once", 0),
];

/// Two entries under the tag `a`, in Forward mode, that ask to be acknowledged as `x`.
const TWO: &[u8] = b"\x93\xa1a\x92\x92\x01\x80\x92\x02\x80\x81\xa5chunk\xa1x";

/// A request has its entries in two chunks, and the later one is acknowledged first: its source is
/// told behind the other.
const LATER_FIRST: &[Step] = &[
    Step::Source(TWO),
    Step::Accept(0),
    Step::Values("frames", 1, 2),
    Step::Acks(1, &[1]),
    Step::Silent("silent", 0),
    Step::Acks(1, &[0]),
    Step::Told("told", 0),
    Step::Silent("once", 0),
];

/// The acknowledgements of the output's first chunk, and of its second one.
const FIRST: &[u8] = b"\x81\xa3ack\xb8AAAAAAAAAAAAAAAAAAAAAQ==";

const SECOND: &[u8] = b"\x81\xa3ack\xb8AAAAAAAAAAAAAAAAAAAAAg==";

/// A source sends two requests, of which the second is more than the sockets between hold. Its
/// server reads the first frame and the front of the second one, and acknowledges the second. That
/// counts for nothing: the server is lost, and both frames come again, of 46 and 8,000,056 bytes,
/// one after the other, since what was lost goes alone. Nothing is read of the first connection
/// before the relay has ended its session: it may send on while one reads.
const EARLY: &[Step] = &[
    Step::Source(MESSAGE),
    Step::Large(0),
    Step::Accept(0),
    Step::Told("first", 1),
    Step::Await(1),
    Step::Send(1, SECOND),
    Step::Accept(0),
    Step::Skip(2),
    Step::Silent("no_more", 2),
    Step::Silent("silent", 0),
    Step::Send(2, FIRST),
    Step::Told("told", 0),
    Step::Skip(2),
    Step::Size("both", 2),
    Step::Again("again", 1, 2),
    Step::Silent("silent_again", 0),
    Step::Send(2, SECOND),
    Step::Told("told_then", 0),
    Step::Silent("once", 0),
];

/// The acknowledgement of what no chunk is called.
const STRANGE: &[u8] = b"\x81\xa3ack\xb8no chunk has such a name";

/// The server names no chunk, and is closed with nothing further. The source is told nothing by
/// that, and all frames come again, one after the other.
const WRONG: &[Step] = &[
    Step::Source(EIGHT),
    Step::Accept(0),
    Step::Values("frames", 1, 8),
    Step::Send(1, STRANGE),
    Step::Rest("left", 1),
    Step::Silent("silent", 0),
    Step::Accept(0),
    Step::Alone("again", 2, 8),
    Step::Silent("no_more", 2),
    Step::Values("told", 0, 8),
    Step::Silent("once", 0),
];

/// The server acknowledges every third frame and closes. The source is told of their requests, and
/// the other frames come again, one after the other.
const SOME: &[Step] = &[
    Step::Source(EIGHT),
    Step::Accept(0),
    Step::Values("frames", 1, 8),
    Step::Acks(1, &[1, 4, 7]),
    Step::Close(1),
    Step::Values("first", 0, 3),
    Step::Silent("silent", 0),
    Step::Accept(0),
    Step::Alone("again", 2, 5),
    Step::Silent("no_more", 2),
    Step::Values("told", 0, 5),
    Step::Silent("once", 0),
];

/// A scene of a window.
const WINDOW: Scene = Scene {
    outputs: &[Output {
        keys: "chunk_limit = 2\nretry_wait = 1\nwindow = 8\n",
        ..PLAIN
    }],
    said: &[Said::Losses, Said::Faults],
    ..SCENE
};

/// The scenes.
pub static WINDOWS: [Scene; 5] = [
    Scene {
        title: "a window that is acknowledged backwards",
        host: 36,
        play: Play::Steps(BACKWARDS),
        ..WINDOW
    },
    Scene {
        title: "a chunk that is acknowledged before its last byte",
        host: 37,
        play: Play::Steps(EARLY),
        ..WINDOW
    },
    Scene {
        title: "a window, and a name of no chunk",
        host: 38,
        play: Play::Steps(WRONG),
        ..WINDOW
    },
    Scene {
        title: "a window of which some is acknowledged",
        host: 39,
        play: Play::Steps(SOME),
        ..WINDOW
    },
    Scene {
        title: "a request in two chunks, of which the later is acknowledged first",
        host: 70,
        play: Play::Steps(LATER_FIRST),
        ..WINDOW
    },
];
