//! Scenes of a relay, its sources, its servers and its monitors.

use crate::frame::{EMPTY, MESSAGE};
use crate::run_events::Said;
use crate::scene::{Play, SCENE, Scene};
use crate::step::Step;
use crate::test_relay::{KEYED, Output, PLAIN, Role};

/// The front of a message in the middle of its map, and the byte that no value begins with.
const TORN: &[u8] = b"\x94\xa1a\x01\x80\x81\xa5";

const RESERVED: &[u8] = b"\xc1";

/// A request for the monitor's page.
const PAGE: &[u8] = b"GET / HTTP/1.1\r\nHost: relay\r\n\r\n";

/// A request goes the whole way: to the relay, to its server, and back.
const WHOLE_WAY: &[Step] = &[
    Step::Source(MESSAGE),
    Step::Accept(0),
    Step::Told("frame", 1),
    Step::Silent("silent", 0),
    Step::Ack(1),
    Step::Told("told", 0),
];

/// Two entries under the tag `a`, in Forward mode, that ask to be acknowledged as `x`.
const TWO: &[u8] = b"\x93\xa1a\x92\x92\x01\x80\x92\x02\x80\x81\xa5chunk\xa1x";

/// A request whose entries are in two chunks is told after both.
const SPLIT: &[Step] = &[
    Step::Source(TWO),
    Step::Accept(0),
    Step::Told("first", 1),
    Step::Ack(1),
    Step::Silent("silent", 0),
    Step::Told("second", 1),
    Step::Ack(1),
    Step::Told("told", 0),
];

/// A Message under the tag `b` that asks to be acknowledged as `y`.
const OTHER: &[u8] = b"\x94\xa1b\x01\x80\x81\xa5chunk\xa1y";

/// Two outputs: each tag goes to the first that takes it, and a source is told by its own server.
/// The second one acknowledges first.
const OUTPUTS: &[Step] = &[
    Step::Source(MESSAGE),
    Step::Send(0, OTHER),
    Step::Accept(0),
    Step::Accept(1),
    Step::Told("first", 1),
    Step::Told("second", 2),
    Step::Ack(2),
    Step::Told("told_first", 0),
    Step::Ack(1),
    Step::Told("told_then", 0),
];

/// The PING of the first source, whose hostname is `client`. Its digest is the SHA-512 of its salt,
/// its hostname, the nonce of the relay's first HELO (the first 16 bytes of the key stream of the
/// key of zeros, RFC 8439) and `secret`.
const PING: &[u8] = b"\x96\xa4PING\xa6client\xb0the salt of one.\xd9\x80\
    c5e6c0dce400041f545b5e7fb9545b3c95b135756be8e85f87b2005b3a6ef926\
    4b631befbf5531a69159205fd51bb5eccb363604b052b0165e9d74fc00f573d6\xa0\xa0";

/// The server's HELO.
const HELO: &[u8] =
    b"\x92\xa4HELO\x83\xa5nonce\xc4\x10 fox jumps over \xa4auth\xa0\xa9keepalive\xc3";

/// The PONG of the server, whose hostname is `server`. Its digest is the SHA-512 of the salt that
/// the relay draws first, `server`, the nonce of the server's HELO and `secret`.
const PONG: &[u8] = b"\x95\xa4PONG\xc3\xa0\xa6server\xd9\x80\
    b1d5c4c5e1d5132cc01c19e660362e763566cc498a1a3c48ac59a0a00c791df4\
    58c9576efa8f5ec0dcadf46a9729f622410bbaac46be15d7e90f19e63d1309dc";

/// A PING with no digest.
const DENIED: &[u8] = b"\x96\xa4PING\xa6client\xa0\xa0\xa0\xa0";

/// The front of a PING, whose hostname has as many bytes (0xfffff1) as leave one for each of the
/// four values behind it: 16,777,216 with these.
const ENDLESS: &[u8] = b"\x96\xa4PING\xdb\x00\xff\xff\xf1";

/// The same of one byte more, so that no continuation is a value.
const TOO_LONG: &[u8] = b"\x96\xa4PING\xdb\x00\xff\xff\xf2";

/// A shared key on both sides: the relay lets a source in, and is let in by a server. Beside them a
/// stranger without the key is closed, and so is one whose PING is too long; one whose PING does
/// not end is neither told anything nor closed until it sent more than the 4,096 bytes that may
/// wait of it.
const KEYS: &[Step] = &[
    Step::Source(b""),
    Step::Told("helo", 0),
    Step::Send(0, PING),
    Step::Told("pong", 0),
    Step::Send(0, MESSAGE),
    Step::Accept(0),
    Step::Send(1, HELO),
    Step::Told("ping", 1),
    Step::Send(1, PONG),
    Step::Told("frame", 1),
    Step::Ack(1),
    Step::Told("told", 0),
    Step::Source(b""),
    Step::Skip(2),
    Step::Send(2, DENIED),
    Step::Told("denied", 2),
    Step::Rest("behind", 2),
    Step::Source(b""),
    Step::Skip(3),
    Step::Send(3, TOO_LONG),
    Step::Rest("too_long", 3),
    Step::Source(b""),
    Step::Skip(4),
    Step::Send(4, ENDLESS),
    Step::Fill(4, 4_096 - 11),
    Step::Round("beside", 0, 1),
    Step::Silent("endless_waits", 4),
    Step::Send(4, b"a"),
    Step::Rest("endless", 4),
    Step::Round("behind", 0, 1),
];

/// A server closes in the middle of a frame and is gone, and a standby acknowledges the chunk.
const STANDBY: &[Step] = &[
    Step::Source(MESSAGE),
    Step::Accept(0),
    Step::Front("read", 1, 9),
    Step::Close(1),
    Step::Leave(0),
    Step::Accept(1),
    Step::Told("frame", 2),
    Step::Ack(2),
    Step::Told("told", 0),
];

/// A server is down at the start, and its standby serves; it comes once the standby is gone.
const LATE: &[Step] = &[
    Step::Leave(0),
    Step::Source(MESSAGE),
    Step::Accept(1),
    Step::Told("standby", 1),
    Step::Ack(1),
    Step::Close(1),
    Step::Leave(1),
    Step::Told("told", 0),
    Step::Return(0),
    Step::Send(0, MESSAGE),
    Step::Accept(0),
    Step::Told("late", 2),
    Step::Ack(2),
    Step::Told("told_again", 0),
];

/// The acknowledgement of the output's second chunk, and the bool `true`.
const OTHER_ACK: &[u8] = b"\x81\xa3ack\xb8AAAAAAAAAAAAAAAAAAAAAg==";

const TRUE: &[u8] = b"\xc3";

/// A server lies: it names another chunk, says what is no acknowledgement, and at last says the
/// right name twice. Each lie costs it its connection, with nothing further said to it, and no
/// source is told by one.
const LIAR: &[Step] = &[
    Step::Source(MESSAGE),
    Step::Accept(0),
    Step::Told("other", 1),
    Step::Send(1, OTHER_ACK),
    Step::Rest("behind", 1),
    Step::Accept(0),
    Step::Told("no_ack", 2),
    Step::Send(2, TRUE),
    Step::Rest("behind", 2),
    Step::Silent("silent", 0),
    Step::Accept(0),
    Step::Told("twice", 3),
    Step::Acks(3, &[0, 0]),
    Step::Rest("behind", 3),
    Step::Told("told", 0),
    Step::Send(0, MESSAGE),
    Step::Accept(0),
    Step::Told("honest", 4),
    Step::Ack(4),
    Step::Told("told_again", 0),
];

/// A source closes in the middle of a request, while another goes on in pieces; and a server closes
/// in the middle of a frame, and takes a second connection.
const PIECES: &[Step] = &[
    Step::Source(TORN),
    Step::Source(b"\x94\xa1a\x01\x80"),
    Step::Close(0),
    Step::Send(1, b"\x81\xa5chunk\xa1x"),
    Step::Accept(0),
    Step::Told("frame", 2),
    Step::Ack(2),
    Step::Told("told", 1),
    Step::Send(1, MESSAGE),
    Step::Front("torn", 2, 9),
    Step::Close(2),
    Step::Accept(0),
    Step::Told("frame", 3),
    Step::Ack(3),
    Step::Told("told", 1),
];

/// A request, and the byte that no value begins with.
const FAULTY: &[u8] = b"\x94\xa1a\x01\x80\x81\xa5chunk\xa1x\xc1";

/// A fault behind a good request in one piece: the request's entries are sent, and the source is
/// closed and told nothing. Another one goes on.
const FAULT: &[Step] = &[
    Step::Source(FAULTY),
    Step::Rest("told", 0),
    Step::Accept(0),
    Step::Told("frame", 1),
    Step::Ack(1),
    Step::Source(b""),
    Step::Round("next", 2, 1),
];

/// A relay that takes two sources at a time, and its monitor's page. A third source is closed; one
/// that comes once another is gone stands, also where that one sent bytes and was gone at once: the
/// system tells of both together, and not again. The page is told behind what came before it.
const LIMITS: &[Step] = &[
    Step::Source(b""),
    Step::Source(b""),
    Step::Silent("first_stands", 0),
    Step::Silent("second_stands", 1),
    Step::Source(b""),
    Step::Rest("third", 2),
    Step::Close(1),
    Step::Monitor(PAGE),
    Step::Text("page", 3),
    Step::Source(b""),
    Step::Silent("next_stands", 4),
    Step::Close(4),
    Step::Source(TORN),
    Step::Close(5),
    Step::Monitor(PAGE),
    Step::Text("page", 6),
    Step::Source(b""),
    Step::Silent("behind_a_parting", 7),
];

/// A head for another target, and bytes of which the last makes that nothing is a head any more.
const TARGET: &[u8] = b"GET /counts HTTP/1.1\r\nHost: relay\r\n\r\n";

const NONE: &[u8] = b"GET / HTTP/2";

/// Sixteen monitors at a time: one more is closed and told nothing, and there is room again once
/// one is gone. Each status of what they are told, for heads in one piece and in pieces of a byte.
const MONITORS: &[Step] = &[
    Step::Monitors(16),
    Step::Turn("sixteen"),
    Step::Monitor(b""),
    Step::Rest("seventeenth", 16),
    Step::Pages("first", 0, 1),
    Step::Monitor(PAGE),
    Step::Text("next", 17),
    Step::Pages("others", 1, 15),
    Step::Monitor(b""),
    Step::Pieces(18, PAGE),
    Step::Text("by_bytes", 18),
    Step::Monitor(TARGET),
    Step::Text("target", 19),
    Step::Monitor(b""),
    Step::Pieces(20, TARGET),
    Step::Text("by_bytes", 20),
    Step::Monitor(NONE),
    Step::Text("none", 21),
    Step::Monitor(b""),
    Step::Pieces(22, NONE),
    Step::Text("by_bytes", 22),
];

/// Hostile peers, and beside each a good source, whose request is acknowledged. A head of a request
/// to a monitor, of 8,191 bytes, has no end: one more is too many.
const HOSTILE: &[Step] = &[
    Step::Source(MESSAGE),
    Step::Accept(0),
    Step::Told("frame", 1),
    Step::Ack(1),
    Step::Told("told", 0),
    Step::Random("random"),
    Step::Source(b""),
    Step::Round("beside_random", 2, 1),
    Step::Monitor(b"GET / HTTP/1.1\r\nHost: "),
    Step::Fill(3, 8_191 - 22),
    Step::Silent("head_waits", 3),
    Step::Send(3, b"a"),
    Step::Text("head", 3),
    Step::Source(b""),
    Step::Round("beside_head", 4, 1),
];

/// A source that asks to be told and reads nothing: the relay stops to read it, and goes on beside
/// it. Once it reads it is told all.
const UNREAD: &[Step] = &[
    Step::Source(b""),
    Step::Flood("stops", 0),
    Step::Turn("beside"),
    Step::Drain("told", 0),
];

/// A request under a tag that no output takes: its source is closed and told nothing, and another
/// source goes on.
const UNROUTED: &[Step] = &[
    Step::Source(MESSAGE),
    Step::Accept(0),
    Step::Told("frame", 1),
    Step::Ack(1),
    Step::Told("told", 0),
    Step::Source(OTHER),
    Step::Rest("unrouted", 2),
    Step::Round("next", 0, 1),
];

/// A request that its output has no room for: its source is closed and told nothing. Once the
/// entries before it are acknowledged there is room again.
const FULL: &[Step] = &[
    Step::Source(MESSAGE),
    Step::Accept(0),
    Step::Told("frame", 1),
    Step::Source(MESSAGE),
    Step::Rest("refused", 2),
    Step::Ack(1),
    Step::Told("told", 0),
    Step::Source(b""),
    Step::Round("next", 3, 1),
];

/// Sources that reset their connections, since they have not read all that came, at a relay that
/// takes two at a time: one in the middle of a request, and one that is owed an answer. The relay
/// goes on, and gives their places to others.
const RESET: &[Step] = &[
    Step::Source(EMPTY),
    Step::Front("read", 0, 1),
    Step::Send(0, TORN),
    Step::Close(0),
    Step::Turn("within"),
    Step::Source(EMPTY),
    Step::Front("read", 1, 1),
    Step::Send(1, MESSAGE),
    Step::Accept(0),
    Step::Told("frame", 2),
    Step::Close(1),
    Step::Turn("owed"),
    Step::Ack(2),
    Step::Source(b""),
    Step::Round("next", 3, 2),
];

/// A Message under the tag `a` that asks for nothing.
const PLAIN_MESSAGE: &[u8] = b"\x93\xa1a\x01\x80";

/// A relay that takes one source at a time runs for its turns: that source is closed at a byte that
/// no value begins with, and one too many at once. Its server closes before it serves.
const TOLD: &[Step] = &[
    Step::Source(PLAIN_MESSAGE),
    Step::Source(b""),
    Step::Rest("too_many", 1),
    Step::Send(0, RESERVED),
    Step::Rest("told", 0),
    Step::Shut(0),
    Step::Accept(0),
    Step::Told("frame", 2),
    Step::Ack(2),
    Step::Pause(100),
];

/// Two servers, of which the second is a standby.
const WITH_STANDBY: Output = Output {
    roles: [Role::Primary, Role::Standby, Role::None],
    ..PLAIN
};

/// The scenes.
pub static SCENES: [Scene; 17] = [
    Scene {
        title: "the whole way",
        host: 2,
        play: Play::Steps(WHOLE_WAY),
        ..SCENE
    },
    Scene {
        title: "a request in two chunks",
        host: 3,
        play: Play::Steps(SPLIT),
        ..SCENE
    },
    Scene {
        title: "two outputs",
        host: 4,
        outputs: &[
            Output {
                pattern: "a",
                ..PLAIN
            },
            Output {
                roles: [Role::None, Role::Primary, Role::None],
                ..PLAIN
            },
        ],
        play: Play::Steps(OUTPUTS),
        ..SCENE
    },
    Scene {
        title: "a shared key on both sides",
        host: 5,
        keys: KEYED,
        outputs: &[Output {
            keys: "chunk_limit = 2\nretry_wait = 1\nshared_key = \"secret\"\n",
            ..PLAIN
        }],
        play: Play::Steps(KEYS),
        ..SCENE
    },
    Scene {
        title: "a standby",
        host: 6,
        outputs: &[WITH_STANDBY],
        play: Play::Steps(STANDBY),
        ..SCENE
    },
    Scene {
        title: "a server that comes late",
        host: 7,
        outputs: &[WITH_STANDBY],
        play: Play::Steps(LATE),
        ..SCENE
    },
    Scene {
        title: "a server that lies",
        host: 8,
        play: Play::Steps(LIAR),
        ..SCENE
    },
    Scene {
        title: "a torn request and a torn frame",
        host: 9,
        play: Play::Steps(PIECES),
        ..SCENE
    },
    Scene {
        title: "a fault behind a good request",
        host: 10,
        play: Play::Steps(FAULT),
        ..SCENE
    },
    Scene {
        title: "two sources at a time",
        host: 11,
        sources: 2,
        is_of_one: true,
        play: Play::Steps(LIMITS),
        ..SCENE
    },
    Scene {
        title: "sixteen monitors at a time",
        host: 12,
        play: Play::Steps(MONITORS),
        ..SCENE
    },
    Scene {
        title: "hostile peers",
        host: 13,
        play: Play::Steps(HOSTILE),
        ..SCENE
    },
    Scene {
        title: "a source that does not read",
        host: 14,
        play: Play::Steps(UNREAD),
        ..SCENE
    },
    Scene {
        title: "a tag that no output takes",
        host: 18,
        outputs: &[Output {
            pattern: "a",
            ..PLAIN
        }],
        play: Play::Steps(UNROUTED),
        ..SCENE
    },
    Scene {
        title: "a full output",
        host: 19,
        outputs: &[Output {
            keys: "chunk_limit = 2\nretry_wait = 1\ntotal_limit = 5\n",
            ..PLAIN
        }],
        play: Play::Steps(FULL),
        ..SCENE
    },
    Scene {
        title: "sources that reset",
        host: 20,
        sources: 2,
        play: Play::Steps(RESET),
        ..SCENE
    },
    Scene {
        title: "a run of so many turns",
        host: 16,
        sources: 1,
        play: Play::Steps(TOLD),
        turns: Some(200),
        said: &[
            Said::Listening,
            Said::OverLimit,
            Said::IsLost,
            Said::FirstLost,
            Said::Returns,
            Said::IsChanged,
            Said::Others,
        ],
        ..SCENE
    },
];
