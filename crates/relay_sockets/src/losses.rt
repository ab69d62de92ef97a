//! Scenes of servers that are lost, and come back: which server a worker goes to behind the loss of
//! a chunk, back to its primary, behind a server that closes each connection, and where a
//! connection is not answered.

use crate::frame::MESSAGE;
use crate::polled_server::Mood::{Closes, Serves};
use crate::run_events::Said;
use crate::scene::{Play, SCENE, Scene};
use crate::step::Step;
use crate::test_relay::{Output, PLAIN, Role};

/// A primary and a standby.
const ONE: [Role; 3] = [Role::Primary, Role::Standby, Role::None];

/// Two primaries and a standby.
const TWO: [Role; 3] = [Role::Primary, Role::Primary, Role::Standby];

/// Nothing is to be lost: a loss would hold the scene up.
const NO_LOSS: &str = "chunk_limit = 2\nretry_wait = 60000\n";

/// Behind its loss the chunk goes to the standby. The next one goes to the primary once more, whose
/// wait is over, and then to the standby.
const CLOSING: &[Step] = &[
    Step::Source(MESSAGE),
    Step::Shut(0),
    Step::Accept(1),
    Step::Told("frame", 1),
    Step::Ack(1),
    Step::Told("told", 0),
    Step::Send(0, MESSAGE),
    Step::Shut(0),
    Step::Accept(1),
    Step::Told("again", 2),
    Step::Ack(2),
    Step::Told("told_again", 0),
];

/// Behind its loss the chunk goes to the standby, and to no server before.
const CLOSING_ONCE: &[Step] = &[
    Step::Source(MESSAGE),
    Step::Shut(0),
    Step::Accept(1),
    Step::Told("frame", 1),
    Step::Ack(1),
    Step::Told("told", 0),
];

/// The standby serves once, and is left with its connection standing. The primary is back for
/// longer than it waits: its losses double the wait at each try.
const RETURNING: &[Step] = &[
    Step::Leave(0),
    Step::Source(MESSAGE),
    Step::Accept(1),
    Step::Told("frame", 1),
    Step::Ack(1),
    Step::Told("told", 0),
    Step::Return(0),
    Step::Pause(1_500),
    Step::Send(0, MESSAGE),
    Step::Accept(0),
    Step::Told("primary", 2),
    Step::Ack(2),
    Step::Told("told_again", 0),
    Step::Rest("left", 1),
];

/// A server takes a connection for each chunk, serves it and closes.
const PARTING: &[Step] = &[
    Step::Source(MESSAGE),
    Step::Accept(0),
    Step::Told("frame", 1),
    Step::Ack(1),
    Step::Close(1),
    Step::Told("told", 0),
    Step::Send(0, MESSAGE),
    Step::Accept(0),
    Step::Told("frame", 2),
    Step::Ack(2),
    Step::Close(2),
    Step::Told("told", 0),
    Step::Send(0, MESSAGE),
    Step::Accept(0),
    Step::Told("frame", 3),
    Step::Ack(3),
    Step::Close(3),
    Step::Told("told", 0),
];

/// The chunk waits for the primary's answer, is not lost, and goes to the standby, in the 5 seconds
/// that a worker waits, and as long again for a busy machine.
const SILENT: &[Step] = &[
    Step::Crowd(0),
    Step::Start,
    Step::Source(MESSAGE),
    Step::Accept(1),
    Step::Told("standby", 1),
    Step::Ack(1),
    Step::Told("told", 0),
    Step::Within("in_time", 10_000),
];

/// Two chunks, one for each worker: one waits with its chunk for its primary's answer, and the
/// other one goes on meanwhile, for far longer than an idle worker takes to look for a chunk.
const SILENT_BESIDE: &[Step] = &[
    Step::Crowd(0),
    Step::Start,
    Step::Source(MESSAGE),
    Step::Send(0, MESSAGE),
    Step::Accept(1),
    Step::Pause(1_000),
    Step::Skip(1),
    Step::Ack(1),
    Step::Told("told", 0),
    Step::Source(b""),
    Step::Round("beside", 2, 1),
    Step::Round("beside", 2, 1),
    Step::Round("beside", 2, 1),
    Step::Within("soon", 4_000),
];

/// A chunk goes to one primary, to the other and to the standby, whose session is not left in the
/// middle of it for a primary that may be tried again. The next one leaves the session that stands,
/// and comes to the standby again.
const TO_STANDBY: &[Step] = &[
    Step::Source(MESSAGE),
    Step::Shut(0),
    Step::Shut(1),
    Step::Accept(2),
    Step::Told("frame", 1),
    Step::Silent("stays", 1),
    Step::Ack(1),
    Step::Told("told", 0),
    Step::Send(0, MESSAGE),
    Step::Seek(2),
    Step::Told("again", 2),
    Step::Ack(2),
    Step::Told("told_again", 0),
    Step::Rest("left", 1),
];

/// A chunk goes to the first primary and to the second, and so does the next one, for which the
/// session that stands is left. The standby is not connected to.
const TO_NEXT: &[Step] = &[
    Step::Source(MESSAGE),
    Step::Shut(0),
    Step::Accept(1),
    Step::Told("frame", 1),
    Step::Ack(1),
    Step::Told("told", 0),
    Step::Send(0, MESSAGE),
    Step::Shut(0),
    Step::Accept(1),
    Step::Told("frame", 2),
    Step::Ack(2),
    Step::Told("told", 0),
    Step::Rest("left", 1),
    Step::Unmet("unmet", 2),
];

/// What is said of a primary that is lost, of one that comes back, and of one of two.
const ONE_LOST: &[Said] = &[Said::Losses, Said::IsUnreached, Said::Returns];

const ONE_BACK: &[Said] = &[Said::IsUnreached, Said::Returns];

const OF_TWO: &[Said] = &[Said::IsLost, Said::IsChanged, Said::IsBack];

/// The same of two workers, of which only one may come to the server that is lost, and it may go to
/// no other one.
const OF_TWO_WORKERS: &[Said] = &[Said::IsLost, Said::IsBack];

/// A scene of a primary and a standby.
const WITH_ONE: Scene = Scene {
    is_counted: false,
    said: ONE_LOST,
    ..SCENE
};

/// A scene of two primaries and a standby.
const WITH_TWO: Scene = Scene {
    is_counted: false,
    said: OF_TWO,
    ..SCENE
};

/// The scenes.
pub static LOSSES: [Scene; 16] = [
    Scene {
        title: "a primary that accepts and closes",
        host: 21,
        outputs: &[Output {
            keys: "chunk_limit = 2\nretry_wait = 200\n",
            roles: ONE,
            ..PLAIN
        }],
        play: Play::Steps(CLOSING),
        ..WITH_ONE
    },
    Scene {
        title: "a primary that accepts and closes, two workers",
        host: 22,
        outputs: &[Output {
            keys: "chunk_limit = 2\nretry_wait = 200\nworkers = 2\n",
            roles: ONE,
            ..PLAIN
        }],
        play: Play::Steps(CLOSING_ONCE),
        ..WITH_ONE
    },
    Scene {
        title: "a primary that comes back",
        host: 23,
        outputs: &[Output {
            roles: ONE,
            ..PLAIN
        }],
        play: Play::Steps(RETURNING),
        said: ONE_BACK,
        ..WITH_ONE
    },
    Scene {
        title: "a server that closes behind each acknowledgement",
        host: 24,
        outputs: &[Output {
            keys: NO_LOSS,
            roles: ONE,
            ..PLAIN
        }],
        play: Play::Steps(PARTING),
        ..WITH_ONE
    },
    Scene {
        title: "a primary that does not answer",
        host: 25,
        outputs: &[Output {
            keys: NO_LOSS,
            roles: ONE,
            ..PLAIN
        }],
        play: Play::Steps(SILENT),
        ..WITH_ONE
    },
    Scene {
        title: "a primary that does not answer beside a good one, two workers",
        host: 40,
        outputs: &[Output {
            keys: "chunk_limit = 2\nretry_wait = 60000\nworkers = 2\n",
            roles: [Role::Primary, Role::Primary, Role::None],
            ..PLAIN
        }],
        play: Play::Steps(SILENT_BESIDE),
        ..WITH_ONE
    },
    Scene {
        title: "two primaries that accept and close",
        host: 26,
        outputs: &[Output {
            keys: "chunk_limit = 2\nretry_wait = 1000\nretry_max = 60000\n",
            roles: TWO,
            ..PLAIN
        }],
        play: Play::Alone([Closes, Closes, Serves]),
        ..WITH_TWO
    },
    Scene {
        title: "two primaries that accept and close, two workers",
        host: 27,
        outputs: &[Output {
            keys: "chunk_limit = 2\nretry_wait = 1000\nretry_max = 60000\nworkers = 2\n",
            roles: TWO,
            ..PLAIN
        }],
        play: Play::Alone([Closes, Closes, Serves]),
        ..WITH_TWO
    },
    Scene {
        title: "to the standby behind two primaries",
        host: 34,
        outputs: &[Output {
            keys: "chunk_limit = 2\nretry_wait = 2500\nretry_max = 60000\n",
            roles: TWO,
            ..PLAIN
        }],
        play: Play::Steps(TO_STANDBY),
        ..WITH_TWO
    },
    Scene {
        title: "a primary that accepts and closes beside a good one",
        host: 28,
        outputs: &[Output {
            keys: "chunk_limit = 2\nretry_wait = 1000\nretry_max = 60000\n",
            roles: TWO,
            ..PLAIN
        }],
        play: Play::Alone([Closes, Serves, Serves]),
        ..WITH_TWO
    },
    Scene {
        title: "a primary that accepts and closes beside a good one, two workers",
        host: 29,
        outputs: &[Output {
            keys: "chunk_limit = 2\nretry_wait = 1000\nretry_max = 60000\nworkers = 2\n",
            roles: TWO,
            ..PLAIN
        }],
        play: Play::Alone([Closes, Serves, Serves]),
        said: &[Said::IsBack],
        ..WITH_TWO
    },
    Scene {
        title: "to the next primary behind the first",
        host: 35,
        outputs: &[Output {
            keys: "chunk_limit = 2\nretry_wait = 2500\nretry_max = 60000\n",
            roles: TWO,
            ..PLAIN
        }],
        play: Play::Steps(TO_NEXT),
        ..WITH_TWO
    },
    Scene {
        title: "two primaries that die under traffic and come back",
        host: 30,
        outputs: &[Output {
            keys: "chunk_limit = 14\nretry_wait = 100\nretry_max = 400\n",
            roles: TWO,
            ..PLAIN
        }],
        play: Play::Deaths(true),
        ..WITH_TWO
    },
    Scene {
        title: "two primaries that die under traffic and come back, two workers",
        host: 31,
        outputs: &[Output {
            keys: "chunk_limit = 14\nretry_wait = 100\nretry_max = 400\nworkers = 2\n",
            roles: TWO,
            ..PLAIN
        }],
        play: Play::Deaths(true),
        said: OF_TWO_WORKERS,
        ..WITH_TWO
    },
    Scene {
        title: "a primary that dies under traffic and comes back",
        host: 32,
        outputs: &[Output {
            keys: "chunk_limit = 14\nretry_wait = 100\nretry_max = 400\n",
            roles: TWO,
            ..PLAIN
        }],
        play: Play::Deaths(false),
        ..WITH_TWO
    },
    Scene {
        title: "a primary that dies under traffic and comes back, two workers",
        host: 33,
        outputs: &[Output {
            keys: "chunk_limit = 14\nretry_wait = 100\nretry_max = 400\nworkers = 2\n",
            roles: TWO,
            ..PLAIN
        }],
        play: Play::Deaths(false),
        said: OF_TWO_WORKERS,
        ..WITH_TWO
    },
];
