//! What a worker's session comes to, told as scripts are: losses, and faults in a window of two.

use crate::relay::{ACCEPT, answers_with, relay_of};
use std::alloc::Global;

/// A chunk goes back unloaded, without a loss, and then loaded, with one each time.
const LOST: &str = "piece 1 93a1610180\nadmit 1 0 0\nflush 0 0 all\nup 0 0 0 - 0\ntake 0 0 0\n\
    end 0 0 kept 0\nup 0 0 0 - 0\ntake 0 0 0\nload 0 0 0\nend 0 0 kept 2000\nup 0 0 0 - 2000\n\
    take 0 0 2499\ntake 0 0 2500\nload 0 0 2500\nend 0 0 kept 2500\nup 0 0 0 - 2500\n\
    take 0 0 3499\ntake 0 0 3500\n";

/// It waits for 500 milliseconds, and after the second loss for 1,000.
const ANSWERS_LOST: &str = "requests 1 out -\nadmitted 1 entries 1\nclosed 1\ndone\n\
    took 1 entries 1\nended 1\ndone\ntook 1 entries 1\n\
    frame 93a161c40392018082a473697a6501a56368756e6b\
    b8414141414141414141414141414141414141414141513d3d\nended 1\ndone\ntook -\n\
    took 1 entries 1\nframe 93a161c40392018082a473697a6501a56368756e6b\
    b8414141414141414141414141414141414141414141513d3d\nended 1\ndone\ntook -\n\
    took 1 entries 1\n";

/// A session may have two chunks, in frames of 46 bytes each.
const WINDOW: &str = "[[output]]\nmatch = \"**\"\nwindow = 2\n[[output.server]]\n\
    address = \"1.2.3.4:1\"\n";

const LOADED: &str = "piece 1 93a161018093a1620180\nadmit 1 0 0\nadmit 1 0 0\nflush 0 0 all\n\
    up 0 0 0 - 0\ntake 0 0 0\nload 0 0 0\ntake 0 0 0\nload 0 0 0\n";

const ANSWERS_LOADED: &str = "requests 2 out -\nadmitted 1 entries 1\nadmitted 2 entries 1\n\
    closed 2\ndone\ntook 1 entries 1\nframe 93a161c40392018082a473697a6501a56368756e6b\
    b8414141414141414141414141414141414141414141513d3d\ntook 2 entries 1\n\
    frame 93a162c40392018082a473697a6501a56368756e6b\
    b8414141414141414141414141414141414141414141673d3d\n";

/// The last byte of the second frame is not sent, and both are acknowledged in one piece. What was
/// accepted before the fault stands.
const SECOND_EARLY: &str = "wrote 0 0 91\n\
    heard 0 0 81a361636bb8414141414141414141414141414141414141414141513d3d\
    81a361636bb8414141414141414141414141414141414141414141673d3d\n\
    settle 0 0\nend 0 0 kept 0\n";

/// A name that was never loaded is an early one where no frame is sent whole, and a wrong one where
/// some frame is.
const NONE_WHOLE: &str = "wrote 0 0 45\n\
    heard 0 0 81a361636bb8414141414141414141414141414141414141414141773d3d\nend 0 0 kept 0\n";

const FIRST_WHOLE: &str = "wrote 0 0 46\n\
    heard 0 0 81a361636bb8414141414141414141414141414141414141414141773d3d\nend 0 0 kept 0\n";

/// Whether a relay of these settings, which a connection came to, answers these lines so.
fn is_told(alloc: Global, settings: &str, story: &[(&str, &str)]) -> bool {
    let Some(mut relay) = relay_of(alloc, settings) else {
        return false;
    };
    let mut is_right = answers_with(alloc, &mut relay, ACCEPT, "accepted out -\n");
    for (lines, answers) in story {
        is_right = is_right && answers_with(alloc, &mut relay, lines, answers);
    }
    is_right
}

#[test]
fn a_lost_chunk_waits(rt: HostRuntime) {
    assert!(rt; is_told(rt.alloc(), "", &[(LOST, ANSWERS_LOST)]));
}

#[test]
fn faults_in_a_window_of_two(rt: HostRuntime) {
    for (lines, answers) in [
        (SECOND_EARLY, "done\nfault EarlyAck\nsettled 1\nended 2\n"),
        (NONE_WHOLE, "done\nfault EarlyAck\nended 1,2\n"),
        (FIRST_WHOLE, "done\nfault WrongAck\nended 1,2\n"),
    ] {
        let story = [(LOADED, ANSWERS_LOADED), (lines, answers)];
        assert!(rt; is_told(rt.alloc(), WINDOW, &story), "{answers}");
    }
}
