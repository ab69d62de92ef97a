//! A relay over sockets, with sources, servers and a monitor around it, all on this machine, and
//! turns that are made by hand. It prints what holds whatever the order of the threads' turns.
#![tactic(auto)]

mod extremes;
mod frame;
mod losses;
mod manual_turns;
mod peer_connection;
mod polled_server;
mod record;
mod run_events;
mod running;
mod scene;
mod scene_run;
mod scenes;
mod sealed;
mod server;
mod starts;
mod step;
mod test_relay;
mod traffic;
mod transcript;
mod windows;

use crate::scene::play_all;
use anyhow::Result;

/// Says what a part came to.
fn say(rt: &impl Print, text: Result<String>) {
    let _ = match text {
        Ok(text) => print!(rt; "{text}"),
        Err(error) => println!(rt; "failed: {error}"),
    };
}

/// Says what a scene saw, and what it saw with four readers where that is another text.
fn say_both(rt: &impl Print, text: Result<String>, with_four: Result<String>) {
    let is_same = match (&text, &with_four) {
        (Ok(text), Ok(with_four)) => text.as_str() == with_four.as_str(),
        _ => false,
    };
    say(rt, text);
    if !is_same {
        let _ = println!(rt; "with four readers:");
        say(rt, with_four);
    }
}

/// Says what every scene saw.
fn say_scenes(rt: &impl Print, texts: Result<Vec<Result<String>>>) {
    match texts {
        Ok(texts) => {
            for text in texts {
                say(rt, text);
            }
        }
        Err(error) => say(rt, Err(error)),
    }
}

/// Says what every scene saw, and where it was another with four readers.
fn say_both_scenes(
    rt: &impl Print,
    texts: Result<Vec<Result<String>>>,
    with_four: Result<Vec<Result<String>>>,
) {
    match (texts, with_four) {
        (Ok(texts), Ok(with_four)) => {
            for (text, with_four) in texts.into_iter().zip(with_four) {
                say_both(rt, text, with_four);
            }
        }
        (Err(error), _) | (_, Err(error)) => say(rt, Err(error)),
    }
}

/// Says that another part begins.
fn say_next(rt: &impl Print) {
    let _ = println!(rt; "--");
}

fn main(rt: HostRuntime) {
    let with_four = play_all(&rt, &scenes::SCENES, 4);
    say_both_scenes(&rt, play_all(&rt, &scenes::SCENES, 1), with_four);
    say_scenes(&rt, play_all(&rt, &losses::LOSSES, 1));
    say_scenes(&rt, play_all(&rt, &windows::WINDOWS, 1));
    say(&rt, manual_turns::text_of_turns(&rt, 17));
    say_next(&rt);
    say(&rt, starts::text_of_starts(&rt, 15));
}
