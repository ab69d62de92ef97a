//! What a run says of each event, by a clock that is set by hand, how its lines are paced, and
//! which environments ask for them.
#![tactic(auto)]

mod asking;
mod events;
mod manual_clock;
mod pacing;

/// Says that another part begins.
fn say_next(rt: &impl Print) {
    let _ = println!(rt; "--");
}

fn main(rt: HostRuntime) {
    events::say_each(&rt);
    say_next(&rt);
    pacing::say_many(&rt);
    say_next(&rt);
    let _ = pacing::say_unwritten(&rt, rt.alloc());
    say_next(&rt);
    asking::say_asked(&rt);
}
