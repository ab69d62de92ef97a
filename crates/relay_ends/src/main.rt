//! How the program's runs end, what they write and what they tell, over writers that take all, that
//! cannot be flushed, or that are full.
#![tactic(auto)]

mod ends;

fn main(rt: HostRuntime) {
    ends::say_ends(&rt);
}
