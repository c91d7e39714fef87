// Trials: plays the scripts that its arguments name, over every heap and rack.
#![tactic(auto)]

use playing::play::play_all;
use std::env;

fn run(rt: &HostRuntime) -> anyhow::Result<()> {
    let names: Vec<String> = env::args(rt)?.skip(1).collect(rt.alloc())?;
    play_all(rt, names.as_slice())
}

fn main(rt: HostRuntime) -> anyhow::Result<()> {
    run(&rt)
}
