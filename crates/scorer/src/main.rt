// The scorer's program: lists modules, or plays scripts, as its arguments say.
#![tactic(auto)]

use listing::listing::list_all;
use playing::play::play_all;
use std::env;

const USAGE: &str = "scorer lists scoring modules, and plays scripts of calls on a heap and a rack.

    scorer list MODULE..
    scorer play SCRIPT..

A MODULE is a text file of comma-separated values: its first line names the
columns op, d, a, b and n in any order, and each later line is one operation.
For each module, in the order given, scorer prints how many operations it has
and then each of them with its position and line; or else why it is refused.

A SCRIPT is a text file with a call on each line; blank lines and lines that
begin with # are passed over. For each call scorer prints the line and what the
call answers.

    heap HEAP                a new heap: best-fit or slots, after quarantine
                             once, twice or not at all
    rack RACK                a new rack: stack or ring
    take N, give S, holds S  ask the heap for N bytes, give back the block
                             that starts at S, or ask how many bytes it holds
    draw, put P              draw a place from the rack, or put place P back
    clear                    clear the heap and the rack
    sheet                    show the heap's blocks and gaps by address
";

// What the words ask for.
enum Task<'a> {
    List(&'a [String]),
    Play(&'a [String]),
    Help,
}

// `list` or `play` and at least one name; else how the program is used.
fn asked_for(words: &[String]) -> Task<'_> {
    match words {
        [command, names @ ..] if !names.is_empty() => match command.as_str() {
            "list" => Task::List(names),
            "play" => Task::Play(names),
            _ => Task::Help,
        },
        _ => Task::Help,
    }
}

fn run(rt: &HostRuntime) -> anyhow::Result<()> {
    let words: Vec<String> = env::args(rt)?.skip(1).collect(rt.alloc())?;
    match asked_for(words.as_slice()) {
        Task::List(names) => list_all(rt, names)?,
        Task::Play(names) => play_all(rt, names)?,
        Task::Help => rt.print(USAGE)?,
    }
    Ok(())
}

fn main(rt: HostRuntime) -> anyhow::Result<()> {
    run(&rt)
}
