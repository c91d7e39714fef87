// Plays scripts on standard output: a line for each call, with what it answers.
use crate::chosen::{AnyHeap, AnyRack, new_heap, new_rack};
use benches::bench::Bench;
use benches::reply::{Refusal, Reply};
use scripts::command::Command;
use scripts::lines::{Lines, command_in};
use sheets::drawing::{HEAD, RULE, SCALE, bar, heading};
use sheets::sheet::Sheet;
use std::fs;

type AnyBench = Bench<AnyHeap, AnyRack>;

// Each script in turn, from nothing. `listing` says why this and the reading of a file are not one with its own.
pub fn play_all(rt: &HostRuntime, names: &[String]) -> anyhow::Result<()> {
    for name in names {
        play_file(rt, name.as_str())?;
    }
    Ok(())
}

fn play_file(rt: &HostRuntime, name: &str) -> anyhow::Result<()> {
    let Ok(text) = fs::read(rt, name) else {
        println!(rt; "{name}: no file")?;
        return Ok(());
    };
    play_script(rt, &text)
}

fn play_script(rt: &HostRuntime, text: &[u8]) -> anyhow::Result<()> {
    let mut bench = Bench::new();
    for (before, line) in Lines::of(text).enumerate() {
        play_line(rt, &mut bench, before + 1, line)?;
    }
    Ok(())
}

fn play_line(
    rt: &HostRuntime,
    bench: &mut AnyBench,
    number: usize,
    line: &[u8],
) -> anyhow::Result<()> {
    match command_in(line) {
        Ok(Some(command)) => play_command(rt, bench, command)?,
        Ok(None) => {}
        Err(error) => println!(rt; "line {number}: {error}")?,
    }
    Ok(())
}

// A new heap or rack comes in the place of the old one, and is always made; the other calls are the bench's.
fn play_command(rt: &HostRuntime, bench: &mut AnyBench, command: Command) -> anyhow::Result<()> {
    match command {
        Command::Heap(name) => bench.set_heap(new_heap(name)),
        Command::Rack(name) => bench.set_rack(new_rack(name)),
        Command::Sheet => return play_sheet(rt, bench),
        _ => {}
    }
    match bench.perform(command).unwrap_or(Ok(Reply::Done)) {
        Ok(reply) => println!(rt; "{command}: {reply}")?,
        Err(refusal) => println!(rt; "{command}: {refusal}")?,
    }
    Ok(())
}

fn play_sheet(rt: &HostRuntime, bench: &AnyBench) -> anyhow::Result<()> {
    match bench.heap() {
        Some(heap) => print_sheet(rt, heap)?,
        None => println!(rt; "{}: {}", Command::Sheet, Refusal::NoHeap)?,
    }
    Ok(())
}

fn print_sheet(rt: &HostRuntime, heap: &AnyHeap) -> anyhow::Result<()> {
    let sheet = Sheet::of(rt.alloc(), heap)?;
    rt.println(heading(rt.alloc(), &sheet)?)?;
    rt.println(RULE)?;
    rt.println(HEAD)?;
    rt.println(RULE)?;
    for stretch in &sheet.stretches {
        rt.println(*stretch)?;
    }
    rt.println(RULE)?;
    rt.println(bar(rt.alloc(), &sheet.stretches)?)?;
    rt.println(SCALE)?;
    Ok(())
}
