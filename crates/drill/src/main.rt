// One drill over every kind of queue, and the figures that their trials answer, held to this program's `stdout`.
//
// The drill is generic: a ring, a heap, and a wheel on a ring, on a heap and on a wheel go through the same code, and give
// the same keys in the same order. A test: it promises nothing.
#![tactic(auto)]

use anyhow::{Context, ensure};
use chains::Chain;
use heap::Heap;
use queue::Queue;
use ring::Ring;
use wheel::Wheel;

// Enters forty items, then takes the nearest until none waits; every third one waits again, further on.
fn drill<Q: Queue>(rt: &HostRuntime, name: &str, queue: &mut Q) -> anyhow::Result<()> {
    queue.clear();
    for item in 0..40usize {
        let _ = queue.offer(item, (item as u32 * 103) % 64);
    }
    print!(rt; "{name}:")?;
    for turn in 0..80u32 {
        let Some(entry) = queue.least() else {
            break;
        };
        let key = entry.key;
        print!(rt; " {key}")?;
        ensure!(
            queue.take(entry.item).is_ok(),
            "the least item was not taken"
        );
        if turn % 3 == 0 {
            let _ = queue.offer(entry.item, key.saturating_add(60));
        }
    }
    let floor = queue.floor();
    println!(rt; "; floor {floor}")?;
    Ok(())
}

// Offers a key, and tells what came of it.
fn tell<Q: Queue>(rt: &HostRuntime, queue: &mut Q, item: usize, key: u32) -> anyhow::Result<()> {
    match queue.offer(item, key) {
        Ok(offered) => println!(rt; "item {item} at key {key}: {offered:?}")?,
        Err(refusal) => {
            let number = u32::from(refusal);
            println!(rt; "item {item} at key {key}: {number}")?;
        }
    }
    Ok(())
}

// A ring of ten slots with floor 2: key 11 enters, 12 is beyond the band, 1 below the floor.
fn edges(rt: &HostRuntime) -> anyhow::Result<()> {
    let mut slots = [Chain::new(); 10];
    let mut cells = [ring::Cell::new(); 16];
    let mut ring = Ring::new(&mut slots, &mut cells);
    tell(rt, &mut ring, 0, 2)?;
    let _ = ring.take(0);
    for (item, key) in [(1, 11), (2, 12), (3, 1), (16, 1), (1, 5), (1, 9), (1, 12)] {
        tell(rt, &mut ring, item, key)?;
    }
    Ok(())
}

// A wheel on a queue.
fn wheel_on<Q: Queue + Drop>(rt: &HostRuntime, width: u32, below: Q) -> anyhow::Result<Wheel<Q>> {
    Wheel::new(rt.alloc(), width, below)
        .ok()
        .context("no memory")
}

// The wheel that halltable uses: width 64 on a ring of 64 slots.
fn widest(rt: &HostRuntime) -> anyhow::Result<()> {
    let mut slots = [Chain::new(); 64];
    let mut cells = [ring::Cell::new(); 40];
    let wheel = wheel_on(rt, 64, Ring::new(&mut slots, &mut cells))?;
    let band = wheel.band();
    println!(rt; "a wheel of width 64 on a ring of 64 slots: band {band}")?;
    Ok(())
}

// What the trials say: ring, heap and wheel at the edges of their figures.
fn trials(rt: &HostRuntime) -> anyhow::Result<()> {
    for (slots, cells) in [
        (0, 1),
        (1, 0),
        (1, 1),
        (4_096, 1_600),
        (4_097, 1_600),
        (4_096, 1_601),
    ] {
        let fine = ring::trial(slots, cells).is_ok();
        println!(rt; "ring of {slots} slots and {cells} cells: {fine}")?;
    }
    for cells in [0, 1, 1_600, 1_601] {
        let fine = heap::trial(cells).is_ok();
        println!(rt; "heap of {cells} cells: {fine}")?;
    }
    for (width, band) in [
        (0, 0),
        (1, 0),
        (64, 63),
        (65, 63),
        (4_096, 4_095),
        (4_097, 16_777_215),
    ] {
        let fine = wheel::trial(width, band).is_ok();
        println!(rt; "wheel of width {width} on band {band}: {fine}")?;
    }
    Ok(())
}

fn simple(rt: &HostRuntime) -> anyhow::Result<()> {
    let mut slots = [Chain::new(); 128];
    let mut cells = [ring::Cell::new(); 40];
    drill(rt, "ring", &mut Ring::new(&mut slots, &mut cells))?;
    let mut cells = [heap::Cell::new(); 40];
    drill(rt, "heap", &mut Heap::new(&mut cells))
}

fn wheels(rt: &HostRuntime) -> anyhow::Result<()> {
    let mut slots = [Chain::new(); 4];
    let mut cells = [ring::Cell::new(); 40];
    let mut wheel = wheel_on(rt, 4, Ring::new(&mut slots, &mut cells))?;
    let band = wheel.band();
    let capacity = wheel.capacity();
    println!(rt; "a wheel of width 4: band {band}, capacity {capacity}")?;
    drill(rt, "wheel on ring", &mut wheel)?;
    let mut upper = wheel_on(rt, 7, wheel)?;
    drill(rt, "wheel on wheel", &mut upper)?;
    let mut cells = [heap::Cell::new(); 40];
    let mut wheel = wheel_on(rt, 3, Heap::new(&mut cells))?;
    drill(rt, "wheel on heap", &mut wheel)
}

fn main(rt: HostRuntime) -> anyhow::Result<()> {
    simple(&rt)?;
    wheels(&rt)?;
    edges(&rt)?;
    widest(&rt)?;
    trials(&rt)
}
