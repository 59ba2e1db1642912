// The work that is timed on a grid 64x64: one heap of a million grains, or single drops on a full grid.
#![tactic(auto)]

use anyhow::anyhow;
use board::Board;
use board::grid::Grid;
use refusal::Part;
use settling::settle::settle;
use std::env;

const SITES: usize = 4096;

// A grid with its heights, and the memory that settling needs.
#[derive(Drop)]
struct Table {
    grid: Grid,
    heights: [u64; SITES],
    waiting: [usize; SITES],
    marks: [u8; SITES],
}

impl Table {
    // The firings of one settling; 0 where it is refused.
    fn fired(&mut self) -> u64 {
        settle(
            &self.grid,
            &mut self.heights,
            &mut self.waiting,
            &mut self.marks,
            1_000_000_000,
            Part::Group,
        )
        .map_or(0, |outcome| outcome.fired)
    }

    // Settles after each of so many drops of one grain, and adds up the firings.
    fn drops(&mut self, many: u32) -> u64 {
        let mut seed: u32 = 1;
        let mut sum: u64 = 0;
        for _ in 0..many {
            seed = seed.wrapping_mul(1_664_525).wrapping_add(1_013_904_223);
            // by as: a `u32` has no `From` into `usize`
            let v = (seed / 1_048_576) as usize;
            if let Some(h) = self.heights.get_mut(v) {
                *h = h.wrapping_add(1);
            }
            sum = sum.wrapping_add(self.fired());
        }
        sum
    }
}

fn main(rt: HostRuntime) -> anyhow::Result<()> {
    let mut table = Table {
        grid: Grid::new(64, 64)?,
        heights: [0; SITES],
        waiting: [0; SITES],
        marks: [0; SITES],
    };
    let mut args = env::args(&rt)?;
    let Some(_) = args.next() else {
        return Err(anyhow!("no name"));
    };
    let sum = match args.next() {
        None => {
            table.heights[2080] = 1_000_000;
            table.fired()
        }
        Some(word) => {
            let Ok(many) = word.parse::<u32>() else {
                return Err(anyhow!("not a number"));
            };
            table.heights.fill(3);
            table.drops(many)
        }
    };
    println!(rt; "{sum}")?;
    Ok(())
}
