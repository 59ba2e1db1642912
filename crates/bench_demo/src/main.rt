// Plays small lists of calls, and judges small certificates: a line for each answer.
#![tactic(auto)]

use bench::{GrainDrop, Record, Records, SiteMemory};
use board::grid::Grid;
use board::list::LinkList;
use board::{Board, End};
use certificate::certify;
use play::{Answer, Call, play};
use refusal::{Part, Refusal};
use std::fmt;

// The most sites and calls that are played here.
const MOST: usize = 4;

const CALLS: usize = 10;

const EMPTY: Record = Record {
    number: 0,
    dropped: None,
    size: 0,
    area: 0,
    drained: 0,
};

// A record's line: number, site and grains of its drop (`* 0` for none), size, area, drained.
#[derive(Clone, Copy)]
struct RecordLine(Record);

impl fmt::Display for RecordLine {
    fn fmt<W: fmt::Write>(&self, f: &mut fmt::Formatter<W>) -> fmt::Result {
        let r = self.0;
        write!(f, "s {} ", r.number)?;
        match r.dropped {
            Some(d) => write!(f, "{} {}", d.site, d.grains)?,
            None => f.write_str("* 0")?,
        }
        write!(f, " {} {} {}", r.size, r.area, r.drained)
    }
}

// A refusal's line: its row and place.
#[derive(Clone, Copy)]
struct RefusalLine(Refusal);

impl fmt::Display for RefusalLine {
    fn fmt<W: fmt::Write>(&self, f: &mut fmt::Formatter<W>) -> fmt::Result {
        write!(f, "! {} {}", u8::from(self.0.row), self.0.place)
    }
}

// A call's line: its letter and what it answers, or the refusal.
#[derive(Clone, Copy)]
struct AnswerLine {
    call: Call,
    answer: Answer,
}

impl fmt::Display for AnswerLine {
    fn fmt<W: fmt::Write>(&self, f: &mut fmt::Formatter<W>) -> fmt::Result {
        let letter = self.call.letter();
        match self.answer {
            Answer::Opened(n) | Answer::Waved(n) | Answer::Put(n) => write!(f, "{letter} {n}"),
            Answer::Fired(site) => write!(f, "{letter} {site}"),
            Answer::Ran(run) => write!(f, "{letter} {} {}", run.fired, run.word),
            Answer::Closed(record) => write!(f, "{}", RecordLine(record)),
            Answer::Refused(refusal) => write!(f, "{}", RefusalLine(refusal)),
        }
    }
}

// The line of what lies on the sites.
#[derive(Clone, Copy)]
struct HeightsLine<'a>(&'a [u64]);

impl fmt::Display for HeightsLine<'_> {
    fn fmt<W: fmt::Write>(&self, f: &mut fmt::Formatter<W>) -> fmt::Result {
        f.write_str("z")?;
        for height in self.0 {
            write!(f, " {height}")?;
        }
        Ok(())
    }
}

// A play from these heights, and what lies on the sites at its end; or the refusal of its creation.
fn played<B: Board>(
    rt: &HostRuntime,
    board: &B,
    start: &[u64],
    ceiling: u64,
    calls: &[Call],
) -> anyhow::Result<()> {
    let heap = rt.alloc();
    let mut heights = Vec::new(heap);
    heights.extend_from_slice(start)?;
    let memory = SiteMemory {
        heights,
        counts: vec![in heap; 0; start.len()]?,
        opened: vec![in heap; 0; start.len()]?,
    };
    let mut answers = vec![in heap; Answer::Put(0); calls.len()]?;
    let mut slots = [EMPTY; CALLS];
    let mut records = Records::new(&mut slots);
    let mut waiting = [0; MOST];
    let mut bytes = [0; MOST];
    match play(
        board,
        memory,
        ceiling,
        calls,
        &mut answers,
        &mut records,
        &mut waiting,
        &mut bytes,
        Part::Sheet,
    ) {
        Ok(bench) => {
            for (call, answer) in calls.iter().zip(&answers) {
                let line = AnswerLine {
                    call: *call,
                    answer: *answer,
                };
                println!(rt; "{line}")?;
            }
            println!(rt; "{}", HeightsLine(bench.heights()))?;
        },
        Err((refusal, _memory)) => println!(rt; "{}", RefusalLine(refusal))?,
    }
    Ok(())
}

// The verdict on a certificate of the board.
fn judged<B: Board>(
    rt: &HostRuntime,
    board: &B,
    start: &[u64],
    counts: &[u64],
    end: &[u64],
) -> anyhow::Result<()> {
    let mut waiting = [0; MOST];
    let mut bytes = [0; MOST];
    match certify(board, start, counts, end, &mut waiting, &mut bytes) {
        Ok(()) => println!(rt; "certified")?,
        Err(refusal) => println!(rt; "{}", RefusalLine(refusal))?,
    }
    Ok(())
}

// Five grains on site 0, and four on site 1.
const FIVE: Call = Call::Drop(GrainDrop { site: 0, grains: 5 });

const FOUR: Call = Call::Drop(GrainDrop { site: 1, grains: 4 });

fn on_pair(rt: &HostRuntime) -> anyhow::Result<()> {
    let pair = Grid::new(1, 2)?;
    let calls = [
        Call::Resume,
        Call::Run(1),
        Call::Close,
        Call::Run(9),
        Call::Close,
        FOUR,
        Call::Shelve,
    ];
    played(rt, &pair, &[4, 3], 100, &calls)?;
    played(
        rt,
        &pair,
        &[4, 4],
        100,
        &[Call::Resume, Call::Wave, Call::Close],
    )?;
    judged(rt, &pair, &[4, 3], &[1, 1], &[1, 0])?;
    judged(rt, &pair, &[4, 3], &[1, 0], &[0, 4])?;
    judged(rt, &pair, &[3, 3], &[1, 1], &[0, 0])
}

fn on_site(rt: &HostRuntime) -> anyhow::Result<()> {
    let site = Grid::new(1, 1)?;
    let calls = [
        Call::Resume,
        Call::Run(9),
        Call::Wave,
        Call::Fire(0),
        Call::Close,
    ];
    played(rt, &site, &[8], 1, &calls)?;
    let calls = [
        Call::Resume,
        FIVE,
        Call::Close,
        FIVE,
        Call::Fire(0),
        Call::Shelve,
        Call::Resume,
        Call::Close,
        Call::Shelve,
    ];
    played(rt, &site, &[0], 9, &calls)
}

fn on_list(rt: &HostRuntime) -> anyhow::Result<()> {
    let mut list = LinkList::new(3)?;
    list.add(0, End::Drain, 1)?;
    list.add(2, End::Site(1), 1)?;
    played(rt, &list, &[0, 0, 0], 9, &[Call::Resume])
}

fn main(rt: HostRuntime) -> anyhow::Result<()> {
    on_pair(&rt)?;
    on_site(&rt)?;
    on_list(&rt)
}
