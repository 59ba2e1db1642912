// The bench: avalanches on a board, one at a time, each counted firing by firing from its opening to its record.
#![tactic(auto)]

ghost use Rattle.std.specs.Prelude.{◌≡◌, ℕ, ◌+◌, ◌≤◌, vec_len};
ghost use Rattle.board.specs.Shape.{sum_below};
ghost use Rattle.firing.specs.Firing.{at};

mod closing;
mod creating;
mod dropping;
mod firings;
mod moving;
mod phases;
pub mod rows;
mod words;

// Resting: still, the last avalanche is recorded. Open: a ticket is out. Shelved: laid aside, to be resumed.
#[derive(Clone, Copy, PartialEq, Eq, Debug)]
pub enum Phase {
    Resting,
    Open,
    Shelved,
}

// Why a run stopped.
#[derive(Clone, Copy, PartialEq, Eq, Debug)]
pub enum Word {
    Still,
    Ceiling,
    Budget,
}

// How many firings a run made, and why it stopped.
#[derive(Clone, Copy, PartialEq, Eq, Debug)]
pub struct RunOutcome {
    pub fired: u64,
    pub word: Word,
}

// Grains that fall on one site.
#[derive(Clone, Copy, PartialEq, Eq, Debug)]
pub struct GrainDrop {
    pub site: usize,
    pub grains: u64,
}

// An avalanche: its number, its drop (none for avalanche 0), its firings, the sites that fired, the grains it drained.
#[derive(Clone, Copy, PartialEq, Eq, Debug)]
pub struct Record {
    pub number: u64,
    pub dropped: Option<GrainDrop>,
    pub size: u64,
    pub area: u64,
    pub drained: u64,
}

// Leave to end an open avalanche. It must be spent, by close or shelve.
pub struct Ticket {
    number: u64,
}

// Record memory: lent entries, the first `held` of which are records. The caller lends it, so it is a slice with a count.
#[derive(Drop)]
pub struct Records<'a> {
    slots: &'a mut [Record],
    held: usize,
}

// Site memory, an entry for each site: heights, firings since creation, and those at the avalanche's opening. (Lists side by
// side, since firing, settling, the search for the drain and certificates each take heights or counts as they are.)
#[derive(Drop)]
pub struct SiteMemory {
    pub heights: Vec<u64>,
    pub counts: Vec<u64>,
    pub opened: Vec<u64>,
}

// A bench, with its site memory side by side, as it is lent. Each call promises conservation and the law of the state, since
// these fields are private.
#[derive(Drop)]
pub struct Bench {
    heights: Vec<u64>,
    counts: Vec<u64>,
    opened: Vec<u64>,
    phase: Phase,
    number: u64,
    last: Option<GrainDrop>,
    grains: u64,
    drained: u64,
    drained_before: u64,
    fired: u64,
    ceiling: u64,
    ghost counts_sized: { vec_len counts ≡ vec_len heights },
    ghost opened_sized: { vec_len opened ≡ vec_len heights },
    ghost conserved: { sum_below (vec_len heights) (at heights.items) + drained ≡ grains },
    ghost light: { grains ≤ 1000000 },
    ghost counted: { sum_below (vec_len heights) (at counts.items) ≡ fired },
    ghost under: { fired ≤ ceiling },
    ghost most: { ceiling ≤ 1000000000000 },
    ghost grown: { (u : ℕ) → at opened.items u ≤ at counts.items u },
    ghost earlier: { drained_before ≤ drained },
    ghost numbered: { number ≤ grains },
}
