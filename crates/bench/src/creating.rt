// Creation: a bench on a board, from site memory that holds the start, and what can be read of a bench.
ghost use Rattle.std.specs.Prelude.{◌≡◌, length, vec_items};
ghost use Rattle.bench.specs.States.{state};
ghost use Rattle.bench.specs.Checks.{MayCreate};
ghost use Rattle.bench.specs.Answers.{Created};

use super::{Bench, Phase, SiteMemory};
use board::Board;
use refusal::{Part, Refusal, Row};
use settling::fire::all_grains;
use settling::reach::reach;

// The grains of the start, if a bench may be made of it. (Waiting list and bytes are slices of their own, here and in a run:
// slices keep their length by themselves.)
fn may_create<B: Board>(
    board: &B,
    memory: &SiteMemory,
    waiting: &mut [usize],
    bytes: &mut [u8],
    ceiling: u64,
) -> Result<u64, Refusal>
    ensures { MayCreate (B.Board.shape board.now) (vec_items memory.now.heights) (vec_items memory.now.counts) (vec_items memory.now.opened) (length waiting.old) (length bytes.old) ceiling result }
{
    let n = board.count();
    if memory.heights.len() != n || memory.counts.len() != n || memory.opened.len() != n {
        return Err(Part::Bench.refuse(Row::Memory));
    }
    if waiting.len() < n || bytes.len() < n {
        return Err(Part::Bench.refuse(Row::Memory));
    }
    if ceiling < 1 || ceiling > 1_000_000_000_000 {
        return Err(Part::Bench.refuse(Row::Limit));
    }
    let Some(grains) = all_grains(&memory.heights, 1_000_000) else {
        return Err(Part::Bench.refuse(Row::Limit));
    };
    match reach(board, waiting, bytes, Part::Bench)? {
        Some(v) => Err(Part::Bench.refuse_at(Row::NoDrain, v)),
        None => Ok(grains),
    }
}

impl Bench {
    // A bench on `board`, shelved on avalanche 0, over site memory whose heights are the start. A refusal hands the
    // memory back as it was. The waiting list and the bytes are for work, and read as they may afterwards.
    pub fn create<B: Board>(
        board: &B,
        memory: SiteMemory,
        waiting: &mut [usize],
        bytes: &mut [u8],
        ceiling: u64,
    ) -> Result<Bench, (Refusal, SiteMemory)>
        ensures { Created (B.Board.shape board.now) memory (length waiting.old) (length bytes.old) ceiling result }
    {
        // by match: `map_err` would move the memory where all goes well, too
        let grains = match may_create(board, &memory, waiting, bytes, ceiling) {
            Ok(grains) => grains,
            Err(refusal) => return Err((refusal, memory)),
        };
        let SiteMemory {
            heights,
            mut counts,
            mut opened,
        } = memory;
        counts.fill(0);
        opened.fill(0);
        Ok(Bench {
            heights,
            counts,
            opened,
            phase: Phase::Shelved,
            number: 0,
            last: None,
            grains,
            drained: 0,
            drained_before: 0,
            fired: 0,
            ceiling,
        })
    }

    // Each site's height.
    pub fn heights(&self) -> &[u64]
        ensures { result.now ≡ (state self.now).heights }
    {
        &self.heights
    }

    // Each site's firings since creation.
    pub fn counts(&self) -> &[u64]
        ensures { result.now ≡ (state self.now).counts }
    {
        &self.counts
    }

    // Resting, open or shelved.
    pub fn phase(&self) -> Phase
        ensures { result ≡ (state self.now).phase }
    {
        self.phase
    }
}
