// A play: any list of calls on a fresh bench, each with its answer.
#![tactic(auto)]

ghost use Rattle.std.specs.Prelude.{◌≡◌};
ghost use Rattle.play.specs.Plays.{letter, is_done};

mod playing;
mod turns;

use bench::{GrainDrop, Record, RunOutcome};
pub use playing::play;
use refusal::Refusal;

// A call of the bench.
#[derive(Clone, Copy)]
pub enum Call {
    Resume,
    Drop(GrainDrop),
    Fire(usize),
    Run(u64),
    Wave,
    Close,
    Shelve,
}

// What a call answers: the number of the avalanche opened or put by, the site fired, a run, the firings of a wave, a
// record; or why it was refused. (No Result: an answer is the line that a report prints for a call, and a refusal is one.)
#[derive(Clone, Copy)]
pub enum Answer {
    Opened(u64),
    Fired(usize),
    Ran(RunOutcome),
    Waved(u64),
    Closed(Record),
    Put(u64),
    Refused(Refusal),
}

impl Call {
    // The letter of the call in a sheet. (No `From`: `char::from(call)` would not say which character.)
    pub fn letter(self) -> char
        ensures { result ≡ letter self }
    {
        match self {
            Call::Resume => 'u',
            Call::Drop(_) => 'd',
            Call::Fire(_) => 'f',
            Call::Run(_) => 'r',
            Call::Wave => 'w',
            Call::Close => 's',
            Call::Shelve => 'p',
        }
    }
}

impl Answer {
    // Whether the call was carried out.
    pub fn is_done(self) -> bool
        ensures { result ≡ is_done self }
    {
        !matches!(self, Answer::Refused(_))
    }
}
