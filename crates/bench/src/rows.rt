// By which rows the calls refuse, each in the order of its checks.
ghost use Rattle.bench.specs.Rows.{RowsAre};

use refusal::Row;

// The rows of each call.
#[derive(Clone, Copy)]
pub struct CallRows {
    pub create: [Row; 3],
    pub resume: [Row; 2],
    pub drop: [Row; 4],
    pub fire: [Row; 5],
    pub run: [Row; 3],
    pub wave: [Row; 3],
    pub close: [Row; 5],
    pub shelve: [Row; 3],
}

pub fn call_rows() -> CallRows
    ensures { RowsAre result }
{
    CallRows {
        create: [Row::Memory, Row::Limit, Row::NoDrain],
        resume: [Row::Memory, Row::Phase],
        drop: [Row::Memory, Row::Limit, Row::Site, Row::Phase],
        fire: [
            Row::Memory,
            Row::Site,
            Row::Phase,
            Row::CannotFire,
            Row::Ceiling,
        ],
        run: [Row::Memory, Row::Limit, Row::Phase],
        wave: [Row::Memory, Row::Phase, Row::Ceiling],
        close: [
            Row::Memory,
            Row::Phase,
            Row::Ticket,
            Row::NotStill,
            Row::RecordsFull,
        ],
        shelve: [Row::Memory, Row::Phase, Row::Ticket],
    }
}
