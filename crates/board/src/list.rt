// The link list: a board given by its links.
ghost use Rattle.std.specs.Prelude.{◌≡◌, ◌≤◌, length};
ghost use Rattle.board.specs.Links.{weights, FitsAll};

use crate::link::Link;
use arrayvec::ArrayVec;

mod ask;
mod build;

// 1 to 4,096 sites, and at most 4,096 records of links, which the list owns; `total` is what all records weigh.
#[derive(Drop)]
pub struct LinkList {
    sites: usize,
    total: u32,
    records: ArrayVec<Link, 4096>,
    ghost some: { 1 ≤ sites },
    ghost few: { sites ≤ 4096 },
    ghost room: { length records.items ≤ 4096 },
    ghost fit: { FitsAll records.items (length records.items) sites },
    ghost adds: { total ≡ weights records.items (length records.items) },
    ghost limit: { total ≤ 500000 },
}
