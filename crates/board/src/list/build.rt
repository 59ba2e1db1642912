// Making a link list, and adding to it.
ghost use Rattle.std.specs.Prelude.{◌≡◌, ℕ};
ghost use Rattle.refusal.specs.Table.{InOrder, rows as rows_of};
ghost use Rattle.board.specs.declared.link.End.{End as Ending};
ghost use Rattle.board.specs.declared.list.LinkList.{LinkList as Listing};
ghost use Rattle.board.specs.Adding.{Added, Made, list_checks, add_checks};

use super::LinkList;
use crate::link::{End, Link, misfit, weight_of};
use arrayvec::ArrayVec;
use refusal::{Part, Refusal, Row};

// All links of a board, over ordered pairs and to the drain.
const LIMIT: u32 = 500_000;

impl LinkList {
    // A list of these sites, with no links.
    pub fn new(sites: usize) -> Result<LinkList, Refusal>
        ensures { Made sites result }
    {
        if !(1..=4096).contains(&sites) {
            return Err(Part::Board.refuse(Row::Limit));
        }
        Ok(LinkList {
            sites,
            total: 0,
            records: ArrayVec::new(),
        })
    }

    // Adds a record of `k` links between the site `a` and the end `b`.
    pub fn add(&mut self, a: usize, b: End, k: u64) -> Result<(), Refusal>
        ensures { Added self.old self.new a b k result }
    {
        if !(1..=500_000).contains(&k) {
            return Err(Part::Board.refuse(Row::Limit));
        }
        // by `as`, since `u32::try_from` could fail and this cannot: `k` is at most 500,000
        let count = k as u32;
        let total = self.total + weight_of(b, count);
        if total > LIMIT {
            return Err(Part::Board.refuse(Row::Limit));
        }
        if let Some(site) = misfit(self.sites, a, b) {
            return Err(Part::Board.refuse_at(Row::Site, site));
        }
        // Asked before: after a `try_push` that fails, `search` finds "no proof" that the list is as it was.
        if self.records.is_full() {
            return Err(Part::Board.refuse(Row::ListFull));
        }
        self.records.push(Link {
            site: a,
            other: b,
            count,
        });
        self.total = total;
        Ok(())
    }

    // The rows by which `new` refuses, in the order of its checks.
    pub fn new_checks() -> [Row; 1]
        ensures { (n : ℕ) → (result ≡ rows_of (list_checks n)) × InOrder (list_checks n) }
    {
        [Row::Limit]
    }

    // The rows by which `add` refuses, in the order of its checks.
    pub fn add_checks() -> [Row; 3]
        ensures { (x : Listing) (a : ℕ) (b : Ending) (k : ℕ) → (result ≡ rows_of (add_checks x a b k)) × InOrder (add_checks x a b k) }
    {
        [Row::Limit, Row::Site, Row::ListFull]
    }
}
