// The questions to a link list.
ghost use Rattle.std.specs.Prelude.{length};
ghost use Rattle.board.specs.Lists.{listed};
ghost use Rattle.board.specs.Listed.{list_sound};

use super::LinkList;
use crate::Board;
use crate::link::{drain_of, far_end, links_of};

impl Board for LinkList {
    ghost shape = { λ x. listed x.sites (length x.records.items) x.records.items };

    ghost sound = { λ b. list_sound b };

    fn count(&self) -> usize {
        self.sites
    }

    fn links(&self, u: usize, v: usize) -> u32 {
        self.records.iter().map(|l| links_of(*l, u, v)).sum()
    }

    fn drain(&self, v: usize) -> u32 {
        self.records.iter().map(|l| drain_of(*l, v)).sum()
    }

    fn next(&self, v: usize, j: usize) -> Option<usize> {
        self.records
            .iter()
            .filter_map(|l| far_end(*l, v))
            .filter(|u| *u >= j)
            .min()
    }
}
