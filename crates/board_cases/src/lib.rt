// Cases for the boards and layers: worked results, a pile against a table worked out by hand, every refusal once.
#![tactic(auto)]

ghost use Rattle.std.specs.Prelude.{◌≡◌, ℕ, Ok, Err};

use refusal::Refusal;

// What a call was refused by, whatever it answers else.
pub fn told<T: Drop>(r: Result<T, Refusal>) -> Result<(), Refusal>
    ensures { elim r [ Ok _ ↦ result ≡ Ok tt | Err e ↦ result ≡ Err e ] }
{
    r.map(|_| ())
}

#[cfg(test)]
mod boards {
    use super::told;
    use board::grid::Grid;
    use board::list::LinkList;
    use board::{Board, End, degree};
    use refusal::{Part, Refusal, Row};
    use ring::Ring;
    use std::test::Fail;

    fn sides(rows: usize, columns: usize) -> Result<(), Refusal> {
        told(Grid::new(rows, columns))
    }

    fn sites(n: usize) -> Result<(), Refusal> {
        told(LinkList::new(n))
    }

    #[test]
    fn a_grid_by_rows_and_columns(rt: HostRuntime) -> Result<(), Fail> {
        let grid = Grid::new(2, 3)?;
        assert_eq!(rt; grid.count(), 6);
        assert_eq!(rt;
            (
                grid.links(0, 1),
                grid.links(2, 3),
                grid.links(1, 4),
                grid.links(0, 0),
            ),
            (1, 0, 1, 0)
        );
        assert_eq!(rt; (grid.drain(0), grid.drain(1), grid.drain(6)), (2, 1, 0));
        assert_eq!(rt;
            (
                grid.next(4, 0),
                grid.next(4, 2),
                grid.next(4, 4),
                grid.next(4, 6),
            ),
            (Some(1), Some(3), Some(5), None)
        );
        assert_eq!(rt;
            (grid.next(6, 0), grid.links(6, 5), degree(&grid, 4)),
            (None, 0, 4)
        );
        Ok(())
    }

    #[test]
    fn the_smallest_grid_drains_four_ways(rt: HostRuntime) -> Result<(), Fail> {
        let grid = Grid::new(1, 1)?;
        assert_eq!(rt;
            (
                grid.count(),
                grid.drain(0),
                grid.next(0, 0),
                degree(&grid, 0),
            ),
            (1, 4, None, 4)
        );
        Ok(())
    }

    #[test]
    fn sides_beyond_their_limits(rt: HostRuntime) {
        assert_eq!(rt; sides(0, 1), Err(Part::Board.refuse(Row::Limit)));
        assert_eq!(rt; sides(65, 1), Err(Part::Board.refuse(Row::Limit)));
        assert_eq!(rt; sides(1, 0), Err(Part::Board.refuse(Row::Limit)));
        assert_eq!(rt; sides(1, 65), Err(Part::Board.refuse(Row::Limit)));
        assert_eq!(rt; sides(64, 64), Ok(()));
        assert_eq!(rt; sites(0), Err(Part::Board.refuse(Row::Limit)));
        assert_eq!(rt; sites(4097), Err(Part::Board.refuse(Row::Limit)));
    }

    #[test]
    fn records_of_one_pair_add_up(rt: HostRuntime) -> Result<(), Fail> {
        let mut list = LinkList::new(4)?;
        list.add(2, End::Site(0), 3)?;
        list.add(0, End::Site(2), 4)?;
        list.add(3, End::Drain, 5)?;
        assert_eq!(rt;
            (
                list.links(0, 2),
                list.links(2, 0),
                list.drain(3),
                list.drain(2),
            ),
            (7, 7, 5, 0)
        );
        assert_eq!(rt;
            (
                list.next(2, 0),
                list.next(2, 1),
                list.next(0, 1),
                list.next(3, 0),
            ),
            (Some(0), None, Some(2), None)
        );
        assert_eq!(rt;
            (
                degree(&list, 0),
                degree(&list, 3),
                list.links(4, 0),
                list.drain(9),
            ),
            (7, 5, 0, 0)
        );
        Ok(())
    }

    #[test]
    fn numbers_before_sites(rt: HostRuntime) -> Result<(), Fail> {
        let mut list = LinkList::new(1)?;
        assert_eq!(rt;
            told(list.add(0, End::Drain, 0)),
            Err(Part::Board.refuse(Row::Limit))
        );
        assert_eq!(rt;
            told(list.add(0, End::Site(0), 250_001)),
            Err(Part::Board.refuse(Row::Limit))
        );
        assert_eq!(rt;
            told(list.add(7, End::Drain, 500_001)),
            Err(Part::Board.refuse(Row::Limit))
        );
        assert_eq!(rt;
            told(list.add(0, End::Site(0), 250_000)),
            Err(Part::Board.refuse_at(Row::Site, 0))
        );
        assert_eq!(rt; told(list.add(0, End::Drain, 500_000)), Ok(()));
        assert_eq!(rt;
            told(list.add(0, End::Drain, 1)),
            Err(Part::Board.refuse(Row::Limit))
        );
        assert_eq!(rt; list.drain(0), 500_000);
        Ok(())
    }

    #[test]
    fn sites_off_the_list(rt: HostRuntime) -> Result<(), Fail> {
        let mut list = LinkList::new(3)?;
        assert_eq!(rt;
            told(list.add(3, End::Drain, 1)),
            Err(Part::Board.refuse_at(Row::Site, 3))
        );
        assert_eq!(rt;
            told(list.add(0, End::Site(3), 1)),
            Err(Part::Board.refuse_at(Row::Site, 3))
        );
        assert_eq!(rt;
            told(list.add(9, End::Site(8), 1)),
            Err(Part::Board.refuse_at(Row::Site, 9))
        );
        assert_eq!(rt;
            told(list.add(2, End::Site(2), 1)),
            Err(Part::Board.refuse_at(Row::Site, 2))
        );
        assert_eq!(rt;
            told(list.add(9_999_999_999_999, End::Drain, 1)),
            Err(Part::Board.refuse_at(Row::Site, 9_999_999_999_999))
        );
        assert_eq!(rt;
            (list.drain(0), list.links(0, 2), list.next(0, 0)),
            (0, 0, None)
        );
        Ok(())
    }

    fn fill(list: &mut LinkList) -> Result<(), Refusal> {
        for _ in 0..4096 {
            list.add(0, End::Drain, 1)?;
        }
        Ok(())
    }

    #[test]
    fn the_list_is_full(rt: HostRuntime) -> Result<(), Fail> {
        let mut list = LinkList::new(1)?;
        fill(&mut list)?;
        assert_eq!(rt;
            told(list.add(0, End::Drain, 1)),
            Err(Part::Board.refuse(Row::ListFull))
        );
        assert_eq!(rt;
            told(list.add(1, End::Drain, 1)),
            Err(Part::Board.refuse_at(Row::Site, 1))
        );
        assert_eq!(rt; list.drain(0), 4096);
        Ok(())
    }

    #[test]
    fn a_board_of_a_client(rt: HostRuntime) -> Result<(), Fail> {
        let ring = Ring::new(5)?;
        assert_eq!(rt;
            (
                ring.links(0, 4),
                ring.links(1, 3),
                ring.next(0, 2),
                ring.next(4, 0),
            ),
            (1, 0, Some(4), Some(0))
        );
        assert_eq!(rt;
            (degree(&ring, 0), degree(&ring, 1), ring.count()),
            (3, 2, 5)
        );
        Ok(())
    }
}

#[cfg(test)]
mod layers {
    use super::told;
    use board::grid::Grid;
    use board::{Board, End, degree};
    use layer::cut::Cut;
    use layer::earth::Earth;
    use layer::merge::Merge;
    use pile::worked::{ends_merged, middle_earthed};
    use refusal::{Part, Refusal, Row};
    use std::test::Fail;

    #[test]
    fn worked_results(rt: HostRuntime) -> Result<(), Fail> {
        assert_eq!(rt; middle_earthed()?, [0, 4, 4, 4, 4]);
        assert_eq!(rt; ends_merged()?, [2, 6, 2, 8, 4]);
        Ok(())
    }

    // A grid 2×3 with 4 earthed, 0 merged into 2, all links of 0 and 1 cut and three of 1 to the drain.
    fn pile() -> Result<Cut<Merge<Earth<Grid>>>, Refusal> {
        let mut earth = Earth::idle(Grid::new(2, 3)?);
        earth.earth(4)?;
        let mut merge = Merge::idle(earth);
        merge.merge(0, 2)?;
        let mut cut = Cut::idle(merge);
        cut.cut(0, End::Site(1), 1)?;
        cut.cut(1, End::Site(0), 1)?;
        cut.cut(1, End::Drain, 3)?;
        Ok(cut)
    }

    fn row<B: Board>(board: &B, u: usize) -> [u32; 6] {
        [
            board.links(u, 0),
            board.links(u, 1),
            board.links(u, 2),
            board.links(u, 3),
            board.drain(u),
            degree(board, u),
        ]
    }

    #[test]
    fn a_pile_against_its_table(rt: HostRuntime) -> Result<(), Fail> {
        let pile = pile()?;
        assert_eq!(rt; pile.count(), 4);
        assert_eq!(rt; row(&pile, 0), [0, 0, 0, 0, 2, 2]);
        assert_eq!(rt; row(&pile, 1), [0, 0, 1, 1, 1, 3]);
        assert_eq!(rt; row(&pile, 2), [0, 1, 0, 0, 3, 4]);
        assert_eq!(rt; row(&pile, 3), [0, 1, 0, 0, 3, 4]);
        assert_eq!(rt; row(&pile, 4), [0, 0, 0, 0, 0, 0]);
        assert_eq!(rt;
            (pile.next(1, 0), pile.next(1, 3), pile.next(1, 4)),
            (Some(2), Some(3), None)
        );
        assert_eq!(rt; (pile.next(0, 0), pile.next(4, 0)), (None, None));
        Ok(())
    }

    #[test]
    fn earth_refuses(rt: HostRuntime) -> Result<(), Fail> {
        let mut only = Earth::idle(Grid::new(1, 1)?);
        assert_eq!(rt;
            told(only.earth(5)),
            Err(Part::Earth.refuse_at(Row::Site, 5))
        );
        assert_eq!(rt; told(only.earth(0)), Err(Part::Earth.refuse(Row::LayerSet)));
        assert_eq!(rt; (only.count(), only.drain(0)), (1, 4));
        let mut earth = Earth::idle(Grid::new(1, 2)?);
        assert_eq!(rt; told(earth.earth(0)), Ok(()));
        assert_eq!(rt;
            told(earth.earth(1)),
            Err(Part::Earth.refuse(Row::LayerSet))
        );
        assert_eq!(rt;
            told(earth.earth(2)),
            Err(Part::Earth.refuse_at(Row::Site, 2))
        );
        assert_eq!(rt; (earth.count(), earth.drain(0)), (1, 4));
        Ok(())
    }

    #[test]
    fn merge_refuses(rt: HostRuntime) -> Result<(), Fail> {
        let mut merge = Merge::idle(Grid::new(1, 2)?);
        assert_eq!(rt;
            told(merge.merge(5, 0)),
            Err(Part::Merge.refuse_at(Row::Site, 5))
        );
        assert_eq!(rt;
            told(merge.merge(0, 6)),
            Err(Part::Merge.refuse_at(Row::Site, 6))
        );
        assert_eq!(rt;
            told(merge.merge(1, 1)),
            Err(Part::Merge.refuse_at(Row::Site, 1))
        );
        assert_eq!(rt; told(merge.merge(1, 0)), Ok(()));
        assert_eq!(rt;
            told(merge.merge(0, 1)),
            Err(Part::Merge.refuse(Row::LayerSet))
        );
        assert_eq!(rt;
            (merge.count(), merge.drain(0), merge.next(0, 0)),
            (1, 6, None)
        );
        Ok(())
    }

    #[test]
    fn cut_refuses(rt: HostRuntime) -> Result<(), Fail> {
        let mut cut = Cut::idle(Grid::new(1, 2)?);
        assert_eq!(rt;
            told(cut.cut(0, End::Site(1), 0)),
            Err(Part::Cut.refuse(Row::Limit))
        );
        assert_eq!(rt;
            told(cut.cut(9, End::Drain, 1)),
            Err(Part::Cut.refuse_at(Row::Site, 9))
        );
        assert_eq!(rt;
            told(cut.cut(0, End::Site(0), 1)),
            Err(Part::Cut.refuse_at(Row::Site, 0))
        );
        assert_eq!(rt;
            told(cut.cut(0, End::Site(1), u64::MAX)),
            Err(Part::Cut.refuse(Row::FewLinks))
        );
        assert_eq!(rt; told(cut.cut(1, End::Drain, 2)), Ok(()));
        assert_eq!(rt;
            told(cut.cut(1, End::Drain, 2)),
            Err(Part::Cut.refuse(Row::FewLinks))
        );
        assert_eq!(rt; (cut.drain(1), cut.links(0, 1)), (1, 1));
        Ok(())
    }

    fn fill<B: Board>(cut: &mut Cut<B>) -> Result<(), Refusal> {
        for v in 0..32 {
            cut.cut(v, End::Drain, 1)?;
        }
        Ok(())
    }

    #[test]
    fn the_cut_is_full(rt: HostRuntime) -> Result<(), Fail> {
        let mut cut = Cut::idle(Grid::new(1, 64)?);
        fill(&mut cut)?;
        assert_eq!(rt;
            told(cut.cut(32, End::Drain, 1)),
            Err(Part::Cut.refuse(Row::CutFull))
        );
        assert_eq!(rt; told(cut.cut(5, End::Drain, 1)), Ok(()));
        assert_eq!(rt;
            told(cut.cut(5, End::Drain, 1)),
            Err(Part::Cut.refuse(Row::FewLinks))
        );
        assert_eq!(rt; (cut.drain(5), cut.drain(4), cut.drain(32)), (0, 1, 2));
        Ok(())
    }

    #[test]
    fn layers_laid_on_another_board(rt: HostRuntime) -> Result<(), Fail> {
        let mut earth = Earth::idle(Grid::new(1, 3)?);
        earth.earth(1)?;
        let (earth, grid) = earth.lay_on(Grid::new(1, 1)?);
        assert_eq!(rt; (grid.count(), earth.count(), earth.drain(0)), (3, 1, 4));
        let mut cut = Cut::idle(Grid::new(1, 3)?);
        cut.cut(0, End::Site(1), 1)?;
        cut.cut(2, End::Drain, 1)?;
        let (cut, _) = cut.lay_on(Grid::new(1, 2)?);
        assert_eq!(rt; (cut.links(0, 1), cut.drain(0), cut.count()), (1, 3, 2));
        let (cut, _) = cut.lay_on(Grid::new(2, 2)?);
        assert_eq!(rt; (cut.links(0, 1), cut.links(0, 2), cut.drain(2)), (0, 1, 1));
        Ok(())
    }
}
