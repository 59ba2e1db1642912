// Cases for certificates: worked verdicts, every refusal once, rows in their order, a board made outside.
#![tactic(auto)]

#[cfg(test)]
mod verdicts {
    use board::grid::Grid;
    use board::list::LinkList;
    use board::{Board, End};
    use board_cases::told;
    use certificate::certify;
    use refusal::{Part, Refusal, Row};
    use ring::Ring;
    use std::test::Fail;

    // The verdict over work memory that read anything before.
    fn on<B: Board>(board: &B, start: &[u64], counts: &[u64], end: &[u64]) -> Result<(), Refusal> {
        let mut waiting = [7; 4];
        let mut bytes = [1; 4];
        told(certify(board, start, counts, end, &mut waiting, &mut bytes))
    }

    #[test]
    fn a_pair(rt: HostRuntime) -> Result<(), Fail> {
        let pair = Grid::new(1, 2)?;
        assert_eq!(rt; on(&pair, &[4, 3], &[1, 1], &[1, 0]), Ok(()));
        assert_eq!(rt; on(&pair, &[3, 3], &[0, 0], &[3, 3]), Ok(()));
        assert_eq!(rt;
            on(&pair, &[4, 3], &[1, 0], &[0, 4]),
            Err(Part::Certificate.refuse_at(Row::EndFires, 1))
        );
        assert_eq!(rt;
            on(&pair, &[3, 3], &[1, 1], &[0, 0]),
            Err(Part::Certificate.refuse_at(Row::TakenBack, 0))
        );
        Ok(())
    }

    #[test]
    fn the_largest_set(rt: HostRuntime) -> Result<(), Fail> {
        let row = Grid::new(1, 4)?;
        assert_eq!(rt;
            on(&row, &[0, 0, 3, 3], &[0, 0, 1, 1], &[0, 1, 0, 0]),
            Err(Part::Certificate.refuse_at(Row::TakenBack, 2))
        );
        assert_eq!(rt;
            on(&row, &[2, 2, 2, 2], &[1, 1, 1, 1], &[0, 0, 0, 0]),
            Err(Part::Certificate.refuse_at(Row::NotFollowing, 0))
        );
        assert_eq!(rt;
            on(&row, &[3, 2, 2, 3], &[1, 1, 1, 1], &[0, 0, 0, 0]),
            Err(Part::Certificate.refuse_at(Row::TakenBack, 0))
        );
        // 2 leaves the set, then 1, then 0
        assert_eq!(rt;
            on(&row, &[3, 3, 4, 0], &[1, 1, 1, 0], &[0, 1, 1, 1]),
            Ok(())
        );
        Ok(())
    }

    #[test]
    fn ends_that_do_not_follow(rt: HostRuntime) -> Result<(), Fail> {
        let pair = Grid::new(1, 2)?;
        assert_eq!(rt;
            on(&pair, &[4, 3], &[1, 1], &[1, 1]),
            Err(Part::Certificate.refuse_at(Row::NotFollowing, 1))
        );
        assert_eq!(rt;
            on(&pair, &[4, 3], &[1, 1], &[0, 1]),
            Err(Part::Certificate.refuse_at(Row::NotFollowing, 0))
        );
        // the formula gives 1 and −19
        assert_eq!(rt;
            on(&pair, &[0, 0], &[1, 5], &[1, 0]),
            Err(Part::Certificate.refuse_at(Row::NotFollowing, 1))
        );
        // before an end that can fire
        assert_eq!(rt;
            on(&pair, &[4, 3], &[0, 0], &[4, 4]),
            Err(Part::Certificate.refuse_at(Row::NotFollowing, 1))
        );
        Ok(())
    }

    #[test]
    fn heights_and_counts_beyond_their_limits(rt: HostRuntime) -> Result<(), Fail> {
        let pair = Grid::new(1, 2)?;
        assert_eq!(rt;
            on(&pair, &[1_000_000, 0], &[0, 0], &[1_000_000, 0]),
            Err(Part::Certificate.refuse_at(Row::EndFires, 0))
        );
        assert_eq!(rt;
            on(&pair, &[0, 0], &[1_000_000_000_000, 0], &[0, 0]),
            Err(Part::Certificate.refuse_at(Row::NotFollowing, 0))
        );
        assert_eq!(rt;
            on(&pair, &[0, 1_000_001], &[0, 0], &[0, 0]),
            Err(Part::Certificate.refuse(Row::Limit))
        );
        assert_eq!(rt;
            on(&pair, &[0, 0], &[0, 1_000_000_000_001], &[0, 0]),
            Err(Part::Certificate.refuse(Row::Limit))
        );
        assert_eq!(rt;
            on(&pair, &[0, 0], &[0, 0], &[0, 1_000_001]),
            Err(Part::Certificate.refuse(Row::Limit))
        );
        Ok(())
    }

    #[test]
    fn wrong_memory(rt: HostRuntime) -> Result<(), Fail> {
        let pair = Grid::new(1, 2)?;
        assert_eq!(rt;
            on(&pair, &[4], &[1, 1], &[1, 0]),
            Err(Part::Certificate.refuse(Row::Memory))
        );
        assert_eq!(rt;
            on(&pair, &[4, 3, 0], &[1, 1], &[1, 0]),
            Err(Part::Certificate.refuse(Row::Memory))
        );
        assert_eq!(rt;
            on(&pair, &[4, 3], &[1], &[1, 0]),
            Err(Part::Certificate.refuse(Row::Memory))
        );
        assert_eq!(rt;
            on(&pair, &[4, 3], &[1, 1, 0], &[1, 0]),
            Err(Part::Certificate.refuse(Row::Memory))
        );
        assert_eq!(rt;
            on(&pair, &[4, 3], &[1, 1], &[1]),
            Err(Part::Certificate.refuse(Row::Memory))
        );
        // before a limit
        assert_eq!(rt;
            on(&pair, &[4, 3], &[1, 1], &[1, 0, 1_000_001]),
            Err(Part::Certificate.refuse(Row::Memory))
        );
        Ok(())
    }

    #[test]
    fn short_work_memory(rt: HostRuntime) -> Result<(), Fail> {
        let pair = Grid::new(1, 2)?;
        let mut one = [0; 1];
        let mut two = [0; 2];
        let mut byte = [0; 1];
        let mut bytes = [0; 2];
        assert_eq!(rt;
            told(certify(&pair, &[4, 3], &[1, 1], &[1, 0], &mut one, &mut bytes)),
            Err(Part::Certificate.refuse(Row::Memory))
        );
        assert_eq!(rt;
            told(certify(&pair, &[4, 3], &[1, 1], &[1, 0], &mut two, &mut byte)),
            Err(Part::Certificate.refuse(Row::Memory))
        );
        assert_eq!(rt;
            told(certify(&pair, &[4, 3], &[1, 1], &[1, 0], &mut two, &mut bytes)),
            Ok(())
        );
        Ok(())
    }

    #[test]
    fn sites_without_a_way_to_the_drain(rt: HostRuntime) -> Result<(), Fail> {
        let mut list = LinkList::new(4)?;
        list.add(0, End::Drain, 1)?;
        list.add(1, End::Site(2), 2)?;
        assert_eq!(rt;
            on(&list, &[0, 0, 0, 0], &[0, 0, 0, 0], &[0, 0, 0, 0]),
            Err(Part::Certificate.refuse_at(Row::NoDrain, 1))
        );
        // before an end that does not follow, behind a limit
        assert_eq!(rt;
            on(&list, &[0, 0, 0, 0], &[0, 0, 0, 0], &[1, 0, 0, 0]),
            Err(Part::Certificate.refuse_at(Row::NoDrain, 1))
        );
        assert_eq!(rt;
            on(&list, &[0, 0, 0, 1_000_001], &[0, 0, 0, 0], &[0, 0, 0, 0]),
            Err(Part::Certificate.refuse(Row::Limit))
        );
        Ok(())
    }

    #[test]
    fn a_board_of_a_client(rt: HostRuntime) -> Result<(), Fail> {
        let ring = Ring::new(3)?;
        assert_eq!(rt; on(&ring, &[0, 2, 1], &[0, 1, 1], &[2, 1, 0]), Ok(()));
        assert_eq!(rt;
            on(&ring, &[2, 1, 1], &[1, 1, 1], &[1, 1, 1]),
            Err(Part::Certificate.refuse_at(Row::TakenBack, 0))
        );
        Ok(())
    }
}
