// Cases for settling, the search for the drain, burning, sums and the identity: results worked out by hand, every refusal.
#![tactic(auto)]

ghost use Rattle.std.specs.Prelude.{◌≡◌, ℕ, Ok, Err};

use refusal::Refusal;

// What a call was refused by, as the cases of boards say it.
pub fn told<T: Drop>(r: Result<T, Refusal>) -> Result<(), Refusal>
    ensures { elim r [ Ok _ ↦ result ≡ Ok tt | Err e ↦ result ≡ Err e ] }
{
    board_cases::told(r)
}

#[cfg(test)]
mod boards {
    use board::End;
    use board::list::LinkList;
    use refusal::Refusal;

    // Two sites with two links between them, and one link of 1 to the drain.
    pub fn pier() -> Result<LinkList, Refusal> {
        let mut list = LinkList::new(2)?;
        list.add(0, End::Site(1), 2)?;
        list.add(1, End::Drain, 1)?;
        Ok(list)
    }

    // Five sites, of which 1, 2 and 4 do not reach the drain: 1 has no link, 2 and 4 are linked to each other.
    pub fn islands() -> Result<LinkList, Refusal> {
        let mut list = LinkList::new(5)?;
        list.add(0, End::Site(3), 1)?;
        list.add(3, End::Drain, 1)?;
        list.add(4, End::Site(2), 2)?;
        Ok(list)
    }
}

#[cfg(test)]
mod settlings {
    use super::boards::{islands, pier};
    use super::told;
    use board::grid::Grid;
    use refusal::{Part, Refusal, Row};
    use settling::reach::reach;
    use settling::settle::settle;
    use std::test::Fail;

    fn lent(
        heights: &mut [u64],
        waiting: &mut [usize],
        marks: &mut [u8],
        budget: u64,
    ) -> Result<Result<(), Refusal>, Refusal> {
        let grid = Grid::new(1, 2)?;
        Ok(told(settle(&grid, heights, waiting, marks, budget, Part::Bench)))
    }

    #[test]
    fn settle_refuses(rt: HostRuntime) -> Result<(), Fail> {
        assert_eq!(rt;
            lent(&mut [0; 1], &mut [0; 2], &mut [0; 2], 1)?,
            Err(Part::Bench.refuse(Row::Memory))
        );
        assert_eq!(rt;
            lent(&mut [0; 3], &mut [0; 2], &mut [0; 2], 1)?,
            Err(Part::Bench.refuse(Row::Memory))
        );
        assert_eq!(rt;
            lent(&mut [0; 2], &mut [0; 1], &mut [0; 2], 1)?,
            Err(Part::Bench.refuse(Row::Memory))
        );
        assert_eq!(rt;
            lent(&mut [0; 2], &mut [0; 2], &mut [0; 1], 0)?,
            Err(Part::Bench.refuse(Row::Memory))
        );
        assert_eq!(rt;
            lent(&mut [0; 2], &mut [0; 2], &mut [0; 2], 0)?,
            Err(Part::Bench.refuse(Row::Limit))
        );
        assert_eq!(rt;
            lent(&mut [0; 2], &mut [0; 3], &mut [0; 3], 1_000_000_001)?,
            Err(Part::Bench.refuse(Row::Limit))
        );
        let mut heavy = [999_999, 2];
        assert_eq!(rt;
            lent(&mut heavy, &mut [0; 2], &mut [0; 2], 1)?,
            Err(Part::Bench.refuse(Row::Limit))
        );
        assert_eq!(rt; heavy, [999_999, 2]);
        Ok(())
    }

    #[test]
    fn settle_within_a_budget(rt: HostRuntime) -> Result<(), Fail> {
        let grid = Grid::new(1, 2)?;
        let mut waiting = [0; 2];
        let mut marks = [0; 2];
        let mut heights = [4, 3];
        let short = settle(
            &grid,
            &mut heights,
            &mut waiting,
            &mut marks,
            1,
            Part::Bench,
        )?;
        assert_eq!(rt; (short.fired, short.still), (1, false));
        assert_eq!(rt; heights, [0, 4]);
        let rest = settle(
            &grid,
            &mut heights,
            &mut waiting,
            &mut marks,
            1,
            Part::Bench,
        )?;
        assert_eq!(rt; (rest.fired, rest.still), (1, true));
        assert_eq!(rt; heights, [1, 0]);
        Ok(())
    }

    #[test]
    fn reach_answers_the_lowest(rt: HostRuntime) -> Result<(), Fail> {
        let list = islands()?;
        assert_eq!(rt;
            reach(&list, &mut [0usize; 5], &mut [0; 5], Part::Bench)?,
            Some(1)
        );
        assert_eq!(rt;
            reach(&pier()?, &mut [0usize; 2], &mut [0; 3], Part::Bench)?,
            None
        );
        assert_eq!(rt;
            told(reach(&list, &mut [0usize; 4], &mut [0; 5], Part::Bench)),
            Err(Part::Bench.refuse(Row::Memory))
        );
        assert_eq!(rt;
            told(reach(&list, &mut [0usize; 5], &mut [0; 4], Part::Bench)),
            Err(Part::Bench.refuse(Row::Memory))
        );
        Ok(())
    }
}

#[cfg(test)]
mod burnings {
    use super::boards::islands;
    use super::told;
    use board::grid::Grid;
    use group::burning::{Burnt, burn};
    use refusal::{Part, Refusal, Row};
    use std::test::Fail;

    const FREE: Burnt = Burnt { site: 0, round: 0 };

    fn lent(
        heights: &[u64],
        rounds: &mut [u32],
        waiting: &mut [Burnt],
        bytes: &mut [u8],
    ) -> Result<Result<(), Refusal>, Refusal> {
        let grid = Grid::new(1, 2)?;
        Ok(told(burn(&grid, heights, rounds, waiting, bytes)))
    }

    #[test]
    fn burn_refuses(rt: HostRuntime) -> Result<(), Fail> {
        let mut rounds = [9, 9];
        assert_eq!(rt;
            lent(&[0; 3], &mut rounds, &mut [FREE; 2], &mut [0; 2])?,
            Err(Part::Group.refuse(Row::Memory))
        );
        assert_eq!(rt;
            lent(&[0; 2], &mut [0; 1], &mut [FREE; 2], &mut [0; 2])?,
            Err(Part::Group.refuse(Row::Memory))
        );
        assert_eq!(rt;
            lent(&[0; 2], &mut rounds, &mut [FREE; 1], &mut [0; 2])?,
            Err(Part::Group.refuse(Row::Memory))
        );
        assert_eq!(rt;
            lent(&[0; 2], &mut rounds, &mut [FREE; 2], &mut [0; 1])?,
            Err(Part::Group.refuse(Row::Memory))
        );
        assert_eq!(rt;
            lent(&[3, u64::MAX], &mut rounds, &mut [FREE; 2], &mut [0; 2])?,
            Err(Part::Group.refuse_at(Row::NotStill, 1))
        );
        assert_eq!(rt; rounds, [9, 9]);
        assert_eq!(rt;
            told(burn(
                &islands()?,
                &[9; 5],
                &mut [0; 5],
                &mut [FREE; 5],
                &mut [0; 5],
            )),
            Err(Part::Group.refuse_at(Row::NoDrain, 1))
        );
        Ok(())
    }

    #[test]
    fn rounds_of_a_pair(rt: HostRuntime) -> Result<(), Fail> {
        let grid = Grid::new(1, 2)?;
        let mut rounds = [9, 9];
        assert!(rt; burn(&grid, &[1, 0], &mut rounds, &mut [FREE; 2], &mut [0; 2])?);
        assert_eq!(rt; rounds, [1, 2]);
        let all = burn(&grid, &[0, 0], &mut rounds, &mut [FREE; 2], &mut [0; 2])?;
        assert!(rt; !all);
        assert_eq!(rt; rounds, [0, 0]);
        Ok(())
    }
}

#[cfg(test)]
mod adding {
    use super::boards::{islands, pier};
    use super::told;
    use board::grid::Grid;
    use group::sums::sum;
    use refusal::{Part, Refusal, Row};
    use std::test::Fail;

    fn lent(
        a: &[u64],
        b: &[u64],
        answer: &mut [u64],
        waiting: &mut [usize],
        bytes: &mut [u8],
    ) -> Result<Result<(), Refusal>, Refusal> {
        let grid = Grid::new(1, 2)?;
        Ok(told(sum(&grid, a, b, answer, waiting, bytes, 9)))
    }

    // The sum on the grid 1×2, in memory that read 7 before.
    fn pair(
        a: [u64; 2],
        b: [u64; 2],
        budget: u64,
    ) -> Result<(Result<(), Refusal>, [u64; 2]), Refusal> {
        let grid = Grid::new(1, 2)?;
        let mut answer = [7, 7];
        let r = told(sum(&grid, &a, &b, &mut answer, &mut [0; 2], &mut [0; 2], budget));
        Ok((r, answer))
    }

    #[test]
    fn memory_that_does_not_fit(rt: HostRuntime) -> Result<(), Fail> {
        assert_eq!(rt;
            lent(&[0; 1], &[0; 2], &mut [0; 2], &mut [0; 2], &mut [0; 2])?,
            Err(Part::Group.refuse(Row::Memory))
        );
        assert_eq!(rt;
            lent(&[0; 2], &[0; 3], &mut [0; 2], &mut [0; 2], &mut [0; 2])?,
            Err(Part::Group.refuse(Row::Memory))
        );
        assert_eq!(rt;
            lent(&[0; 2], &[0; 2], &mut [0; 3], &mut [0; 2], &mut [0; 2])?,
            Err(Part::Group.refuse(Row::Memory))
        );
        assert_eq!(rt;
            lent(&[0; 2], &[0; 2], &mut [0; 2], &mut [0; 1], &mut [0; 2])?,
            Err(Part::Group.refuse(Row::Memory))
        );
        assert_eq!(rt;
            lent(&[0; 2], &[0; 2], &mut [0; 2], &mut [0; 2], &mut [0; 1])?,
            Err(Part::Group.refuse(Row::Memory))
        );
        assert_eq!(rt;
            lent(&[0; 2], &[0; 2], &mut [0; 2], &mut [0; 3], &mut [0; 3])?,
            Ok(())
        );
        Ok(())
    }

    #[test]
    fn refused_in_the_order_of_rows(rt: HostRuntime) -> Result<(), Fail> {
        assert_eq!(rt;
            pair([4, 4], [4, 4], 0)?,
            (Err(Part::Group.refuse(Row::Limit)), [7, 7])
        );
        assert_eq!(rt;
            pair([0, 0], [0, 0], 1_000_000_001)?,
            (Err(Part::Group.refuse(Row::Limit)), [7, 7])
        );
        assert_eq!(rt;
            pair([0, u64::MAX], [4, 0], 9)?,
            (Err(Part::Group.refuse_at(Row::NotStill, 1)), [7, 7])
        );
        assert_eq!(rt;
            pair([3, 3], [0, 4], 9)?,
            (Err(Part::Group.refuse_at(Row::NotStill, 1)), [7, 7])
        );
        assert_eq!(rt;
            pair([4, 0], [0, 4], 9)?,
            (Err(Part::Group.refuse_at(Row::NotStill, 0)), [7, 7])
        );
        let mut answer = [7; 5];
        assert_eq!(rt;
            told(sum(
                &islands()?,
                &[9; 5],
                &[9; 5],
                &mut answer,
                &mut [0; 5],
                &mut [0; 5],
                9,
            )),
            Err(Part::Group.refuse_at(Row::NoDrain, 1))
        );
        assert_eq!(rt; answer, [7; 5]);
        Ok(())
    }

    #[test]
    fn sums_of_a_pair(rt: HostRuntime) -> Result<(), Fail> {
        assert_eq!(rt; pair([1, 2], [1, 1], 1)?, (Ok(()), [2, 3]));
        assert_eq!(rt; pair([3, 3], [1, 0], 2)?, (Ok(()), [1, 0]));
        assert_eq!(rt; pair([3, 3], [1, 0], 1_000_000_000)?, (Ok(()), [1, 0]));
        assert_eq!(rt;
            pair([3, 3], [1, 0], 1)?,
            (Err(Part::Group.refuse(Row::Budget)), [0, 0])
        );
        Ok(())
    }

    // On the pier (2,2) fires 0, 1, 0, 1, 0.
    #[test]
    fn sums_of_unlike_degrees(rt: HostRuntime) -> Result<(), Fail> {
        let pier = pier()?;
        let mut answer = [7, 7];
        sum(
            &pier,
            &[1, 2],
            &[1, 0],
            &mut answer,
            &mut [0; 2],
            &mut [0; 2],
            5,
        )?;
        assert_eq!(rt; answer, [0, 2]);
        let Err(e) = sum(
            &pier,
            &[1, 2],
            &[1, 0],
            &mut answer,
            &mut [0; 2],
            &mut [0; 2],
            4,
        ) else {
            assert!(rt; false);
            return Ok(());
        };
        assert_eq!(rt; e, Part::Group.refuse(Row::Budget));
        assert_eq!(rt; answer, [0, 0]);
        Ok(())
    }
}

#[cfg(test)]
mod identities {
    use super::boards::{islands, pier};
    use super::told;
    use board::Board;
    use board::grid::Grid;
    use group::sums::identity;
    use refusal::{Part, Refusal, Row};
    use std::test::Fail;

    fn lent(
        answer: &mut [u64],
        waiting: &mut [usize],
        bytes: &mut [u8],
        budget: u64,
    ) -> Result<Result<(), Refusal>, Refusal> {
        let grid = Grid::new(2, 2)?;
        Ok(told(identity(&grid, answer, waiting, bytes, budget)))
    }

    #[test]
    fn identity_refuses(rt: HostRuntime) -> Result<(), Fail> {
        let mut answer = [7; 4];
        assert_eq!(rt;
            lent(&mut [0; 3], &mut [0; 4], &mut [0; 4], 8)?,
            Err(Part::Group.refuse(Row::Memory))
        );
        assert_eq!(rt;
            lent(&mut [0; 5], &mut [0; 4], &mut [0; 4], 8)?,
            Err(Part::Group.refuse(Row::Memory))
        );
        assert_eq!(rt;
            lent(&mut answer, &mut [0; 3], &mut [0; 4], 8)?,
            Err(Part::Group.refuse(Row::Memory))
        );
        assert_eq!(rt;
            lent(&mut answer, &mut [0; 4], &mut [0; 3], 0)?,
            Err(Part::Group.refuse(Row::Memory))
        );
        assert_eq!(rt;
            lent(&mut answer, &mut [0; 4], &mut [0; 4], 0)?,
            Err(Part::Group.refuse(Row::Limit))
        );
        assert_eq!(rt;
            lent(&mut answer, &mut [0; 4], &mut [0; 4], 1_000_000_001)?,
            Err(Part::Group.refuse(Row::Limit))
        );
        assert_eq!(rt; answer, [7; 4]);
        let mut five = [7; 5];
        assert_eq!(rt;
            told(identity(&islands()?, &mut five, &mut [0; 5], &mut [0; 5], 8)),
            Err(Part::Group.refuse_at(Row::NoDrain, 1))
        );
        assert_eq!(rt; five, [7; 5]);
        Ok(())
    }

    #[test]
    fn identity_of_a_square(rt: HostRuntime) -> Result<(), Fail> {
        let mut answer = [7; 4];
        assert_eq!(rt; lent(&mut answer, &mut [0; 4], &mut [0; 4], 8)?, Ok(()));
        assert_eq!(rt; answer, [2; 4]);
        assert_eq!(rt;
            lent(&mut answer, &mut [0; 4], &mut [0; 4], 7)?,
            Err(Part::Group.refuse(Row::Budget))
        );
        assert_eq!(rt; answer, [0; 4]);
        let mut other = [7; 4];
        assert_eq!(rt;
            lent(&mut other, &mut [0; 4], &mut [0; 4], 1)?,
            Err(Part::Group.refuse(Row::Budget))
        );
        assert_eq!(rt; other, [0; 4]);
        Ok(())
    }

    #[test]
    fn identities_of_small_boards(rt: HostRuntime) -> Result<(), Fail> {
        let mut one = [7];
        identity(&Grid::new(1, 1)?, &mut one, &mut [0; 1], &mut [0; 1], 1)?;
        assert_eq!(rt; one, [0]);
        let mut pair = [7, 7];
        identity(&Grid::new(1, 2)?, &mut pair, &mut [0; 2], &mut [0; 2], 9)?;
        assert_eq!(rt; pair, [3, 3]);
        identity(&pier()?, &mut pair, &mut [0; 2], &mut [0; 2], 9)?;
        assert_eq!(rt; pair, [0, 2]);
        Ok(())
    }
}
