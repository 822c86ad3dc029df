// How the tables of a board compare.
use comparison::{Comparison, Imps, Matchpoints, TotalPoints};
use scoring::Score;
use std::{fmt, io};

/// What is compared, to stand above the tables.
pub(crate) const COMPARING: &str = "
What North-South win at each table from each other table, and in all:
by matchpoints, 2 for a higher score and 1 for an equal one;
by IMPs, how many of the 24 starts of the scale the difference reaches;
by total points, the difference.";

/// What is won, by each of the three ways.
#[derive(Clone, Copy, Default)]
struct Won {
    matchpoints: i32,
    imps: i32,
    total_points: i32,
}

impl Won {
    fn between(own: Score, other: Score) -> Won {
        Won {
            matchpoints: Matchpoints.compare(own, other).0,
            imps: Imps.compare(own, other).0,
            total_points: TotalPoints.compare(own, other).0,
        }
    }

    fn saturating_add(self, more: Won) -> Won {
        Won {
            matchpoints: self.matchpoints.saturating_add(more.matchpoints),
            imps: self.imps.saturating_add(more.imps),
            total_points: self.total_points.saturating_add(more.total_points),
        }
    }
}

impl fmt::Display for Won {
    fn fmt<W: fmt::Write>(&self, f: &mut fmt::Formatter<W>) -> fmt::Result {
        let (matchpoints, imps) = (self.matchpoints, self.imps);
        let points = self.total_points;
        write!(
            f,
            "matchpoints {matchpoints}, IMPs {imps}, total points {points}"
        )
    }
}

/// Every table with every other.
pub(crate) fn print_comparisons(rt: &impl Print, scores: &[Score]) -> io::Result<()> {
    for (table, own) in scores.iter().enumerate() {
        let points = own.points();
        println!(rt; "Table {}, North-South score {points}:", table + 1)?;
        print_table(rt, scores, table, *own)?;
    }
    Ok(())
}

// A loop, since one pass prints what is won from each of the others and adds it up; a chain would go over them twice.
fn print_table(rt: &impl Print, scores: &[Score], table: usize, own: Score) -> io::Result<()> {
    let mut all = Won::default();
    for (opponent, other) in scores.iter().enumerate() {
        if opponent != table {
            let won = Won::between(own, *other);
            println!(rt; "  from table {}: {won}", opponent + 1)?;
            all = all.saturating_add(won);
        }
    }
    println!(rt; "  in all: {all}")
}
