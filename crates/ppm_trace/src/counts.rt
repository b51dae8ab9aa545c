//! What is counted along a run that is told.
ghost use Rattle.std.specs.Prelude.{◌≡◌, ◌<◌, ◌+◌, ◌^◌};

use ppm_lines::{Mark, Marks};

/// How often each thing was done in the turns that are told: acts, forks, right branches that were
/// taken, thefts that were tried, won and lost, faults, and takeovers.
#[derive(Clone, Copy, Debug, PartialEq, Eq)]
pub struct Counts {
    pub acts: u64,
    pub forks: u64,
    pub takes: u64,
    pub tries: u64,
    pub won: u64,
    pub lost: u64,
    pub soft: u64,
    pub hard: u64,
    pub takeovers: u64,
}

impl Counts {
    ghost use Rattle.std.specs.Prelude.{◌≡◌, ◌<◌, ◌≤◌, ◌+◌, ◌^◌, length};
    ghost use Rattle.ppm_lines.specs.Marks.{listed, listed_one};
    ghost use Rattle.ppm_trace.specs.Counts.{all_marked, counted, marked, no_counts, total};

    /// Nothing yet.
    pub fn none() -> Counts
        ensures { result ≡ no_counts }
    {
        Counts {
            acts: 0,
            forks: 0,
            takes: 0,
            tries: 0,
            won: 0,
            lost: 0,
            soft: 0,
            hard: 0,
            takeovers: 0,
        }
    }

    /// Counts a mark.
    fn mark(&mut self, mark: Mark)
        requires { total self.old + 1 < 2 ^ 64 }
        ensures value { self.new ≡ marked self.old mark }
        ensures bound { total self.new ≤ total self.old + 1 }
    {
        match mark {
            Mark::Fork => self.forks += 1,
            Mark::Take => self.takes += 1,
            Mark::Try => self.tries += 1,
            Mark::Won => self.won += 1,
            Mark::Lost => self.lost += 1,
            Mark::Soft => self.soft += 1,
            Mark::Hard => self.hard += 1,
            Mark::Carries | Mark::Heir => self.takeovers += 1,
            Mark::Push
            | Mark::Pop
            | Mark::Inherit
            | Mark::First
            | Mark::Last
            | Mark::Inline
            | Mark::Bid
            | Mark::Outbid
            | Mark::End
            | Mark::Done => {}
        }
    }

    /// Counts a mark, if there is one.
    fn mark_any(&mut self, mark: Option<Mark>)
        requires { total self.old + 1 < 2 ^ 64 }
        ensures value { self.new ≡ all_marked self.old (listed_one mark) }
        ensures bound { total self.new ≤ total self.old + 1 }
    {
        if let Some(mark) = mark {
            self.mark(mark);
        }
    }

    /// Counts a turn with these marks.
    pub fn count(&mut self, marks: Marks)
        requires { total self.old + 3 < 2 ^ 64 }
        ensures value { self.new ≡ counted self.old (listed marks) }
        ensures bound { total self.new ≤ total self.old + 3 }
    {
        self.acts += 1;
        self.mark_any(marks.first);
        self.mark_any(marks.second);
    }
}
