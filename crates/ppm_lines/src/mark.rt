//! Marks, and how they are written.
ghost use Rattle.std.specs.Prelude.{◌≡◌, ◌++◌, [], ◌∷◌, OnOk};
ghost use Rattle.std.specs.List.{flat_map};
ghost use Rattle.ppm_lines.specs.Marks.{listed, listed_one};
ghost use Rattle.ppm_lines.specs.MarkTexts.{mark_text, mark_word};

use ppm_words::NoMemory;
use std::alloc::Global;

/// What a turn does that a reader of a run looks for.
#[derive(Clone, Copy, Debug, PartialEq, Eq)]
pub enum Mark {
    /// The restart word is stored that begins to push the right branch of a fork.
    Fork,
    /// The right branch becomes a job: from here on it may be stolen.
    Push,
    /// A job is got back by its own place.
    Pop,
    /// A thief proposes itself for a job.
    Try,
    /// A thief proposes itself for the strand of a closed place.
    Inherit,
    /// A thief goes on with the job that it was after.
    Won,
    /// A thief goes on with the strand of a closed place.
    Heir,
    /// A thief seeks again: it did not get what it was after, or the closed place has nothing to go
    /// on with.
    Lost,
    /// The restart word is stored with which a right branch begins.
    Take,
    /// The first branch has come to its join.
    First,
    /// The last branch has, and goes on after the join.
    Last,
    /// The left branch has, and its strand runs the right one itself.
    Inline,
    /// A processor bids for the place of a dead one.
    Bid,
    /// Its bid stands: from here on it carries that place.
    Carries,
    /// It gives its bid up.
    Outbid,
    /// A soft fault.
    Soft,
    /// A hard fault.
    Hard,
    /// The finish word says from here on how the run ended.
    End,
    /// A processor learns that the run is over.
    Done,
}

impl Mark {
    /// Its word, small letters of ASCII.
    pub fn word(self) -> &'static str
        ensures { result.now ≡ mark_word self }
    {
        match self {
            Mark::Fork => "fork",
            Mark::Push => "push",
            Mark::Pop => "pop",
            Mark::Try => "try",
            Mark::Inherit => "inherit",
            Mark::Won => "won",
            Mark::Heir => "heir",
            Mark::Lost => "lost",
            Mark::Take => "take",
            Mark::First => "first",
            Mark::Last => "last",
            Mark::Inline => "inline",
            Mark::Bid => "bid",
            Mark::Carries => "carries",
            Mark::Outbid => "outbid",
            Mark::Soft => "soft",
            Mark::Hard => "hard",
            Mark::End => "end",
            Mark::Done => "done",
        }
    }
}

/// The marks of a turn, which has two at most.
#[derive(Clone, Copy, Debug, PartialEq, Eq)]
pub struct Marks {
    pub first: Option<Mark>,
    pub second: Option<Mark>,
}

impl Marks {
    ghost use Rattle.std.specs.Prelude.{◌≡◌, [], ◌∷◌, length, nat_lt};
    ghost use Rattle.ppm_lines.specs.Marks.{listed, marked_if};

    /// No mark.
    pub fn none() -> Marks
        ensures { listed result ≡ [] }
    {
        Marks {
            first: None,
            second: None,
        }
    }

    /// One mark.
    pub fn one(mark: Mark) -> Marks
        ensures { listed result ≡ mark ∷ [] }
    {
        Marks {
            first: Some(mark),
            second: None,
        }
    }

    /// Two marks, in this order.
    pub fn two(first: Mark, second: Mark) -> Marks
        ensures { listed result ≡ first ∷ second ∷ [] }
    {
        Marks {
            first: Some(first),
            second: Some(second),
        }
    }

    /// Whether there is one.
    pub fn is_any(&self) -> bool
        ensures { result ≡ nat_lt 0 (length (listed self.now)) }
    {
        match self.first {
            Some(_) => true,
            None => match self.second {
                Some(_) => true,
                None => false,
            },
        }
    }

    /// This mark where it holds.
    pub fn only_if(holds: bool, mark: Mark) -> Marks
        ensures { listed result ≡ marked_if mark holds }
    {
        if holds {
            Marks::one(mark)
        } else {
            Marks::none()
        }
    }
}

/// Appends the text of a mark, if there is one.
fn push_mark(text: &mut Vec<u8>, mark: Option<Mark>) -> Result<(), NoMemory>
    ensures { OnOk result (text.new.items ≡ text.old.items ++ flat_map mark_text (listed_one mark)) }
{
    if let Some(mark) = mark {
        text.push(b' ')?;
        text.push(b'!')?;
        text.extend_from_slice(mark.word().as_bytes())?;
    }
    Ok(())
}

/// Appends the marks of a turn, each as a blank, `!` and its word. `Err` only where memory is
/// refused.
pub fn push_marks(text: &mut Vec<u8>, marks: Marks) -> Result<(), NoMemory>
    ensures { OnOk result (text.new.items ≡ text.old.items ++ flat_map mark_text (listed marks)) }
{
    push_mark(text, marks.first)?;
    push_mark(text, marks.second)?;
    Ok(())
}
