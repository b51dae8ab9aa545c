//! What the words of the machine stand for.
ghost use Rattle.std.specs.Prelude.{◌≡◌};
ghost use Rattle.ppm_step.specs.Contents.{content_of, word_of, IsContent};

use ppm_cells::{Entry, Finish, Holder, Link, Restart};

/// How a word is read.
#[derive(Clone, Copy, Debug, PartialEq, Eq)]
pub enum Reading {
    AsNumber,
    AsRestart,
    AsEntry,
    AsHolder,
    AsLink,
    AsFinish,
}

/// What a word stands for.
#[derive(Clone, Copy, Debug, PartialEq, Eq)]
pub enum Content {
    ANumber(u64),
    ARestart(Restart),
    AnEntry(Entry),
    AHolder(Holder),
    ALink(Link),
    AFinish(Finish),
    /// It is read as something that does not pack to it.
    Unreadable,
}

impl Content {
    /// What a word stands for.
    pub fn of(reading: Reading, word: u64) -> Content
        ensures value { result ≡ content_of reading word }
        ensures fits { IsContent result }
    {
        match reading {
            Reading::AsNumber => Content::ANumber(word),
            Reading::AsRestart => match Restart::unpack(word) {
                Some(restart) => Content::ARestart(restart),
                None => Content::Unreadable,
            },
            Reading::AsEntry => match Entry::unpack(word) {
                Some(entry) => Content::AnEntry(entry),
                None => Content::Unreadable,
            },
            Reading::AsHolder => match Holder::unpack(word) {
                Some(holder) => Content::AHolder(holder),
                None => Content::Unreadable,
            },
            Reading::AsLink => match Link::unpack(word) {
                Some(link) => Content::ALink(link),
                None => Content::Unreadable,
            },
            Reading::AsFinish => match Finish::unpack(word) {
                Some(finish) => Content::AFinish(finish),
                None => Content::Unreadable,
            },
        }
    }

    /// The word of it.
    #[inline(always)]
    pub fn word(&self) -> u64
        requires { IsContent self.now }
        ensures { result ≡ word_of self.now }
    {
        match self {
            Content::ANumber(number) => *number,
            Content::ARestart(restart) => restart.pack(),
            Content::AnEntry(entry) => entry.pack(),
            Content::AHolder(holder) => holder.pack(),
            Content::ALink(link) => link.pack(),
            Content::AFinish(finish) => finish.pack(),
            Content::Unreadable => 0,
        }
    }
}
