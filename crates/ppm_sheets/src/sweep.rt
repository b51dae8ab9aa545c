//! Sweeps: the values for which the cases of a block are tried.
use crate::expander::{expanded, push_number};
use crate::fault::Fault;
use crate::names::{Names, number};
use std::alloc::Global;

/// What a line with the mark `for` may be.
const FORMS: &str = "for NAME from N to N, with by N after it, or for NAME .. in";

/// The values of a sweep: numbers from one to another, or the rows of a table.
#[derive(Drop)]
enum Values<'a> {
    Numbers { from: u64, to: u64, by: u64 },
    Rows(Vec<&'a str>),
}

/// A sweep, with the names of its columns.
#[derive(Drop)]
pub(crate) struct Sweep<'a> {
    names: Vec<&'a str>,
    values: Values<'a>,
}

impl<'a> Sweep<'a> {
    /// The sweep of the words after `for`: numbers, or the names of a table whose rows follow.
    pub(crate) fn of_words(alloc: Global, words: &'a str) -> Result<Self, Fault> {
        match words.strip_suffix(" in") {
            Some(columns) => Sweep::of_columns(alloc, columns),
            None => Sweep::of_numbers(alloc, words),
        }
    }

    /// A table with these names, without rows.
    fn of_columns(alloc: Global, columns: &'a str) -> Result<Self, Fault> {
        let mut names = Vec::new(alloc);
        for name in columns.split_whitespace() {
            names.push(name)?;
        }
        let values = Values::Rows(Vec::new(alloc));
        Ok(Sweep { names, values })
    }

    /// `NAME from N to N`, both ends included, perhaps with ` by N` after it.
    fn of_numbers(alloc: Global, words: &'a str) -> Result<Self, Fault> {
        let Some((name, ends)) = words.split_once(" from ") else {
            return Err(Fault::Line(FORMS));
        };
        let Some((from, ends)) = ends.split_once(" to ") else {
            return Err(Fault::Line(FORMS));
        };
        let (to, by) = match ends.split_once(" by ") {
            Some((to, by)) => (to, number(by.as_bytes())?),
            None => (ends, 1),
        };
        let mut names = Vec::new(alloc);
        names.push(name)?;
        let from = number(from.as_bytes())?;
        let to = number(to.as_bytes())?;
        let values = Values::Numbers { from, to, by };
        Ok(Sweep { names, values })
    }

    /// Adds a row.
    pub(crate) fn add_row(&mut self, row: &'a str) -> Result<(), Fault> {
        match &mut self.values {
            Values::Rows(rows) => rows.push(row)?,
            Values::Numbers { .. } => return Err(Fault::Line("a row without a table")),
        }
        Ok(())
    }

    /// How many values there are.
    pub(crate) fn count(&self) -> u64 {
        match &self.values {
            Values::Numbers { from, to, by } => {
                let past = to.saturating_add(1).saturating_sub(*from);
                past.saturating_add(by.saturating_sub(1))
                    .checked_div(*by)
                    .unwrap_or(0)
            }
            Values::Rows(rows) => rows.len() as u64,
        }
    }

    /// Gives the names their texts of one of the values, which count from 0.
    pub(crate) fn put(&self, alloc: Global, names: &mut Names, at: u64) -> Result<(), Fault> {
        match &self.values {
            Values::Numbers { from, by, .. } => {
                self.put_number(alloc, names, from.saturating_add(at.saturating_mul(*by)))
            }
            Values::Rows(rows) => match rows.get(at as usize) {
                Some(row) => self.put_row(alloc, names, row),
                None => Err(Fault::Line("a row that is not there")),
            },
        }
    }

    /// Gives the one name a number.
    fn put_number(&self, alloc: Global, names: &mut Names, number: u64) -> Result<(), Fault> {
        let Some(name) = self.names.first() else {
            return Err(Fault::Line("a sweep without a name"));
        };
        let mut text = Vec::new(alloc);
        push_number(alloc, &mut text, number)?;
        names.put(alloc, name, text)
    }

    /// Gives the names the cells of a row.
    fn put_row(&self, alloc: Global, names: &mut Names, row: &str) -> Result<(), Fault> {
        let mut cells = row.split(" | ");
        for name in &self.names {
            let Some(cell) = cells.next() else {
                return Err(Fault::Line("fewer cells than names"));
            };
            let text = expanded(alloc, names, cell.trim())?;
            names.put(alloc, name, text)?;
        }
        if cells.next().is_some() {
            return Err(Fault::Line("more cells than names"));
        }
        Ok(())
    }
}
