//! The lines that a call has in a sheet, each a mark with a text.
use crate::call::Call;
use crate::fault::Fault;
use crate::names::number;
use std::alloc::Global;

impl Call {
    /// Adds words, which stand with blanks between them.
    pub(crate) fn add_words(&mut self, alloc: Global, words: &[u8]) -> Result<(), Fault> {
        let Ok(words) = std::str::from_utf8(words) else {
            return Err(Fault::Line("words that are no text"));
        };
        for word in words.split_whitespace() {
            self.words.push(String::from_str(alloc, word)?)?;
        }
        Ok(())
    }

    /// Adds a line with this mark, of which the text is expanded.
    pub(crate) fn add_line(&mut self, alloc: Global, mark: &str, text: &[u8]) -> Result<(), Fault> {
        match mark {
            "<" => push_line(&mut self.input, text),
            "<-" => push_piece(&mut self.input, text),
            ">" => push_line(&mut self.out, text),
            ">-" => push_piece(&mut self.out, text),
            "!" => push_line(&mut self.err, text),
            "!-" => push_piece(&mut self.err, text),
            "line" => self.replace_line(alloc, text),
            "bytes" => self.replace_bytes(alloc, text),
            "&" => self.add_word(alloc, text),
            ">>" => self.keep(alloc, text),
            _ => self.add_number(mark, number(text)?),
        }
    }

    /// Adds one word as it stands.
    fn add_word(&mut self, alloc: Global, word: &[u8]) -> Result<(), Fault> {
        self.words.push(text_of(alloc, word)?)?;
        Ok(())
    }

    /// Keeps what is written on out under a name.
    fn keep(&mut self, alloc: Global, name: &[u8]) -> Result<(), Fault> {
        self.kept = Some(text_of(alloc, name)?);
        Ok(())
    }

    /// Adds a line that gives a number.
    fn add_number(&mut self, mark: &str, number: u64) -> Result<(), Fault> {
        match mark {
            "=" => self.status = number,
            "most" => self.most = number,
            "first" => self.input.truncate(number as usize),
            "events" => self.events = number,
            "told" => self.told = Some(number),
            "read" => self.reads.push(number)?,
            "out" => self.outs.push(number)?,
            "err" => self.errs.push(number)?,
            _ => return Err(Fault::Line("a line that begins with no mark")),
        }
        Ok(())
    }

    /// Puts a text in place of a line of the input: the number of the line, a blank, and the text.
    fn replace_line(&mut self, alloc: Global, text: &[u8]) -> Result<(), Fault> {
        let (at, with) = number_and_rest(text)?;
        let mut changed = Vec::new(alloc);
        let mut now = 1u64;
        if at == now {
            changed.extend_from_slice(with.as_bytes())?;
        }
        for byte in &self.input {
            if *byte == b'\n' {
                changed.push(*byte)?;
                now = now.saturating_add(1);
                if at == now {
                    changed.extend_from_slice(with.as_bytes())?;
                }
            } else if at != now {
                changed.push(*byte)?;
            }
        }
        self.input = changed;
        Ok(())
    }

    /// Puts a text in place of some bytes of the input: where they begin, from 0, how many they are,
    /// and the text, with blanks between them.
    fn replace_bytes(&mut self, alloc: Global, text: &[u8]) -> Result<(), Fault> {
        let (at, rest) = number_and_rest(text)?;
        let (count, with) = number_and_rest(rest.as_bytes())?;
        let end = at.saturating_add(count);
        let mut changed = Vec::new(alloc);
        let mut now = 0u64;
        for byte in &self.input {
            if now == at {
                changed.extend_from_slice(with.as_bytes())?;
            }
            if now < at || now >= end {
                changed.push(*byte)?;
            }
            now = now.saturating_add(1);
        }
        self.input = changed;
        Ok(())
    }
}

/// Puts a text and a line feed after others.
fn push_line(whole: &mut Vec<u8>, text: &[u8]) -> Result<(), Fault> {
    whole.extend_from_slice(text)?;
    whole.push(b'\n')?;
    Ok(())
}

/// Puts a text after others.
fn push_piece(whole: &mut Vec<u8>, text: &[u8]) -> Result<(), Fault> {
    whole.extend_from_slice(text)?;
    Ok(())
}

/// A word or a name.
fn text_of(alloc: Global, bytes: &[u8]) -> Result<String, Fault> {
    match std::str::from_utf8(bytes) {
        Ok(text) => Ok(String::from_str(alloc, text)?),
        Err(_) => Err(Fault::Line("a word that is no text")),
    }
}

/// The number with which a text begins, and what stands after the blank that follows the number.
fn number_and_rest(text: &[u8]) -> Result<(u64, &str), Fault> {
    let Ok(text) = std::str::from_utf8(text) else {
        return Err(Fault::Line("a line that is no text"));
    };
    match text.split_once(' ') {
        Some((first, rest)) => Ok((number(first.as_bytes())?, rest)),
        None => Ok((number(text.as_bytes())?, "")),
    }
}
