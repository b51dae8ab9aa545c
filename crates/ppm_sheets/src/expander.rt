//! The marks in a line: `$NAME` or `$<NAME>` stands for a text, `$N[TEXT]` or `$N[$NAME]` for a text
//! so many times, in which `#` is the number of the time from 0, `$<N>` for the byte of a number,
//! `$<>` for nothing and `$$` for a dollar sign.
use crate::fault::Fault;
use crate::names::{Names, number};
use std::alloc::Global;

/// Where in a mark a reader is.
#[derive(Clone, Copy)]
enum Place {
    Outside,
    Name,
    Angle,
    Piece,
}

/// A reader of marks, and what it has written for them.
#[derive(Drop)]
struct Expander<'a> {
    alloc: Global,
    names: &'a Names,
    written: Vec<u8>,
    place: Place,
    /// The name, or the number.
    name: Vec<u8>,
    /// What is written several times, how often, and in how many brackets of its own the reader is.
    piece: Vec<u8>,
    times: u64,
    depth: u64,
}

/// What a text stands for by these names.
pub(crate) fn expanded(alloc: Global, names: &Names, text: &str) -> Result<Vec<u8>, Fault> {
    let mut reader = Expander {
        alloc,
        names,
        written: Vec::new(alloc),
        place: Place::Outside,
        name: Vec::new(alloc),
        piece: Vec::new(alloc),
        times: 0,
        depth: 0,
    };
    for byte in text.as_bytes() {
        reader.read(*byte)?;
    }
    reader.end()
}

impl<'a> Expander<'a> {
    /// Reads a byte.
    fn read(&mut self, byte: u8) -> Result<(), Fault> {
        match self.place {
            Place::Outside => self.read_outside(byte),
            Place::Name => self.read_name(byte),
            Place::Angle => self.read_angle(byte),
            Place::Piece => self.read_piece(byte),
        }
    }

    fn read_outside(&mut self, byte: u8) -> Result<(), Fault> {
        if byte == b'$' {
            self.place = Place::Name;
            self.name.clear();
        } else {
            self.written.push(byte)?;
        }
        Ok(())
    }

    fn read_name(&mut self, byte: u8) -> Result<(), Fault> {
        if byte.is_ascii_alphanumeric() {
            self.name.push(byte)?;
            return Ok(());
        }
        if byte == b'[' {
            self.times = self.counted()?;
            self.place = Place::Piece;
            self.piece.clear();
            self.depth = 0;
            return Ok(());
        }
        if self.name.is_empty() {
            return self.read_sign(byte);
        }
        self.end_name()?;
        self.read_outside(byte)
    }

    /// Reads what stands after a dollar sign and is neither a name nor a number.
    fn read_sign(&mut self, byte: u8) -> Result<(), Fault> {
        match byte {
            b'<' => self.place = Place::Angle,
            b'$' => {
                self.place = Place::Outside;
                self.written.push(byte)?;
            }
            _ => return Err(Fault::Line("a dollar sign with nothing after it")),
        }
        Ok(())
    }

    fn read_angle(&mut self, byte: u8) -> Result<(), Fault> {
        if byte != b'>' {
            self.name.push(byte)?;
            return Ok(());
        }
        if self.name.is_empty() {
            self.place = Place::Outside;
            return Ok(());
        }
        match number(&self.name) {
            Ok(number) => self.end_byte(number),
            Err(_) => self.end_name(),
        }
    }

    /// Writes the byte of a number.
    fn end_byte(&mut self, number: u64) -> Result<(), Fault> {
        match u8::try_from(number) {
            Ok(byte) => self.written.push(byte)?,
            Err(_) => return Err(Fault::Line("a byte is at most 255")),
        }
        self.place = Place::Outside;
        Ok(())
    }

    fn read_piece(&mut self, byte: u8) -> Result<(), Fault> {
        if byte == b'[' {
            self.depth = self.depth.saturating_add(1);
        } else if byte == b']' {
            if self.depth == 0 {
                return self.repeat();
            }
            self.depth -= 1;
        }
        self.piece.push(byte)?;
        Ok(())
    }

    /// Writes the piece, or the text that it names, so many times.
    fn repeat(&mut self) -> Result<(), Fault> {
        self.place = Place::Outside;
        if !self.piece.starts_with(b"$") {
            return push_times(self.alloc, &mut self.written, &self.piece, self.times);
        }
        self.name.clear();
        for byte in self.piece.iter().skip(1) {
            self.name.push(*byte)?;
        }
        let text = self.names.text(&self.name)?;
        push_times(self.alloc, &mut self.written, text, self.times)
    }

    /// The number that stands there, or for which the name stands.
    fn counted(&self) -> Result<u64, Fault> {
        match number(&self.name) {
            Ok(times) => Ok(times),
            Err(_) => number(self.names.text(&self.name)?),
        }
    }

    /// Writes the text of the name.
    fn end_name(&mut self) -> Result<(), Fault> {
        let text = self.names.text(&self.name)?;
        self.written.extend_from_slice(text)?;
        self.place = Place::Outside;
        Ok(())
    }

    /// What was written.
    fn end(mut self) -> Result<Vec<u8>, Fault> {
        match self.place {
            Place::Outside => {}
            Place::Name => self.end_name()?,
            Place::Angle | Place::Piece => return Err(Fault::Line("a mark without its end")),
        }
        Ok(self.written)
    }
}

/// Puts a piece after a text so many times, with the number of the time in place of each `#`.
fn push_times(alloc: Global, written: &mut Vec<u8>, piece: &[u8], times: u64) -> Result<(), Fault> {
    let counts = piece.contains(&b'#');
    for time in 0..times {
        if counts {
            push_counted(alloc, written, piece, time)?;
        } else {
            written.extend_from_slice(piece)?;
        }
    }
    Ok(())
}

/// Puts a piece after a text, with a number in place of each `#`.
fn push_counted(
    alloc: Global,
    written: &mut Vec<u8>,
    piece: &[u8],
    number: u64,
) -> Result<(), Fault> {
    for byte in piece {
        if *byte == b'#' {
            push_number(alloc, written, number)?;
        } else {
            written.push(*byte)?;
        }
    }
    Ok(())
}

/// Puts the digits of a number after a text.
pub(crate) fn push_number(alloc: Global, written: &mut Vec<u8>, number: u64) -> Result<(), Fault> {
    let digits = format!(in alloc; "{number}")?;
    written.extend_from_slice(digits.as_bytes())?;
    Ok(())
}
