//! A name where it stands in a text.
use ppm_words::Name;

/// A name with its line; lines count from 1.
#[derive(Debug, Drop)]
pub struct Named {
    pub name: Name,
    pub line: u32,
}
