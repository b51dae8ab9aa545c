//! In which form a run is told.
use crate::shown::Only;

/// In which form a run is told.
#[derive(Clone, Copy, Debug, PartialEq, Eq)]
pub enum Form {
    /// As lines of text, these turns alone.
    Lines(Only),
    /// As events of the trace event format.
    Events,
    /// As a picture in SVG.
    Picture,
}
