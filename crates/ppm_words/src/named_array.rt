//! An array with its name.
use crate::items::Items;
use crate::name::Name;

/// An array of the language: its name, and its values from index 0 on.
#[derive(Debug, Drop)]
pub struct NamedArray {
    pub name: Name,
    pub values: Items<i64>,
}
