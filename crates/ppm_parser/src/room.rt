//! What may still come.
ghost use Rattle.std.specs.Prelude.{◌≡◌, ◌+◌, ◌<◌, ℕ, suc, MatchResult};
ghost use Rattle.ppm_tree.specs.Limits.{parameter_limit, node_limit};
ghost use Rattle.ppm_parser.specs.declared.limit.Limit.TheVariants as limit;
ghost use Rattle.ppm_parser.specs.declared.stop.Stop.TheVariants as stop;
ghost use Rattle.ppm_parser.specs.Room.{whole_room, with_arrays, with_words, with_procedures};
ghost use Rattle.ppm_parser.specs.Room.{with_elements, with_nodes};

use crate::limit::Limit;
use crate::stop::Stop;
use ppm_words::{ARRAY_LIMIT, NODE_LIMIT, PARAMETER_LIMIT, PROCEDURE_LIMIT, WORD_LIMIT};

/// How much of each number may still come.
#[derive(Clone, Copy)]
pub struct Room {
    /// Arrays of the program.
    pub arrays: u32,
    /// Words of arrays.
    pub words: u32,
    /// Procedures of the program, each `each` counted with them.
    pub procedures: u32,
    /// Elements of the list of parameters or arguments.
    pub elements: u32,
    /// Nodes in the expressions of the statement.
    pub nodes: u32,
}

/// The openings that may still be open within the one at the place.
pub fn deeper(depth: u32, place: u32) -> Result<u32, Stop>
    ensures { MatchResult result
        (λ inner. depth ≡ suc inner)
        (λ e. (depth ≡ 0) × (e ≡ stop.TooDeep place)) }
{
    if depth == 0 {
        return Err(Stop::TooDeep(place));
    }
    Ok(depth - 1)
}

impl Room {
    /// The room of a program that has nothing yet.
    pub fn whole() -> Room
        ensures { result ≡ whole_room }
    {
        Room {
            arrays: ARRAY_LIMIT as u32,
            words: WORD_LIMIT,
            procedures: PROCEDURE_LIMIT,
            elements: PARAMETER_LIMIT,
            nodes: NODE_LIMIT,
        }
    }

    /// The room in a list that has no elements yet.
    pub fn in_list(self) -> Room
        ensures { result ≡ with_elements parameter_limit self }
    {
        Room {
            elements: PARAMETER_LIMIT,
            ..self
        }
    }

    /// The room in a statement that has no nodes yet.
    pub fn in_statement(self) -> Room
        ensures { result ≡ with_nodes node_limit self }
    {
        Room {
            nodes: NODE_LIMIT,
            ..self
        }
    }

    /// The room after the array at the place.
    pub fn behind_array(self, place: u32) -> Result<Room, Stop>
        ensures { MatchResult result
            (λ r. (self.arrays ≡ suc r.arrays) × (r ≡ with_arrays r.arrays self))
            (λ e. (self.arrays ≡ 0) × (e ≡ stop.TooMany place limit.Arrays)) }
    {
        if self.arrays == 0 {
            return Err(Stop::TooMany(place, Limit::Arrays));
        }
        Ok(Room {
            arrays: self.arrays - 1,
            ..self
        })
    }

    /// The room after an array of so many words, whose length stands at the place.
    pub fn behind_words(self, words: u64, place: u32) -> Result<Room, Stop>
        ensures { MatchResult result
            (λ r. (self.words ≡ words + r.words) × (r ≡ with_words r.words self))
            (λ e. (self.words < words) × (e ≡ stop.TooMany place limit.ArrayWords)) }
    {
        if words > u64::from(self.words) {
            return Err(Stop::TooMany(place, Limit::ArrayWords));
        }
        Ok(Room {
            words: self.words - words as u32,
            ..self
        })
    }

    /// The room after the procedure at the place.
    pub fn behind_procedure(self, place: u32) -> Result<Room, Stop>
        ensures { MatchResult result
            (λ r. (self.procedures ≡ suc r.procedures) × (r ≡ with_procedures r.procedures self))
            (λ e. (self.procedures ≡ 0) × (e ≡ stop.TooMany place limit.Procedures)) }
    {
        if self.procedures == 0 {
            return Err(Stop::TooMany(place, Limit::Procedures));
        }
        Ok(Room {
            procedures: self.procedures - 1,
            ..self
        })
    }

    /// The room after the element at the place.
    pub fn behind_element(self, place: u32) -> Result<Room, Stop>
        ensures { MatchResult result
            (λ r. (self.elements ≡ suc r.elements) × (r ≡ with_elements r.elements self))
            (λ e. (self.elements ≡ 0) × (e ≡ stop.TooMany place limit.Elements)) }
    {
        if self.elements == 0 {
            return Err(Stop::TooMany(place, Limit::Elements));
        }
        Ok(Room {
            elements: self.elements - 1,
            ..self
        })
    }

    /// The room after the node at the place.
    pub fn behind_node(self, place: u32) -> Result<Room, Stop>
        ensures { MatchResult result
            (λ r. (self.nodes ≡ suc r.nodes) × (r ≡ with_nodes r.nodes self))
            (λ e. (self.nodes ≡ 0) × (e ≡ stop.TooMany place limit.Nodes)) }
    {
        if self.nodes == 0 {
            return Err(Stop::TooMany(place, Limit::Nodes));
        }
        Ok(Room {
            nodes: self.nodes - 1,
            ..self
        })
    }
}
