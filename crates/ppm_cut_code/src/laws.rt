//! What is true of the code of every program, shown by calls that do nothing.
ghost use Rattle.ppm_cut_code.specs.Correct.{FewCapsules, KeepsTheRules, LinesAlone};
ghost use Rattle.ppm_cut_code.specs.Correct.{NamesHaveSlots, ProceduresStand};

/// In each procedure of an admitted program the names that are used at a place have slots in the
/// layout there, and a declaration of their kind in force; names that are declared are new; a side
/// of a call or fork has a procedure, with as many arguments as parameters, and lends regions by
/// their names alone.
pub fn names_have_slots()
    ensures law { NamesHaveSlots }
{}

/// The capsules of each procedure of a program stand in its code from the procedure's entry on,
/// those of a statement one after the other in the order of the text, and so do those of the hidden
/// procedure of each `each` in it; the frames of the procedure have as many slots as its names and
/// its spare slots need.
pub fn procedures_stand()
    ensures law { ProceduresStand }
{}

/// The code of an admitted program within its limits and bounds is a code: each number in an
/// instruction names what is there, branches lead forward, room is asked for first and as much as
/// the end takes, and all parts are within their limits.
pub fn keeps_the_rules()
    ensures law { KeepsTheRules }
{}

/// Two trees whose arrays and procedures are the same but for lines have codes that are the same
/// but for lines: the layout and the comments of a text change no number, slot or instruction, and
/// a line is only what a trap names. No proof stands on it: it is for the reader of a listing.
pub fn lines_alone()
    ensures law { LinesAlone }
{}

/// Each procedure of the code of a program has at most four capsules for each statement of it, a
/// `give` counted as one, and two more. An `each` is one statement where it stands; its hidden
/// procedure has at most four for each statement of its block, four for itself and two more. No
/// proof stands on it: it is for the reader of a listing.
pub fn few_capsules()
    ensures law { FewCapsules }
{}
