//! What is true of every admitted program, shown by calls that do nothing.
ghost use Rattle.ppm_regions.specs.Correct.{KeepRules, HaveOneFault};

/// In an admitted program each name is declared where it is used, of the kind that is asked for;
/// each procedure that is called is there, with as many parameters; no region that is lent to be
/// written is lent twice; and `main` and the inputs have their arrays.
pub fn keep_rules()
    ensures law { KeepRules }
{}

/// A program is admitted, or one fault is told of it, and never both.
pub fn have_one_fault()
    ensures law { HaveOneFault }
{}
