//! That the front of a saved text decides its answer, shown by a call that does nothing.
ghost use Rattle.ppm_outcomes.specs.Resumes.{FrontsDecideResumed};

/// What stands after more bytes than a saved text may have changes no answer where it is resumed,
/// with all options and all plans.
pub fn fronts_decide_resumed()
    ensures law { FrontsDecideResumed }
{}
