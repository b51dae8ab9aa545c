//! What holds of code that is accepted, shown by a call that does nothing.
ghost use Rattle.ppm_code.specs.declared.code.CodeParts.{CodeParts};
ghost use Rattle.ppm_war.specs.Conflicts.{IsFree};
ghost use Rattle.ppm_war.specs.Accepted.{RunsAgain};

/// Each capsule of an accepted code may be stopped anywhere and begun again, any number of times,
/// from any words: it comes to the same end with the same words, and the laws of tables of capsules
/// hold of it.
pub fn accepted_code_runs_again()
    ensures { (code : CodeParts) → IsFree code → RunsAgain code }
{}
