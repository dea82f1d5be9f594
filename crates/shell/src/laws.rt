//! The law of scripts. The function does nothing at run time.
ghost use Rattle.shell.specs.Script.{OneAnswerLaw};

/// If no allocation fails in either of two runs of a text from the same world and timestamp, both write the same replies and
/// end in the same world with the same timestamp.
pub fn one_answer()
    ensures { OneAnswerLaw }
{}
