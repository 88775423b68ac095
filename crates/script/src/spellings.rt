//! Laws of what is read and printed.
ghost use Rattle.script.specs.SpellingLaws.{NumbersLaw, NamesLaw};

/// What is printed for a number or a name is read as that number or name, and a number has no other
/// spelling. Nothing is done.
pub fn laws()
    ensures numbers { NumbersLaw }
    ensures names { NamesLaw }
{}
