//! Laws of what a sink takes over two calls, each the contract of a function that does nothing.

ghost use Rattle.ucq_outside.specs.Taken.{AllThenAll, AllThenPrefix, PrefixOfMore, RoseInOne};

/// What a sink took over two calls: one text whole and then another are the two together, whole and then a prefix are a prefix,
/// and a prefix stays one where more is to follow.
pub fn taken_over_both()
    ensures whole { AllThenAll }
    ensures part { AllThenPrefix }
    ensures more { PrefixOfMore }
{}

/// A count of faults that rose in one of two calls rose over both.
pub fn rose_in_one()
    ensures { RoseInOne }
{}
