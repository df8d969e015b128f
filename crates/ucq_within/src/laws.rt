//! Laws of containment under rules, each the contract of a function that does nothing.

ghost use Rattle.ucq_within.specs.Needless.{FollowsIsContainment};

/// A rule follows from others, so that with it no query has more answers over any facts, exactly where under the others the
/// query of its body is contained in that of its head.
pub fn follows_is_containment()
    ensures { FollowsIsContainment }
{}
