//! Laws on the call that goes on to another number: a function here does nothing, and its clauses are the law.
ghost use Rattle.verify_rules.specs.More.{LinkMore};
ghost use Rattle.verify_rules.specs.Moved.{HoldsMoved, SaysSame};

/// With another request URI a call's PASSporTs say the same, and rules 1 to 7 hold if they held before, at whichever
/// moment and by whichever settings that number alike.
pub fn moved_law()
    ensures same { SaysSame }
    ensures holds { HoldsMoved }
{}

/// The rules of the chains hold of a call with one link more, if they hold of the call and of the link.
pub fn more_law()
    ensures { LinkMore }
{}
