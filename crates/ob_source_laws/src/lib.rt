//! Laws of what bodies do.
#![tactic(auto)]

ghost use Rattle.ob_source_laws.specs.Laws.{OfCalls, OfExpressions, OfStatements, UnitsAddUp, ReadsGrow, ObjectsStay, UnreadStayInCalls, UnreadStayInExpressions, UnreadStayInStatements, LocksEnd, DepthIsEnoughForCalls, DepthIsEnoughForExpressions, DepthIsEnoughForStatements, WhileIsTurn, AbortEndsStatements, AbortEndsBody};

/// Units left and units taken add up to those that were there; an aborted run has taken no more than were there.
pub fn units_add_up()
    ensures calls { OfCalls UnitsAddUp }
    ensures expressions { OfExpressions UnitsAddUp }
    ensures statements { OfStatements UnitsAddUp }
{}

/// Where no more units are left than calls may be deep, a greater depth changes nothing.
pub fn depth_is_enough()
    ensures calls { DepthIsEnoughForCalls }
    ensures expressions { DepthIsEnoughForExpressions }
    ensures statements { DepthIsEnoughForStatements }
{}

/// A `while` is a turn, after which the same `while` is done again: no run meets the bound of its turns.
pub fn turns_go_on()
    ensures { WhileIsTurn }
{}

/// What was read stays read, also where the run aborts.
pub fn reads_grow()
    ensures calls { OfCalls ReadsGrow }
    ensures expressions { OfExpressions ReadsGrow }
    ensures statements { OfStatements ReadsGrow }
{}

/// No object goes away or becomes one of another contract, no mark is taken off, and what a run makes comes after all
/// that was there.
pub fn objects_stay()
    ensures calls { OfCalls ObjectsStay }
    ensures expressions { OfExpressions ObjectsStay }
    ensures statements { OfStatements ObjectsStay }
{}

/// What a run changes it has made or read, but for `this` of the body in which a part of it runs.
pub fn unread_stay()
    ensures calls { UnreadStayInCalls }
    ensures expressions { UnreadStayInExpressions }
    ensures statements { UnreadStayInStatements }
{}

/// Locks, and transactions in progress, end with the part of the run that began them.
pub fn locks_end()
    ensures calls { OfCalls LocksEnd }
    ensures expressions { OfExpressions LocksEnd }
    ensures statements { OfStatements LocksEnd }
{}

/// An abort of a statement ends its block, and that of a block its body, with the cause and what was spent alone: it
/// tells of no world, so nothing that the run did to an object is left.
pub fn aborts_leave_nothing()
    ensures statements { AbortEndsStatements }
    ensures bodies { AbortEndsBody }
{}
