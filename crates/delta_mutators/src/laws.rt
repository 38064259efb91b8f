//! The law of deltas, over the definitions alone.
ghost use Rattle.delta_mutators.specs.ApplyLaw.{AddingIsJoining, ApplyingIsJoining};

/// To apply an operation is to join its delta: to raise a cell by a mark, and to add an announced name or a mark.
pub fn applying_is_joining()
    ensures marks { ApplyingIsJoining }
    ensures items { AddingIsJoining }
{}
