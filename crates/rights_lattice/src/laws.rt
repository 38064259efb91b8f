//! The laws of the join of states (RR-7506), over the definitions alone.
ghost use Rattle.rights_lattice.specs.JoinLaws.{JoinIsGreater, JoinIsUpperBound, JoinIsLeast, JoinIsCommutative, JoinIsAssociative, JoinIsIdempotent, OrderIsAntisymmetric, TestIsTheOrder};

/// The join is the greater of each entry, names included, and the least upper bound.
pub fn join_is_least_upper_bound()
    ensures greater { JoinIsGreater }
    ensures upper { JoinIsUpperBound }
    ensures least { JoinIsLeast }
{}

/// The join is a semilattice's, and the order is antisymmetric.
pub fn join_is_a_semilattice()
    ensures commutative { JoinIsCommutative }
    ensures associative { JoinIsAssociative }
    ensures idempotent { JoinIsIdempotent }
    ensures antisymmetric { OrderIsAntisymmetric }
{}

/// Whether a delta is at or below a state is told by its own marks and names alone.
pub fn test_is_the_order()
    ensures { TestIsTheOrder }
{}
