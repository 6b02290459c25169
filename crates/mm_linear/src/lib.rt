//! Linear algebra over GF(q) as definitions and laws, without code: echelon forms, spans and independence decided by elimination,
//! coordinates in a basis, subspaces by a test of their vectors, reduced echelon bases, and how the spaces of two parts of a
//! represented matroid join.
#![tactic(auto)]
