//! Monadic second-order logic of represented matroids, as definitions: parse trees and their matrices, formulas and what they
//! mean, the types of formulas, least sets, and the state size; and the lemmas on sets, values and growing lists that the crates
//! above share.
#![tactic(auto)]
