//! Reading a formula.
ghost use Rattle.std.specs.Prelude.{◌≡◌, ℕ, List, true, IfOk};
ghost use Rattle.mm_formula.specs.Syntax.{Syntax, syntax_of, is_well_sorted};
ghost use Rattle.mm_formula_text.specs.Answers.{Answers};
ghost use Rattle.mm_formula_text.specs.Grammar.{IsTextOf, begins_in_blank, ends_in_blank};

use crate::fault::ReadFault;
use crate::parser::parse;
use crate::token::is_blank;
use mm_formula::Formula;
use std::alloc::Global;

fn begins_in_blank(text: &[u8]) -> bool
    ensures { result ≡ begins_in_blank text.now }
{
    match text {
        [] => false,
        [first, ..] => is_blank(*first),
    }
}

#[tactic(auto, using(crate::proofs::TextLemmas::last_byte))]
fn ends_in_blank(text: &[u8]) -> bool
    ensures { result ≡ ends_in_blank text.now }
{
    match text {
        [] => false,
        [.., last] => is_blank(*last),
    }
}

/// The formula that the text derives by the grammar of formulas; `Syntax` exactly where it derives none.
///
/// What is read is well sorted. It is read in time linear in the text, and however the text nests, on a stack of
/// constant size.
pub fn read(alloc: Global, bytes: &[u8]) -> Result<Formula, ReadFault>
    ensures derived { IfOk result (λ F. IsTextOf (syntax_of F) bytes.now) }
    ensures only { (F : Syntax) → IsTextOf F bytes.now → Answers result F }
    ensures sorted { IfOk result (λ F. is_well_sorted (syntax_of F) ≡ true) }
{
    if begins_in_blank(bytes) {
        return Err(ReadFault::Syntax);
    }
    if ends_in_blank(bytes) {
        return Err(ReadFault::Syntax);
    }
    parse(alloc, bytes)
}

/// A text derives one formula at most.
pub fn one_formula()
    ensures { (F G : Syntax) (text : List ℕ) → IsTextOf F text → IsTextOf G text → F ≡ G }
{}
