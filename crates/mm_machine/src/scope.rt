//! The slots of variables: the number of binders above that of the variable.

ghost use Rattle.std.specs.Prelude.{◌≡◌, ◌≤◌, ◌<◌, length, map, All, IfOk};
ghost use Rattle.mm_formula.specs.Scope.{slot_in};
ghost use Rattle.mm_machine.specs.Scopes.{names};

use mm_base::NoMemory;
use mm_formula::Var;
use smallvec::SmallVec;
use std::alloc::Global;

/// The binders around a place in a formula, the innermost first. A walk down a formula puts each before those above it.
#[derive(Clone, Copy)]
pub(crate) enum Binders<'a> {
    /// No binder.
    Outermost,
    /// A binder, and those around it.
    Under(Var, &'a Binders<'a>),
}

impl Binders<'_> {
    /// How many binders there are.
    pub(crate) fn len(&self) -> u8
        requires { length (names self.now) ≤ 16 }
        ensures { result ≡ length (names self.now) }
    {
        match self {
            Binders::Outermost => 0,
            Binders::Under(_, outer) => 1 + outer.len(),
        }
    }

    /// The slot of the innermost binder of a variable.
    pub(crate) fn slot(&self, v: &Var) -> u8
        requires { length (names self.now) ≤ 16 }
        ensures slot { result ≡ slot_in (names self.now) v.now }
        ensures within { result < 16 }
    {
        match self {
            Binders::Outermost => 0,
            Binders::Under(w, outer) => {
                if v.is(w) {
                    return outer.len();
                }
                outer.slot(v)
            }
        }
    }
}

/// The slots of variables, in their order.
pub(crate) fn slots_of(
    alloc: Global,
    vars: &[Var],
    binders: &Binders<'_>,
) -> Result<SmallVec<u8, 16>, NoMemory>
    requires { length (names binders.now) ≤ 16 }
    ensures slots { IfOk result (λ slots. slots.items ≡ map (slot_in (names binders.now)) vars.now) }
    ensures small { IfOk result (λ slots. All (λ k. k < 16) slots.items) }
{
    let mut slots = SmallVec::new(alloc);
    for i in 0..vars.len() {
        slots.push(binders.slot(&vars[i]))?;
    }
    Ok(slots)
}
