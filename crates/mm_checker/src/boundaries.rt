//! The boundaries of the subspaces in values.

ghost use Rattle.std.specs.Prelude.{◌≡◌, ◌&&◌, ◌==◌, ◌++◌, ◌∷◌, [], ℕ, OnOk};
ghost use Rattle.std.specs.List.{list_all};
ghost use Rattle.mm_checker.specs.KeptBoundaries.{allows, kept_at, allowed_in, IsSizeOf};
ghost use Rattle.mm_checker.specs.declared.boundaries.Boundaries.{Boundaries as Kept};

use crate::Content;
use mm_base::NoMemory;
use std::alloc::Global;

/// Of which F^t the subspaces in a value are.
#[derive(Clone, Copy)]
pub(crate) enum Boundaries {
    /// There is none.
    Free,
    /// All are of one.
    Of(u8),
    /// Not all are of one.
    Mixed,
}

// The boundaries of two subspaces.
fn same(t: u8, u: u8) -> Boundaries
    ensures { (s : ℕ) → allows result s ≡ ((t == s) && (u == s)) }
{
    if t == u {
        Boundaries::Of(t)
    } else {
        Boundaries::Mixed
    }
}

// The boundaries of the subspaces in either of two values.
fn both(a: Boundaries, b: Boundaries) -> Boundaries
    ensures { (t : ℕ) → allows result t ≡ (allows a t && allows b t) }
{
    match (a, b) {
        (Boundaries::Free, other) => other,
        (other, Boundaries::Free) => other,
        (Boundaries::Of(t), Boundaries::Of(u)) => same(t, u),
        _ => Boundaries::Mixed,
    }
}

fn allows(kept: Boundaries, t: u8) -> bool
    ensures { result ≡ allows kept t }
{
    match kept {
        Boundaries::Free => true,
        Boundaries::Of(u) => u == t,
        Boundaries::Mixed => false,
    }
}

/// The boundaries of each value, by its number.
#[derive(Drop)]
pub(crate) struct Sizes {
    kept: Vec<Boundaries>,
}

impl Sizes {
    /// Of no values.
    pub(crate) fn new(alloc: Global) -> Sizes
        ensures { result.kept.items ≡ [] }
    {
        Sizes {
            kept: Vec::new(alloc),
        }
    }

    fn at(&self, n: u32) -> Boundaries
        ensures { result ≡ kept_at self.now.kept.items n }
    {
        match self.kept.get(n as usize) {
            Some(kept) => *kept,
            None => Boundaries::Free,
        }
    }

    /// Whether all subspaces in a value are of F^t.
    pub(crate) fn are_of(&self, t: u8, n: u32) -> bool
        ensures { result ≡ allows (kept_at self.now.kept.items n) t }
    {
        allows(self.at(n), t)
    }

    // The boundaries of the subspaces in any of some values.
    fn of_all(&self, numbers: &[u32]) -> Boundaries
        ensures { (t : ℕ) → allows result t ≡ list_all (λ n. allows (kept_at self.now.kept.items n) t) numbers.now }
    {
        let mut all = Boundaries::Free;
        for n in numbers {
            all = both(all, self.at(*n));
        }
        all
    }

    // The boundaries of the subspaces in a value of this content.
    fn of(&self, content: &Content) -> Boundaries
        ensures { IsSizeOf self.now.kept.items content.now result }
    {
        match content {
            Content::Flag(_) | Content::Dead => Boundaries::Free,
            Content::Space(key) => Boundaries::Of(key.t()),
            Content::Parts(first, second) => both(self.at(*first), self.at(*second)),
            Content::SetOf(numbers) => self.of_all(numbers.as_slice()),
            Content::OneOf(apart, numbers) => {
                both(self.at(*apart), self.of_all(numbers.as_slice()))
            }
        }
    }

    /// Adds the boundaries of the next value, which has this content.
    pub(crate) fn push(&mut self, content: &Content) -> Result<(), NoMemory>
        ensures { OnOk result ((b : Kept) × IsSizeOf self.old.kept.items content.now b × (self.new.kept.items ≡ self.old.kept.items ++ b ∷ [])) }
    {
        let size = self.of(content);
        self.kept.push(size)?;
        Ok(())
    }
}
