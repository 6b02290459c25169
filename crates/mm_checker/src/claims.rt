//! The claims of a certificate.

ghost use Rattle.std.specs.Prelude.{◌≡◌, ◌++◌, ◌∷◌, [], None, OnOk};
ghost use Rattle.mm_checker.specs.Claims.{at_leaf, at_glue, claimed, is_same_leaf, is_same_glue};

use crate::{GlueKey, LeafKey};
use indexmap::IndexMap;
use mm_base::{Name, NoMemory};
use std::alloc::Global;

/// Which value stands at a place of the formula at a leaf, and which value a join makes of two.
#[derive(Drop)]
pub(crate) struct Claims {
    leaves: IndexMap<LeafKey, u32>,
    glues: IndexMap<GlueKey, u32>,
}

impl Claims {
    /// No claims.
    pub(crate) fn new(alloc: Global) -> Claims
        ensures leaves { result.leaves.entries ≡ [] }
        ensures glues { result.glues.entries ≡ [] }
    {
        Claims {
            leaves: IndexMap::new(alloc),
            glues: IndexMap::new(alloc),
        }
    }

    /// The value of a place at a leaf with these marks, where it is claimed.
    pub(crate) fn at_leaf(&self, place: u32, leaf: u32, marks: u16) -> Option<u32>
        ensures { result ≡ at_leaf self.now.leaves.entries place leaf marks }
    {
        self.leaves.get(&LeafKey { place, leaf, marks }).copied()
    }

    /// The value that an operator makes of two values of a place, where it is claimed.
    pub(crate) fn at_glue(&self, place: u32, op: Name, left: u32, right: u32) -> Option<u32>
        ensures { result ≡ at_glue self.now.glues.entries place op left right }
    {
        self.glues
            .get(&GlueKey {
                place,
                op,
                left,
                right,
            })
            .copied()
    }

    /// Adds what is claimed of a leaf.
    pub(crate) fn add_leaf(&mut self, key: LeafKey, value: u32) -> Result<(), NoMemory>
        requires { claimed is_same_leaf self.old.leaves.entries key ≡ None }
        ensures leaves { OnOk result (self.new.leaves.entries ≡ self.old.leaves.entries ++ (key, value) ∷ []) }
        ensures glues { self.new.glues ≡ self.old.glues }
    {
        self.leaves.insert(key, value)?;
        Ok(())
    }

    /// Adds what is claimed of a join.
    pub(crate) fn add_glue(&mut self, key: GlueKey, value: u32) -> Result<(), NoMemory>
        requires { claimed is_same_glue self.old.glues.entries key ≡ None }
        ensures glues { OnOk result (self.new.glues.entries ≡ self.old.glues.entries ++ (key, value) ∷ []) }
        ensures leaves { self.new.leaves ≡ self.old.leaves }
    {
        self.glues.insert(key, value)?;
        Ok(())
    }
}
