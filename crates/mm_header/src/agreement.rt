//! Whether the given rows and the tree of a header agree.
ghost use Rattle.mm_header.specs.Header.{matched, verdict_refusal};
ghost use Rattle.mm_header.specs.State.HeaderStates.{IsHeader, header_value};
ghost use Rattle.mm_job_text.specs.Becoming.{Becomes};
ghost use Rattle.std.specs.Prelude.{◌≡◌};

use crate::state::HeaderData;
use mm_job_text::{Refusal, Stop};
use mm_present::{Verdict, compare};
use mm_tree::Tree;
use std::alloc::Global;

/// The refusal of rows that differ from those of the tree.
fn verdict_refusal(verdict: Verdict) -> Result<(), Refusal>
    ensures { result ≡ verdict_refusal verdict }
{
    match verdict {
        Verdict::Same => Ok(()),
        Verdict::Elements(name) => Err(Refusal::Elements(name)),
        Verdict::Given(i) => Err(Refusal::Given(i)),
        Verdict::Present(j) => Err(Refusal::Present(j)),
    }
}

/// That the given rows span the row space of the tree's matrix, columns matched by name, or the refusal that says where they differ.
pub fn match_rows(alloc: Global, header: &HeaderData, tree: &Tree) -> Result<(), Stop>
    requires header { IsHeader header.now }
    requires tree { tree.now.f ≡ header.now.field }
    ensures { Becomes result tt (matched (header_value header.now, tree.now.tree)) }
{
    let verdict = compare(alloc, &header.matrix, tree)?;
    verdict_refusal(verdict)?;
    Ok(())
}
