//! Why a session is not started, or an edit is refused.

ghost use Rattle.std.specs.Prelude.{◌≡◌};
ghost use Rattle.mm_edit.specs.Edits.{edit_fault, start_fault, state_fault};

use mm_base::Name;
use mm_nodes::KeepFault;
use mm_tree::ReplaceFault;

/// Why a session is not started.
#[derive(Clone, Copy, Debug, PartialEq, Eq)]
pub enum StartFault {
    /// The tree is over the limit.
    States,
    /// Memory ran out.
    NoMemory,
}

/// Why an edit is refused, the first that applies.
#[derive(Clone, Copy, Debug, PartialEq, Eq)]
pub enum EditFault {
    /// No element, or for an exchange no leaf, has the name.
    UnknownName(Name),
    /// The leaf of the name is less deep than so many steps.
    NoSuchNode(Name, u32),
    /// The boundary of the node and that of the new tree differ; both.
    Boundary(u8, u8),
    /// A leaf outside the node has the name of a leaf of the new tree; the first such name.
    NameTaken(Name),
    /// The tree would have more than 8192 leaves.
    TooManyLeaves,
    /// A leaf would be deeper than 1023.
    TooDeep,
    /// The tree would be over the limit.
    States,
    /// Memory ran out.
    NoMemory,
}

/// The refusal of an exchange by its tree.
pub(crate) fn edit_fault(fault: ReplaceFault) -> EditFault
    ensures { result ≡ edit_fault fault }
{
    match fault {
        ReplaceFault::Boundary(old, new) => EditFault::Boundary(old, new),
        ReplaceFault::NameTaken(name) => EditFault::NameTaken(name),
        ReplaceFault::TooManyLeaves => EditFault::TooManyLeaves,
        ReplaceFault::TooDeep => EditFault::TooDeep,
        ReplaceFault::NoMemory => EditFault::NoMemory,
    }
}

/// The refusal of an edit whose types find no room.
pub(crate) fn state_fault(fault: KeepFault) -> EditFault
    ensures { result ≡ state_fault fault }
{
    match fault {
        KeepFault::Full => EditFault::States,
        KeepFault::NoMemory => EditFault::NoMemory,
    }
}

/// The refusal of a start whose types find no room.
pub(crate) fn start_fault(fault: KeepFault) -> StartFault
    ensures { result ≡ start_fault fault }
{
    match fault {
        KeepFault::Full => StartFault::States,
        KeepFault::NoMemory => StartFault::NoMemory,
    }
}
