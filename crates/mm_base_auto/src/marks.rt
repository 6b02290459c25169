//! The marks of a letter, read as bits.

ghost use Rattle.std.specs.Prelude.{◌≡◌, ◌<◌};
ghost use Rattle.mm_states.specs.Letters.{marks_of};

/// Whether a slot is among the marks.
#[inline]
pub(crate) fn has_mark(marks: u16, slot: u8) -> bool
    requires { slot < 16 }
    ensures { result ≡ marks_of marks slot }
{
    (marks >> slot) & 1 == 1
}
