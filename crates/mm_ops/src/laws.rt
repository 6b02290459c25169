//! Laws over the definitions, apart from any call.

ghost use Rattle.std.specs.Prelude.{◌≡◌, ◌↔◌, None, All};
ghost use Rattle.mm_field.specs.declared.Field.{Field};
ghost use Rattle.mm_field.specs.Vectors.{AreDigits};
ghost use Rattle.mm_logic.specs.Operator.{Op, IsValidOp};
ghost use Rattle.mm_ops.specs.OpFaults.{fault_of};

/// Numbers and matrices over a field have no fault exactly where they are a valid operator.
pub fn valid_operators_have_no_fault()
    ensures { (f : Field) (op : Op) → All (λ v. AreDigits f v) op.g1 → All (λ v. AreDigits f v) op.g2 → All (λ v. AreDigits f v) op.g3
        → (fault_of f op ≡ None) ↔ IsValidOp f op }
{}
