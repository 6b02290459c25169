//! The types of formulas as values, in their total order, and sets of them.

ghost use Rattle.std.specs.Prelude.{◌≡◌, length, IfOk};
ghost use Rattle.std.specs.Ordering.{nat_cmp};
ghost use Rattle.mm_logic.specs.Value as value_spec;
ghost use Rattle.mm_reference_meaning.specs.Rows.{rows_of};
ghost use Rattle.mm_reference.specs.Values.{IsInserted, value_of, values_of};

use std::alloc::{AllocError, Global};
use std::cmp::Ordering;

/// The type of a formula at a tree under an assignment.
#[derive(Drop)]
pub enum Value {
    /// What an atom other than `ind` says of its variables, by number.
    Flag(u8),
    /// The union of `ind` is dependent.
    Dead,
    /// The boundary space of the union of `ind`: how many digits its vectors have, and its reduced echelon basis.
    Span(usize, Vec<Vec<u8>>),
    /// The types of the two parts of a connective; below an element quantifier the type with the variable unassigned, and the set
    /// of the types with it at one element.
    Pair(Box<Value>, Box<Value>),
    /// The set of no types.
    Empty,
    /// A set of types: the least one, and the set of the others.
    With(Box<Value>, Box<Value>),
}

/// How the sizes of two sets compare.
fn compare_sizes(first: &Value, second: &Value) -> Ordering
    ensures { result ≡ nat_cmp (length (value_spec.members (value_of first.now))) (length (value_spec.members (value_of second.now))) }
{
    match first {
        Value::With(_, rest) => match second {
            Value::With(_, others) => compare_sizes(rest, others),
            _ => Ordering::Greater,
        },
        _ => match second {
            Value::With(_, _) => Ordering::Less,
            _ => Ordering::Equal,
        },
    }
}

/// How two spaces compare: by the digits of their vectors, by the sizes of their bases, and then by the digits of these.
fn compare_spaces(t: usize, rows: &[Vec<u8>], u: usize, others: &[Vec<u8>]) -> Ordering
    ensures { result ≡ value_spec.value_cmp (value_spec.Value.Span t (rows_of rows.now)) (value_spec.Value.Span u (rows_of others.now)) }
{
    t.cmp(&u)
        .then(rows.len().cmp(&others.len()))
        .then(rows.cmp(others))
}

/// How two values compare.
pub fn compare(first: &Value, second: &Value) -> Ordering
    ensures { result ≡ value_spec.value_cmp (value_of first.now) (value_of second.now) }
{
    match first {
        Value::Flag(m) => match second {
            Value::Flag(n) => m.cmp(n),
            _ => Ordering::Less,
        },
        Value::Dead => match second {
            Value::Flag(_) => Ordering::Greater,
            Value::Dead => Ordering::Equal,
            _ => Ordering::Less,
        },
        Value::Span(t, rows) => match second {
            Value::Flag(_) | Value::Dead => Ordering::Greater,
            Value::Span(u, others) => compare_spaces(*t, rows, *u, others),
            _ => Ordering::Less,
        },
        Value::Pair(v, w) => match second {
            Value::Pair(x, y) => compare(v, x).then(compare(w, y)),
            Value::Empty | Value::With(_, _) => Ordering::Less,
            _ => Ordering::Greater,
        },
        Value::Empty => match second {
            Value::Empty => Ordering::Equal,
            Value::With(_, _) => Ordering::Less,
            _ => Ordering::Greater,
        },
        Value::With(v, rest) => match second {
            Value::With(x, others) => compare_sizes(rest, others)
                .then(compare(v, x))
                .then(compare(rest, others)),
            _ => Ordering::Greater,
        },
    }
}

/// The pair of two values.
pub fn pair(alloc: Global, first: Value, second: Value) -> Result<Value, AllocError>
    ensures { IfOk result (λ r. value_of r ≡ value_spec.Value.Pair (value_of first) (value_of second)) }
{
    Ok(Value::Pair(Box::new(alloc, first)?, Box::new(alloc, second)?))
}

/// The set with a value put at its place, unless it is there.
fn insert(alloc: Global, value: Value, set: Value) -> Result<Value, AllocError>
    ensures { IfOk result (λ r. IsInserted (value_of value) (value_of set) (value_of r)) }
{
    match set {
        Value::With(least, rest) => match compare(&value, &least) {
            Ordering::Less => {
                let others = Box::new(alloc, Value::With(least, rest))?;
                Ok(Value::With(Box::new(alloc, value)?, others))
            }
            Ordering::Equal => Ok(Value::With(least, rest)),
            Ordering::Greater => {
                let others = Box::new(alloc, insert(alloc, value, Box::into_inner(rest))?)?;
                Ok(Value::With(least, others))
            }
        },
        nothing => Ok(Value::With(Box::new(alloc, value)?, Box::new(alloc, nothing)?)),
    }
}

/// The set of some values.
pub fn collected(alloc: Global, values: Vec<Value>) -> Result<Value, AllocError>
    ensures { IfOk result (λ r. value_of r ≡ value_spec.collected (values_of values.items)) }
{
    let mut values = values;
    match values.pop() {
        None => Ok(Value::Empty),
        Some(last) => {
            let others = collected(alloc, values)?;
            Ok(insert(alloc, last, others)?)
        }
    }
}
