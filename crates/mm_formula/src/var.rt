//! Variables, and lists of them without repeats.
ghost use Rattle.std.specs.Prelude.{◌≡◌, ◌≤◌, ◌<◌, ◌-◌, ◌++◌, [], ◌∷◌, List, ℕ, Bool, false, length, true, OnOk, OnErr, slice_get, Some};
ghost use Rattle.std.specs.List.{list_any, list_all};
ghost use Rattle.std.specs.Str.{bytes_eq};
ghost use Rattle.mm_formula.specs.Repeats.{has, IsDistinct};
ghost use Rattle.mm_formula.specs.Variables.{is_word, is_word_byte, is_reserved, is_var, var_of, is_set};

use mm_base::NoMemory;
use std::alloc::Global;
use std::marker::Model;

/// The most bytes of a variable.
const MAX_VAR: usize = 16;

/// A variable: 1 to 16 letters, digits and underscores that begin with a letter, and no reserved word.
///
/// It stands for a set of elements where it begins with an upper-case letter, and for an element where it
/// begins with a lower-case letter.
#[derive(Clone, Copy, Debug, PartialEq, Eq, Hash)]
pub struct Var {
    bytes: [u8; 16],
    len: usize,
}

impl Model for Var {
    ghost use Rattle.std.specs.Prelude.{List, ℕ};

    ghost Value = { List ℕ };

    ghost use Rattle.mm_formula.specs.VarFields.{text_of, IsPadded, fields_of, fields_of-text_of};

    ghost view = { text_of };

    ghost invariant = { IsPadded };

    ghost inverse = { fields_of };

    ghost inverse_ok = { fields_of-text_of };
}

fn is_word_byte(byte: u8) -> bool
    ensures { result ≡ is_word_byte byte }
{
    byte.is_ascii_alphabetic() || byte.is_ascii_digit() || byte == b'_'
}

fn are_word_bytes(bytes: &[u8]) -> bool
    ensures { result ≡ list_all is_word_byte bytes.now }
{
    bytes.iter().all(|byte| is_word_byte(*byte))
}

/// Whether the bytes are a letter and then letters, digits and underscores.
fn is_word(bytes: &[u8]) -> bool
    ensures { result ≡ is_word bytes.now }
{
    match bytes {
        [] => false,
        [first, rest @ ..] => first.is_ascii_alphabetic() && are_word_bytes(rest),
    }
}

/// Whether the grammar of formulas has the word for itself.
#[tactic(auto, unfolding(crate::specs::Variables::is_reserved))]
fn is_reserved(word: &[u8]) -> bool
    ensures { result ≡ is_reserved word.now }
{
    if word == b"iff".as_slice() {
        return true;
    }
    if word == b"implies".as_slice() {
        return true;
    }
    if word == b"or".as_slice() {
        return true;
    }
    if word == b"and".as_slice() {
        return true;
    }
    if word == b"not".as_slice() {
        return true;
    }
    if word == b"ex".as_slice() {
        return true;
    }
    if word == b"all".as_slice() {
        return true;
    }
    if word == b"true".as_slice() {
        return true;
    }
    if word == b"false".as_slice() {
        return true;
    }
    if word == b"ind".as_slice() {
        return true;
    }
    if word == b"in".as_slice() {
        return true;
    }
    word == b"sub".as_slice()
}

/// Whether the bytes spell a variable.
fn is_var(bytes: &[u8]) -> bool
    ensures { result ≡ is_var bytes.now }
{
    bytes.len() <= MAX_VAR && is_word(bytes) && !is_reserved(bytes)
}

impl Var {
    /// The variable that the bytes spell; `None` exactly where they spell none.
    pub fn read(bytes: &[u8]) -> Option<Var>
        ensures { result ≡ var_of bytes.now }
    {
        if !is_var(bytes) {
            return None;
        }
        let mut kept = [0u8; MAX_VAR];
        kept[..bytes.len()].copy_from_slice(bytes);
        Some(Var {
            bytes: kept,
            len: bytes.len(),
        })
    }

    /// Whether the variable stands for a set: whether it begins with an upper-case letter.
    pub fn is_set(&self) -> bool
        ensures { result ≡ is_set self.now }
    {
        self.bytes[0].is_ascii_uppercase()
    }

    /// Whether the two variables are one.
    pub fn is(&self, other: &Var) -> bool
        ensures { result ≡ bytes_eq self.now other.now }
    {
        self.bytes() == other.bytes()
    }

    /// The word that the variable is written as.
    pub fn bytes(&self) -> &[u8]
        ensures text { result.now ≡ self.now }
        ensures word { is_var self.now ≡ true }
    {
        &self.bytes[..self.len]
    }
}

/// Variables without repeats, in the order in which they came.
#[derive(Drop)]
pub struct VarList {
    vars: Vec<Var>,
}

impl Model for VarList {
    ghost use Rattle.std.specs.Prelude.{List, ℕ};

    ghost Value = { List (List ℕ) };

    ghost use Rattle.std.specs.Str.{bytes_eq};
    ghost use Rattle.mm_formula.specs.Repeats.{IsDistinct};

    ghost view = { λ l. l.vars.items };

    ghost invariant = { λ l. IsDistinct l.vars.items };
}

impl VarList {
    /// No variables.
    pub fn new(alloc: Global) -> VarList
        ensures { result ≡ [] }
    {
        VarList {
            vars: Vec::new(alloc),
        }
    }

    /// Puts a variable at the end. On a refusal the list is as before.
    pub fn push(&mut self, _alloc: Global, v: Var) -> Result<(), NoMemory>
        requires { has v self.old ≡ false }
        ensures ok { OnOk result (self.new ≡ self.old ++ v ∷ []) }
        ensures err { OnErr result (self.new ≡ self.old) }
    {
        self.vars.push(v)?;
        Ok(())
    }

    /// How many variables there are.
    pub fn len(&self) -> usize
        ensures { result ≡ length self.now }
    {
        self.vars.len()
    }

    /// The variable at a place, counted from 0.
    pub fn at(&self, k: usize) -> Var
        requires { k < length self.now }
        ensures { slice_get self.now k ≡ Some result }
    {
        self.vars[k]
    }

    /// The variables as a slice.
    pub fn as_slice(&self) -> &[Var]
        ensures vars { result.now ≡ self.now }
        ensures distinct { IsDistinct self.now }
    {
        &self.vars
    }

    /// Whether a variable is among them.
    pub fn has(&self, v: &Var) -> bool
        ensures { result ≡ has v.now self.now }
    {
        self.vars.iter().any(|w| v.is(w))
    }
}
