//! Worked texts, with values from outside the program.
ghost use Rattle.std.specs.Prelude.{◌≡◌, true};
ghost use Rattle.std.specs.List.{list_all};
ghost use Rattle.mm_formula.specs.Variables.{is_set};
ghost use Rattle.mm_formula.specs.Scope.{outermost};

use mm_base::{NoMemory, Text};
use mm_formula::{ScopeFault, Scoped, Var};
use mm_formula_text::{ReadFault, print, read};
use std::alloc::Global;
use std::test::Fail;

/// A text and its canonical text, or `!` where it derives no formula.
const TEXTS: &str = "\
true => true
false => false
not true => not true
not not false => not not false
(true) => true
((true)) => true
not(true) => not true
true and false => (true and false)
true and false and true => ((true and false) and true)
true or false or true => ((true or false) or true)
true implies false implies true => (true implies (false implies true))
true iff false iff true => ((true iff false) iff true)
(true iff (false iff true)) => (true iff (false iff true))
true or false and true => (true or (false and true))
true and false or true => ((true and false) or true)
true implies false or true => (true implies (false or true))
true or false implies true => ((true or false) implies true)
true iff false implies true => (true iff (false implies true))
true implies false iff true => ((true implies false) iff true)
true iff false implies true or false and not true => (true iff (false implies (true or (false and not true))))
not true and false => (not true and false)
not true iff false => (not true iff false)
not (true and false) => not (true and false)
ex X true and false => (ex X true and false)
ex X (true and false) => ex X (true and false)
ex X ind(X) implies true => (ex X ind(X) implies true)
all x ex Y x in Y => all x ex Y x in Y
ex X all X ind(X) => ex X all X ind(X)
ex X not ex x x in X => ex X not ex x x in X
ex C(ind(C)) => ex C ind(C)
(true)and(false) => (true and false)
true and(not false) => (true and not false)
true\tand \t false => (true and false)
x in X => x in X
x  in   X => x in X
x = y => x = y
x=y => x = y
X=Y => X = Y
X sub Y => X sub Y
(x=y)iff(X=Y) => (x = y iff X = Y)
not x in X => not x in X
notx in X => notx in X
inx in X => inx in X
TRUE = X => TRUE = X
a_1 in A_1 => a_1 in A_1
abcdefghijklmnop in X => abcdefghijklmnop in X
ind(0) => ind(0)
ind(*) => ind(*)
ind(x) => ind(x)
ind ( X | y ) => ind(X|y)
ind(X|X) => ind(X)
ind(X|y|X|y|Z) => ind(X|y|Z)
ind(*|X) => ind(X|*)
ind(X|*|Y|*) => ind(X|Y|*)
ind(*|*) => ind(*)
not (ind( X )and x in X) => not (ind(X) and x in X)
 => !
 true => !
true  => !
abcdefghijklmnopq in X => !
ex true true => !
ex x => !
all => !
x in x => !
X in X => !
X in x => !
x = X => !
X = x => !
x sub Y => !
X sub y => !
x sub y => !
x = y = z => !
ind() => !
ind(0|X) => !
ind(X|0) => !
ind(X|) => !
ind(|X) => !
ind(X|Y => !
ind X => !
ind(X)) => !
( => !
() => !
(true => !
true) => !
true false => !
true and => !
and true => !
true and and true => !
true andfalse => !
trueand false => !
truefalse => !
not => !
x => !
x in => !
in X => !
x in X Y => !
ex 1x true => !
_x in X => !
x == y => !
x in X, => !
0 => !
ind(00) => !
ind(0x) => !
ind(x0) => ind(x0)";

/// A formula, its free variable or `-`, and what is said of its scope.
const SCOPES: &str = "\
true;-;scoped
ex X ind(X);-;scoped
ind(X);X;scoped
ex X ex X ind(X);-;scoped
ex X ex x x in X;X;scoped
ind(X);-;X
ind(X);Y;X
ex X ind(X|y|Z);-;y
ex X x in X and ind(Y);-;x
(ex X ind(X)) and ind(X);-;X
ind(Y) and ex X ind(Z);-;Y";

/// What stands how often in front of what, the free variable, and what is said of the scope of this formula.
const LIMITS: [(&str, usize, &str, &str, &str); 9] = [
    ("ex X ", 16, "ind(X)", "-", "scoped"),
    ("ex X ", 17, "ind(X)", "-", "scope"),
    ("ex X ", 15, "ind(X)", "X", "scoped"),
    ("ex X ", 16, "true", "X", "scope"),
    ("not ", 511, "true", "-", "scoped"),
    ("not ", 512, "true", "-", "nodes"),
    ("ex X ", 600, "true", "-", "scope"),
    ("ex X ", 600, "ind(Y)", "-", "Y"),
    ("true and ", 256, "true", "-", "nodes"),
];

fn canonical(alloc: Global, text: &[u8]) -> Result<Text, ReadFault> {
    let formula = read(alloc, text)?;
    Ok(print(alloc, &formula)?)
}

#[test]
fn texts(rt: HostRuntime) -> Result<(), Fail> {
    for line in TEXTS.lines() {
        let Some((text, want)) = line.split_once(" => ") else {
            assert!(rt; false, "no case: {line}");
            return Ok(());
        };
        match canonical(rt.alloc(), text.as_bytes()) {
            Ok(found) => assert!(rt; found.bytes() == want.as_bytes(), "at {text}"),
            Err(fault) => assert!(rt; want == "!" && fault == ReadFault::Syntax, "at {text}"),
        }
    }
    Ok(())
}

#[test]
fn no_texts(rt: HostRuntime) {
    let texts = [
        b"true\0".as_slice(),
        b"true\r".as_slice(),
        b"true\n".as_slice(),
        b"\xfftrue".as_slice(),
        b"x in \xc3\x89".as_slice(),
        b"\0".as_slice(),
    ];
    for text in texts {
        assert!(rt; matches!(read(rt.alloc(), text), Err(ReadFault::Syntax)));
    }
}

/// The variable, where it is one for a set.
fn set_variable(name: &str) -> Option<Var>
    ensures { list_all is_set (outermost result) ≡ true }
{
    match Var::read(name.as_bytes()) {
        Some(v) => if v.is_set() { Some(v) } else { None },
        None => None,
    }
}

fn is_fault(fault: ScopeFault, want: &str) -> bool {
    match fault {
        ScopeFault::Unbound(v) => v.bytes() == want.as_bytes(),
        ScopeFault::TooManyInScope => want == "scope",
        ScopeFault::TooManyNodes => want == "nodes",
        ScopeFault::NoMemory => false,
    }
}

/// Whether this is said of the scope of the formula that the text derives.
fn is_scope(alloc: Global, text: &[u8], free: &str, want: &str) -> bool {
    let Ok(formula) = read(alloc, text) else {
        return false;
    };
    let scoped = Scoped::of(alloc, formula, set_variable(free));
    match scoped {
        Ok(scoped) => scoped.free().is_some() == (free != "-") && want == "scoped",
        Err(fault) => is_fault(fault, want),
    }
}

#[test]
fn scopes(rt: HostRuntime) {
    for line in SCOPES.lines() {
        let mut parts = line.split(';');
        let (Some(text), Some(free), Some(want)) = (parts.next(), parts.next(), parts.next()) else {
            assert!(rt; false, "no case: {line}");
            return;
        };
        assert!(rt;
            is_scope(rt.alloc(), text.as_bytes(), free, want),
            "at {line}"
        );
    }
}

/// A text with the same front many times, and the same end as often.
fn repeated(
    alloc: Global,
    front: &str,
    count: usize,
    last: &str,
    end: &str,
) -> Result<Text, NoMemory> {
    let mut text = Text::new(alloc);
    for _ in 0..count {
        text.append(alloc, front.as_bytes())?;
    }
    text.append(alloc, last.as_bytes())?;
    for _ in 0..count {
        text.append(alloc, end.as_bytes())?;
    }
    Ok(text)
}

#[test]
fn limits(rt: HostRuntime) {
    for (front, count, last, free, want) in LIMITS {
        let Ok(text) = repeated(rt.alloc(), front, count, last, "") else {
            assert!(rt; false, "memory is there");
            return;
        };
        assert!(rt;
            is_scope(rt.alloc(), text.bytes(), free, want),
            "at {count} {front}"
        );
    }
}

/// Texts of 4096 bytes or nearly so that nest as deep as they can.
#[test]
fn deep(rt: HostRuntime) {
    let alloc = rt.alloc();
    for (front, count, end) in [
        ("(", 2046, ")"),
        ("not ", 1023, ""),
        ("all x ", 682, ""),
        ("true implies ", 314, ""),
        ("true iff ", 454, ""),
    ] {
        let Ok(text) = repeated(alloc, front, count, "true", end) else {
            assert!(rt; false, "memory is there");
            return;
        };
        assert!(rt; canonical(alloc, text.bytes()).is_ok(), "at {front}");
    }
}
