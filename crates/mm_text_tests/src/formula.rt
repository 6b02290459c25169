//! Values from outside the program, and each call that takes memory once.
use mm_formula::{Connective, Formula, Term, Var, VarList};
use std::test::Fail;

#[test]
fn variables(rt: HostRuntime) {
    for word in "x X abc A_1 z0 TRUE notx abcdefghijklmnop ABCDEFGHIJKLMNOP".split(' ') {
        assert!(rt; Var::read(word.as_bytes()).is_some(), "at {word}");
    }
    for word in "iff implies or and not ex all true false ind in sub 1x _x x-y abcdefghijklmnopq".split(
        ' ',
    ) {
        assert!(rt; Var::read(word.as_bytes()).is_none(), "at {word}");
    }
    assert!(rt; Var::read(b"").is_none());
    assert!(rt; Var::read(b"x ").is_none());
    assert!(rt; Var::read(b"\xff").is_none());
}

#[test]
fn made(rt: HostRuntime) -> Result<(), Fail> {
    let alloc = rt.alloc();
    let Some(v) = Var::read(b"X") else {
        assert!(rt; false, "X is a variable");
        return Ok(());
    };
    let mut vars = VarList::new(alloc);
    assert!(rt; vars.push(alloc, v).is_ok());
    assert!(rt; vars.len() == 1 && vars.has(&v));
    let whole = Formula::Ind(Term { whole: true, vars });
    let Ok(negation) = Formula::negated(alloc, whole) else {
        assert!(rt; false, "memory is there");
        return Ok(());
    };
    let first = Box::new(alloc, Formula::Const(true))?;
    let Ok(both) = Formula::combined(alloc, Connective::And, first, negation) else {
        assert!(rt; false, "memory is there");
        return Ok(());
    };
    let Ok(some) = Formula::with_some(alloc, v, both) else {
        assert!(rt; false, "memory is there");
        return Ok(());
    };
    assert!(rt; Formula::with_each(alloc, v, some).is_ok());
    Ok(())
}
