//! Texts as the reference evaluator takes them: a tree with the names and the weights of its elements, and a formula with slots.
use crate::slots::with_slots;
use mm_field::Field;
use mm_formula::Var;
use mm_formula_text::read;
use mm_reference::{Formula, Op, Tree};
use std::alloc::Global;
use std::test::Fail;

/// A formula and, where its least set is sought, that it is.
#[derive(Drop)]
pub struct Query {
    /// Whether the least set is sought that satisfies the formula as its first variable.
    pub is_least: bool,
    pub formula: Formula,
}

/// What the lines before the query say, without the matrix.
#[derive(Drop)]
pub struct JobText<'a> {
    pub field: Field,
    /// The lines of the operators.
    operators: Vec<&'a str>,
    /// The trees that are not joined yet; at the end the one tree.
    pub trees: Vec<Tree>,
    /// The names of the elements, in leaf order.
    pub names: Vec<&'a str>,
    /// Their weights.
    pub weights: Vec<i64>,
}

/// A number of so many words.
fn number(word: Option<&str>) -> Result<usize, Fail> {
    Ok(word.ok_or("a number")?.parse().ok().ok_or("a number")?)
}

/// The digits of a vector; `-` has none.
fn digits(alloc: Global, word: &str) -> Result<Vec<u8>, Fail> {
    let mut digits = Vec::new(alloc);
    if word != "-" {
        for byte in word.as_bytes() {
            digits.push(byte.wrapping_sub(b'0'))?;
        }
    }
    Ok(digits)
}

/// The rows of a matrix; `.` has none.
fn rows(alloc: Global, word: Option<&str>) -> Result<Vec<Vec<u8>>, Fail> {
    let mut rows = Vec::new(alloc);
    let word = word.ok_or("a matrix")?;
    if word != "." {
        for row in word.split('/') {
            rows.push(digits(alloc, row)?)?;
        }
    }
    Ok(rows)
}

/// The first t unit vectors of r digits.
fn first_units(alloc: Global, t: usize, r: usize) -> Result<Vec<Vec<u8>>, Fail> {
    let mut units = Vec::new(alloc);
    for k in 0..t {
        let mut unit = vec![in alloc; 0; r]?;
        *unit.get_mut(k).ok_or("a place")? = 1;
        units.push(unit)?;
    }
    Ok(units)
}

/// The operator of a line, whose third matrix is the first unit vectors where it is not written.
fn operator(alloc: Global, line: &str) -> Result<Op, Fail> {
    let mut words = line.split(' ').skip(2);
    let (t1, t2) = (number(words.next())?, number(words.next())?);
    let (t3, c) = (number(words.next())?, number(words.next())?);
    let (g1, g2) = (rows(alloc, words.next())?, rows(alloc, words.next())?);
    let g3 = match words.next() {
        Some(word) => rows(alloc, Some(word))?,
        None => first_units(alloc, t3, t3.saturating_add(c))?,
    };
    Ok(Op {
        t1,
        t2,
        t3,
        c,
        g1,
        g2,
        g3,
    })
}

impl<'a> JobText<'a> {
    /// Takes `elem NAME VECTOR WEIGHT`.
    fn take_element(&mut self, alloc: Global, line: &'a str) -> Result<(), Fail> {
        let mut words = line.split(' ').skip(1);
        self.names.push(words.next().ok_or("a name")?)?;
        let vector = digits(alloc, words.next().ok_or("a vector")?)?;
        self.trees.push(Tree::Elem(vector))?;
        let weight = words.next().ok_or("a weight")?;
        self.weights.push(weight.parse().ok().ok_or("a weight")?)?;
        Ok(())
    }

    /// Takes `join NAME`.
    fn take_join(&mut self, alloc: Global, name: &str) -> Result<(), Fail> {
        let mut op = None;
        for line in self.operators.iter() {
            if line.split(' ').nth(1) == Some(name) {
                op = Some(operator(alloc, line)?);
            }
        }
        let right = Box::new(alloc, self.trees.pop().ok_or("a tree")?)?;
        let left = Box::new(alloc, self.trees.pop().ok_or("a tree")?)?;
        self.trees
            .push(Tree::Join(op.ok_or("an operator")?, left, right))?;
        Ok(())
    }

    /// Takes a line before the query.
    fn take_line(&mut self, alloc: Global, line: &'a str) -> Result<(), Fail> {
        let (word, rest) = line.split_once(' ').unwrap_or((line, ""));
        if word == "field" {
            self.field = rest.parse().ok().and_then(Field::of).ok_or("a field")?;
        } else if word == "op" {
            self.operators.push(line)?;
        } else if word == "elem" {
            self.take_element(alloc, line)?;
        } else if word == "void" {
            self.trees
                .push(Tree::Void(number(rest.split(' ').nth(1))?))?;
        } else if word == "join" {
            self.take_join(alloc, rest)?;
        }
        Ok(())
    }
}

/// The formula of a query whose free variable is this one, if any.
fn formula_of(alloc: Global, free: Option<Var>, written: &str) -> Result<Formula, Fail> {
    let mut binders = Vec::new(alloc);
    if let Some(v) = free {
        binders.push(v)?;
    }
    let formula = read(alloc, written.as_bytes()).ok().ok_or("a formula")?;
    with_slots(alloc, &mut binders, &formula)
}

/// The query of a line, if it is one.
fn query_of(alloc: Global, line: &str) -> Result<Option<Query>, Fail> {
    let (word, rest) = line.split_once(' ').unwrap_or((line, ""));
    if word == "decide" {
        let formula = formula_of(alloc, None, rest)?;
        return Ok(Some(Query {
            is_least: false,
            formula,
        }));
    }
    if word == "least" {
        let (name, rest) = rest.split_once(' ').ok_or("a variable")?;
        let v = Var::read(name.as_bytes()).ok_or("a variable")?;
        let formula = formula_of(alloc, Some(v), rest)?;
        return Ok(Some(Query {
            is_least: true,
            formula,
        }));
    }
    Ok(None)
}

/// What a text says up to its query, and the query.
pub fn read_job<'a>(alloc: Global, text: &'a str) -> Result<(JobText<'a>, Query), Fail> {
    let mut job = JobText {
        field: Field::Two,
        operators: Vec::new(alloc),
        trees: Vec::new(alloc),
        names: Vec::new(alloc),
        weights: Vec::new(alloc),
    };
    for line in text.lines() {
        if let Some(query) = query_of(alloc, line)? {
            return Ok((job, query));
        }
        job.take_line(alloc, line)?;
    }
    Err("a query".into())
}
