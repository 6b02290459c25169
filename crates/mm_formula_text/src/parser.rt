//! A pushdown automaton that reads a formula, one token at a time, in time linear in the text.
//!
//! What has begun and is not complete stands on a stack of frames, so that no nesting in the text is a nesting of
//! calls. Where a formula is complete, the next connective or the end closes each frame that binds tighter.
ghost use Rattle.std.specs.Prelude.{◌≡◌, [], ◌∷◌, true, false, MatchOption, IfOk, OnOk, Some, None};
ghost use Rattle.mm_formula.specs.Syntax.{syntax_of};
ghost use Rattle.mm_formula_text.specs.Grammar.{nothing};
ghost use Rattle.mm_formula_text.specs.Parser.{level, awaits, around, hole, close, atom, operand, bound, first, second, independent, term_begins, ends_term, parts, next_part, leave, complete, step, finish, run, at, start};
ghost use Rattle.mm_formula_text.specs.Parser as parser;
ghost use Rattle.mm_formula_text.specs.ParserValues.{frame_of, mode_of, frames_of, Goes, Gives};
ghost use Rattle.mm_formula_text.specs.Tokens.{tokens};

use crate::fault::ReadFault;
use crate::term::Parts;
use crate::token::{Quantifier, Relation, Token, Tokens};
use mm_base::NoMemory;
use mm_formula::{Connective, Formula, Term, Var, VarList};
use std::alloc::Global;

/// What has begun and awaits a formula.
#[derive(Drop)]
pub enum Frame {
    /// `not`
    Negation,
    /// A quantifier with its variable.
    Binder(Quantifier, Var),
    /// `(`
    Parenthesis,
    /// A formula and the connective after it.
    Left(Connective, Box<Formula>),
}

/// What the next token continues.
#[derive(Drop)]
pub enum Mode {
    /// A formula begins.
    Operand,
    /// After a quantifier.
    Bound(Quantifier),
    /// After the first variable of an atom.
    First(Var),
    /// After the relation of an atom.
    Second(Var, Relation),
    /// After `ind`.
    Independent,
    /// After the parenthesis of `ind`.
    TermBegins,
    /// After `0`.
    Nothing,
    /// After a part of a term.
    Parts(Parts),
    /// After the bar of a term.
    NextPart(Parts),
    /// After a formula.
    Complete(Formula),
}

/// The frames, the innermost last.
#[derive(Drop)]
pub struct Stack {
    frames: Vec<Frame>,
}

/// How tightly a connective binds.
fn level(connective: Connective) -> u8
    ensures { result ≡ level connective }
{
    match connective {
        Connective::Iff => 0,
        Connective::Implies => 1,
        Connective::Or => 2,
        Connective::And => 3,
    }
}

/// How tightly a formula must bind that a frame awaits.
fn awaits(frame: &Frame) -> u8
    ensures { result ≡ awaits (frame_of frame.now) }
{
    match frame {
        Frame::Parenthesis => 0,
        Frame::Left(Connective::Iff, _) => 1,
        Frame::Left(Connective::Implies, _) => 1,
        Frame::Left(Connective::Or, _) => 3,
        Frame::Left(Connective::And, _) => 4,
        Frame::Negation => 4,
        Frame::Binder(_, _) => 4,
    }
}

#[tactic(auto, unfolding(crate::specs::ParserValues::frames_of))]
impl Stack {
    fn new(alloc: Global) -> Stack
        ensures { frames_of result ≡ [] }
    {
        Stack {
            frames: Vec::new(alloc),
        }
    }

    fn push(&mut self, frame: Frame) -> Result<(), NoMemory>
        ensures { OnOk result (frames_of self.new ≡ frame_of frame ∷ frames_of self.old) }
    {
        self.frames.push(frame)?;
        Ok(())
    }

    fn pop(&mut self) -> Option<Frame>
        ensures { MatchOption result ((frames_of self.old ≡ []) × (frames_of self.new ≡ []))
            (λ frame. frames_of self.old ≡ frame_of frame ∷ frames_of self.new) }
    {
        self.frames.pop()
    }

    /// How tightly the formula must bind that the innermost frame awaits.
    fn hole(&self) -> u8
        ensures { result ≡ hole (frames_of self.now) }
    {
        match self.frames.last() {
            None => 0,
            Some(frame) => awaits(frame),
        }
    }
}

/// The formula under a quantifier.
fn quantified(
    alloc: Global,
    quantifier: Quantifier,
    v: Var,
    formula: Formula,
) -> Result<Formula, NoMemory>
    ensures { IfOk result (λ F. syntax_of F ≡ around (parser.Frame.Binder quantifier v) (syntax_of formula)) }
{
    match quantifier {
        Quantifier::Ex => Formula::with_some(alloc, v, formula),
        Quantifier::All => Formula::with_each(alloc, v, formula),
    }
}

/// The formula that a frame makes of what it awaited.
fn around(alloc: Global, frame: Frame, formula: Formula) -> Result<Formula, NoMemory>
    ensures { IfOk result (λ F. syntax_of F ≡ around (frame_of frame) (syntax_of formula)) }
{
    match frame {
        Frame::Negation => Formula::negated(alloc, formula),
        Frame::Binder(quantifier, v) => quantified(alloc, quantifier, v, formula),
        Frame::Parenthesis => Ok(formula),
        Frame::Left(connective, first) => Formula::combined(alloc, connective, first, formula),
    }
}

/// Closes each frame that awaits a formula which binds tighter than `least`.
fn close(alloc: Global, stack: &mut Stack, least: u8, formula: Formula) -> Result<Formula, NoMemory>
    ensures { IfOk result (λ F. close least (frames_of stack.old) (syntax_of formula) ≡ (frames_of stack.new, syntax_of F)) }
{
    let mut formula = formula;
    'frames: while stack.hole() > least {
        let Some(frame) = stack.pop() else {
            break 'frames;
        };
        formula = around(alloc, frame, formula)?;
    }
    Ok(formula)
}

/// The atom of two variables; `None` where the relation is not of such variables.
fn atom(v: Var, relation: Relation, w: Var) -> Option<Formula>
    ensures { MatchOption result (atom v relation w ≡ None) (λ F. atom v relation w ≡ Some (syntax_of F)) }
{
    match (relation, v.is_set(), w.is_set()) {
        (Relation::In, false, true) => Some(Formula::Member(v, w)),
        (Relation::Sub, true, true) => Some(Formula::Sub(v, w)),
        (Relation::Equals, true, true) => Some(Formula::SameSet(v, w)),
        (Relation::Equals, false, false) => Some(Formula::SameElem(v, w)),
        _ => None,
    }
}

/// The term of no elements.
fn no_elements(alloc: Global) -> Term
    ensures { result ≡ nothing }
{
    Term {
        whole: false,
        vars: VarList::new(alloc),
    }
}

/// Puts a formula and the connective after it on the stack.
fn push_left(
    alloc: Global,
    stack: &mut Stack,
    connective: Connective,
    formula: Formula,
) -> Result<(), NoMemory>
    ensures { OnOk result (frames_of stack.new ≡ parser.Frame.Left connective (syntax_of formula) ∷ frames_of stack.old) }
{
    stack.push(Frame::Left(connective, Box::new(alloc, formula)?))
}

fn operand(stack: &mut Stack, token: Token) -> Result<Mode, ReadFault>
    ensures { Goes result (frames_of stack.new) (operand (frames_of stack.old) token) }
{
    match token {
        Token::Not => {
            stack.push(Frame::Negation)?;
            Ok(Mode::Operand)
        }
        Token::Quantifier(quantifier) => Ok(Mode::Bound(quantifier)),
        Token::Open => {
            stack.push(Frame::Parenthesis)?;
            Ok(Mode::Operand)
        }
        Token::Const(value) => Ok(Mode::Complete(Formula::Const(value))),
        Token::Variable(v) => Ok(Mode::First(v)),
        Token::Ind => Ok(Mode::Independent),
        _ => Err(ReadFault::Syntax),
    }
}

fn bound(stack: &mut Stack, quantifier: Quantifier, token: Token) -> Result<Mode, ReadFault>
    ensures { Goes result (frames_of stack.new) (bound (frames_of stack.old) quantifier token) }
{
    match token {
        Token::Variable(v) => {
            stack.push(Frame::Binder(quantifier, v))?;
            Ok(Mode::Operand)
        }
        _ => Err(ReadFault::Syntax),
    }
}

fn first(token: Token, v: Var) -> Result<Mode, ReadFault>
    ensures { (frames : _) → Goes result frames (first frames v token) }
{
    match token {
        Token::Relation(relation) => Ok(Mode::Second(v, relation)),
        _ => Err(ReadFault::Syntax),
    }
}

fn second(token: Token, v: Var, relation: Relation) -> Result<Mode, ReadFault>
    ensures { (frames : _) → Goes result frames (second frames v relation token) }
{
    match token {
        Token::Variable(w) => match atom(v, relation, w) {
            Some(formula) => Ok(Mode::Complete(formula)),
            None => Err(ReadFault::Syntax),
        },
        _ => Err(ReadFault::Syntax),
    }
}

fn independent(token: Token) -> Result<Mode, ReadFault>
    ensures { (frames : _) → Goes result frames (independent frames token) }
{
    match token {
        Token::Open => Ok(Mode::TermBegins),
        _ => Err(ReadFault::Syntax),
    }
}

fn term_begins(alloc: Global, token: Token) -> Result<Mode, ReadFault>
    ensures { (frames : _) → Goes result frames (term_begins frames token) }
{
    match token {
        Token::Zero => Ok(Mode::Nothing),
        Token::Variable(v) => Ok(Mode::Parts(Parts::variable(alloc, v)?)),
        Token::Star => Ok(Mode::Parts(Parts::all_elements(alloc))),
        _ => Err(ReadFault::Syntax),
    }
}

fn ends_term(token: Token, term: Term) -> Result<Mode, ReadFault>
    ensures { (frames : _) → Goes result frames (ends_term frames term token) }
{
    match token {
        Token::Close => Ok(Mode::Complete(Formula::Ind(term))),
        _ => Err(ReadFault::Syntax),
    }
}

fn parts(token: Token, so_far: Parts) -> Result<Mode, ReadFault>
    ensures { (frames : _) → Goes result frames (parts frames so_far token) }
{
    match token {
        Token::Bar => Ok(Mode::NextPart(so_far)),
        Token::Close => Ok(Mode::Complete(Formula::Ind(so_far.term()))),
        _ => Err(ReadFault::Syntax),
    }
}

fn next_part(alloc: Global, token: Token, so_far: Parts) -> Result<Mode, ReadFault>
    ensures { (frames : _) → Goes result frames (next_part frames so_far token) }
{
    match token {
        Token::Variable(v) => Ok(Mode::Parts(so_far.mention(alloc, v)?)),
        Token::Star => Ok(Mode::Parts(so_far.mention_all())),
        _ => Err(ReadFault::Syntax),
    }
}

/// Ends the innermost parenthesis, where one is there.
fn leave(stack: &mut Stack, formula: Formula) -> Result<Mode, ReadFault>
    ensures { Goes result (frames_of stack.new) (leave (frames_of stack.old, syntax_of formula)) }
{
    match stack.pop() {
        Some(Frame::Parenthesis) => Ok(Mode::Complete(formula)),
        _ => Err(ReadFault::Syntax),
    }
}

fn complete(
    alloc: Global,
    stack: &mut Stack,
    token: Token,
    formula: Formula,
) -> Result<Mode, ReadFault>
    ensures { Goes result (frames_of stack.new) (complete (frames_of stack.old) (syntax_of formula) token) }
{
    match token {
        Token::Connective(connective) => {
            let formula = close(alloc, stack, level(connective), formula)?;
            push_left(alloc, stack, connective, formula)?;
            Ok(Mode::Operand)
        }
        Token::Close => {
            let formula = close(alloc, stack, 0, formula)?;
            leave(stack, formula)
        }
        _ => Err(ReadFault::Syntax),
    }
}

/// One token more.
#[tactic(auto, unfolding(crate::specs::Parser::step))]
fn step(alloc: Global, stack: &mut Stack, mode: Mode, token: Token) -> Result<Mode, ReadFault>
    ensures { Goes result (frames_of stack.new) (step (at (frames_of stack.old) (mode_of mode)) token) }
{
    match mode {
        Mode::Operand => operand(stack, token),
        Mode::Bound(quantifier) => bound(stack, quantifier, token),
        Mode::First(v) => first(token, v),
        Mode::Second(v, relation) => second(token, v, relation),
        Mode::Independent => independent(token),
        Mode::TermBegins => term_begins(alloc, token),
        Mode::Nothing => ends_term(token, no_elements(alloc)),
        Mode::Parts(so_far) => parts(token, so_far),
        Mode::NextPart(so_far) => next_part(alloc, token, so_far),
        Mode::Complete(formula) => complete(alloc, stack, token, formula),
    }
}

/// The formula, where the text ends here.
#[tactic(auto, unfolding(crate::specs::Parser::finish))]
fn finish(alloc: Global, stack: &mut Stack, mode: Mode) -> Result<Formula, ReadFault>
    ensures { Gives result (finish (at (frames_of stack.old) (mode_of mode))) }
{
    match mode {
        Mode::Complete(formula) => {
            let formula = close(alloc, stack, 0, formula)?;
            match stack.pop() {
                None => Ok(formula),
                Some(_) => Err(ReadFault::Syntax),
            }
        }
        _ => Err(ReadFault::Syntax),
    }
}

/// The formula that the tokens of the text make.
pub fn parse(alloc: Global, text: &[u8]) -> Result<Formula, ReadFault>
    ensures { Gives result (run start (tokens text.now)) }
{
    let mut stack = Stack::new(alloc);
    let mut mode = Mode::Operand;
    let mut rest = Tokens::of(text);
    'tokens: while let Some(token) = rest.next() {
        mode = step(alloc, &mut stack, mode, token)?;
    }
    finish(alloc, &mut stack, mode)
}
