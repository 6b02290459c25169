//! The lines of operators, each by itself.
ghost use Rattle.std.specs.Prelude.{◌≡◌, MatchOption, Some, None, option_copied, IfOk};
ghost use Rattle.mm_job_text.specs.OperatorLines.{HasDigits, HasThirdDigits, operator_fields, operator_tokens, shown, third_matrix, third_of};
ghost use Rattle.mm_job_text.specs.OperatorTokens.{tokens_of};

use crate::arguments::args;
use crate::format::Format;
use crate::refusal::Refusal;
use mm_base::Name;
use mm_field::Field;
use mm_lines::{Line, Tokens, read_u32};
use mm_space::Gen;

/// The third matrix of an operator.
#[derive(Clone, Copy, Debug)]
pub enum ThirdMatrix {
    /// It is not written: it is the first unit vectors.
    Units,
    /// It is written.
    Written(Gen),
}

/// What the line of an operator says.
#[derive(Clone, Copy, Debug)]
pub struct OperatorLine {
    /// The operator's name.
    pub name: Name,
    /// How many digits the left boundary has.
    pub t1: u32,
    /// How many digits the right boundary has.
    pub t2: u32,
    /// How many digits the boundary of the join has.
    pub t3: u32,
    /// How many dimensions more the space of the join has.
    pub c: u32,
    /// The left boundary in the space of the join.
    pub g1: Gen,
    /// The right boundary in the space of the join.
    pub g2: Gen,
    /// The boundary of the join in its space.
    pub g3: ThirdMatrix,
}

/// The tokens after the word `op`.
#[derive(Clone, Copy)]
struct Written<'a> {
    name: &'a [u8],
    t1: &'a [u8],
    t2: &'a [u8],
    t3: &'a [u8],
    c: &'a [u8],
    g1: &'a [u8],
    g2: &'a [u8],
    g3: Option<&'a [u8]>,
}

/// The third matrix, where the format has one, if no token is left after it.
fn third<'a>(format: Format, tokens: Tokens<'a>) -> Option<Option<&'a [u8]>>
    ensures { MatchOption result (third_of format tokens.entry ≡ None) (λ g3. third_of format tokens.entry ≡ Some (option_copied g3)) }
{
    let mut tokens = tokens;
    let g3 = match format {
        Format::One => None,
        Format::Two => Some(tokens.next()?),
    };
    match tokens.next() {
        None => Some(g3),
        Some(_) => None,
    }
}

/// The tokens after the word `op`, as many as the format has.
fn operator_tokens<'a>(format: Format, tokens: Tokens<'a>) -> Option<Written<'a>>
    ensures { MatchOption result (operator_tokens format tokens.entry ≡ None)
        (λ w. operator_tokens format tokens.entry ≡ Some (tokens_of w)) }
{
    let mut tokens = tokens;
    Some(Written {
        name: tokens.next()?,
        t1: tokens.next()?,
        t2: tokens.next()?,
        t3: tokens.next()?,
        c: tokens.next()?,
        g1: tokens.next()?,
        g2: tokens.next()?,
        g3: third(format, tokens)?,
    })
}

/// What the tokens show, if they do.
#[tactic(auto, unfolding(crate::specs::OperatorLines::shown))]
fn shown(f: Field, written: &Written<'_>, refused: Refusal) -> Result<OperatorLine, Refusal>
    ensures shown { result ≡ shown f (tokens_of written.now) refused }
    ensures digits { IfOk result (λ w. HasDigits f w) }
{
    let Some(name) = Name::read(written.name) else {
        return Err(refused);
    };
    let Some(t1) = read_u32(written.t1) else {
        return Err(refused);
    };
    let Some(t2) = read_u32(written.t2) else {
        return Err(refused);
    };
    let Some(t3) = read_u32(written.t3) else {
        return Err(refused);
    };
    let Some(c) = read_u32(written.c) else {
        return Err(refused);
    };
    let Some(g1) = Gen::read(f, written.g1) else {
        return Err(refused);
    };
    let Some(g2) = Gen::read(f, written.g2) else {
        return Err(refused);
    };
    let g3 = third_matrix(f, written.g3, refused)?;
    Ok(OperatorLine {
        name,
        t1,
        t2,
        t3,
        c,
        g1,
        g2,
        g3,
    })
}

/// The third matrix, where it is written.
fn third_matrix(f: Field, written: Option<&[u8]>, refused: Refusal) -> Result<ThirdMatrix, Refusal>
    ensures shown { result ≡ third_matrix f (option_copied written.entry) refused }
    ensures digits { IfOk result (λ g3. HasThirdDigits f g3) }
{
    match written {
        None => Ok(ThirdMatrix::Units),
        Some(bytes) => match Gen::read(f, bytes) {
            Some(g3) => Ok(ThirdMatrix::Written(g3)),
            None => Err(refused),
        },
    }
}

/// `op NAME T1 T2 T3 C G1 G2`, in format 2 with G3
#[tactic(auto, unfolding(crate::specs::OperatorLines::operator_fields))]
pub fn read_operator(format: Format, f: Field, line: &Line) -> Result<OperatorLine, Refusal>
    ensures shown { result ≡ operator_fields format f line.now }
    ensures digits { IfOk result (λ w. HasDigits f w) }
{
    let refused = Refusal::Syntax(line.number);
    match operator_tokens(format, args(line)) {
        Some(written) => shown(f, &written, refused),
        None => Err(refused),
    }
}
