//! The words of the command line, and what they ask for.
ghost use Rattle.std.specs.Prelude.{◌≡◌, ◌≤◌, ◌==◌, length, map, string_bytes, All, IfSome};
ghost use Rattle.std.specs.List.{list_all};
ghost use Rattle.mm_field.specs.Vectors.{AreDigits};
ghost use Rattle.mm_lines.specs.Numbers.{number_of};
ghost use Rattle.mm_cli.specs.Words.{IsWithinBounds, alone, command_of, field_within, is_small_matrix, limited, minor_of, minor_over, most_elements, most_limit, most_seed, not_built, number_within, sampled, with_joined, with_three, with_two};

use mm_field::Field;
use mm_job_text::is_text;
use mm_lines::read_i64;
use mm_space::Gen;

/// The greatest limit on sizes, which holds where none is given.
pub(crate) const MOST_LIMIT: u64 = 4_194_304;

/// The most elements of a sample.
const MOST_ELEMENTS: u64 = 200;

/// The greatest seed of a sample.
const MOST_SEED: u64 = 2_147_483_646;

/// The numbers of a sample.
#[derive(Clone, Copy, Debug, PartialEq, Eq)]
pub struct SampleNumbers {
    /// The field of its digits.
    pub field: Field,
    /// How many elements it has, 2 to 200.
    pub elements: u32,
    /// The seed that it is drawn from, 1 to 2147483646.
    pub seed: u32,
}

/// A matrix of 1 to 5 columns, whose matroid is sought as a minor.
#[derive(Clone, Copy, Debug, PartialEq, Eq)]
pub struct MinorMatrix {
    /// The field of its digits.
    pub field: Field,
    /// Its rows: at least one, and all of one length.
    pub rows: Gen,
}

/// What the words of the command line ask for.
#[derive(Clone, Copy, Debug, PartialEq, Eq)]
pub enum Command {
    /// `run`, with the limit on sizes: the job in the source is answered.
    Run(u64),
    /// `sample`, with its numbers: a job that is drawn from them is answered in short.
    Sample(SampleNumbers),
    /// `build`: the tree for the decomposition in the source.
    Build,
    /// `dual`: a tree of the dual matroid of the tree in the source.
    Dual,
    /// `minor`, with a matrix: the job in the source is answered, where the line `minor` asks for the matrix' matroid as a minor.
    Minor(MinorMatrix),
    /// A command of the table that is not built yet.
    NotBuilt,
}

/// The number that 1 to 10 digits spell.
fn number(word: &[u8]) -> Option<u64>
    ensures { result ≡ number_of 10 word.now }
{
    if word.len() > 10 {
        return None;
    }
    match word {
        [b'-', ..] => None,
        _ => match read_i64(word) {
            Some(n) => Some(n as u64),
            None => None,
        },
    }
}

/// The number that 1 to 10 digits spell, where it is in these bounds.
fn number_within(least: u64, most: u64, word: &[u8]) -> Option<u64>
    ensures number { result ≡ number_within least most word.now }
    ensures least { IfSome result (λ n. least ≤ n) }
    ensures most { IfSome result (λ n. n ≤ most) }
{
    match number(word) {
        Some(n) if least <= n && n <= most => Some(n),
        _ => None,
    }
}

/// `run` with a limit, where there is one.
fn limited(limit: Option<u64>) -> Option<Command>
    requires least { IfSome limit (λ n. 1 ≤ n) }
    requires most { IfSome limit (λ n. n ≤ most_limit) }
    ensures command { result ≡ limited limit }
    ensures bounds { IfSome result IsWithinBounds }
{
    match limit {
        Some(limit) => Some(Command::Run(limit)),
        None => None,
    }
}

/// A command of the table that is not built yet.
fn not_built(is_command: bool) -> Option<Command>
    ensures command { result ≡ not_built is_command }
    ensures bounds { IfSome result IsWithinBounds }
{
    if is_command {
        Some(Command::NotBuilt)
    } else {
        None
    }
}

/// `run`, or a command without further words.
fn alone(word: &[u8]) -> Option<Command>
    ensures command { result ≡ alone word.now }
    ensures bounds { IfSome result IsWithinBounds }
{
    if is_text(word, b"run") {
        return Some(Command::Run(MOST_LIMIT));
    }
    if is_text(word, b"build") {
        return Some(Command::Build);
    }
    if is_text(word, b"dual") {
        return Some(Command::Dual);
    }
    not_built(is_text(word, b"prove") || is_text(word, b"verify"))
}

/// `run --limit=N`.
fn with_joined(word: &[u8], joined: &[u8]) -> Option<Command>
    ensures command { result ≡ with_joined word.now joined.now }
    ensures bounds { IfSome result IsWithinBounds }
{
    if !is_text(word, b"run") || joined.len() < 8 || !is_text(&joined[..8], b"--limit=") {
        return None;
    }
    limited(number_within(1, MOST_LIMIT, &joined[8..]))
}

/// Whether each of the rows has so many digits.
fn have_length(rows: &Gen, columns: u8) -> bool
    ensures { result ≡ list_all (λ v. length v == columns) rows.now }
{
    for k in 0..rows.rows() {
        if rows.row(k).len() != columns {
            return false;
        }
    }
    true
}

/// Whether the rows are those of a matrix of 1 to 5 columns.
fn is_small_matrix(rows: &Gen) -> bool
    ensures { result ≡ is_small_matrix rows.now }
{
    if rows.rows() == 0 {
        return false;
    }
    let columns = rows.row(0).len();
    1 <= columns && columns <= 5 && have_length(rows, columns)
}

/// The field whose order a word spells.
fn field_within(word: &[u8]) -> Option<Field>
    ensures { result ≡ field_within word.now }
{
    match number_within(2, 5, word) {
        Some(q) => Field::of(q as u8),
        None => None,
    }
}

/// `minor` with a matrix, where the rows are those of one with 1 to 5 columns.
fn minor_of(f: Field, rows: Option<Gen>) -> Option<Command>
    requires { IfSome rows (λ rows. All (λ v. AreDigits f v) rows) }
    ensures command { result ≡ minor_of f rows }
    ensures bounds { IfSome result IsWithinBounds }
{
    match rows {
        Some(rows) if is_small_matrix(&rows) => {
            Some(Command::Minor(MinorMatrix { field: f, rows }))
        }
        _ => None,
    }
}

/// `minor` with the matrix over a field whose rows a word shows.
fn minor_over(field: Option<Field>, rows: &[u8]) -> Option<Command>
    ensures command { result ≡ minor_over field rows.now }
    ensures bounds { IfSome result IsWithinBounds }
{
    match field {
        Some(f) => minor_of(f, Gen::read(f, rows)),
        None => None,
    }
}

/// `run --limit N` or `minor Q GEN`.
fn with_two(word: &[u8], first: &[u8], second: &[u8]) -> Option<Command>
    ensures command { result ≡ with_two word.now first.now second.now }
    ensures bounds { IfSome result IsWithinBounds }
{
    if is_text(word, b"run") && is_text(first, b"--limit") {
        return limited(number_within(1, MOST_LIMIT, second));
    }
    if is_text(word, b"minor") {
        return minor_over(field_within(first), second);
    }
    None
}

/// `sample` with its numbers, where all are there.
fn sampled(field: Option<Field>, elements: Option<u64>, seed: Option<u64>) -> Option<Command>
    requires some { IfSome elements (λ n. 2 ≤ n) }
    requires few { IfSome elements (λ n. n ≤ most_elements) }
    requires least { IfSome seed (λ n. 1 ≤ n) }
    requires greatest { IfSome seed (λ n. n ≤ most_seed) }
    ensures command { result ≡ sampled field elements seed }
    ensures bounds { IfSome result IsWithinBounds }
{
    let Some(field) = field else {
        return None;
    };
    let Some(elements) = elements else {
        return None;
    };
    let Some(seed) = seed else {
        return None;
    };
    Some(Command::Sample(SampleNumbers {
        field,
        elements: elements as u32,
        seed: seed as u32,
    }))
}

/// `sample Q N SEED`.
fn with_three(word: &[u8], q: &[u8], n: &[u8], seed: &[u8]) -> Option<Command>
    ensures command { result ≡ with_three word.now q.now n.now seed.now }
    ensures bounds { IfSome result IsWithinBounds }
{
    if !is_text(word, b"sample") {
        return None;
    }
    sampled(
        field_within(q),
        number_within(2, MOST_ELEMENTS, n),
        number_within(1, MOST_SEED, seed),
    )
}

/// The command that the words ask for. None where they are those of no row of the table.
#[tactic(auto, unfolding(crate::specs::Words::command_of))]
pub fn command_of(words: &[String]) -> Option<Command>
    ensures command { result ≡ command_of (map string_bytes words.now) }
    ensures bounds { IfSome result IsWithinBounds }
{
    match words {
        [word] => alone(word.as_bytes()),
        [word, joined] => with_joined(word.as_bytes(), joined.as_bytes()),
        [word, first, second] => with_two(word.as_bytes(), first.as_bytes(), second.as_bytes()),
        [word, q, n, seed] => with_three(
            word.as_bytes(),
            q.as_bytes(),
            n.as_bytes(),
            seed.as_bytes(),
        ),
        _ => None,
    }
}
