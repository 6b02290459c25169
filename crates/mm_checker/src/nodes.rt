//! The rows of a tree's nodes: for each type that occurs at a node the lightest set that has it.

ghost use Rattle.std.specs.Prelude.{◌≡◌, ◌+◌, ◌+ℤ◌, ◌||◌, ◌&&◌, ◌==◌, ◌<◌, ℕ, List, [], Some, None, true, nat_eq, not, int_lt, slice_get, option_copied, is_some, map, length, IfOk, nat_abs, ◌≤◌, if◌then◌else◌};
ghost use Rattle.std.specs.List.{list_all, list_any, range_with_len};
ghost use Rattle.std.specs.Map.{lookup};
ghost use Rattle.mm_checker.specs.Claims.{has_element};
ghost use Rattle.mm_checker.specs.NodeLines.{is_earlier, is_as_good, is_number, leaf_choice, pair_of, choice, next_row, lefts, rights, is_met, are_different, are_all_met, node_passes, TreeLine, Rooted as Done};
ghost use Rattle.mm_checker.specs.KeptNodes.{rows_of, IsNode, IsLight, AreLight, kept_rows, sets_of, IsChoice, AreRising, IsNext, IsAdded, IsTable, row_in, with_set, keyed};
ghost use Rattle.mm_checker.specs.declared.nodes.Row.{Row as Kept};
ghost use Rattle.mm_tree.specs.Nodes.{named_leaf};

use crate::claims::Claims;
use indexmap::IndexMap;
use mm_base::{Name, NoMemory};
use mm_tree::Leaf;
use std::alloc::Global;

/// A type of a node, the weight of its lightest set, and where this set is from: at a leaf `x` is 1 where its element is taken, and
/// at a join it is the set of row `x` of the left child with that of row `y` of the right one.
#[derive(Clone, Copy)]
pub(crate) struct Row {
    pub value: u32,
    pub weight: i64,
    pub x: u32,
    pub y: u32,
}

/// A tree with the rows of its nodes.
#[derive(Drop)]
pub(crate) enum Rooted {
    Leaf(Leaf, Vec<Row>),
    Join(Box<Rooted>, Box<Rooted>, Vec<Row>),
}

/// A set that a node may have, and the number of its type, where a claim gives it.
#[derive(Clone, Copy)]
struct Choice {
    value: Option<u32>,
    weight: i64,
    x: usize,
    y: usize,
}

/// A node that is begun: a leaf with its number, or the join of two trees by an operator of that name.
#[derive(Clone, Copy)]
pub(crate) enum Node<'a> {
    Leaf(u32, &'a Leaf),
    Join(Name, &'a Rooted, &'a Rooted),
}

impl Rooted {
    /// The rows of the root.
    pub(crate) fn rows(&self) -> &[Row]
        ensures { result.now ≡ kept_rows self.now }
    {
        match self {
            Rooted::Leaf(_, rows) => rows,
            Rooted::Join(_, _, rows) => rows,
        }
    }

    // A row of the root, by its number.
    fn row(&self, n: usize) -> Option<Row>
        ensures { result ≡ slice_get (kept_rows self.now) n }
    {
        self.rows().get(n).copied()
    }
}

// Whether (x, y) is before (u, v).
fn is_earlier(x: usize, y: usize, u: usize, v: usize) -> bool
    ensures { result ≡ is_earlier x y u v }
{
    x < u || x == u && y < v
}

// Whether a row is at least as good as a choice of its type.
fn is_as_good(row: &Row, choice: &Choice) -> bool
    ensures { result ≡ (int_lt row.now.weight choice.now.weight
        || (not (int_lt choice.now.weight row.now.weight) && not (is_earlier choice.now.x choice.now.y row.now.x row.now.y))) }
{
    row.weight < choice.weight
        || choice.weight >= row.weight
            && !is_earlier(choice.x, choice.y, row.x as usize, row.y as usize)
}

fn is_number(value: Option<u32>, n: u32) -> bool
    ensures { result ≡ is_number value n }
{
    match value {
        Some(m) => m == n,
        None => false,
    }
}

// Whether a row has the type and the weight of a choice.
fn is_of(choice: &Choice, row: &Row) -> bool
    ensures { result ≡ (is_number choice.now.value row.now.value && not (int_lt choice.now.weight row.now.weight)
        && not (int_lt row.now.weight choice.now.weight)) }
{
    is_number(choice.value, row.value) && choice.weight >= row.weight && row.weight >= choice.weight
}

// Whether (x, y) comes after all rows, of which each comes before those after it.
fn follows(rows: &[Row], x: usize, y: usize) -> bool
    ensures { AreRising rows.now → result ≡ list_all (λ r. is_earlier r.x r.y x y) rows.now }
{
    match rows.last() {
        None => true,
        Some(last) => is_earlier(last.x as usize, last.y as usize, x, y),
    }
}

// What may be chosen at a leaf.
fn leaf_choice(
    claims: &Claims,
    least: bool,
    number: u32,
    leaf: &Leaf,
    x: usize,
    y: usize,
) -> Option<Choice>
    ensures { IsChoice (leaf_choice least claims.now.leaves.entries number (named_leaf leaf.now) x y) result }
{
    if y != 0 || x > 1 {
        return None;
    }
    if x == 0 {
        return Some(Choice {
            value: claims.at_leaf(0, number, 0),
            weight: 0,
            x,
            y,
        });
    }
    match &leaf.item {
        Some(item) if least => Some(Choice {
            value: claims.at_leaf(0, number, 1),
            weight: item.weight,
            x,
            y,
        }),
        _ => None,
    }
}

// The weight of the sets of two rows together.
fn sum(left: &Row, right: &Row) -> i64
    requires left { nat_abs left.now.weight ≤ 4611686018427387903 }
    requires right { nat_abs right.now.weight ≤ 4611686018427387903 }
    ensures { result ≡ left.now.weight +ℤ right.now.weight }
{
    left.weight + right.weight
}

// How many choices a leaf has.
fn choices_of_leaf(leaf: &Leaf, least: bool) -> usize
    ensures { result ≡ (if least && has_element (named_leaf leaf.now) then 2 else 1) }
{
    match &leaf.item {
        Some(_) if least => 2,
        _ => 1,
    }
}

// What may be chosen at a join: a row of each child.
fn pair_choice(
    claims: &Claims,
    op: Name,
    left: &Rooted,
    right: &Rooted,
    x: usize,
    y: usize,
) -> Option<Choice>
    requires left { AreLight (kept_rows left.now) }
    requires right { AreLight (kept_rows right.now) }
    ensures { IsChoice (pair_of claims.now.glues.entries op x y (slice_get (rows_of left.now) x) (slice_get (rows_of right.now) y)) result }
{
    let first = left.row(x)?;
    let second = right.row(y)?;
    Some(Choice {
        value: claims.at_glue(0, op, first.value, second.value),
        weight: sum(&first, &second),
        x,
        y,
    })
}

impl Node<'_> {
    // What may be chosen as (x, y).
    fn choice(&self, claims: &Claims, least: bool, x: usize, y: usize) -> Option<Choice>
        requires { IsLight self.now }
        ensures { (trees : List Done) (node : TreeLine) → IsNode self.now trees node →
            IsChoice (choice least claims.now.leaves.entries claims.now.glues.entries trees node x y) result }
    {
        match self {
            Node::Leaf(number, leaf) => leaf_choice(claims, least, *number, leaf, x, y),
            Node::Join(op, left, right) => pair_choice(claims, *op, left, right, x, y),
        }
    }

    // How many x there are.
    fn lefts(&self, least: bool) -> usize
        ensures { (trees : List Done) (node : TreeLine) → IsNode self.now trees node → result ≡ lefts least trees node }
    {
        match self {
            Node::Leaf(_, leaf) => choices_of_leaf(leaf, least),
            Node::Join(_, left, _) => left.rows().len(),
        }
    }

    // How many y there are.
    fn rights(&self) -> usize
        ensures { (trees : List Done) (node : TreeLine) → IsNode self.now trees node → result ≡ rights trees node }
    {
        match self {
            Node::Leaf(_, _) => 1,
            Node::Join(_, _, right) => right.rows().len(),
        }
    }

    /// Whether a row may be added to others: it is a choice that comes after theirs, with its value and weight.
    pub(crate) fn takes(&self, claims: &Claims, least: bool, rows: &[Row], row: &Row) -> bool
        requires { IsLight self.now }
        ensures { (trees : List Done) (node : TreeLine) → IsNode self.now trees node → AreRising rows.now →
            IsNext (sets_of self.now) row.now (next_row (map (with_set (sets_of self.now)) rows.now) row.now.x row.now.y
            (choice least claims.now.leaves.entries claims.now.glues.entries trees node row.now.x row.now.y) row.now.value row.now.weight) result }
    {
        match self.choice(claims, least, row.x as usize, row.y as usize) {
            None => false,
            Some(choice) => {
                if !is_of(&choice, row) {
                    return false;
                }
                follows(rows, row.x as usize, row.y as usize)
            }
        }
    }
}

/// Rows by their values.
#[derive(Drop)]
struct Table {
    rows: IndexMap<u32, Row>,
}

impl Table {
    fn new(alloc: Global) -> Table
        ensures { result.rows.entries ≡ [] }
    {
        Table {
            rows: IndexMap::new(alloc),
        }
    }

    // The row of a value.
    fn get(&self, value: u32) -> Option<Row>
        ensures { result ≡ lookup (nat_eq value) self.now.rows.entries }
    {
        self.rows.get(&value).copied()
    }

    // The row of a value, where there is one.
    fn find(&self, value: Option<u32>) -> Option<Row>
        ensures { result ≡ row_in self.now.rows.entries value }
    {
        match value {
            Some(n) => self.get(n),
            None => None,
        }
    }

    // Adds a row, where none has its value yet, and says whether it did.
    fn add(&mut self, row: &Row) -> Result<bool, NoMemory>
        ensures { IfOk result (λ new. IsAdded self.old.rows.entries row.now new self.new.rows.entries) }
    {
        if self.get(row.value).is_some() {
            return Ok(false);
        }
        self.rows.insert(row.value, *row)?;
        Ok(true)
    }

    // Adds rows, and says whether their values are all different.
    fn add_all(&mut self, rows: &[Row]) -> Result<bool, NoMemory>
        requires { self.old.rows.entries ≡ [] }
        ensures { IfOk result (λ good. IsTable rows.now good self.new.rows.entries) }
    {
        for i in 0..rows.len() {
            if !self.add(&rows[i])? {
                return Ok(false);
            }
        }
        Ok(true)
    }
}

impl Node<'_> {
    // Whether some row is at least as good as the choice (x, y).
    fn is_met(&self, claims: &Claims, least: bool, table: &Table, x: usize, y: usize) -> bool
        requires { IsLight self.now }
        ensures { (trees : List Done) (node : TreeLine) (rows : List Kept) → IsNode self.now trees node → IsTable rows true table.now.rows.entries
            → result ≡ is_met (map (with_set (sets_of self.now)) rows)
            (choice least claims.now.leaves.entries claims.now.glues.entries trees node x y) }
    {
        let Some(choice) = self.choice(claims, least, x, y) else {
            return false;
        };
        match table.find(choice.value) {
            Some(row) => is_as_good(&row, &choice),
            None => false,
        }
    }

    // The same of each choice (x, y) for one x.
    fn are_met_with(
        &self,
        claims: &Claims,
        least: bool,
        table: &Table,
        x: usize,
        rights: usize,
    ) -> bool
        requires { IsLight self.now }
        ensures { (trees : List Done) (node : TreeLine) (rows : List Kept) → IsNode self.now trees node → IsTable rows true table.now.rows.entries
            → result ≡ list_all (λ y. is_met (map (with_set (sets_of self.now)) rows)
            (choice least claims.now.leaves.entries claims.now.glues.entries trees node x y)) (range_with_len 0 rights) }
    {
        for y in 0..rights {
            if !self.is_met(claims, least, table, x, y) {
                return false;
            }
        }
        true
    }

    // The same of each choice.
    fn are_all_met(&self, claims: &Claims, least: bool, table: &Table) -> bool
        requires { IsLight self.now }
        ensures { (trees : List Done) (node : TreeLine) (rows : List Kept) → IsNode self.now trees node → IsTable rows true table.now.rows.entries
            → result ≡ are_all_met least claims.now.leaves.entries claims.now.glues.entries trees node
            (map (with_set (sets_of self.now)) rows) }
    {
        let rights = self.rights();
        for x in 0..self.lefts(least) {
            if !self.are_met_with(claims, least, table, x, rights) {
                return false;
            }
        }
        true
    }

    /// Whether the node passes with these rows: their values are all different, and each choice is met by a row.
    pub(crate) fn passes(
        &self,
        alloc: Global,
        claims: &Claims,
        least: bool,
        rows: &[Row],
    ) -> Result<bool, NoMemory>
        requires { IsLight self.now }
        ensures { IfOk result (λ good. (trees : List Done) (node : TreeLine) → IsNode self.now trees node →
            good ≡ node_passes least claims.now.leaves.entries claims.now.glues.entries trees node (map (with_set (sets_of self.now)) rows.now)) }
    {
        let mut table = Table::new(alloc);
        if !table.add_all(rows)? {
            return Ok(false);
        }
        Ok(self.are_all_met(claims, least, &table))
    }
}
