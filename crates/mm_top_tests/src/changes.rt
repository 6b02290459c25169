//! Jobs that differ from one job in some lines.
use std::alloc::Global;
use std::test::Fail;

/// Three elements over GF(2) that form a circuit, built by two joins. Its lines are numbered 1 to 15.
pub const CIRCUIT: &str = "\
mso 1
field 2
elements a b c
row 101
row 011
op j 1 1 2 0 10 01
op k 2 1 0 2 10/01 11
tree
elem a 1 5
elem b 1 5
join j
elem c 1 5
join k
end
decide ind(*)
";

/// What stands for the line with this number, where one of the changes names it: `N LINE`, or `N` alone for no line.
fn change<'a>(number: usize, changes: &'a str) -> Option<&'a str> {
    for change in changes.lines() {
        let (name, line) = change.split_once(' ').unwrap_or((change, ""));
        if name.parse::<usize>() == Ok(number) {
            return Some(line);
        }
    }
    None
}

/// The lines of a job, some exchanged, and more text after them.
pub fn changed(alloc: Global, job: &str, changes: &str, after: &str) -> Result<Vec<u8>, Fail> {
    let mut text = Vec::new(alloc);
    let mut number = 0usize;
    for line in job.lines() {
        number = number.saturating_add(1);
        let line = change(number, changes).unwrap_or(line);
        if !line.is_empty() {
            text.extend_from_slice(line.as_bytes())?;
            text.push(b'\n')?;
        }
    }
    text.extend_from_slice(after.as_bytes())?;
    Ok(text)
}
