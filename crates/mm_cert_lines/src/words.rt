//! Words for the values of atoms.
ghost use Rattle.std.specs.Prelude.{◌≡◌};
ghost use Rattle.mm_cert_lines.specs.LineForm.{atom_word, member_word, same_word, plain_value};

use crate::tokens::is_word;
use crate::{AtomWord, Stated};

fn member_word(token: &[u8]) -> Option<AtomWord>
    ensures { result ≡ member_word token.now }
{
    if is_word(token, b"unseen") {
        return Some(AtomWord::Unseen);
    }
    if is_word(token, b"yes") {
        return Some(AtomWord::Yes);
    }
    if is_word(token, b"no") {
        return Some(AtomWord::No);
    }
    None
}

fn same_word(token: &[u8]) -> Option<AtomWord>
    ensures { result ≡ same_word token.now }
{
    if is_word(token, b"none") {
        return Some(AtomWord::Neither);
    }
    if is_word(token, b"onlyx") {
        return Some(AtomWord::OnlyX);
    }
    if is_word(token, b"onlyy") {
        return Some(AtomWord::OnlyY);
    }
    if is_word(token, b"same") {
        return Some(AtomWord::Same);
    }
    if is_word(token, b"diff") {
        return Some(AtomWord::Diff);
    }
    None
}

fn atom_word(token: &[u8]) -> Option<AtomWord>
    ensures { result ≡ atom_word token.now }
{
    if is_word(token, b"unit") {
        return Some(AtomWord::Unit);
    }
    if is_word(token, b"holds") {
        return Some(AtomWord::Holds);
    }
    if is_word(token, b"fails") {
        return Some(AtomWord::Fails);
    }
    match member_word(token) {
        Some(word) => Some(word),
        None => same_word(token),
    }
}

/// The value of one word.
pub(crate) fn plain_value(token: &[u8]) -> Option<Stated>
    ensures { result ≡ plain_value token.now }
{
    if is_word(token, b"dead") {
        return Some(Stated::Dead);
    }
    match atom_word(token) {
        Some(word) => Some(Stated::Word(word)),
        None => None,
    }
}
