//! The values of a certificate by their numbers.

ghost use Rattle.std.specs.Prelude.{◌≡◌, ◌<◌, ◌++◌, [], ℕ, Some, None, true, IfSome, IfOk, OnOk, slice_get, option_copied};
ghost use Rattle.std.specs.List.{list_all};
ghost use Rattle.mm_logic.specs.Formula.{Formula};
ghost use Rattle.mm_checker.specs.Contents.{meaning, is_value, is_rising, are_members, flag_at, flag_content, content_at};
ghost use Rattle.mm_checker.specs.Certificates.{content_of};
ghost use Rattle.mm_field.specs.declared.Field.{Field};
ghost use Rattle.mm_checker.specs.Claims.{are_spaces_of};
ghost use Rattle.mm_checker.specs.KeptBoundaries.{AreSized};
ghost use Rattle.mm_checker.specs.KeptValues.{IsOver, AreOver, IsNewValue, IsEnded};
ghost use Rattle.mm_checker.specs.KeptPlaces.{IsPlace, IsOpened, HasMore};
ghost use Rattle.mm_cert_lines.specs.declared.certificate.Stated.TheVariants as stated;

use crate::boundaries::Sizes;
use crate::places::Place;
use crate::{AtomWord, Content, Numbers, Stated, Valued};
use indexmap::IndexSet;
use mm_base::NoMemory;
use std::alloc::Global;

/// The values that are ended, and the one that may still get members.
#[derive(Drop)]
pub(crate) struct Values {
    ended: IndexSet<Valued>,
    sizes: Sizes,
    unended: Option<Valued>,
}

impl Values {
    /// No values.
    pub(crate) fn new(alloc: Global) -> Values
        ensures ended { result.ended.keys ≡ [] }
        ensures sizes { result.sizes.kept.items ≡ [] }
        ensures unended { result.unended ≡ None }
    {
        Values {
            ended: IndexSet::new(alloc),
            sizes: Sizes::new(alloc),
            unended: None,
        }
    }

    /// What the value of a number is, where it is ended.
    pub(crate) fn get(&self, n: u32) -> Option<&Valued>
        ensures { option_copied result ≡ slice_get self.now.ended.keys n }
    {
        self.ended.get_index(n as usize)
    }

    /// The content of the value of a number.
    pub(crate) fn content(&self, n: u32) -> Option<&Content>
        ensures { option_copied result ≡ content_of self.now.ended.keys n }
    {
        match self.get(n) {
            Some(valued) => Some(&valued.content),
            None => None,
        }
    }

    /// Whether this is the number of a value of a place.
    pub(crate) fn is_value(&self, place: u32, n: u32) -> bool
        ensures { result ≡ is_value self.now.ended.keys place n }
    {
        match self.get(n) {
            Some(valued) => valued.place == place,
            None => false,
        }
    }

    /// Whether all subspaces in a value are of F^t.
    pub(crate) fn are_spaces_of(&self, t: u8, n: u32) -> bool
        ensures { AreSized self.now.ended.keys self.now.sizes.kept.items → result ≡ are_spaces_of t (meaning self.now.ended.keys n) }
    {
        self.sizes.are_of(t, n)
    }

    fn are_values(&self, place: u32, numbers: &[u32]) -> bool
        ensures { result ≡ list_all (is_value self.now.ended.keys place) numbers.now }
    {
        for n in numbers {
            if !self.is_value(place, *n) {
                return false;
            }
        }
        true
    }

    // The numbers are of values of the place, and rise.
    fn are_members(&self, place: u32, numbers: &[u32]) -> bool
        ensures { result ≡ are_members self.now.ended.keys place numbers.now }
    {
        self.are_values(place, numbers) && is_rising(numbers)
    }

    /// Ends the last value. False where it is an earlier value of its place again.
    pub(crate) fn end(&mut self) -> Result<bool, NoMemory>
        ensures value { (f : Field) → AreOver f self.old.ended.keys → IfSome self.old.unended (λ v. IsOver f v.content)
            → IfOk result (λ good. IsEnded self.old.ended.keys self.old.unended good self.new.ended.keys) }
        ensures sized { AreSized self.old.ended.keys self.old.sizes.kept.items
            → IfOk result (λ good. good ≡ true → AreSized self.new.ended.keys self.new.sizes.kept.items) }
        ensures unended { OnOk result (self.new.unended ≡ None) }
    {
        match self.unended.take() {
            None => Ok(true),
            Some(valued) => self.put(valued),
        }
    }

    fn put(&mut self, valued: Valued) -> Result<bool, NoMemory>
        ensures value { (f : Field) → AreOver f self.old.ended.keys → IsOver f valued.content
            → IfOk result (λ good. IsNewValue self.old.ended.keys valued good self.new.ended.keys) }
        ensures sized { AreSized self.old.ended.keys self.old.sizes.kept.items
            → IfOk result (λ good. good ≡ true → AreSized self.new.ended.keys self.new.sizes.kept.items) }
        ensures unended { self.new.unended ≡ self.old.unended }
    {
        self.sizes.push(&valued.content)?;
        let (_, new) = self.ended.insert_full(valued)?;
        Ok(new)
    }

    /// Begins a value of a place. False where the place may not have it.
    pub(crate) fn begin(&mut self, number: u32, place: &Place, stated: Stated) -> bool
        requires { number < 65536 }
        ensures ended { self.new.ended ≡ self.old.ended }
        ensures sizes { self.new.sizes ≡ self.old.sizes }
        ensures begun { (F : Formula) → IsPlace number F place.now →
            IsOpened number (content_at self.old.ended.keys number F stated) result self.new.unended }
    {
        match self.content_at(number, place, stated) {
            None => false,
            Some(content) => {
                self.unended = Some(Valued {
                    place: number,
                    content,
                });
                true
            }
        }
    }

    // The content that a place has by what is stated, where it may have it.
    fn content_at(&self, number: u32, place: &Place, stated: Stated) -> Option<Content>
        requires { number < 65536 }
        ensures { (F : Formula) → IsPlace number F place.now → result ≡ content_at self.now.ended.keys number F stated }
    {
        match stated {
            Stated::Word(word) => flag_at(place, word),
            Stated::Dead => match place {
                Place::Ind(_, _) => Some(Content::Dead),
                _ => None,
            },
            Stated::Space(key) => match place {
                Place::Ind(_, _) => Some(Content::Space(key)),
                _ => None,
            },
            Stated::Pair(first, second) => self.pair_at(number, place, first, second),
            Stated::Set(numbers) => self.set_at(number, place, numbers),
            Stated::One(apart, numbers) => self.one_at(number, place, apart, numbers),
        }
    }

    fn pair_at(&self, number: u32, place: &Place, first: u32, second: u32) -> Option<Content>
        requires { number < 65536 }
        ensures { (F : Formula) → IsPlace number F place.now → result ≡ content_at self.now.ended.keys number F (stated.Pair first second) }
    {
        match place {
            Place::Pair(part) => {
                if self.is_value(number + 1, first) && self.is_value(*part, second) {
                    return Some(Content::Parts(first, second));
                }
                None
            }
            _ => None,
        }
    }

    fn set_at(&self, number: u32, place: &Place, numbers: Numbers) -> Option<Content>
        requires { number < 65536 }
        ensures { (F : Formula) → IsPlace number F place.now → result ≡ content_at self.now.ended.keys number F (stated.Set numbers) }
    {
        match place {
            Place::Set(_) => {
                if self.are_members(number + 1, numbers.as_slice()) {
                    return Some(Content::SetOf(numbers));
                }
                None
            }
            _ => None,
        }
    }

    fn one_at(&self, number: u32, place: &Place, apart: u32, numbers: Numbers) -> Option<Content>
        requires { number < 65536 }
        ensures { (F : Formula) → IsPlace number F place.now → result ≡ content_at self.now.ended.keys number F (stated.One apart numbers) }
    {
        match place {
            Place::One(_) => {
                if self.is_value(number + 1, apart)
                    && self.are_members(number + 1, numbers.as_slice())
                {
                    return Some(Content::OneOf(apart, numbers));
                }
                None
            }
            _ => None,
        }
    }

    /// More members of the last value. False where it gets none, or these are none of it.
    pub(crate) fn more(&mut self, more: &Numbers) -> Result<bool, NoMemory>
        requires { IfSome self.old.unended (λ v. v.place < 65536) }
        ensures ended { self.new.ended ≡ self.old.ended }
        ensures sizes { self.new.sizes ≡ self.old.sizes }
        ensures members { IfOk result (λ good. HasMore self.old.ended.keys more.now self.old.unended good self.new.unended) }
    {
        match self.unended.take() {
            None => Ok(false),
            Some(valued) => self.extend(valued, more),
        }
    }

    fn extend(&mut self, valued: Valued, more: &Numbers) -> Result<bool, NoMemory>
        requires { valued.place < 65536 }
        ensures ended { self.new.ended ≡ self.old.ended }
        ensures sizes { self.new.sizes ≡ self.old.sizes }
        ensures members { IfOk result (λ good. HasMore self.old.ended.keys more.now (Some valued) good self.new.unended) }
    {
        let place = valued.place;
        match valued.content {
            Content::SetOf(mut numbers) => {
                append(&mut numbers, more)?;
                let good = self.are_members(place + 1, numbers.as_slice());
                let content = Content::SetOf(numbers);
                self.unended = Some(Valued { place, content });
                Ok(good)
            }
            Content::OneOf(apart, mut numbers) => {
                append(&mut numbers, more)?;
                let good = self.are_members(place + 1, numbers.as_slice());
                let content = Content::OneOf(apart, numbers);
                self.unended = Some(Valued { place, content });
                Ok(good)
            }
            _ => Ok(false),
        }
    }
}

// Each number is below the next.
fn is_rising(numbers: &[u32]) -> bool
    ensures { result ≡ is_rising numbers.now }
{
    for i in 1..numbers.len() {
        if numbers[i - 1] >= numbers[i] {
            return false;
        }
    }
    true
}

fn append(numbers: &mut Numbers, more: &Numbers) -> Result<(), NoMemory>
    ensures { OnOk result (numbers.new ≡ numbers.old ++ more.now) }
{
    for n in more.as_slice() {
        numbers.add(*n)?;
    }
    Ok(())
}

// The flag that a word stands for at a place.
fn flag_at(place: &Place, word: AtomWord) -> Option<Content>
    ensures { (p : ℕ) (F : Formula) → IsPlace p F place.now → result ≡ flag_content (flag_at F word) }
{
    let flag = match (place, word) {
        (Place::Const, AtomWord::Unit) => 0,
        (Place::Member(_, _), AtomWord::Unseen) => 0,
        (Place::Member(_, _), AtomWord::Yes) => 1,
        (Place::Member(_, _), AtomWord::No) => 2,
        (Place::SameElem(_, _), AtomWord::Neither) => 0,
        (Place::SameElem(_, _), AtomWord::OnlyX) => 1,
        (Place::SameElem(_, _), AtomWord::OnlyY) => 2,
        (Place::SameElem(_, _), AtomWord::Same) => 3,
        (Place::SameElem(_, _), AtomWord::Diff) => 4,
        (Place::Sub(_, _), AtomWord::Holds) => 0,
        (Place::Sub(_, _), AtomWord::Fails) => 1,
        (Place::SameSet(_, _), AtomWord::Holds) => 0,
        (Place::SameSet(_, _), AtomWord::Fails) => 1,
        _ => return None,
    };
    Some(Content::Flag(flag))
}
