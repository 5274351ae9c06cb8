//! Studies by their numbers.

ghost use Rattle.std.specs.Prelude.{◌≡◌, ◌+◌, ◌/◌, ◌%◌, ◌<◌, get_or, length, IfOk};
ghost use Rattle.vocab.specs.Size.{full_size};
ghost use Rattle.samples.specs.Sample.{sample_kind, sample_entries, entries_by, sample_listing, IsSampleStudy};

use axiom_library::{name_at, text_at};
use lists::NoMemory;
use std::alloc::Global;
use study::{Entries, Entry, Listing, StudyFault, answer_of, copied};
use vocab::{Kind, Size, Study};

/// The kind of a number: its rules choose an alternative if it is even, and rank them if it is odd.
fn sample_kind(number: u32) -> Kind
    ensures { result ≡ sample_kind number }
{
    if number % 2 == 0 {
        Kind::Choice
    } else {
        Kind::Ranking
    }
}

/// The size of a number: two or three voters, and three alternatives.
fn sample_size(number: u32) -> Size
    ensures { result ≡ full_size (sample_kind number) (2 + number / 2 % 2) 3 }
{
    let voters = 2 + number / 2 % 2;
    Size::check(sample_kind(number), i64::from(voters), 3).unwrap()
}

/// How many axioms numbers choose among: the first of the library of a kind.
#[tactic(auto, unfolding(axiom_library::specs::Library::choice, axiom_library::specs::Library::ranking))]
fn sample_count(kind: Kind) -> u32
    ensures { result ≡ length (sample_entries kind) }
{
    match kind {
        Kind::Choice => 9,
        Kind::Ranking => 5,
        Kind::Sets => 0,
    }
}

/// The axiom at a place of the library, with its text.
fn entry_at(alloc: Global, kind: Kind, place: u32) -> Result<Entry, NoMemory>
    requires { place < length (sample_entries kind) }
    ensures { IfOk result (λ e. e ≡ get_or (sample_entries kind) place e) }
{
    let name = name_at(kind, place).unwrap();
    let text = copied(alloc, text_at(kind, place).unwrap())?;
    Ok(Entry::new(name, text))
}

/// The axioms of those places at which the number has a digit that is 1, the lowest digit being that of place
/// 0.
fn entries_by(alloc: Global, digits: u32, kind: Kind) -> Result<Entries, NoMemory>
    ensures { IfOk result (λ entries. entries ≡ entries_by digits (sample_entries kind)) }
{
    let mut entries = Entries::new(alloc);
    let mut left = digits;
    for place in 0..sample_count(kind) {
        if left % 2 == 1 {
            entries.push(entry_at(alloc, kind, place)?)?;
        }
        left /= 2;
    }
    Ok(entries)
}

/// What a number lists.
fn sample_listing(alloc: Global, number: u32) -> Result<Listing, NoMemory>
    ensures { IfOk result (λ listing. listing ≡ sample_listing number) }
{
    Ok(Listing {
        size: sample_size(number),
        conflicts: 20_000,
        axioms: entries_by(alloc, number / 4, sample_kind(number))?,
    })
}

/// The study of a number from 0 to 4,294,967,295, or want of memory; there is no other error. Digits are
/// binary, the lowest being digit 0.
///
/// | Digits | Meaning |
/// |---|---|
/// | 0 | 0: rules that choose an alternative; 1: rules that rank them |
/// | 1 | 0: two voters; 1: three |
/// | 2 and higher | 1: the axiom of this place is listed, digit 2 standing for the first axiom of the library for the kind |
///
/// The places are the first nine of the library of rules that choose, and the first five of that of rules
/// that rank; higher digits mean nothing, and no number has `participation`
/// (`laws::samples_lack_participation`). There are three alternatives, each ranking of them may be cast, no
/// voter is absent, and a search may learn at most 20,000 clauses. Each number has exactly one study
/// (`laws::samples_are_studies`).
pub fn sample(alloc: Global, number: u32) -> Result<Study, NoMemory>
    ensures { IfOk result (λ study. IsSampleStudy number study) }
{
    let listing = sample_listing(alloc, number)?;
    match answer_of(alloc, &listing) {
        Ok(study) => Ok(study),
        Err(StudyFault::NoMemory) => Err(NoMemory),
        Err(_) => unreachable!(),
    }
}
