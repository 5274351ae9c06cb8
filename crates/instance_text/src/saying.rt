//! What is said of the instance of a number.

ghost use Rattle.std.specs.Prelude.{◌≡◌, ◌<◌, length, slice_get, IfOk, Some};
ghost use Rattle.vocab.specs.Limits.{instance_count};
ghost use Rattle.meaning.specs.Instances.{instance_values};
ghost use Rattle.instance_text.specs.Said.{axiom_place, few_line, has_numbered_instance, is_there, is_there_at, no_axiom_line, said, said_at, said_of_instance, told_instance};

use crate::lines::put_told;
use crate::pieces::put_number;
use edge::Bytes;
use lanes::values_of;
use lists::NoMemory;
use meaning::laws::numbers_are_digits;
use outcomes::OutcomeKind;
use std::alloc::Global;
use vocab::{Axiom, Study};
use worlds::instance_count;

/// What is said of an instance.
#[derive(Drop)]
pub struct Said {
    /// Whether the study has an axiom of the name with an instance of the number.
    pub there: bool,
    /// The instance in lines, or a line that says why there is none.
    pub text: Bytes,
}

/// The place of the axiom of a name.
fn axiom_place(study: &Study, name: &[u8]) -> Option<usize>
    ensures { result ≡ axiom_place study.now.axioms name.now }
{
    study
        .axioms()
        .as_slice()
        .iter()
        .position(|named| named.name().bytes() == name)
}

/// The line that refuses a name.
fn refuse_name(alloc: Global, name: &[u8]) -> Result<Bytes, NoMemory>
    ensures { IfOk result (λ text. text ≡ no_axiom_line name.now) }
{
    let mut text = Bytes::new(alloc);
    text.append(b"instance: no axiom ")?;
    text.append(name)?;
    text.append(b"\n")?;
    Ok(text)
}

/// The line that refuses a number, where there are so many instances.
fn refuse_number(alloc: Global, study: &Study, named: &Axiom, count: u64) -> Result<Bytes, NoMemory>
    requires { count ≡ instance_count study.now.size named.now.sentence }
    ensures { IfOk result (λ text. text ≡ few_line study.now named.now) }
{
    let _study = study;
    let name = named.name();
    let mut text = Bytes::new(alloc);
    text.append(b"instance: ")?;
    text.append(name.bytes())?;
    text.append(b" has ")?;
    put_number(&mut text, count)?;
    text.append(b" instances, numbered from 0\n")?;
    Ok(text)
}

/// The lines of an instance of the axiom at a place.
fn tell<K: OutcomeKind>(
    alloc: Global,
    kind: &K,
    study: &Study,
    place: usize,
    named: &Axiom,
    number: u64,
) -> Result<Bytes, NoMemory>
    requires size { study.now.size ≡ K.size kind.now }
    requires place { slice_get study.now.axioms place ≡ Some named.now }
    requires within { number < instance_count study.now.size named.now.sentence }
    ensures { IfOk result (λ text. text ≡
        told_instance study.now place named.now (instance_values study.now.size named.now.sentence number)) }
{
    let _axioms = study.axioms();
    numbers_are_digits();
    let values = values_of(kind, named, number);
    let mut text = Bytes::new(alloc);
    put_told(alloc, &mut text, study, kind.space(), place, named, &values)?;
    Ok(text)
}

/// What is said of the instance of a number of an axiom, where there are so many.
fn say_of<K: OutcomeKind>(
    alloc: Global,
    kind: &K,
    study: &Study,
    place: usize,
    named: &Axiom,
    number: u64,
    count: u64,
) -> Result<Said, NoMemory>
    requires size { study.now.size ≡ K.size kind.now }
    requires place { slice_get study.now.axioms place ≡ Some named.now }
    requires count { count ≡ instance_count study.now.size named.now.sentence }
    ensures there { IfOk result (λ s. s.there ≡ has_numbered_instance study.now number named.now) }
    ensures text { IfOk result (λ s. s.text ≡ said_of_instance study.now number place named.now) }
{
    if number < count {
        let text = tell(alloc, kind, study, place, named, number)?;
        return Ok(Said { there: true, text });
    }
    let line = refuse_number(alloc, study, named, count)?;
    Ok(Said {
        there: false,
        text: line,
    })
}

/// How many instances the axiom at a place has.
fn count_of<K: OutcomeKind>(kind: &K, study: &Study, place: usize, named: &Axiom) -> u64
    requires size { study.now.size ≡ K.size kind.now }
    requires place { slice_get study.now.axioms place ≡ Some named.now }
    ensures { result ≡ instance_count study.now.size named.now.sentence }
{
    let _axioms = study.axioms();
    let _place = place;
    instance_count(kind.space(), named.sentence())
}

/// What is said of the instance of a number of the axiom of a name, which stands at a place.
fn say_at<K: OutcomeKind>(
    alloc: Global,
    kind: &K,
    study: &Study,
    name: &[u8],
    place: usize,
    number: u64,
) -> Result<Said, NoMemory>
    requires size { study.now.size ≡ K.size kind.now }
    requires place { place < length study.now.axioms }
    ensures there { IfOk result (λ s. s.there ≡ is_there_at study.now number (Some place)) }
    ensures text { IfOk result (λ s. s.text ≡ said_at study.now name.now number (Some place)) }
{
    let _name = name;
    let named = study.axioms().get(place);
    let count = count_of(kind, study, place, named);
    let said = say_of(alloc, kind, study, place, named, number, count)?;
    Ok(said)
}

/// What is said of the instance of a number of the axiom of a name, over a study beside its kind. Instances are
/// numbered from 0. The only error is want of memory; what is given is whole.
pub fn say_instance<K: OutcomeKind>(
    alloc: Global,
    kind: &K,
    study: &Study,
    name: &str,
    number: u32,
) -> Result<Said, NoMemory>
    requires { study.now.size ≡ K.size kind.now }
    ensures there { IfOk result (λ s. s.there ≡ is_there study.now name.now number) }
    ensures text { IfOk result (λ s. s.text ≡ said study.now name.now number) }
{
    match axiom_place(study, name.as_bytes()) {
        Some(place) => say_at(
            alloc,
            kind,
            study,
            name.as_bytes(),
            place,
            u64::from(number),
        ),
        None => {
            let text = refuse_name(alloc, name.as_bytes())?;
            Ok(Said { there: false, text })
        }
    }
}
