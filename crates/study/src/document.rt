//! What the values of a TOML document say of a study. All that touches a value of `toml` stands here.

ghost use Rattle.std.specs.Option.{ok_or};
ghost use Rattle.std.specs.Prelude.{◌≡◌, ◌≢◌, IfOk, codes, option_map, string_bytes};
ghost use Rattle.toml.specs.Data.{get_member};
ghost use Rattle.toml.specs.View.{view, items_view, table_view};
ghost use Rattle.study.specs.Document.{document_kind, integer_of, absent_of, conflicts_of, texts_in, ballots_of, axioms_of, own_sentence, sentences_in, sentences_of, is_key, known_keys, head_of, draft_of};
ghost use Rattle.study.specs.Refusing.{refused_as, Gives};
ghost use Rattle.study.specs.Steps.{last_of};

use crate::drafts::{Draft, Head};
use crate::entries::{Entries, Entry, Texts, copied};
use crate::faults::StudyFault;
use lists::NoMemory;
use std::alloc::Global;
use toml::{Table, Value};
use vocab::{Kind, Name};

/// The fault of a key.
fn key_fault(alloc: Global, key: &str) -> StudyFault
    ensures { result ≢ StudyFault.NoMemory → result ≡ StudyFault.Key key.now }
{
    match copied(alloc, key.as_bytes()) {
        Ok(text) => StudyFault::Key(text),
        Err(NoMemory) => StudyFault::NoMemory,
    }
}

/// The value at a key.
fn value_at<'a>(table: &'a Table, key: &str) -> Option<&'a Value>
    ensures { option_map (λ value. view value.now) result ≡ get_member key.now (table_view table.now) }
{
    table.get(key)
}

/// The kind of a rule.
fn document_kind(value: Option<&Value>) -> Option<Kind>
    ensures { result ≡ document_kind (option_map (λ value. view value.now) value.entry) }
{
    match value {
        Some(Value::String(text)) if text.as_str() == "choice" => Some(Kind::Choice),
        Some(Value::String(text)) if text.as_str() == "ranking" => Some(Kind::Ranking),
        Some(Value::String(text)) if text.as_str() == "sets" => Some(Kind::Sets),
        _ => None,
    }
}

/// A number of voters or of alternatives.
fn integer_of(value: Option<&Value>) -> Option<i64>
    ensures { result ≡ integer_of (option_map (λ value. view value.now) value.entry) }
{
    match value {
        Some(Value::Integer(number)) => Some(*number),
        _ => None,
    }
}

/// Whether voters may be absent.
fn absent_of(value: Option<&Value>) -> Option<bool>
    ensures { result ≡ absent_of (option_map (λ value. view value.now) value.entry) }
{
    match value {
        None => Some(false),
        Some(Value::Boolean(absent)) => Some(*absent),
        _ => None,
    }
}

/// The most clauses that a search may learn.
fn conflicts_of(value: Option<&Value>) -> Option<i64>
    ensures { result ≡ conflicts_of (option_map (λ value. view value.now) value.entry) }
{
    match value {
        None => Some(100_000),
        Some(Value::Integer(number)) => Some(*number),
        _ => None,
    }
}

/// The texts that the values are, if each is a string.
#[tactic(auto, using(crate::proofs::Collected::texts_all))]
fn texts_in(alloc: Global, values: &[Value]) -> Result<Option<Texts>, NoMemory>
    ensures { IfOk result (λ found. found ≡ texts_in (items_view values.now)) }
{
    let mut texts = Texts::new(alloc);
    for value in values {
        let Value::String(text) = value else {
            return Ok(None);
        };
        texts.push(copied(alloc, text.as_bytes())?)?;
    }
    Ok(Some(texts))
}

/// The texts of the ballots, which may be missing.
fn ballots_of(alloc: Global, value: Option<&Value>) -> Result<Option<Texts>, StudyFault>
    ensures { Gives
        (refused_as StudyFault.Key (ballots_of (option_map (λ value. view value.now) value.entry))) result }
{
    match value {
        None => Ok(None),
        Some(Value::Array(values)) => match texts_in(alloc, values)? {
            Some(texts) => Ok(Some(texts)),
            None => Err(key_fault(alloc, "ballots")),
        },
        Some(_) => Err(key_fault(alloc, "ballots")),
    }
}

/// The kind, the numbers, the ballots and the word on absence of a study.
#[tactic(auto, unfolding(crate::specs::Document::head_of))]
fn head_of(alloc: Global, table: &Table) -> Result<Head, StudyFault>
    ensures { Gives (refused_as StudyFault.Key (head_of (table_view table.now))) result }
{
    let Some(kind) = document_kind(value_at(table, "kind")) else {
        return Err(key_fault(alloc, "kind"));
    };
    let Some(voters) = integer_of(value_at(table, "voters")) else {
        return Err(key_fault(alloc, "voters"));
    };
    let Some(alternatives) = integer_of(value_at(table, "alternatives")) else {
        return Err(key_fault(alloc, "alternatives"));
    };
    let ballots = ballots_of(alloc, value_at(table, "ballots"))?;
    let Some(absent) = absent_of(value_at(table, "absent")) else {
        return Err(key_fault(alloc, "absent"));
    };
    let Some(conflicts) = conflicts_of(value_at(table, "conflicts")) else {
        return Err(key_fault(alloc, "conflicts"));
    };
    Ok(Head {
        kind,
        voters,
        alternatives,
        ballots,
        absent,
        conflicts,
    })
}

/// The names of the axioms.
fn axioms_of(alloc: Global, value: Option<&Value>) -> Result<Texts, StudyFault>
    ensures { Gives (refused_as StudyFault.Key
        (ok_or (axioms_of (option_map (λ value. view value.now) value.entry)) (codes "axioms"))) result }
{
    match value {
        Some(Value::Array(values)) => match texts_in(alloc, values)? {
            Some(texts) => Ok(texts),
            None => Err(key_fault(alloc, "axioms")),
        },
        _ => Err(key_fault(alloc, "axioms")),
    }
}

/// A sentence of the study's own.
fn own_sentence(alloc: Global, key: &str, value: &Value) -> Result<Entry, StudyFault>
    ensures { Gives (refused_as StudyFault.Key (own_sentence key.now (view value.now))) result }
{
    let Value::String(text) = value else {
        return Err(key_fault(alloc, key));
    };
    let Some(name) = Name::new(key.as_bytes()) else {
        return Err(key_fault(alloc, key));
    };
    Ok(Entry::new(name, copied(alloc, text.as_bytes())?))
}

/// The study's own sentences.
#[tactic(auto, using(crate::proofs::Collected::sentences_all))]
fn sentences_in(alloc: Global, table: &Table) -> Result<Entries, StudyFault>
    ensures { Gives (refused_as StudyFault.Key (sentences_in (table_view table.now))) result }
{
    let mut sentences = Entries::new(alloc);
    'members: for (key, value) in table.iter() {
        let sentence = own_sentence(alloc, key.as_str(), value)?;
        sentences.push(sentence)?;
    }
    Ok(sentences)
}

/// The study's own sentences, which may be missing.
fn sentences_of(alloc: Global, value: Option<&Value>) -> Result<Entries, StudyFault>
    ensures { Gives
        (refused_as StudyFault.Key (sentences_of (option_map (λ value. view value.now) value.entry))) result }
{
    match value {
        None => Ok(Entries::new(alloc)),
        Some(Value::Table(table)) => sentences_in(alloc, table),
        Some(_) => Err(key_fault(alloc, "sentences")),
    }
}

fn is_key(key: &str) -> bool
    ensures { result ≡ is_key key.now }
{
    matches!(
        key,
        "kind"
            | "voters"
            | "alternatives"
            | "ballots"
            | "absent"
            | "conflicts"
            | "axioms"
            | "sentences"
    )
}

/// Refuses a key that no study has.
fn known_keys(alloc: Global, table: &Table) -> Result<(), StudyFault>
    ensures { Gives (refused_as StudyFault.Key (known_keys (table_view table.now))) result }
{
    'members: for (key, _value) in table.iter() {
        if !is_key(key.as_str()) {
            return Err(key_fault(alloc, key.as_str()));
        }
    }
    Ok(())
}

/// The study's own sentences, in a document without a key that no study has.
fn last_of(alloc: Global, table: &Table) -> Result<Entries, StudyFault>
    ensures { Gives (refused_as StudyFault.Key (last_of (table_view table.now))) result }
{
    let sentences = sentences_of(alloc, value_at(table, "sentences"))?;
    match known_keys(alloc, table) {
        Ok(()) => Ok(sentences),
        Err(fault) => Err(fault),
    }
}

/// All that a document says of a study.
pub(crate) fn draft_of(alloc: Global, table: &Table) -> Result<Draft, StudyFault>
    ensures { Gives (refused_as StudyFault.Key (draft_of (table_view table.now))) result }
{
    let head = match head_of(alloc, table) {
        Ok(head) => head,
        Err(fault) => return Err(fault),
    };
    let axioms = match axioms_of(alloc, value_at(table, "axioms")) {
        Ok(axioms) => axioms,
        Err(fault) => return Err(fault),
    };
    match last_of(alloc, table) {
        Ok(sentences) => Ok(Draft {
            head,
            axioms,
            sentences,
        }),
        Err(fault) => Err(fault),
    }
}
