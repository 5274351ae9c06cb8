//! The axioms that a study may list.

ghost use Rattle.std.specs.Prelude.{◌≡◌, ◌<◌, ◌++◌, length, option_map, slice_get, Some, OnOk};
ghost use Rattle.meaning.specs.Texts.{kind_text};
ghost use Rattle.axiom_library.specs.Library.{library};
ghost use Rattle.toml.specs.Data.{get_member};
ghost use Rattle.toml.specs.View.{view, table_view};
ghost use Rattle.study.specs.Document.{document_kind};
ghost use Rattle.study_hints.specs.Values.{document_lines, keys_in, library_line, library_names, name_text, own_line, own_names};

use axiom_library::{count, name_at};
use edge::Bytes;
use lists::NoMemory;
use toml::{Table, Value};
use vocab::Kind;

/// The value at a key.
fn value_at<'a>(table: &'a Table, key: &str) -> Option<&'a Value>
    ensures { option_map (λ value. view value.now) result ≡ get_member key.now (table_view table.now) }
{
    table.get(key)
}

/// The kind of a rule.
fn document_kind(value: Option<&Value>) -> Option<Kind>
    ensures { result ≡ document_kind (option_map (λ value. view value.now) value.entry) }
{
    match value {
        Some(Value::String(text)) if text.as_str() == "choice" => Some(Kind::Choice),
        Some(Value::String(text)) if text.as_str() == "ranking" => Some(Kind::Ranking),
        Some(Value::String(text)) if text.as_str() == "sets" => Some(Kind::Sets),
        _ => None,
    }
}

/// The word of a kind.
fn kind_word(kind: Kind) -> &'static [u8]
    ensures { result.now ≡ kind_text kind }
{
    match kind {
        Kind::Choice => b"choice",
        Kind::Ranking => b"ranking",
        Kind::Sets => b"sets",
    }
}

/// Adds the name of the axiom at a place of the library, after a blank.
fn put_name(out: &mut Bytes, kind: Kind, place: u32) -> Result<(), NoMemory>
    requires { place < length (library kind) }
    ensures { OnOk result (out.new ≡ out.old ++ name_text (slice_get (library kind) place)) }
{
    let name = name_at(kind, place).unwrap();
    out.append(b" ")?;
    out.append(name.bytes())?;
    Ok(())
}

/// Adds the names of the library of a kind.
fn put_library(out: &mut Bytes, kind: Kind) -> Result<(), NoMemory>
    ensures { OnOk result (out.new ≡ out.old ++ library_names kind) }
{
    for place in 0..count(kind) {
        put_name(out, kind, place)?;
    }
    Ok(())
}

/// Adds the library of a kind.
fn put_axioms(out: &mut Bytes, kind: Kind) -> Result<(), NoMemory>
    ensures { OnOk result (out.new ≡ out.old ++ library_line (Some kind)) }
{
    out.append(b"help axioms of ")?;
    out.append(kind_word(kind))?;
    out.append(b":")?;
    put_library(out, kind)?;
    out.append(b"\n")?;
    Ok(())
}

/// Adds the library of the kind, if there is one.
fn put_library_line(out: &mut Bytes, kind: Option<Kind>) -> Result<(), NoMemory>
    ensures { OnOk result (out.new ≡ out.old ++ library_line kind) }
{
    match kind {
        Some(kind) => put_axioms(out, kind),
        None => Ok(()),
    }
}

/// Adds the keys of a table.
fn put_keys(out: &mut Bytes, table: &Table) -> Result<(), NoMemory>
    ensures { OnOk result (out.new ≡ out.old ++ keys_in (table_view table.now)) }
{
    'members: for (key, _value) in table.iter() {
        out.append(b" ")?;
        out.append(key.as_str().as_bytes())?;
    }
    Ok(())
}

/// Adds the sentences of a table.
fn put_own(out: &mut Bytes, table: &Table) -> Result<(), NoMemory>
    ensures { OnOk result (out.new ≡ out.old ++ own_names (table_view table.now)) }
{
    out.append(b"help sentences of the study:")?;
    put_keys(out, table)?;
    out.append(b"\n")?;
    Ok(())
}

/// Adds the study's own sentences, where there is a table of them.
fn put_own_line(out: &mut Bytes, value: Option<&Value>) -> Result<(), NoMemory>
    ensures { OnOk result (out.new ≡ out.old ++ own_line (option_map (λ value. view value.now) value.entry)) }
{
    match value {
        Some(Value::Table(table)) => put_own(out, table),
        _ => Ok(()),
    }
}

/// Adds the axioms that a document may list.
pub(crate) fn put_document(out: &mut Bytes, table: &Table) -> Result<(), NoMemory>
    ensures { OnOk result (out.new ≡ out.old ++ document_lines (table_view table.now)) }
{
    put_library_line(out, document_kind(value_at(table, "kind")))?;
    put_own_line(out, value_at(table, "sentences"))?;
    Ok(())
}
