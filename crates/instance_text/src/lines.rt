//! The lines of an instance.

ghost use Rattle.std.specs.Prelude.{◌≡◌, ◌+◌, ◌<◌, [], ◌∷◌, ◌++◌, drop, length, map, nat_lt, slice_get, IfOk, OnOk, Some, IsTrue};
ghost use Rattle.std.specs.Cmp.Lexicographic.{pointwise};
ghost use Rattle.vocab.specs.Formula.{prefix_of};
ghost use Rattle.vocab.specs.Size.{sort_count};
ghost use Rattle.vocab.specs.Tree.{tree_of};
ghost use Rattle.meaning.specs.declared.stories.Reason.TheVariants.{Axiom as ByAxiom};
ghost use Rattle.verdicts.specs.Lines.{value_words};
ghost use Rattle.verdicts.specs.Numbers.{number_text};
ghost use Rattle.verdicts.specs.Texts.{value_text};
ghost use Rattle.report_text.specs.Pieces.{reason_text, spaced};
ghost use Rattle.instance_text.specs.Said.{body_line, told_instance, value_line, value_lines};

use crate::formulas::put_formula;
use crate::pieces::{put_number, put_variable, sort_word};
use crate::terms::Around;
use edge::Bytes;
use lists::{Items, NoMemory};
use profiles::Space;
use profiles::laws::spaces_have_sizes;
use std::alloc::Global;
use vocab::{Axiom, Env, Formula, Sort, Study};

/// Adds the number of a voter, counted from 1.
fn put_voter(out: &mut Bytes, i: u32) -> Result<(), NoMemory>
    ensures { OnOk result (out.new ≡ out.old ++ number_text (i + 1)) }
{
    put_number(out, u64::from(i) + 1)
}

/// Adds the letter of an alternative.
fn put_letter(out: &mut Bytes, x: u32) -> Result<(), NoMemory>
    requires { x < 8 }
    ensures { OnOk result (out.new ≡ out.old ++ (97 + x) ∷ []) }
{
    out.push(b'a' + x as u8)
}

/// Adds a value of a sort, as a reason writes it.
fn put_value(out: &mut Bytes, space: &Space, sort: Sort, value: u32) -> Result<(), NoMemory>
    requires { value < sort_count space.now sort }
    ensures { OnOk result (out.new ≡ out.old ++ value_text space.now sort value) }
{
    spaces_have_sizes(space);
    match sort {
        Sort::Voter => put_voter(out, value),
        Sort::Alt => put_letter(out, value),
        Sort::Ballot => out.append(space.ballot_text(value).bytes()),
        Sort::Profile => out.append(space.profile_text(value).bytes()),
    }
}

/// Adds a value with a blank before it.
fn put_word(out: &mut Bytes, space: &Space, sort: Sort, value: u32) -> Result<(), NoMemory>
    requires { value < sort_count space.now sort }
    ensures { OnOk result (out.new ≡ out.old ++ 32 ∷ value_text space.now sort value) }
{
    out.append(b" ")?;
    put_value(out, space, sort, value)?;
    Ok(())
}

/// Adds the values of the leading universals of a formula from a level on, each with a blank before it.
fn put_words(
    out: &mut Bytes,
    study: &Study,
    space: &Space,
    given: &Formula,
    values: &Env,
    level: u8,
) -> Result<(), NoMemory>
    requires size { study.now.size ≡ space.now }
    requires within { IsTrue (pointwise nat_lt (drop level values.now)
        (map (sort_count study.now.size) (prefix_of (tree_of given.now)))) }
    ensures { OnOk result (out.new ≡ out.old ++
        spaced (value_words study.now (prefix_of (tree_of given.now)) (drop level values.now))) }
{
    if level >= values.len() {
        return Ok(());
    }
    match given {
        Formula::All(sort, inner) => {
            put_word(out, space, *sort, values.get(level))?;
            put_words(out, study, space, inner, values, level + 1)
        }
        _ => Ok(()),
    }
}

/// Adds the line of a value.
fn put_value_line(
    out: &mut Bytes,
    space: &Space,
    sort: Sort,
    place: u64,
    value: u32,
) -> Result<(), NoMemory>
    requires { value < sort_count space.now sort }
    ensures { OnOk result (out.new ≡ out.old ++ value_line space.now sort place value) }
{
    put_variable(out, sort, place)?;
    out.append(b" ")?;
    out.append(sort_word(sort))?;
    out.append(b" ")?;
    put_value(out, space, sort, value)?;
    out.append(b"\n")?;
    Ok(())
}

/// Adds the lines of the values of the leading universals of a formula from a level on.
fn put_value_lines(
    out: &mut Bytes,
    space: &Space,
    given: &Formula,
    values: &Env,
    level: u8,
) -> Result<(), NoMemory>
    requires within { IsTrue (pointwise nat_lt (drop level values.now)
        (map (sort_count space.now) (prefix_of (tree_of given.now)))) }
    ensures { OnOk result (out.new ≡ out.old ++
        value_lines space.now (level + 1) (prefix_of (tree_of given.now)) (drop level values.now)) }
{
    if level >= values.len() {
        return Ok(());
    }
    match given {
        Formula::All(sort, inner) => {
            put_value_line(out, space, *sort, u64::from(level) + 1, values.get(level))?;
            put_value_lines(out, space, inner, values, level + 1)
        }
        _ => Ok(()),
    }
}

/// Adds the sorts of the leading universals of a formula.
fn put_sorts(sorts: &mut Items<Sort>, given: &Formula) -> Result<(), NoMemory>
    ensures { OnOk result (sorts.new ≡ sorts.old ++ prefix_of (tree_of given.now)) }
{
    match given {
        Formula::All(sort, inner) => {
            sorts.push(*sort)?;
            put_sorts(sorts, inner)
        }
        _ => Ok(()),
    }
}

/// The sorts of the leading universals of a formula.
fn sorts_of(alloc: Global, given: &Formula) -> Result<Items<Sort>, NoMemory>
    ensures { IfOk result (λ sorts. sorts ≡ prefix_of (tree_of given.now)) }
{
    let mut sorts = Items::new(alloc);
    put_sorts(&mut sorts, given)?;
    Ok(sorts)
}

/// Adds the line of the body of an axiom at some values.
fn put_body(
    alloc: Global,
    out: &mut Bytes,
    space: &Space,
    named: &Axiom,
    values: &Env,
) -> Result<(), NoMemory>
    ensures { OnOk result (out.new ≡ out.old ++ body_line space.now named.now values.now) }
{
    let sorts = sorts_of(alloc, named.sentence())?;
    let around = Around {
        space,
        values,
        sorts: sorts.as_slice(),
    };
    out.append(b"body ")?;
    put_formula(alloc, out, &around, named.sentence().body())?;
    out.append(b"\n")?;
    Ok(())
}

/// Adds an instance of the axiom at a place, as a reason cites it.
fn put_reason(
    out: &mut Bytes,
    study: &Study,
    space: &Space,
    place: usize,
    named: &Axiom,
    values: &Env,
) -> Result<(), NoMemory>
    requires size { study.now.size ≡ space.now }
    requires place { slice_get study.now.axioms place ≡ Some named.now }
    requires within { IsTrue (pointwise nat_lt values.now
        (map (sort_count study.now.size) (prefix_of named.now.sentence))) }
    ensures { OnOk result (out.new ≡ out.old ++ reason_text study.now (ByAxiom place values.now)) }
{
    let _place = place;
    let name = named.name();
    out.append(b"axiom ")?;
    out.append(name.bytes())?;
    put_words(out, study, space, named.sentence(), values, 0)?;
    Ok(())
}

/// Adds all lines of an instance of the axiom at a place, at some values.
pub(crate) fn put_told(
    alloc: Global,
    out: &mut Bytes,
    study: &Study,
    space: &Space,
    place: usize,
    named: &Axiom,
    values: &Env,
) -> Result<(), NoMemory>
    requires size { study.now.size ≡ space.now }
    requires place { slice_get study.now.axioms place ≡ Some named.now }
    requires within { IsTrue (pointwise nat_lt values.now
        (map (sort_count study.now.size) (prefix_of named.now.sentence))) }
    ensures { OnOk result (out.new ≡ out.old ++ told_instance study.now place named.now values.now) }
{
    put_reason(out, study, space, place, named, values)?;
    out.append(b"\n")?;
    put_value_lines(out, space, named.sentence(), values, 0)?;
    put_body(alloc, out, space, named, values)?;
    Ok(())
}
