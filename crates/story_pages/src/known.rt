//! What is known at a profile at the end of a lemma.

ghost use Rattle.std.specs.Prelude.{◌≡◌, ◌++◌, OnOk};
ghost use Rattle.std.specs.List.{flat_map};
ghost use Rattle.story_pages.specs.Known.{fact_mark, small_number, grey_mark, grey_numbered_mark, supposed_mark, forced_mark, numbered_mark, stated_mark, known_html};

use html::{Cells, Html, letter_of, profile_of, put_number};
use lists::NoMemory;
use tellings::Placed;
use vocab::Literal;

/// Adds a fact in a cell: x wins, x does not win, or x stands above y.
fn put_fact_mark(out: &mut Html, literal: &Literal) -> Result<(), NoMemory>
    ensures { OnOk result (out.new ≡ out.old ++ fact_mark literal.now) }
{
    match *literal {
        Literal::Wins(x, _) => {
            out.push(letter_of(x))?;
            Ok(())
        }
        Literal::Loses(x, _) => {
            out.append(b"<s>")?;
            out.push(letter_of(x))?;
            out.append(b"</s>")?;
            Ok(())
        }
        Literal::Above(x, y, _) => {
            out.push(letter_of(x))?;
            out.push(letter_of(y))?;
            Ok(())
        }
    }
}

/// Adds a supposition.
fn put_grey(out: &mut Html, literal: &Literal) -> Result<(), NoMemory>
    ensures { OnOk result (out.new ≡ out.old ++ grey_mark literal.now) }
{
    out.append(b"<u>")?;
    put_fact_mark(out, literal)?;
    out.append(b"</u> ")?;
    Ok(())
}

/// Adds a supposition in the cell of a profile.
fn put_supposed(out: &mut Html, p: u32, literal: &Literal) -> Result<(), NoMemory>
    ensures { OnOk result (out.new ≡ out.old ++ supposed_mark p literal.now) }
{
    if profile_of(literal) != p {
        return Ok(());
    }
    put_grey(out, literal)
}

/// Adds all suppositions in the cell of a profile.
fn put_all_supposed(out: &mut Html, p: u32, suppose: &[Literal]) -> Result<(), NoMemory>
    ensures { OnOk result (out.new ≡ out.old ++ flat_map (supposed_mark p) suppose.now) }
{
    for literal in suppose {
        put_supposed(out, p, literal)?;
    }
    Ok(())
}

/// Adds the number of a sentence.
fn put_small_number(out: &mut Html, placed: &Placed) -> Result<(), NoMemory>
    ensures { OnOk result (out.new ≡ out.old ++ small_number placed.now) }
{
    out.append(b"<sup>")?;
    put_number(out, placed.sentence as u64 + 1)?;
    out.append(b"</sup>")?;
    Ok(())
}

/// Adds a fact that is forced, with the number of its sentence among those that come first.
fn put_grey_numbered(out: &mut Html, placed: &Placed) -> Result<(), NoMemory>
    ensures { OnOk result (out.new ≡ out.old ++ grey_numbered_mark placed.now) }
{
    out.append(b"<u>")?;
    put_fact_mark(out, &placed.step.literal)?;
    put_small_number(out, placed)?;
    out.append(b"</u> ")?;
    Ok(())
}

/// Adds a fact that is forced in the cell of a profile.
fn put_forced(out: &mut Html, p: u32, placed: &Placed) -> Result<(), NoMemory>
    ensures { OnOk result (out.new ≡ out.old ++ forced_mark p placed.now) }
{
    if profile_of(&placed.step.literal) == p {
        put_grey_numbered(out, placed)?;
    }
    Ok(())
}

/// Adds all facts that are forced in the cell of a profile.
fn put_all_forced(out: &mut Html, p: u32, forced: &[Placed]) -> Result<(), NoMemory>
    ensures { OnOk result (out.new ≡ out.old ++ flat_map (forced_mark p) forced.now) }
{
    for placed in forced {
        put_forced(out, p, placed)?;
    }
    Ok(())
}

/// Adds a fact that the lemma states, with the number of its sentence.
fn put_numbered(out: &mut Html, placed: &Placed) -> Result<(), NoMemory>
    ensures { OnOk result (out.new ≡ out.old ++ numbered_mark placed.now) }
{
    put_fact_mark(out, &placed.step.literal)?;
    put_small_number(out, placed)?;
    out.append(b" ")?;
    Ok(())
}

/// Adds a fact that is stated in the cell of a profile.
fn put_stated(out: &mut Html, p: u32, placed: &Placed) -> Result<(), NoMemory>
    ensures { OnOk result (out.new ≡ out.old ++ stated_mark p placed.now) }
{
    if profile_of(&placed.step.literal) != p {
        return Ok(());
    }
    put_numbered(out, placed)
}

/// Adds all facts that are stated in the cell of a profile.
fn put_all_stated(out: &mut Html, p: u32, steps: &[Placed]) -> Result<(), NoMemory>
    ensures { OnOk result (out.new ≡ out.old ++ flat_map (stated_mark p) steps.now) }
{
    for placed in steps {
        put_stated(out, p, placed)?;
    }
    Ok(())
}

/// What is known at the end of a lemma, profile by profile.
#[derive(Drop)]
pub(crate) struct KnownCells<'a> {
    pub(crate) suppose: &'a [Literal],
    pub(crate) forced: &'a [Placed],
    pub(crate) steps: &'a [Placed],
}

impl Cells for KnownCells<'_> {
    ghost cell = { λ known p. known_html known.suppose.now known.forced.now known.steps.now p };

    fn put_cell(&self, out: &mut Html, p: u32) -> Result<(), NoMemory> {
        put_all_supposed(out, p, self.suppose)?;
        put_all_forced(out, p, self.forced)?;
        put_all_stated(out, p, self.steps)?;
        Ok(())
    }
}
