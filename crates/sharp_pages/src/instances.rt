//! The instances that a sharp text cites.

ghost use Rattle.std.specs.Prelude.{◌≡◌, ◌++◌, length, OnOk};
ghost use Rattle.std.specs.List.{flat_map};
ghost use Rattle.vocab.specs.Range.{below};
ghost use Rattle.sharp_pages.specs.SharpPages.{all_instances_html, instance_html_at, instance_html, instances_html, open_words};

use html::{Html, put_number};
use lists::NoMemory;
use meaning::Witness;
use sharp_verdicts::Cited;
use story_pages::put_axiom;
use vocab::Axiom;

/// Whether it is open that an instance is needed.
fn open_words(mark: &Witness) -> &'static [u8]
    ensures { result.now ≡ open_words mark.now }
{
    match mark {
        Witness::Rule(_) => b"",
        Witness::Open(_) => b" (open)",
    }
}

/// Adds an instance, by the name of its axiom and its number.
fn put_instance(
    out: &mut Html,
    axioms: &[Axiom],
    cited: &Cited,
    mark: &Witness,
) -> Result<(), NoMemory>
    ensures { OnOk result (out.new ≡ out.old ++ instance_html axioms.now cited.now mark.now) }
{
    out.append(b"<span>")?;
    put_axiom(out, axioms, cited.axiom)?;
    out.append(b" ")?;
    put_number(out, cited.number)?;
    out.append(open_words(mark))?;
    out.append(b"</span>")?;
    Ok(())
}

/// Adds the instance at a place with its mark, if there are both.
fn put_instance_at(
    out: &mut Html,
    axioms: &[Axiom],
    instances: &[Cited],
    marks: &[Witness],
    place: usize,
) -> Result<(), NoMemory>
    ensures { OnOk result (out.new ≡ out.old ++ instance_html_at axioms.now instances.now marks.now place) }
{
    match (instances.get(place), marks.get(place)) {
        (Some(cited), Some(mark)) => put_instance(out, axioms, cited, mark),
        _ => Ok(()),
    }
}

/// Adds all instances.
fn put_all(
    out: &mut Html,
    axioms: &[Axiom],
    instances: &[Cited],
    marks: &[Witness],
) -> Result<(), NoMemory>
    ensures { OnOk result (out.new ≡ out.old ++ all_instances_html axioms.now instances.now marks.now) }
{
    let count = marks.len();
    for place in 0..count {
        put_instance_at(out, axioms, instances, marks, place)?;
    }
    Ok(())
}

/// Adds the instances that the proof cites.
pub(crate) fn put_instances(
    out: &mut Html,
    axioms: &[Axiom],
    instances: &[Cited],
    marks: &[Witness],
) -> Result<(), NoMemory>
    ensures { OnOk result (out.new ≡ out.old ++ instances_html axioms.now instances.now marks.now) }
{
    out.append(
        b"<h2>Without one of the instances: a rule at which all others hold</h2>\n<p>The proof cites these instances of the axioms, by their numbers (<code>explain instance STUDY AXIOM NUMBER</code> tells one), and the sharp text has such a rule for each that is not marked as open: ",
    )?;
    put_all(out, axioms, instances, marks)?;
    out.append(b".</p>\n")?;
    Ok(())
}
