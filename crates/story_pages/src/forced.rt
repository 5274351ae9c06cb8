//! Facts that axioms force without a supposition.

ghost use Rattle.std.specs.Prelude.{◌≡◌, ◌++◌, OnOk};
ghost use Rattle.story_pages.specs.Forced.{list_html, forced_html};

use crate::sentences::put_items;
use html::Html;
use lists::NoMemory;
use profiles::Space;
use tellings::Passage;
use vocab::Axiom;

/// Adds forced facts, of which there are some.
fn put_list(
    out: &mut Html,
    space: &Space,
    axioms: &[Axiom],
    forced: &Passage,
) -> Result<(), NoMemory>
    ensures { OnOk result (out.new ≡ out.old ++ list_html space.now axioms.now forced.now) }
{
    out.append(b"<section>\n<h3>Without any supposition</h3>\n<ol class=z>\n")?;
    put_items(out, space, axioms, forced)?;
    out.append(b"</ol></section>\n")?;
    Ok(())
}

/// Adds forced facts, if there are any.
pub(crate) fn put_forced(
    out: &mut Html,
    space: &Space,
    axioms: &[Axiom],
    forced: &Passage,
) -> Result<(), NoMemory>
    ensures { OnOk result (out.new ≡ out.old ++ forced_html space.now axioms.now forced.now) }
{
    if forced.sentences.len() == 0 {
        return Ok(());
    }
    put_list(out, space, axioms, forced)
}
