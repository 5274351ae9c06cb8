//! Writing a text whole.

ghost use Rattle.std.specs.Prelude.{OnOk, OnErr};
ghost use Rattle.std.specs.Io.KnownBytes.{Appends};
ghost use Rattle.edge.specs.Faults.{HasCause};
ghost use Rattle.edge.specs.Told.{AppendsPrefix, TellsAsBefore};

use crate::page::Page;
use crate::text::Text;
use edge::{Failed, Sink};

/// Writes the whole text through a page of its own. Where it fails, a prefix of the text was written. No
/// memory is taken.
pub fn put_text<T: Text, O: Sink>(text: &T, out: &mut O) -> Result<(), Failed>
    requires { T.can text.now }
    ensures ok { OnOk result (Appends (O.taken out.old) (O.taken out.new) (T.text text.now)) }
    ensures err { OnErr result (AppendsPrefix (O.taken out.old) (O.taken out.new) (T.text text.now)) }
    ensures tells { TellsAsBefore (O.taken out.old) (O.taken out.new) }
    ensures cause { HasCause (O.faults out.old) (O.faults out.new) result }
{
    let mut page = Page::new();
    text.pour(&mut page, out)?;
    page.hand_on(out)
}

/// Writes the whole text, and flushes the sink. Where it fails, a prefix of the text was written.
pub fn write_text<T: Text, O: Sink>(text: &T, out: &mut O) -> Result<(), Failed>
    requires { T.can text.now }
    ensures ok { OnOk result (Appends (O.taken out.old) (O.taken out.new) (T.text text.now)) }
    ensures err { OnErr result (AppendsPrefix (O.taken out.old) (O.taken out.new) (T.text text.now)) }
    ensures tells { TellsAsBefore (O.taken out.old) (O.taken out.new) }
    ensures cause { HasCause (O.faults out.old) (O.faults out.new) result }
{
    put_text(text, out)?;
    out.flush()
}
