//! The page of a verdict on a study.

ghost use Rattle.std.specs.Prelude.{◌≡◌, ◌++◌, length, IfOk, OnOk};
ghost use Rattle.html.specs.Escapes.{escaped};
ghost use Rattle.pages.specs.FileNames.{shell_word};
ghost use Rattle.pages.specs.Words.{opening, styles};
ghost use Rattle.pages.specs.Pages.{proved_html, impossible_html, satisfied_html, possible_html, verdict_html, front_html, check_html, whole_html, page_of};

use crate::axioms::{put_axioms, put_core};
use crate::file_names::shell_word;
use crate::headings::put_claim;
use crate::theorem::{put_reading, put_size};
use crate::witnesses::put_witnesses;
use crate::words::{opening, styles};
use html::{Html, put_text};
use lists::NoMemory;
use meaning::{Lemma, Witness};
use outcomes::{OutcomeKind, Setting};
use profiles::Space;
use rule_pages::{put_name, put_rule};
use std::alloc::Global;
use story_pages::put_story;
use tellings::StoryTelling;
use verdicts::Verdict;
use vocab::{Axiom, Table};

/// What a page says beside its study and its verdict.
#[derive(Drop)]
pub struct Source<'a> {
    /// The name of the study's file.
    pub study: &'a [u8],
    /// The name of the report's file.
    pub report: &'a [u8],
    /// The version of the program that writes the page.
    pub version: &'a [u8],
}

/// What the verdict is about: the axioms, and how many they are.
#[derive(Clone, Copy)]
pub struct About<'a> {
    pub axioms: &'a [Axiom],
    pub count: u32,
    pub ghost counted: { length axioms.now ≡ count },
}

impl<'a> About<'a> {
    /// All axioms of a study. Error: there are more than 4,294,967,295, of which no page can be held.
    pub fn of(axioms: &'a [Axiom]) -> Result<About<'a>, NoMemory>
        ensures { IfOk result (λ about. about.axioms.now ≡ axioms.now) }
    {
        let count = axioms.len();
        if count > 4_294_967_295 {
            return Err(NoMemory);
        }
        Ok(About {
            axioms,
            count: count as u32,
        })
    }
}

/// Adds an impossibility up to its marks.
pub fn put_proved(
    alloc: Global,
    out: &mut Html,
    space: &Space,
    about: &About,
    core: &[u32],
    story: &[Lemma],
    told: &StoryTelling,
) -> Result<(), NoMemory>
    ensures { OnOk result (out.new ≡ out.old ++
        proved_html space.now about.now.axioms.now core.now story.now told.now) }
{
    put_core(alloc, out, space, about.axioms, core)?;
    put_reading(out, space, true)?;
    out.append(b"<h2>Proof</h2>\n")?;
    put_story(out, space, about.axioms, story, told)?;
    Ok(())
}

/// Adds an impossibility.
fn put_impossible<K: OutcomeKind>(
    alloc: Global,
    out: &mut Html,
    kind: &K,
    about: &About,
    core: &[u32],
    story: &[Lemma],
    witnesses: &[Witness],
    told: &StoryTelling,
) -> Result<(), NoMemory>
    ensures { OnOk result (out.new ≡ out.old ++
        impossible_html (K.size kind.now) about.now.axioms.now
        core.now story.now witnesses.now told.now) }
{
    put_proved(alloc, out, kind.space(), about, core, story, told)?;
    put_witnesses(out, kind, about.axioms, core, witnesses)?;
    Ok(())
}

/// Adds what a rule satisfies.
fn put_satisfied(
    alloc: Global,
    out: &mut Html,
    space: &Space,
    about: &About,
) -> Result<(), NoMemory>
    ensures { OnOk result (out.new ≡ out.old ++
        satisfied_html space.now about.now.axioms.now) }
{
    put_axioms(alloc, out, space, about.axioms, about.count)?;
    put_reading(out, space, false)?;
    Ok(())
}

/// Adds a rule.
fn put_possible<K: OutcomeKind>(
    alloc: Global,
    out: &mut Html,
    kind: &K,
    about: &About,
    table: &Table,
) -> Result<(), NoMemory>
    ensures { OnOk result (out.new ≡ out.old ++
        possible_html (K.size kind.now) about.now.axioms.now table.now) }
{
    put_satisfied(alloc, out, kind.space(), about)?;
    out.append(b"<h2>The rule")?;
    put_name(out, kind, table)?;
    out.append(b"</h2>\n")?;
    put_rule(out, kind, table)?;
    Ok(())
}

/// Adds what a verdict says.
fn put_verdict<K: OutcomeKind>(
    alloc: Global,
    out: &mut Html,
    kind: &K,
    about: &About,
    verdict: &Verdict,
    told: &StoryTelling,
) -> Result<(), NoMemory>
    ensures { OnOk result (out.new ≡ out.old ++
        verdict_html (K.size kind.now) about.now.axioms.now verdict.now told.now) }
{
    match verdict {
        Verdict::Possible(table) => put_possible(alloc, out, kind, about, table),
        Verdict::Impossible {
            core,
            story,
            witnesses,
        } => put_impossible(
            alloc,
            out,
            kind,
            about,
            core.as_slice(),
            story.as_slice(),
            witnesses.as_slice(),
            told,
        ),
        Verdict::Undecided => out.append(b"<p>Nothing is claimed.</p>\n"),
    }
}

/// Adds a file's name, as a word of a command line.
fn put_file_name(alloc: Global, out: &mut Html, name: &[u8]) -> Result<(), NoMemory>
    ensures { OnOk result (out.new ≡ out.old ++ escaped (shell_word name.now)) }
{
    let word = shell_word(alloc, name)?;
    put_text(out, word.as_slice())
}

/// Adds how to check.
pub fn put_check(alloc: Global, out: &mut Html, source: &Source) -> Result<(), NoMemory>
    ensures { OnOk result (out.new ≡ out.old ++
        check_html source.now.study.now source.now.report.now source.now.version.now) }
{
    out.append(b"<h2>How to check</h2>\n<p>The command <code>bench check ")?;
    put_file_name(alloc, out, source.study)?;
    out.append(b" ")?;
    put_file_name(alloc, out, source.report)?;
    out.append(
        b"</code> goes through the second file line by line, by the sentences of the axioms alone. This page tells what that file says. Version: ",
    )?;
    put_text(out, source.version)?;
    out.append(b".</p>\n")?;
    Ok(())
}

/// Adds what stands before the title.
fn put_opening(out: &mut Html) -> Result<(), NoMemory>
    ensures { OnOk result (out.new ≡ out.old ++ opening) }
{
    out.append(opening())
}

/// Adds what stands between the title and the heading.
fn put_styles(out: &mut Html) -> Result<(), NoMemory>
    ensures { OnOk result (out.new ≡ out.old ++ styles) }
{
    out.append(styles())
}

/// Adds the front of the page: its title, the styles, the title again, and the size.
pub fn put_front(
    out: &mut Html,
    space: &Space,
    about: &About,
    verdict: &Verdict,
) -> Result<(), NoMemory>
    ensures { OnOk result (out.new ≡ out.old ++
        front_html space.now about.now.axioms.now verdict.now) }
{
    put_opening(out)?;
    put_claim(out, false, space, about.axioms, about.count, verdict)?;
    put_styles(out)?;
    put_claim(out, true, space, about.axioms, about.count, verdict)?;
    out.append(b"</h1>\n")?;
    put_size(out, space)?;
    Ok(())
}

/// Adds the page of what is said about a study.
fn put_whole<K: OutcomeKind>(
    alloc: Global,
    out: &mut Html,
    kind: &K,
    about: &About,
    source: &Source,
    told: &StoryTelling,
    verdict: &Verdict,
) -> Result<(), NoMemory>
    ensures { OnOk result (out.new ≡ out.old ++
        whole_html (K.size kind.now) about.now.axioms.now
        source.now.study.now source.now.report.now source.now.version.now told.now verdict.now) }
{
    put_front(out, kind.space(), about, verdict)?;
    put_verdict(alloc, out, kind, about, verdict, told)?;
    put_check(alloc, out, source)?;
    out.append(b"</body></html>\n")?;
    Ok(())
}

/// Adds the page of a verdict on a study, whose story is told so, if it has one. The only error is want of
/// memory.
pub fn put_page<K: OutcomeKind>(
    alloc: Global,
    out: &mut Html,
    setting: &Setting<K>,
    source: &Source,
    told: &StoryTelling,
    verdict: &Verdict,
) -> Result<(), NoMemory>
    ensures { OnOk result (out.new ≡ out.old ++
        page_of setting.now.study.now source.now.study.now source.now.report.now source.now.version.now
        told.now verdict.now) }
{
    let about = About::of(setting.study.axioms().as_slice())?;
    put_whole(alloc, out, setting.kind, &about, source, told, verdict)
}
