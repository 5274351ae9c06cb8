//! What stands on each page, and the words of the axioms of the library.

ghost use Rattle.std.specs.Prelude.{◌≡◌};
ghost use Rattle.pages.specs.Words.{opening, styles, choice_words, ranking_words, set_words, library_words};

use vocab::Kind;

/// The front of each page, up to its title.
#[tactic(auto, unfolding(crate::specs::Words::opening))]
pub(crate) fn opening() -> &'static [u8]
    ensures { result.now ≡ opening }
{
    b"<!doctype html>\n<html lang=en><head><meta charset=utf-8><title>"
}

/// What stands between the title and the heading: the styles.
#[tactic(auto, unfolding(crate::specs::Words::styles))]
pub(crate) fn styles() -> &'static [u8]
    ensures { result.now ≡ styles }
{
    b"</title><style>@page{size:A4;margin:7mm 8mm}body{font:9pt/1.2 'Times New Roman','Liberation Serif',Times,serif;max-width:194mm;margin:5mm auto;color:#111}h1{font-size:13pt;line-height:1.15;margin:0 0 3px}h2{font-size:10.5pt;margin:5px 0 1px}h3{font-size:1.05em;margin:2px 0 0;column-span:all}p{margin:1px 0}ul,ol{margin:0;padding-left:15px}section{columns:2;column-gap:12px}li,tr,h3{break-inside:avoid}h3{break-after:avoid}li:has(.c){break-inside:auto}code{font-size:.88em;letter-spacing:-.3px;white-space:nowrap}.a code{white-space:normal;color:#666;font-size:7pt}.c{border-left:2px solid #ccc;padding-left:4px;margin:2px 0}.c li>.c{margin-left:-14px}.c li>.c>b{margin-left:8px}details{display:inline-block;vertical-align:bottom}details[open]{display:block}summary{display:inline;list-style:none;cursor:pointer;border-bottom:1px dotted #888}summary::-webkit-details-marker{display:none}section div{display:inline}section .c,section .e{display:block}span+span::before,div+div::before{content:'; '}.s div+div::before{content:' and '}.s+div::before,.c+div::before,.e::before,.w div::before{content:''!important}.z,u{color:#888}u{text-decoration:none}table{border-collapse:collapse;break-inside:avoid}td,th{border:1px solid #bbb;font-size:6.8pt;line-height:1;padding:0 1px;text-align:center;white-space:nowrap;font-weight:normal;min-width:17px;height:11px}th{background:#f1f1f1}sup{font-size:4.8pt;font-weight:normal;color:#a00;line-height:0}u sup{color:#888}.p{float:right;margin-left:5px}.p td,.p th{border:0;background:none;min-width:0;height:auto;padding:0 2px}.p th{border-bottom:1px solid #888;color:#777}.w{display:flex;flex-wrap:wrap;gap:10px}.w>div{break-inside:avoid}.l{columns:100px;list-style:none;padding:0}summary+code{white-space:normal}section .g td{font-weight:bold}section .g u{font-weight:normal}.k[open]{column-span:all;break-inside:avoid}.k table{table-layout:fixed;width:100%}.k td,.k th{font-size:5pt;min-width:0;padding:0;white-space:normal}.k sup{font-size:4pt}@media print{body{font-size:8pt;line-height:1.12;margin:0 auto;columns:2;column-gap:10px}body>:not(section){column-span:all}section{columns:auto}h3{column-span:none}summary{border:0}details:not([open]):has(>details>.l>li:nth-child(50))>summary::after{content:' (on the screen)'}.k:not([open])>summary::after{content:' (on the screen)'}@supports selector(::details-content){details:has(>.g)::details-content,details:has(>.l)::details-content,details:has(>details):not(:has(>details>.l>li:nth-child(50)))::details-content{content-visibility:visible}details:has(>.g)>summary,details:has(>details):not(:has(>details>.l>li:nth-child(50)))>summary{display:none}}td,th{font-size:6.2pt;height:9px}}</style></head><body>\n<h1>"
}

/// The words of an axiom of the library, where the kind is `choice`.
#[tactic(auto, unfolding(crate::specs::Words::choice_words))]
fn choice_words(name: &[u8]) -> &'static [u8]
    ensures { result.now ≡ choice_words name.now }
{
    if name == b"unanimity".as_slice() {
        return b": an alternative that every voter ranks first wins.";
    }
    if name == b"pareto".as_slice() {
        return b": where every voter ranks x above y, y does not win.";
    }
    if name == b"onto".as_slice() {
        return b": each alternative wins at some profile.";
    }
    if name == b"non_dictatorship".as_slice() {
        return b": for each voter there is a profile at which an alternative wins that this voter ranks below another.";
    }
    if name == b"strategyproof".as_slice() {
        return b": no voter, by casting any ballot at a profile, makes an alternative win that this voter's ballot there ranks above the winner there.";
    }
    if name == b"maskin".as_slice() {
        return b": if x wins at p, and at q each voter still ranks x above whatever this voter ranked below x at p, then x wins at q.";
    }
    if name == b"condorcet".as_slice() {
        return b": an alternative wins that more voters rank above than below each other one.";
    }
    if name == b"anonymity".as_slice() {
        return b": if two voters exchange their ballots, the same alternative wins.";
    }
    if name == b"neutrality".as_slice() {
        return b": if two alternatives are exchanged in all ballots, they are exchanged in the outcome.";
    }
    if name == b"participation".as_slice() {
        return b": no voter who is absent, by casting a ballot, makes an alternative win that this ballot ranks below the winner without it.";
    }
    b""
}

/// The words of an axiom of the library, where the kind is `ranking`.
#[tactic(auto, unfolding(crate::specs::Words::ranking_words))]
fn ranking_words(name: &[u8]) -> &'static [u8]
    ensures { result.now ≡ ranking_words name.now }
{
    if name == b"pareto".as_slice() {
        return b": where every voter ranks x above y, so does the outcome.";
    }
    if name == b"independence".as_slice() {
        return b": if each voter ranks x and y at p as at q, the outcomes at p and at q rank x and y alike.";
    }
    if name == b"non_dictatorship".as_slice() {
        return b": for each voter there is a profile and a pair which the outcome there ranks otherwise than this voter.";
    }
    if name == b"anonymity".as_slice() {
        return b": if two voters exchange their ballots, the outcome is the same.";
    }
    if name == b"neutrality".as_slice() {
        return b": if two alternatives are exchanged in all ballots, they are exchanged in the outcome.";
    }
    b""
}

/// The words of an axiom of the library, where the kind is `sets`.
#[tactic(auto, unfolding(crate::specs::Words::set_words))]
fn set_words(name: &[u8]) -> &'static [u8]
    ensures { result.now ≡ set_words name.now }
{
    if name == b"pareto".as_slice() {
        return b": where every voter ranks x above y, y is not in the set.";
    }
    if name == b"anonymity".as_slice() {
        return b": if two voters exchange their ballots, the set is the same.";
    }
    if name == b"neutrality".as_slice() {
        return b": if two alternatives are exchanged in all ballots, they are exchanged in the set.";
    }
    if name == b"condorcet".as_slice() {
        return b": an alternative that more voters rank above than below each other one is the whole set.";
    }
    if name == b"resolute".as_slice() {
        return b": no two alternatives are in the set.";
    }
    if name == b"strategyproof".as_slice() {
        return b": no voter, by casting any ballot at a profile, gets another set in which each alternative is as good, by this voter's ballot there, as each alternative of the set there.";
    }
    b""
}

/// The words of an axiom of the library of a kind; an axiom of the study's own has none.
pub(crate) fn library_words(kind: Kind, name: &[u8]) -> &'static [u8]
    ensures { result.now ≡ library_words kind name.now }
{
    match kind {
        Kind::Choice => choice_words(name),
        Kind::Ranking => ranking_words(name),
        Kind::Sets => set_words(name),
    }
}
