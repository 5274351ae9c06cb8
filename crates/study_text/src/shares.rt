//! Counts beside their limits, and the nearest of these.

ghost use Rattle.std.specs.Prelude.{◌≡◌, ◌*◌, ◌<◌, ◌≤◌, ◌++◌, length, slice_get, option_map, Some, IfOk, IfSome, OnOk};
ghost use Rattle.std.specs.List.{flat_map, position};
ghost use Rattle.vocab.specs.Limits.{instance_count, atom_count};
ghost use Rattle.vocab.specs.Formula.{body_of};
ghost use Rattle.study_text.specs.Shares.{all_shares, share_count, is_nearer, is_nearest, is_passed, share_limit, nearest, shares_of};

use crate::kept::{count_all, kept_literal_count};
use clause_form::Ground;
use lists::{Items, NoMemory};
use profiles::Space;
use std::alloc::Global;
use study::{atoms, instances};
use vocab::{Axiom, Name, Study};

/// A count that is limited: of a study its profiles, its clauses and their literals; of the axiom of a name its
/// instances, the atoms of its body, and those of the whole.
#[derive(Drop)]
pub(crate) enum Share {
    Profiles(u32),
    Instances(Name, u32),
    Body(Name, u32),
    Work(Name, u32),
    Clauses(u32),
    Literals(u32),
}

impl Share {
    /// The count.
    pub(crate) fn count(&self) -> u32
        ensures { result ≡ share_count self.now }
    {
        match self {
            Share::Profiles(count) => *count,
            Share::Instances(_, count) => *count,
            Share::Body(_, count) => *count,
            Share::Work(_, count) => *count,
            Share::Clauses(count) => *count,
            Share::Literals(count) => *count,
        }
    }

    /// The most that is allowed.
    pub(crate) fn most(&self) -> u32
        ensures value { result ≡ share_limit self.now }
        ensures few { result ≤ 200000000 }
    {
        match self {
            Share::Profiles(_) => 20_000,
            Share::Instances(_, _) => 40_000_000,
            Share::Body(_, _) => 1_000_000,
            Share::Work(_, _) => 200_000_000,
            Share::Clauses(_) => 4_000_000,
            Share::Literals(_) => 60_000_000,
        }
    }
}

/// The instances of the axiom at a place.
pub(crate) fn instances_of(study: &Study, place: usize, named: &Axiom) -> Share
    requires { slice_get study.now.axioms place ≡ Some named.now }
    ensures { result ≡ Share.Instances named.now.name (instance_count study.now.size named.now.sentence) }
{
    let _axioms = study.axioms();
    let _place = place;
    let name = named.name();
    let told = instances(study.size(), named.sentence());
    let count = told as u32;
    Share::Instances(name, count)
}

/// The atoms of its body.
pub(crate) fn body_of(study: &Study, place: usize, named: &Axiom) -> Share
    requires { slice_get study.now.axioms place ≡ Some named.now }
    ensures { result ≡ Share.Body named.now.name (atom_count study.now.size (body_of named.now.sentence)) }
{
    let _axioms = study.axioms();
    let _place = place;
    let name = named.name();
    let told = atoms(study.size(), named.sentence().body());
    let count = told as u32;
    Share::Body(name, count)
}

/// The atoms of the whole.
pub(crate) fn work_of(study: &Study, place: usize, named: &Axiom) -> Share
    requires { slice_get study.now.axioms place ≡ Some named.now }
    ensures { result ≡ Share.Work named.now.name (atom_count study.now.size named.now.sentence) }
{
    let _axioms = study.axioms();
    let _place = place;
    let name = named.name();
    let told = atoms(study.size(), named.sentence());
    let count = told as u32;
    Share::Work(name, count)
}

/// Adds what is limited of the axiom at a place.
fn add_axiom(
    shares: &mut Items<Share>,
    study: &Study,
    place: usize,
    named: &Axiom,
) -> Result<(), NoMemory>
    requires { slice_get study.now.axioms place ≡ Some named.now }
    ensures { OnOk result (shares.new ≡ shares.old ++ shares_of study.now.size named.now) }
{
    shares.push(instances_of(study, place, named))?;
    shares.push(body_of(study, place, named))?;
    shares.push(work_of(study, place, named))?;
    Ok(())
}

/// Adds what is limited of each axiom.
fn add_axioms(shares: &mut Items<Share>, study: &Study) -> Result<(), NoMemory>
    ensures { OnOk result (shares.new ≡ shares.old ++ flat_map (shares_of study.now.size) study.now.axioms) }
{
    let axioms = study.axioms();
    for place in 0..axioms.as_slice().len() {
        add_axiom(shares, study, place, axioms.get(place))?;
    }
    Ok(())
}

/// All that is limited of a study, of which the ground has the kept clauses.
pub(crate) fn all_shares(
    alloc: Global,
    space: &Space,
    study: &Study,
    ground: &Ground,
) -> Result<Items<Share>, NoMemory>
    requires { study.now.size ≡ space.now }
    ensures { IfOk result (λ shares. shares ≡ all_shares study.now ground.now) }
{
    let mut shares = Items::new(alloc);
    shares.push(Share::Profiles(space.count()))?;
    add_axioms(&mut shares, study)?;
    shares.push(Share::Clauses(count_all(ground)))?;
    shares.push(Share::Literals(kept_literal_count(ground)))?;
    Ok(shares)
}

/// A count times a limit.
fn times(count: u32, most: u32) -> u64
    requires { most ≤ 200000000 }
    ensures { result ≡ count * most }
{
    u64::from(count) * u64::from(most)
}

/// Whether the first is a greater part of its limit than the second.
#[tactic(auto, unfolding(crate::specs::Shares::is_nearer))]
fn is_nearer(left: &Share, right: &Share) -> bool
    ensures { result ≡ is_nearer left.now right.now }
{
    times(right.count(), left.most()) < times(left.count(), right.most())
}

/// Whether one is a greater part of its limit.
fn is_passed(shares: &[Share], share: &Share) -> bool
    ensures { result ≡ is_passed shares.now share.now }
{
    shares.iter().any(|other| is_nearer(other, share))
}

/// Whether none is.
#[tactic(auto, unfolding(crate::specs::Shares::is_nearest))]
fn is_nearest(shares: &[Share], share: &Share) -> bool
    ensures { result ≡ is_nearest shares.now share.now }
{
    !is_passed(shares, share)
}

/// The place of the first of which this is so.
fn nearest_place(shares: &[Share]) -> Option<usize>
    ensures place { result ≡ position (is_nearest shares.now) shares.now }
    ensures within { IfSome result (λ place. place < length shares.now) }
{
    shares.iter().position(|share| is_nearest(shares, share))
}

/// The first of which this is so.
pub(crate) fn nearest(shares: &[Share]) -> Option<&Share>
    ensures { option_map (λ share. share.now) result ≡ nearest shares.now }
{
    match nearest_place(shares) {
        Some(place) => Some(&shares[place]),
        None => None,
    }
}
