//! Chooses the greatest declaration of each longhand.

ghost use Rattle.std.specs.Prelude.{◌≡◌, ◌++◌, ◌∷◌, [], length, map, option_map, IsTrue, IfOk, OnOk};
ghost use Rattle.std.specs.List.{fold};
ghost use Rattle.style.specs.Longhands.{longhand_count};
ghost use Rattle.cascade.specs.Candidates.{applied_in, DeclaredBy};
ghost use Rattle.cascade.specs.Winners.{AreWinners};
ghost use Rattle.cascade.specs.Choice as spec;

use crate::decl::ReadDecl;
use crate::weight::DeclWeight;
use bk_num::items::Items;
use bk_num::name::NoMem;
use std::alloc::Global;
use style::long::Long;
use style::longhand::LONGHANDS;

/// A longhand that is declared, with what decides.
#[derive(Clone, Copy)]
pub struct Candidate<'s> {
    pub weight: DeclWeight,
    pub long: &'s Long,
}

/// The declarations of a rule that applies, or of a style attribute, and the weight that they have in common.
#[derive(Clone, Copy)]
pub struct AppliedDecls<'s> {
    pub weight: DeclWeight,
    pub decls: &'s [ReadDecl],
}

/// The better of a declaration and the best so far.
fn better<'s>(candidate: &Candidate<'s>, best: Option<Candidate<'s>>) -> Option<Candidate<'s>>
    ensures { option_map spec.candidate_in result ≡
        spec.better_of (spec.candidate_in candidate.now) (option_map spec.candidate_in best.entry) }
{
    match best {
        None => Some(*candidate),
        Some(old) => {
            if candidate.weight.is_above(&old.weight) {
                Some(*candidate)
            } else {
                Some(old)
            }
        }
    }
}

/// No winners yet, of all longhands.
fn none_yet<'s>() -> [Option<Candidate<'s>>; LONGHANDS]
    ensures { IsTrue (spec.are_none (spec.views result)) }
{
    [None; LONGHANDS]
}

/// Lets a declaration win where it is better.
#[tactic(auto, using(crate::proofs::ChoiceLemmas::number_small, crate::proofs::ChoiceLemmas::offer_is))]
fn offer<'s>(best: &mut [Option<Candidate<'s>>; LONGHANDS], candidate: &Candidate<'s>)
    ensures { spec.views best.new ≡ spec.offered (spec.views best.old) (spec.candidate_in candidate.now) }
{
    let slot = candidate.long.longhand().number() as usize;
    best[slot] = better(candidate, best[slot]);
}

/// Lets the longhands of a declaration win where they are better.
fn offer_longs<'s>(
    best: &mut [Option<Candidate<'s>>; LONGHANDS],
    weight: &DeclWeight,
    longs: &'s [Long],
)
    ensures { spec.views best.new ≡ fold spec.offered (spec.views best.old) (spec.longs_from weight.now 0 longs.now) }
{
    for index in 0..longs.len() {
        let candidate = Candidate {
            weight: weight.at(index as u64),
            long: &longs[index],
        };
        offer(best, &candidate);
    }
}

/// Lets the declarations of a rule win where they are better.
fn offer_decls<'s>(
    best: &mut [Option<Candidate<'s>>; LONGHANDS],
    weight: &DeclWeight,
    decls: &'s [ReadDecl],
)
    ensures { spec.views best.new ≡ fold spec.offered (spec.views best.old) (spec.decls_from weight.now 0 decls.now) }
{
    for index in 0..decls.len() {
        let decl = &decls[index];
        offer_longs(
            best,
            &weight.of_decl(decl.important, index as u64),
            decl.longs.as_slice(),
        );
    }
}

/// Appends the longhand that won, if there is one.
fn push_long(
    alloc: Global,
    longs: &mut Vec<Long>,
    found: &Option<Candidate<'_>>,
) -> Result<(), NoMem>
    ensures { OnOk result (longs.new.items ≡ longs.old.items ++
        spec.longs_in (option_map spec.candidate_in found.now ∷ [])) }
{
    match found {
        Some(candidate) => {
            longs.push(candidate.long.copy(alloc)?)?;
            Ok(())
        }
        None => Ok(()),
    }
}

/// The longhands that won, in their order.
fn longs_of(alloc: Global, best: &[Option<Candidate<'_>>; LONGHANDS]) -> Result<Items<Long>, NoMem>
    ensures longs { IfOk result (λ v. v ≡ spec.longs_in (spec.views best.now)) }
    ensures count { length best.now ≡ longhand_count }
{
    let mut longs = Vec::new(alloc);
    for index in 0..best.len() {
        push_long(alloc, &mut longs, &best[index])?;
    }
    Ok(Items::of(longs))
}

/// The longhands that win among declarations, in their order. It takes time in proportion to these
/// declarations.
pub fn choose(alloc: Global, rules: &[AppliedDecls<'_>]) -> Result<Items<Long>, NoMem>
    ensures { IfOk result (λ longs. AreWinners (DeclaredBy (map applied_in rules.now)) longs) }
{
    let mut best = none_yet();
    for rule in rules {
        offer_decls(&mut best, &rule.weight, rule.decls);
    }
    longs_of(alloc, &best)
}
