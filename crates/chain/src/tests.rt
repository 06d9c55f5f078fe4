use crate::*;
use order::Plan;
use refusal::Numbered;
use setting::Setting;
use std::process::Abort;
use std::test::Fail;

/// The chains of a ring of four that tolerates two faults.
fn chains_in_four(lead: u32) -> Result<Chains, Fail> {
    let setting = Setting::new(4, 2)?;
    Ok(Chains { setting, lead })
}

#[test]
fn names_are_checked_from_the_first(rt: HostRuntime) -> Result<(), Fail> {
    let chains = chains_in_four(0)?;
    assert_eq!(rt; chains.check(&[0, 2, 1]), Ok(()));
    assert_eq!(rt; chains.check(&[]), Err(Refusal::Length));
    assert_eq!(rt; chains.check(&[0, 1, 2, 3]), Err(Refusal::Length));
    assert_eq!(rt; chains.check(&[0, 4, 0]), Err(Refusal::Beyond(2)));
    assert_eq!(rt; chains.check(&[1, 4, 1]), Err(Refusal::NotLead));
    assert_eq!(rt; chains.check(&[0, 3, 3]), Err(Refusal::Repeated(3)));
    assert_eq!(rt; Refusal::Repeated(3).position(), 3);
    Ok(())
}

fn chains_of_ring(size: u32, tolerance: u32) -> Result<u32, Fail> {
    let setting = Setting::new(size, tolerance)?;
    Ok(chains_per_order(&setting))
}

/// The place of a chain in a ring of four that tolerates two faults.
fn place_in_four(lead: u32, plan: u32, names: &[u32]) -> Result<Result<u32, Refusal>, Fail> {
    let Some(plan) = Plan::new(plan) else {
        return Err(Fail::new("a plan"));
    };
    Ok(chains_in_four(lead)?.place(&plan, names))
}

#[test]
fn chains_are_counted(rt: HostRuntime) -> Result<(), Fail> {
    assert_eq!(rt; chains_of_ring(2, 1)?, 2);
    assert_eq!(rt; chains_of_ring(4, 2)?, 10);
    assert_eq!(rt; chains_of_ring(7, 5)?, 1_237);
    assert_eq!(rt; chains_of_ring(12, 11)?, 108_505_112);
    Ok(())
}

#[test]
fn chains_have_places(rt: HostRuntime) -> Result<(), Fail> {
    assert_eq!(rt; place_in_four(0, 3, &[0, 2, 1])?, Ok(36));
    assert_eq!(rt; place_in_four(0, 15, &[0, 3, 2])?, Ok(159));
    assert_eq!(rt; place_in_four(2, 0, &[2, 0, 3])?, Ok(5));
    assert_eq!(rt; place_in_four(0, 3, &[0, 0])?, Err(Refusal::Repeated(2)));
    Ok(())
}

/// Walks all places of the chains, and comes back to each.
fn walk_places(rt: &impl Abort, chains: &Chains) -> Result<(), Fail> {
    for place in 0..16 * chains_per_order(&chains.setting) {
        let chain: Option<(Plan, Names)> = chains.at(place);
        let Some((plan, names)) = chain else {
            return Err(Fail::new("a chain of every place"));
        };
        assert_eq!(rt; chains.place(&plan, names.as_slice()), Ok(place));
    }
    Ok(())
}

#[test]
fn every_place_leads_back(rt: HostRuntime) -> Result<(), Fail> {
    for lead in 0..4 {
        walk_places(&rt, &chains_in_four(lead)?)?;
    }
    let past: Option<(Plan, Names)> = chains_in_four(0)?.at(160);
    assert!(rt; past.is_none());
    let outside: Option<(Plan, Names)> = chains_in_four(4)?.at(0);
    assert!(rt; outside.is_none());
    Ok(())
}

/// Takes a chain whole, so that a caller who keeps it has to copy it.
fn length_of(chain: (Plan, Names)) -> usize {
    let (_, names) = chain;
    names.as_slice().len()
}

#[test]
fn what_holds_names_is_copied(rt: HostRuntime) -> Result<(), Fail> {
    let chain: Option<(Plan, Names)> = chains_in_four(0)?.at(36);
    let Some(held) = chain else {
        return Err(Fail::new("the chain of a place"));
    };
    assert_eq!(rt; length_of(held), 3);
    assert_eq!(rt; length_of(held), 3);
    Ok(())
}

#[test]
fn sets_of_names(rt: HostRuntime) {
    let mut backers = NameSet::of(&[3, 1, 3, 16]);
    assert!(rt; backers.contains(3) && !backers.contains(2) && !backers.contains(16));
    assert_eq!(rt; backers.len(), 2);
    backers.insert(2);
    let left = backers.without(NameSet::of(&[1, 2, 5]));
    assert_eq!(rt; left, NameSet::of(&[3]));
    assert!(rt; left.without(left).is_empty());
}
