use crate::*;
use chain::Chains;
use order::Plan;
use setting::Setting;
use std::test::Fail;

const UNKNOWN: Cell = Cell {
    mark: 0,
    taken: false,
};

fn chains_of(size: u32, tolerance: u32, lead: u32) -> Result<Chains, Fail> {
    let setting = Setting::new(size, tolerance)?;
    Ok(Chains { setting, lead })
}

/// Takes the chain of a plan with these names.
fn take(chains: &Chains, plan: u32, names: &[u32], cells: &mut [Cell]) -> Result<(), Fail> {
    let Some(plan) = Plan::new(plan) else {
        return Err(Fail::new("a plan"));
    };
    let Ok(at) = chains.place(&plan, names) else {
        return Err(Fail::new("a proper chain"));
    };
    let Some(cell) = cells.get_mut(at as usize) else {
        return Err(Fail::new("a cell of the chain"));
    };
    cell.taken = true;
    Ok(())
}

#[test]
fn backers_that_hide_no_one_all_count(rt: HostRuntime) -> Result<(), Fail> {
    let chains = chains_of(4, 1, 0)?;
    let mut cells = [UNKNOWN; 8];
    assert_eq!(rt; weight(&chains, 1, &cells), 0);
    take(&chains, 1, &[0, 1], &mut cells)?;
    take(&chains, 1, &[0, 2], &mut cells)?;
    take(&chains, 1, &[0, 3], &mut cells)?;
    assert_eq!(rt; weight(&chains, 1, &cells), 5);
    assert_eq!(rt; weight(&chains, 0, &cells), 0);
    assert_eq!(rt; weight(&chains, 16, &cells), 0);
    assert_eq!(rt; weight(&chains_of(4, 1, 4)?, 1, &cells), 0);
    Ok(())
}

#[test]
fn hidden_backers_do_not_count(rt: HostRuntime) -> Result<(), Fail> {
    let chains = chains_of(4, 3, 0)?;
    let mut cells = [UNKNOWN; 16];
    take(&chains, 0, &[0, 1], &mut cells)?;
    take(&chains, 0, &[0, 2], &mut cells)?;
    assert_eq!(rt; weight(&chains, 0, &cells), 3);
    let chains = chains_of(5, 4, 0)?;
    let mut shown = [UNKNOWN; 65];
    take(&chains, 0, &[0, 1, 2], &mut shown)?;
    assert_eq!(rt; weight(&chains, 0, &shown), 2);
    take(&chains, 0, &[0, 2, 3], &mut shown)?;
    assert_eq!(rt; weight(&chains, 0, &shown), 3);
    let mut hiding = [UNKNOWN; 65];
    take(&chains, 0, &[0, 1, 2], &mut hiding)?;
    take(&chains, 0, &[0, 2, 1], &mut hiding)?;
    assert_eq!(rt; weight(&chains, 0, &hiding), 2);
    Ok(())
}

#[test]
fn orders_are_known_from_chains_of_any_length(rt: HostRuntime) -> Result<(), Fail> {
    let chains = chains_of(4, 1, 0)?;
    let mut cells = [UNKNOWN; 64];
    assert_eq!(rt; known_order(&chains, &cells), Known::Nothing);
    take(&chains, 3, &[0], &mut cells)?;
    assert_eq!(rt; known_order(&chains, &cells), Known::Sole(3));
    assert_eq!(rt; known_order(&chains_of(4, 1, 4)?, &cells), Known::Nothing);
    take(&chains, 3, &[0, 2], &mut cells)?;
    assert_eq!(rt; known_order(&chains, &cells), Known::Sole(3));
    take(&chains, 15, &[0, 2], &mut cells)?;
    assert_eq!(rt; known_order(&chains, &cells), Known::Several);
    Ok(())
}
