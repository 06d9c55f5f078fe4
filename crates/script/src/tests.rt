use crate::*;
use std::test::Fail;

#[test]
fn a_script_gets_its_listing(rt: HostRuntime) -> Result<(), Fail> {
    let script = b"(quote 6 5 2)\n\n(quote 4 2 1)\n(quote 4 2)\n(quote 4 2 3)";
    let listing = answer_script(rt.alloc(), script)?;
    assert!(rt; listing.as_str() == "(quote 6)\n(no 81 1)\n(no 14 0)\n(no 83 11)\n(quote 2)\n");
    Ok(())
}

#[test]
fn the_cuts_do_not_matter(rt: HostRuntime) -> Result<(), Fail> {
    let mut listing = String::new(rt.alloc());
    let mut session = Session::new(rt.alloc());
    session.feed(b"(quo", &mut listing)?;
    session.feed(b"te 6 5 2)\n(qu", &mut listing)?;
    session.feed(b"ote 4 2 3)", &mut listing)?;
    session.finish(&mut listing)?;
    assert!(rt; listing.as_str() == "(quote 6)\n(quote 2)\n");
    Ok(())
}

#[test]
fn the_last_byte_counts(rt: HostRuntime) {
    assert!(rt; read_form(b"(quote 6 5 2)", 32_768).is_ok());
    assert!(rt; read_form(b"(quote 6 5 2)", 32_769).is_err());
}
