use crate::*;
use refusal::Numbered;
use std::test::Fail;

#[test]
fn a_book_numbers_its_lines(rt: HostRuntime) {
    let mut lines = [7; 4];
    let mut book = Book::over(&mut lines);
    assert_eq!(rt; book.begin(5), Err(Refusal::Lines));
    assert_eq!(rt; book.begin(4), Ok(()));
    assert!(rt; !book.check(7, 1));
    assert_eq!(rt; book.sign(3), 1);
    assert_eq!(rt; book.sign(0), 2);
    assert_eq!(rt; book.sign(3), 1);
    assert_eq!(rt; book.sign(4), 0);
    assert!(rt; book.check(0, 2) && !book.check(0, 1));
    assert_eq!(rt; book.entries(), 2);
}

#[test]
fn a_book_is_made_in_one_step(rt: HostRuntime) -> Result<(), Fail> {
    let mut lines = [7; 4];
    let Err((back, refusal)) = Book::new(&mut lines, 0) else {
        return Err(Fail::new("no book has no places"));
    };
    assert_eq!(rt; refusal, Refusal::Count);
    let Err((back, refusal)) = Book::new(back, 5) else {
        return Err(Fail::new("four lines are too few for five places"));
    };
    assert_eq!(rt; refusal.number(), 12);
    let Ok(mut book) = Book::new(back, 4) else {
        return Err(Fail::new("four lines do for four places"));
    };
    assert_eq!(rt; (book.count(), book.entries()), (4, 0));
    assert_eq!(rt; book.sign(3), 1);
    assert!(rt; book.check(3, 1) && !book.check(7, 2));
    Ok(())
}

#[test]
fn a_grid_marks_by_place(rt: HostRuntime) -> Result<(), Fail> {
    assert!(rt; Grid::new(0).is_err() && Grid::new(16_385).is_err());
    let mut grid = Grid::new(160)?;
    assert_eq!(rt; grid.sign(10), 11);
    assert_eq!(rt; grid.sign(159), 160);
    assert_eq!(rt; grid.sign(160), 0);
    assert!(rt; grid.check(10, 11) && !grid.check(10, 12) && !grid.check(11, 12));
    assert_eq!(rt; grid.entries(), 2);
    Ok(())
}
