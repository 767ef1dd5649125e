//! Records put in, taken out and changed in a lent slice.
use crate::samples::standing;
use edits::records::{change_level, insert_at, remove_all, remove_at};
use keys::stop_key::StopKey;
use runs::table::Table;
use std::process::Abort;

fn numbers(rt: &impl Abort, sheet: &[Table<StopKey>; 4], expected: [u64; 4]) {
    for (table, number) in sheet.iter().zip(expected) {
        assert_eq!(rt; table.number, number);
    }
}

fn sheet() -> [Table<StopKey>; 4] {
    [
        standing(1, 0, 9, 1),
        standing(2, 10, 19, 2),
        standing(3, 20, 29, 3),
        standing(4, 30, 39, 4),
    ]
}

#[test]
fn puts_in(rt: HostRuntime) {
    let mut sheet = sheet();
    insert_at(&mut sheet, 2, 1, standing(9, 5, 6, 5));
    numbers(&rt, &sheet, [1, 9, 2, 4]);
}

#[test]
fn takes_out(rt: HostRuntime) {
    let mut sheet = sheet();
    remove_at(&mut sheet, 3, 0);
    numbers(&rt, &sheet, [2, 3, 3, 4]);
}

#[test]
fn takes_all_listed_out(rt: HostRuntime) {
    let mut sheet = sheet();
    assert_eq!(rt; remove_all(&mut sheet, 4, &[4, 2, 7]), 2);
    numbers(&rt, &sheet, [1, 3, 3, 4]);
}

#[test]
fn changes_level_and_run(rt: HostRuntime) {
    let mut sheet = sheet();
    change_level(&mut sheet, 3, 6, 2);
    assert_eq!(rt; sheet[3].level, 6);
    assert_eq!(rt; sheet[3].run, 2);
    assert_eq!(rt; sheet[3].number, 4);
}
