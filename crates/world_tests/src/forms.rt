//! Each form of axiom obeyed and broken, on both kinds of world, and which axiom and element an audit names.
use crate::showing::*;
use std::test::Fail;

/// Payroll is in finance or wages, and both of these are in shared.
#[test]
fn payroll(rt: HostRuntime) -> Result<(), Fail> {
    let axioms = [inclusion(1, 6), inclusion(2, 8), inclusion(4, 8)];
    finds(&rt, &[1], &[], &axioms, broken(0, 0))?;
    finds(&rt, &[3], &[], &axioms, broken(1, 0))?;
    finds(&rt, &[5], &[], &axioms, broken(2, 0))?;
    finds(&rt, &[11, 13, 8, 0], &[], &axioms, None)
}

#[test]
fn inclusions(rt: HostRuntime) -> Result<(), Fail> {
    for (lower, upper) in [(1, 2), (1, 1), (3, 4), (7, 8), (1, 6), (0, 7), (16, 0)] {
        obeys(&rt, &[2, 15, 6, 4], &[], inclusion(lower, upper))?;
    }
    obeys(&rt, &[3, 5, 7, 0], &[], inclusion(1, 6))?;
    let cases = [
        (1, 4, 1),
        (3, 4, 1),
        (2, 5, 0),
        (7, 8, 2),
        (0, 2, 3),
        (0, 1, 0),
        (4, 0, 2),
        (3, 0, 1),
        (0, 0, 0),
        (1 << 63, 1 << 62, 4),
    ];
    for (lower, upper, element) in cases {
        breaks(
            &rt,
            &[2, 3, 7, 4, 1 << 63],
            &[],
            inclusion(lower, upper),
            element,
        )?;
    }
    Ok(())
}

/// The element itself may be the successor, or another; a link of another role or the other way does not count.
#[test]
fn existentials(rt: HostRuntime) -> Result<(), Fail> {
    let axiom = exists(0, 1, 1);
    obeys(&rt, &[3], &[link(0, 1, 0)], axiom)?;
    obeys(&rt, &[1, 2], &[link(0, 1, 1)], axiom)?;
    obeys(&rt, &[1, 2], &[link(0, 1, 1), link(0, 1, 0)], axiom)?;
    obeys(&rt, &[0, 2], &[], axiom)?;
    breaks(&rt, &[1, 2], &[], axiom, 0)?;
    breaks(&rt, &[1], &[link(0, 1, 0)], axiom, 0)?;
    breaks(&rt, &[1, 2], &[link(0, 0, 1), link(0, 2, 1)], axiom, 0)?;
    breaks(&rt, &[1, 2], &[link(1, 1, 0)], axiom, 0)?;
    breaks(&rt, &[1, 4], &[link(0, 1, 1)], axiom, 0)?;
    let some = [link(0, 1, 1), link(1, 1, 1), link(3, 1, 2)];
    breaks(&rt, &[1, 3, 1, 1], &some, axiom, 2)
}

#[test]
fn existentials_on_the_left(rt: HostRuntime) -> Result<(), Fail> {
    let axiom = exists_lower(1, 1, 0);
    obeys(&rt, &[1, 2], &[link(0, 1, 1)], axiom)?;
    obeys(&rt, &[3], &[link(0, 1, 0)], axiom)?;
    obeys(&rt, &[0, 2], &[link(1, 1, 0)], axiom)?;
    obeys(&rt, &[0, 2], &[link(0, 0, 1), link(0, 2, 1)], axiom)?;
    obeys(&rt, &[0, 5], &[link(0, 1, 1)], axiom)?;
    breaks(&rt, &[0, 2], &[link(0, 1, 1)], axiom, 0)?;
    breaks(&rt, &[2, 0], &[link(1, 1, 0)], axiom, 1)?;
    breaks(&rt, &[2], &[link(0, 1, 0)], axiom, 0)?;
    let two = [link(1, 1, 1), link(1, 1, 2)];
    breaks(&rt, &[0, 0, 2], &two, axiom, 1)?;
    breaks(&rt, &[0, 2, 0], &two, axiom, 1)
}

#[test]
fn universals(rt: HostRuntime) -> Result<(), Fail> {
    let axiom = forall(0, 1, 1);
    let two = [link(0, 1, 1), link(0, 1, 2)];
    obeys(&rt, &[1], &[], axiom)?;
    obeys(&rt, &[3], &[link(0, 1, 0)], axiom)?;
    obeys(&rt, &[1, 2, 2], &two, axiom)?;
    obeys(&rt, &[2, 0, 5], &two, axiom)?;
    obeys(&rt, &[0, 1], &[link(0, 1, 1)], axiom)?;
    obeys(&rt, &[1, 4], &[link(0, 0, 1), link(0, 2, 1)], axiom)?;
    breaks(&rt, &[1], &[link(0, 1, 0)], axiom, 0)?;
    breaks(&rt, &[1, 2, 4], &two, axiom, 0)?;
    breaks(&rt, &[1, 4, 2], &two, axiom, 0)?;
    let more = [link(0, 1, 1), link(3, 1, 0), link(2, 1, 1), link(2, 1, 3)];
    breaks(&rt, &[0, 2, 1, 1], &more, axiom, 2)
}

#[test]
fn role_inclusions(rt: HostRuntime) -> Result<(), Fail> {
    let axiom = roles(0, 1);
    let none = [0, 0, 0];
    obeys(&rt, &none, &[], axiom)?;
    obeys(&rt, &none, &[link(0, 0, 1), link(0, 1, 1)], axiom)?;
    obeys(&rt, &none, &[link(0, 1, 1), link(2, 3, 2)], axiom)?;
    obeys(&rt, &none, &[link(0, 0, 1)], roles(0, 0))?;
    breaks(&rt, &none, &[link(0, 0, 1)], axiom, 0)?;
    breaks(&rt, &none, &[link(0, 0, 1), link(1, 1, 0)], axiom, 0)?;
    breaks(&rt, &none, &[link(1, 0, 1), link(1, 2, 1)], axiom, 1)?;
    let two = [link(2, 0, 1), link(2, 0, 2), link(2, 1, 1)];
    breaks(&rt, &none, &two, axiom, 2)?;
    breaks(&rt, &none, &[link(2, 0, 0), link(1, 0, 2)], axiom, 1)
}

/// The first axiom counts, however high the element that breaks it, and then the lowest element.
#[test]
fn first_axiom_and_lowest_element(rt: HostRuntime) -> Result<(), Fail> {
    let classes = [1, 3, 4, 4];
    let links = [link(1, 0, 2), link(3, 0, 0), link(2, 1, 2)];
    let kept = inclusion(2, 1);
    let at_two = inclusion(4, 8);
    let at_one = forall(1, 0, 0);
    let at_zero = exists(0, 0, 2);
    let finds_in = [
        ([kept, at_two, at_one, at_zero], broken(1, 2)),
        ([at_zero, at_one, at_two, kept], broken(0, 0)),
        ([kept, kept, kept, at_one], broken(3, 1)),
        ([kept, roles(1, 1), at_one, at_one], broken(2, 1)),
        ([roles(0, 1), at_zero, kept, kept], broken(0, 1)),
        ([exists_lower(0, 0, 1), kept, kept, at_zero], broken(0, 3)),
        ([kept, kept, kept, kept], None),
    ];
    for (axioms, wanted) in finds_in {
        finds(&rt, &classes, &links, &axioms, wanted)?;
    }
    finds(&rt, &classes, &links, &[], None)
}
