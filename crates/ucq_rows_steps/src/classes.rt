//! Which numbers are in one class.
ghost use Rattle.std.specs.Prelude.{◌≡◌, ◌<◌, length};

use crate::asserts::{equal, holds};
use std::alloc::Global;
use std::process::Abort;
use ucq_partition::Partition;

/// Four numbers, of which 3 is joined with 1, and 1 with 2.
fn joined(rt: &impl Abort, alloc: Global) -> Partition
    ensures { length result ≡ 4 }
{
    let mut classes = match Partition::new(alloc, 4) {
        Ok(classes) => classes,
        Err(fault) => panic!(rt; "{fault:?}"),
    };
    classes.join(3, 1);
    classes.join(1, 2);
    classes
}

/// The label of a number that there is.
fn label(classes: &Partition, number: u32) -> u32
    requires number { number < 4 }
    requires size { length classes.now ≡ 4 }
{
    classes.label(number)
}

#[test]
fn joined_numbers_have_the_least_of_them_as_label(rt: HostRuntime) {
    let classes = joined(&rt, rt.alloc());
    equal(
        &rt,
        (label(&classes, 0), label(&classes, 1)),
        (0, 1),
        "0 and 1",
    );
    equal(
        &rt,
        (label(&classes, 2), label(&classes, 3)),
        (1, 1),
        "2 and 3",
    );
}

/// Whether two numbers that there are are in one class.
fn same(classes: &Partition, number: u32, other: u32) -> bool
    requires number { number < 4 }
    requires other { other < 4 }
    requires size { length classes.now ≡ 4 }
{
    classes.same(number, other)
}

#[test]
fn a_chain_of_joins_makes_numbers_the_same(rt: HostRuntime) {
    let classes = joined(&rt, rt.alloc());
    holds(&rt, same(&classes, 2, 3));
    holds(&rt, !same(&classes, 0, 3));
}

#[test]
fn cleared_numbers_are_apart(rt: HostRuntime) {
    let mut classes = joined(&rt, rt.alloc());
    classes.clear();
    holds(&rt, !same(&classes, 1, 2));
}
