//! What cores are left of queries.
ghost use Rattle.ucq_terms.specs.Query.{IsStored};

use crate::asserts::{asked, equal, room};
use std::alloc::Global;
use std::process::Abort;
use ucq_fold::{is_core, shrink};
use ucq_hom::HomSpace;
use ucq_terms::Query;

/// Whether a query is a core, how many atoms are left of it, and whether these are a core.
#[derive(Clone, Copy, Debug, PartialEq, Eq)]
struct Remains {
    core: bool,
    left: usize,
    rest_is_core: bool,
}

fn shrunk(space: &mut HomSpace, mut given: Query) -> Remains
    requires { IsStored given }
{
    let core = is_core(space, &given);
    shrink(space, &mut given);
    Remains {
        core,
        left: given.atoms().len(),
        rest_is_core: is_core(space, &given) && space.image_of(0).is_none(),
    }
}

/// Asserts of each row whether the query is a core, and how many atoms are left of it.
fn assert_rows(rt: &impl Abort, alloc: Global, rows: &[(&str, bool, usize)]) {
    let mut space = room(rt, alloc);
    for (text, core, left) in rows {
        let wanted = Remains {
            core: *core,
            left: *left,
            rest_is_core: true,
        };
        equal(rt, shrunk(&mut space, asked(rt, alloc, text)), wanted, text);
    }
}

#[test]
fn tells_cores_and_shrinks_the_others(rt: HostRuntime) {
    assert_rows(
        &rt,
        rt.alloc(),
        &[
            ("? pAB", true, 1),
            ("? pAB pBC", true, 2),
            ("? pAB pAC", false, 1),
            ("?AC pAB pAC", false, 1),
            ("?BC pAB pAC", true, 2),
            ("?A pAB pBa pAC", false, 2),
            ("? pAB pBA pAA", false, 1),
            ("? pAB pBC pCA pDE pED", true, 5),
        ],
    );
}
