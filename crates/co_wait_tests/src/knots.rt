//! Rows of waits, and the text of each with its knot.
use co_base::Txn;
use co_wait::{Knot, Wait, Waits, are_ascending, knot_holds, untangle, waits_text};
use std::alloc::{AllocError, Global};
use std::process::Abort;
use std::test::Fail;

/// The held transaction, the member and the transaction in the way, of each wait; and the text.
type Row<'a> = (&'a [(u32, u8, u32)], &'a str);

const ROWS: [Row<'static>; 9] = [
    (&[], "order 0\n"),
    (
        &[(1, 2, 2), (2, 1, 1)],
        "wait 1 m2 2\nwait 2 m1 1\ncycle 1 m2 2 m1\n",
    ),
    (&[(2, 1, 1)], "wait 2 m1 1\norder 2\nrank 1 0\nrank 2 1\n"),
    (&[(7, 3, 7)], "wait 7 m3 7\ncycle 7 m3\n"),
    (
        &[(1, 1, 2), (1, 3, 4), (3, 1, 4), (4, 2, 1)],
        "wait 1 m1 2\nwait 1 m3 4\nwait 3 m1 4\nwait 4 m2 1\ncycle 1 m3 4 m2\n",
    ),
    (
        &[(1, 1, 5), (3, 1, 9), (5, 2, 9), (9, 1, 3)],
        "wait 1 m1 5\nwait 3 m1 9\nwait 5 m2 9\nwait 9 m1 3\ncycle 3 m1 9 m1\n",
    ),
    (
        &[(1, 1, 2), (1, 2, 3), (2, 1, 3), (3, 1, 1)],
        "wait 1 m1 2\nwait 1 m2 3\nwait 2 m1 3\nwait 3 m1 1\ncycle 1 m1 2 m1 3 m1\n",
    ),
    (
        &[(1, 1, 3), (2, 1, 4), (3, 1, 4), (4, 1, 3)],
        "wait 1 m1 3\nwait 2 m1 4\nwait 3 m1 4\nwait 4 m1 3\ncycle 3 m1 4 m1\n",
    ),
    (
        &[(1, 1, 2), (1, 2, 4), (2, 1, 3), (3, 2, 4), (5, 1, 1)],
        "wait 1 m1 2\nwait 1 m2 4\nwait 2 m1 3\nwait 3 m2 4\nwait 5 m1 1\norder 5\nrank 1 3\nrank 2 2\nrank 3 1\nrank 4 0\nrank 5 4\n",
    ),
];

/// The wait of one transaction for another at a member.
fn wait(held: u32, member: u8, by: u32) -> Wait {
    Wait {
        member,
        held: Txn(held),
        by: Txn(by),
    }
}

/// So many transactions of which each waits for the next one, and the last one for the first one where they are a ring.
fn line_of(alloc: Global, count: u32, ring: bool) -> Result<Waits, AllocError> {
    let mut waits = Waits::new(alloc);
    for number in 0..count {
        let next = number + 1;
        if next < count {
            waits.push(wait(number, 1, next))?;
        } else if ring {
            waits.push(wait(number, 1, 0))?;
        }
    }
    Ok(waits)
}

/// How many waits the knot of these has in a row.
fn length_of_knot(rt: &impl Abort, alloc: Global, waits: &Waits) -> Result<usize, AllocError> {
    assert!(rt; are_ascending(waits));
    match untangle(alloc, waits)? {
        Knot::Cycle(legs) => Ok(legs.len()),
        Knot::Order(ranks) => Ok(
            ranks
                .as_slice()
                .iter()
                .map(|rank| rank.rank as usize)
                .max()
                .unwrap_or(0),
        ),
    }
}

#[test]
fn rows_come_to_their_texts(rt: HostRuntime) -> Result<(), Fail> {
    for (row, text) in ROWS {
        let mut waits = Waits::new(rt.alloc());
        for (held, member, by) in row {
            waits.push(wait(*held, *member, *by))?;
        }
        assert!(rt; are_ascending(&waits), "in {text:?}");
        let knot = untangle(rt.alloc(), &waits)?;
        assert!(rt; knot_holds(&waits, &knot), "in {text:?}");
        let told = waits_text(rt.alloc(), &waits, &knot)?;
        assert_eq!(rt; told.as_slice(), text.as_bytes());
    }
    Ok(())
}

#[test]
fn many_waits_are_untangled(rt: HostRuntime) -> Result<(), Fail> {
    for count in [1_024, 65_536] {
        let ring = line_of(rt.alloc(), count, true)?;
        assert_eq!(rt; length_of_knot(&rt, rt.alloc(), &ring)?, count as usize);
        let chain = line_of(rt.alloc(), count, false)?;
        assert_eq!(rt;
            length_of_knot(&rt, rt.alloc(), &chain)?,
            count as usize - 1
        );
    }
    Ok(())
}
