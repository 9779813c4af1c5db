// The calls on examples: each refusal beside the nearest call that is not refused, and a stay run to its end.
use crate::stay::Stay;
use ledger::Refusal;
use measure::{Energy, Measure};
use std::process::Abort;
use std::test::Fail;
use tariff::{Energies, EnergyTable};

// Watt-hours of a slot by speed.
const ENERGIES: [u32; 16] = [1, 4, 0, 15, 0, 0, 0, 0, 0, 0, 0, 0, 0, 0, 0, 0];

// Four slots, speeds 0, 1 and 3.
const OPENED: Ask = Ask::Open(4, &[0, 1, 3]);

const FIRST: Ask = Ask::Book(101, 0, 2, 2);

const SECOND: Ask = Ask::Book(102, 1, 4, 3);

const WIDE: Ask = Ask::Book(103, 0, 4, 2);
// As much memory as the two jobs need.
const PLANNED: Ask = Ask::Plan(24, 12);

// A call: slots and speeds; number, release, due slot and work; a number; bytes and measures lent.
#[derive(Clone, Copy)]
enum Ask {
    Open(u32, &'static [u32]),
    Book(u32, u32, u32, u32),
    Withdraw(u32),
    Plan(usize, usize),
    Run,
}

// Plans by energy in so much lent memory, which a refusal leaves as it was.
fn planned_within(
    rt: &impl Abort,
    stay: &mut Stay,
    bytes: usize,
    measures: usize,
) -> Result<(), Refusal> {
    assert!(rt; bytes <= 24 && measures <= 12);
    let mut lent = [7u8; 24];
    let mut rows = [Energy::of(5); 12];
    let table = EnergyTable::new(Energies::checked(ENERGIES).expect(rt, "energies within bounds"));
    let answer = stay.plan(&table, &mut lent[..bytes], &mut rows[..measures]);
    if answer.is_err() {
        assert_eq!(rt; lent, [7; 24]);
        assert!(rt; rows.iter().all(|row| row.value() == 5));
    }
    answer.map(|_| ())
}

// How a call is met.
fn met(rt: &impl Abort, stay: &mut Stay, ask: Ask) -> Result<(), Refusal> {
    match ask {
        Ask::Open(slots, speeds) => stay.open(slots, speeds),
        Ask::Book(number, release, due, work) => {
            stay.book(number, release, due, work).map(|_| ())
        }
        Ask::Withdraw(number) => stay.withdraw(number).map(|_| ()),
        Ask::Plan(bytes, measures) => planned_within(rt, stay, bytes, measures),
        Ask::Run => stay.run().map(|_| ()),
    }
}

// A new stay after some calls, all of them accepted.
fn after(rt: &impl Abort, calls: &[Ask]) -> Stay {
    let mut stay = Stay::new();
    for ask in calls {
        assert_eq!(rt; met(rt, &mut stay, *ask), Ok(()));
    }
    stay
}

// Whether two stays have the same slots and speeds and answer every question alike. Not `==`: what stands past
// the last job is no part of what a stay tells.
fn alike(a: &Stay, b: &Stay) -> bool {
    (0..64).all(|place| a.job_at(place) == b.job_at(place))
        && (0..97).all(|slot| a.speed_at(slot) == b.speed_at(slot))
        && a.slots == b.slots
        && a.speeds.listed() == b.speeds.listed()
        && a.clock() == b.clock()
        && a.mark() == b.mark()
}

// After some calls, the number by which each of some next ones is refused, if it is; a refusal changes nothing.
fn each_met(rt: &impl Abort, calls: &[Ask], cases: &[(Ask, Option<u8>)]) {
    let stay = after(rt, calls);
    for (ask, number) in cases {
        let mut next = stay;
        let refusal = met(rt, &mut next, *ask).err();
        assert_eq!(rt; refusal.map(Refusal::number), *number);
        assert!(rt; number.is_none() || alike(&next, &stay));
    }
}

#[test]
fn each_refusal_beside_its_nearest_acceptance(rt: HostRuntime) {
    each_met(
        &rt,
        &[OPENED, FIRST, PLANNED],
        &[
            (Ask::Open(0, &[0, 1, 3]), Some(1)),
            (Ask::Open(1, &[0, 1, 3]), None),
            (Ask::Open(97, &[0, 1, 3]), Some(1)),
            (Ask::Open(96, &[0, 1, 3]), None),
            (Ask::Open(260, &[0, 1, 3]), Some(1)),
            (Ask::Open(4, &[0]), Some(2)),
            (Ask::Open(4, &[0, 1]), None),
            (Ask::Open(4, &[0, 1, 16]), Some(2)),
            (Ask::Open(4, &[0, 1, 15]), None),
            (Ask::Open(4, &[1, 2, 3]), Some(2)),
            (Ask::Open(4, &[0, 2, 2]), Some(2)),
            (Ask::Open(4, &[0, 2, 258]), Some(2)),
            (Ask::Open(0, &[0, 2, 2]), Some(1)),
            (Ask::Withdraw(102), Some(10)),
            (Ask::Withdraw(0), Some(10)),
            (Ask::Withdraw(101), None),
        ],
    );
    each_met(
        &rt,
        &[OPENED, FIRST, PLANNED, Ask::Run],
        &[
            (Ask::Book(0, 1, 4, 1), Some(3)),
            (Ask::Book(1, 1, 4, 1), None),
            (Ask::Book(1_000_000, 1, 4, 1), Some(3)),
            (Ask::Book(999_999, 1, 4, 1), None),
            (Ask::Book(9, 0, 4, 1), Some(4)),
            (Ask::Book(9, 2, 2, 1), Some(4)),
            (Ask::Book(9, 2, 3, 1), None),
            (Ask::Book(9, 1, 5, 1), Some(4)),
            (Ask::Book(9, 1, 260, 1), Some(4)),
            (Ask::Book(9, 257, 4, 1), Some(4)),
            (Ask::Book(9, 1, 4, 0), Some(5)),
            (Ask::Book(9, 1, 4, 601), Some(5)),
            (Ask::Book(9, 1, 4, 600), Some(7)),
            (Ask::Book(9, 1, 4, 65_537), Some(5)),
            (Ask::Book(101, 1, 4, 1), Some(6)),
            (Ask::Book(102, 1, 4, 1), None),
            (Ask::Book(101, 1, 4, 600), Some(6)),
        ],
    );
    each_met(
        &rt,
        &[OPENED, WIDE],
        &[
            (Ask::Book(9, 1, 3, 1), Some(8)),
            (Ask::Book(9, 0, 3, 1), None),
            (Ask::Book(9, 1, 4, 1), None),
        ],
    );
    each_met(
        &rt,
        &[OPENED, WIDE, Ask::Plan(12, 6), Ask::Run],
        &[(Ask::Book(9, 1, 3, 1), None)],
    );
    each_met(
        &rt,
        &[OPENED],
        &[
            (Ask::Book(9, 0, 1, 4), Some(9)),
            (Ask::Book(9, 0, 1, 3), None),
        ],
    );
    each_met(
        &rt,
        &[OPENED, FIRST],
        &[
            (Ask::Book(9, 1, 4, 10), Some(9)),
            (Ask::Book(9, 1, 4, 9), None),
        ],
    );
    each_met(
        &rt,
        &[OPENED, FIRST, SECOND],
        &[
            (Ask::Plan(23, 12), Some(11)),
            (Ask::Plan(24, 11), Some(11)),
            (PLANNED, None),
            (Ask::Run, Some(13)),
        ],
    );
    each_met(&rt, &[OPENED, FIRST, SECOND, PLANNED], &[(Ask::Run, None)]);
    each_met(
        &rt,
        &[OPENED, FIRST, SECOND, PLANNED, Ask::Run, Ask::Run, Ask::Run],
        &[(Ask::Run, None)],
    );
    each_met(
        &rt,
        &[
            OPENED,
            FIRST,
            SECOND,
            PLANNED,
            Ask::Run,
            Ask::Run,
            Ask::Run,
            Ask::Run,
        ],
        &[
            (Ask::Run, Some(12)),
            (Ask::Plan(0, 1), Some(11)),
            (Ask::Plan(0, 2), None),
        ],
    );
}

#[test]
fn a_full_queue(rt: HostRuntime) {
    let mut stay = after(&rt, &[Ask::Open(96, &[0, 15])]);
    for number in 1..64 {
        assert!(rt; stay.book(number, 0, 96, 1).is_ok());
    }
    let mut heavy = stay;
    assert_eq!(rt; heavy.book(64, 0, 96, 538).map_err(Refusal::number), Err(7));
    assert!(rt; alike(&heavy, &stay));
    assert!(rt; heavy.book(64, 0, 96, 537).is_ok());
    assert!(rt; stay.book(64, 0, 96, 1).is_ok());
    let full = stay;
    assert_eq!(rt; stay.book(65, 0, 96, 1).map_err(Refusal::number), Err(7));
    assert!(rt; alike(&stay, &full));
    assert!(rt; stay.withdraw(1).is_ok());
    assert!(rt; stay.book(65, 0, 96, 1).is_ok());
}

#[test]
fn a_stay_run_to_its_end(rt: HostRuntime) -> Result<(), Fail> {
    let mut stay = after(&rt, &[OPENED, FIRST]);
    assert_eq!(rt; stay.book(102, 1, 4, 3)?, 2);
    assert_eq!(rt; stay.mark(), None);
    let table = EnergyTable::new(Energies::checked(ENERGIES)?);
    let mut bytes = [0u8; 24];
    let mut measures = [Energy::nought(); 12];
    let (slots, least) = stay.plan(&table, &mut bytes, &mut measures)?;
    assert_eq!(rt; slots, 4);
    assert_eq!(rt; least.value(), 24);
    assert_eq!(rt; stay.mark(), Some(1));
    assert_eq!(rt; stay.speed_at(1), Some(3));
    assert_eq!(rt; stay.speed_at(4), None);
    assert_eq!(rt; stay.run()?, (0, 0, 0));
    assert_eq!(rt; stay.run()?, (3, 3, 1));
    assert_eq!(rt; stay.speed_at(1), None);
    assert_eq!(rt; stay.speed_at(2), Some(1));
    let job = stay.job_at(0).ok_or("a job is open")?;
    assert_eq!(rt; job.number, 102);
    assert_eq!(rt; job.left, 2);
    assert_eq!(rt; stay.job_at(1), None);
    assert_eq!(rt; stay.run()?, (1, 1, 0));
    assert_eq!(rt; stay.run()?, (1, 1, 1));
    assert_eq!(rt; stay.clock(), 4);
    assert!(rt; stay.withdraw(102).is_err());
    Ok(())
}
