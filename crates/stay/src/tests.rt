// The parts on examples.
ghost use Rattle.std.specs.Prelude.{◌≡◌, ◌≤◌};

use crate::slots_ahead::SlotsAhead;
use crate::speed_list::SpeedList;
use crate::table::Table;
use ledger::Job;
use std::test::Fail;

fn job(number: u32, release: u8, due: u8, left: u16) -> Job
    ensures { result ≡ record { number = number; release = release; due = due; left = left } }
{
    Job {
        number,
        release,
        due,
        left,
    }
}

// Jobs 7 and 8, level with each other, behind job 9.
fn three_jobs() -> Table<Job>
    ensures { result.count ≡ 3 }
{
    Table::empty()
        .entered(job(7, 1, 4, 5))
        .entered(job(8, 1, 4, 2))
        .entered(job(9, 0, 2, 3))
}

// Four slots, from the clock on.
fn four_slots(clock: u8) -> SlotsAhead
    requires { clock ≤ 4 }
{
    SlotsAhead { clock, slots: 4 }
}

#[test]
fn lists_of_speeds(rt: HostRuntime) -> Result<(), Fail> {
    assert!(rt; SpeedList::from_slice(&[0, 3, 16]).is_none());
    assert!(rt; SpeedList::from_slice(&[0, 3, 3]).is_none());
    assert!(rt; SpeedList::from_slice(&[1, 3]).is_none());
    assert!(rt; SpeedList::from_slice(&[0]).is_none());
    let speeds = SpeedList::from_slice(&[0, 3, 15]).ok_or("the list is lawful")?;
    assert_eq!(rt; speeds.top(), 15);
    assert_eq!(rt; speeds.listed().len(), 3);
    Ok(())
}

#[test]
fn jobs_stand_in_queue_order(rt: HostRuntime) {
    let table = three_jobs();
    let jobs = table.jobs;
    assert_eq!(rt; jobs[0].number, 9);
    assert_eq!(rt; jobs[1].number, 7);
    assert_eq!(rt; jobs[2].number, 8);
    assert_eq!(rt; table.work_left(), 10);
    assert_eq!(rt; table.find(8), Some(2));
    assert_eq!(rt; table.find(6), None);
    let less = table.struck(1).jobs;
    assert_eq!(rt; less[1].number, 8);
    assert_eq!(rt; table.work_sums(2), (3, 10));
}

#[test]
fn a_slot_pumps_released_jobs(rt: HostRuntime) {
    let first = three_jobs().pump(0, 5);
    assert_eq!(rt; first.units, 3);
    assert_eq!(rt; first.finished, 1);
    let second = first.table.pump(1, 6);
    assert_eq!(rt; second.units, 6);
    assert_eq!(rt; second.finished, 1);
    assert_eq!(rt; second.table.count, 1);
    let jobs = second.table.jobs;
    assert_eq!(rt; jobs[0].left, 1);
}

#[test]
fn room_and_nesting(rt: HostRuntime) -> Result<(), Fail> {
    let table = three_jobs();
    let speeds = SpeedList::from_slice(&[0, 3]).ok_or("the list is lawful")?;
    assert!(rt; table.has_room(four_slots(0), speeds));
    assert!(rt; !table.has_room(four_slots(1), speeds));
    assert!(rt; table.nests(0, job(5, 2, 3, 1)));
    assert!(rt; !table.nests(2, job(5, 2, 3, 1)));
    Ok(())
}
