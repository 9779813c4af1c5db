//! Plans the worked stay by energy and prints its page.
#![tactic(auto)]

ghost use Rattle.std.specs.Prelude.{◌≡◌, Ok};
ghost use Rattle.tariff.specs.Checks.{told, values_of};
ghost use Rattle.pumpplan.specs.declared.Fault.TheVariants.{Tariff as TariffFault, Unplanned as UnplannedFault};
ghost use Rattle.pumpplan.specs.Worked.{worked_energies, worked_plan};

use measure::{Energy, Measure};
use recursion::{SlotWork, Unplanned, plan};
use std::error::Error;
use std::fmt;
use tariff::{Energies, EnergyTable, Tariff, TariffRefusal};

// Watt-hours of a slot by speed; the pump runs at 0, 1 or 3.
const ENERGIES: [u32; 16] = [1, 4, 0, 15, 0, 0, 0, 0, 0, 0, 0, 0, 0, 0, 0, 0];

const SPEEDS: [u8; 3] = [0, 1, 3];

// The first job brings two units in slot 0, to be done within two slots; the second three in slot 1, to be done by the end.
const WORK: [SlotWork; 4] = [
    SlotWork { due: 0, arrived: 2 },
    SlotWork { due: 2, arrived: 5 },
    SlotWork { due: 2, arrived: 5 },
    SlotWork { due: 5, arrived: 5 },
];

/// Why the stay is not planned.
#[derive(Clone, Copy, Debug)]
enum Fault {
    Tariff(TariffRefusal),
    Unplanned(Unplanned),
}

// The conversions are written out, so that clauses can name the case that `?` makes.

impl From<TariffRefusal> for Fault {
    ghost from_gives = { λ e r. r ≡ TariffFault e };

    fn from(e: TariffRefusal) -> Fault {
        Fault::Tariff(e)
    }
}

impl From<Unplanned> for Fault {
    ghost from_gives = { λ e r. r ≡ UnplannedFault e };

    fn from(e: Unplanned) -> Fault {
        Fault::Unplanned(e)
    }
}

impl fmt::Display for Fault {
    fn fmt<W: fmt::Write>(&self, f: &mut fmt::Formatter<W>) -> fmt::Result {
        match self {
            Fault::Tariff(_) => write!(f, "the energies pass their bound"),
            Fault::Unplanned(_) => write!(f, "the stay has no plan"),
        }
    }
}

impl Error for Fault {}

/// The speeds of the slots and what they cost.
#[derive(Clone, Copy)]
struct Plan {
    speeds: [u8; 4],
    total: u64,
}

// The tariff of the stay.
fn worked_energies() -> Result<Energies, Fault>
    ensures { told values_of result ≡ Ok worked_energies }
{
    Ok(Energies::checked(ENERGIES)?)
}

// The plan of the stay.
fn worked_plan(table: &EnergyTable) -> Result<Plan, Fault>
    requires { table.now.energies.values ≡ worked_energies }
    ensures { result ≡ Ok worked_plan }
{
    let mut bytes = [0u8; 24];
    let mut measures = [Energy::nought(); 12];
    let mut speeds = [0u8; 4];
    let least = plan(
        table,
        &SPEEDS,
        0,
        &WORK,
        &mut bytes,
        &mut measures,
        &mut speeds,
    )?;
    Ok(Plan {
        speeds,
        total: least.value(),
    })
}

fn print_page(rt: &HostRuntime, table: &EnergyTable, plan: &Plan) -> anyhow::Result<()> {
    let mut done = 0u16;
    for ((slot, speed), work) in (0..4u32).zip(&plan.speeds).zip(&WORK) {
        let after = done.saturating_add(*speed as u16).min(work.arrived);
        let units = after.saturating_sub(done);
        let charge = table.charge_for(slot, *speed as u32);
        println!(rt; "{slot:>4}{speed:>4}{units:>4}{charge:>12}")?;
        done = after;
    }
    let total = plan.total;
    println!(rt; "{total:>24}")?;
    Ok(())
}

fn run(rt: &HostRuntime) -> anyhow::Result<()> {
    let table = EnergyTable::new(worked_energies()?);
    let plan = worked_plan(&table)?;
    print_page(rt, &table, &plan)
}

fn main(rt: HostRuntime) -> anyhow::Result<()> {
    run(&rt)
}

#[cfg(test)]
mod tests {
    use super::*;
    use measure::Peak;
    use std::test::Fail;
    use tariff::{Coefficients, CubicDrive, PriceList, Prices};

    const NO_WORK: [SlotWork; 4] = [SlotWork { due: 0, arrived: 0 }; 4];

    const LATER_JOB: [SlotWork; 4] = [
        SlotWork { due: 0, arrived: 0 },
        SlotWork { due: 0, arrived: 3 },
        SlotWork { due: 0, arrived: 3 },
        SlotWork { due: 3, arrived: 3 },
    ];

    // Four units due after one slot, at speeds up to 3.
    const TOO_LATE: [SlotWork; 4] = [SlotWork { due: 4, arrived: 4 }; 4];

    fn worked_tariff() -> Result<EnergyTable, TariffRefusal> {
        Ok(EnergyTable::new(Energies::checked(ENERGIES)?))
    }

    // Plans by energy in as much memory as is asked; the places hold 9 before.
    fn by_energy<T: Tariff>(
        tariff: &T,
        speeds: &[u8],
        work: &[SlotWork],
        bytes: usize,
    ) -> (Result<u64, Unplanned>, [u8; 4]) {
        let mut memory = [7u8; 24];
        let mut measures = [Energy::nought(); 12];
        let mut chosen = [9u8; 4];
        let part = &mut memory[0..bytes.min(24)];
        let least = plan(tariff, speeds, 0, work, part, &mut measures, &mut chosen);
        (least.map(Energy::value), chosen)
    }

    #[test]
    fn plans_and_refusals(rt: HostRuntime) -> Result<(), Fail> {
        let table = worked_tariff()?;
        assert_eq!(rt;
            by_energy(&table, &SPEEDS, &WORK, 24),
            (Ok(24), [0, 3, 1, 1])
        );
        assert_eq!(rt;
            by_energy(&table, &SPEEDS, &NO_WORK, 24),
            (Ok(4), [0, 0, 0, 0])
        );
        assert_eq!(rt;
            by_energy(&table, &SPEEDS, &LATER_JOB, 24),
            (Ok(13), [0, 1, 1, 1])
        );
        assert_eq!(rt;
            by_energy(&table, &SPEEDS, &WORK, 23),
            (Err(Unplanned::Memory), [9, 9, 9, 9])
        );
        assert_eq!(rt;
            by_energy(&table, &[0, 3, 1], &WORK, 24),
            (Err(Unplanned::Speeds), [9, 9, 9, 9])
        );
        assert_eq!(rt;
            by_energy(&table, &[0, 16], &WORK, 24),
            (Err(Unplanned::Speeds), [9, 9, 9, 9])
        );
        assert_eq!(rt;
            by_energy(&table, &SPEEDS, &[SlotWork { due: 0, arrived: 0 }; 3], 24),
            (Err(Unplanned::Slots), [9, 9, 9, 9])
        );
        assert_eq!(rt;
            by_energy(&table, &SPEEDS, &TOO_LATE, 24),
            (Err(Unplanned::Late), [9, 9, 9, 9])
        );
        Ok(())
    }

    #[test]
    fn peak_prices_and_drive(rt: HostRuntime) -> Result<(), Fail> {
        let table = worked_tariff()?;
        let mut bytes = [0u8; 24];
        let mut peaks = [Peak::nought(); 12];
        let mut chosen = [0u8; 4];
        let highest = plan(
            &table,
            &SPEEDS,
            0,
            &WORK,
            &mut bytes,
            &mut peaks,
            &mut chosen,
        )?;
        assert_eq!(rt; highest.value(), 15);
        assert_eq!(rt; Energy::MARK, Energy::mark_told());
        assert_eq!(rt; Peak::MARK, Peak::mark_told());
        assert_eq!(rt; chosen, [0, 3, 1, 1]);
        let mut prices = [1u32; 96];
        prices[2] = 9;
        prices[3] = 9;
        let priced = PriceList::new(table, Prices::checked(prices)?);
        assert_eq!(rt;
            by_energy(&priced, &SPEEDS, &WORK, 24),
            (Ok(48), [3, 3, 0, 0])
        );
        prices[95] = 1_001;
        assert!(rt; Prices::checked(prices).is_err());
        let drive = CubicDrive::new(Coefficients::checked(10, 2, 1)?);
        assert_eq!(rt; drive.charge_for(200, 3), 43);
        assert!(rt; Coefficients::checked(10, 2, 201).is_err());
        Ok(())
    }
}
