// The table of the plants' energy, filled: a sum for each year, plant and season.
#![tactic(auto)]

ghost use Rattle.energy.specs.Energies.{Energies};
ghost use Rattle.tables.specs.Lists.{data_of, entry_of};

use energy::totals::{EnergyTable, energy_place, season_energy};
use parts::years::plan_part;
use tables::lists::Case;
use tables::names::GEN;

// The energies of every year, plant and season. The place is made of the three indices, so they are counted.
pub fn fill_energies(case: &Case, energy: &mut EnergyTable)
    ensures { Energies (data_of case.now.tables) (entry_of case.now.plan) energy.new case.now.plan.counts }
{
    for y in 0..case.plan.counts.years {
        let outputs = plan_part(&case.plan, GEN, y);
        for g in 0..case.plan.counts.plants {
            for q in 0..case.plan.counts.seasons {
                let place = energy_place(case.plan.counts, y, g, q);
                energy[place] = capped::keep(season_energy(&case.tables, outputs, g, q));
            }
        }
    }
}
