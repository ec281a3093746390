// What a plant is, and when it may have capacity.
// `is_existing`, `is_vre`, `is_battery`, and not one with the table and the number handed in: each is the definition of its name, and no plainer any other way.
// An index is asked below its count: the reason stands beside `Inside` (specs/Layout.antt).
ghost use Rattle.std.specs.Prelude.{◌≡◌, ◌<◌};
ghost use Rattle.model.specs.Data.{existing, is_vre, is_battery};
ghost use Rattle.model.specs.Families.{out_of_service};
ghost use Rattle.tables.specs.Lists.{data_of};

use crate::lists::Tables;
use crate::names::{BATTERY, KIND, VRE, YEAR};

impl Tables<'_> {
    // Existing, and not a candidate.
    pub fn is_existing(&self, g: usize) -> bool
        requires { g < self.now.counts.plants }
        ensures { result ≡ existing (data_of self.now) g }
    {
        self.by_plant(KIND, g) == 0
    }

    // Wind or sun.
    pub fn is_vre(&self, g: usize) -> bool
        requires { g < self.now.counts.plants }
        ensures { result ≡ is_vre (data_of self.now) g }
    {
        self.by_plant(VRE, g) == 1
    }

    pub fn is_battery(&self, g: usize) -> bool
        requires { g < self.now.counts.plants }
        ensures { result ≡ is_battery (data_of self.now) g }
    {
        self.by_plant(BATTERY, g) == 1
    }

    // Family 13's condition: an existing plant from its retirement year on, a candidate before its commission year.
    pub fn out_of_service(&self, y: usize, g: usize) -> bool
        requires { (y < self.now.counts.years) × (g < self.now.counts.plants) }
        ensures { result ≡ out_of_service (data_of self.now) y g }
    {
        let year = self.by_plant(YEAR, g);
        let this_year = y as u64 + 1;
        if self.is_existing(g) {
            return year <= this_year;
        }
        this_year < year
    }
}
