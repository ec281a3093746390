// Which families have a constant.
ghost use Rattle.std.specs.Prelude.{◌≡◌, ◌<◌};
ghost use Rattle.model.specs.Families.{family_count};
ghost use Rattle.constants.specs.Constants.{has_constant};

use model::FAMILY_COUNT;

// Whether the rows of each family have a constant, in the order of documents 01 and 02. Beside the fixed table of families and no field of it: document 01
// names its three fields.
const CONSTANT_FAMILIES: [bool; FAMILY_COUNT] = [
    true, // 1 balance
    true, // 2 transfer
    true, // 3 spinning
    true, // 4 firm
    false, // 5 loading
    false, // 6 offer
    false, // 7 ramp down
    false, // 8 ramp up
    false, // 9 minimum load
    false, // 10 available
    false, // 11 profiled
    true, // 12 stock
    false, // 13 life
    false, // 14 fixed
    true, // 15 new capacity
    true, // 16 yearly build
    true, // 17 fuel use
    true, // 18 capital
    true, // 19 zone emission
    true, // 20 system emission
    false, // 21 battery level
    false, // 22 charge limit
    false, // 23 charge rise
    false, // 24 charge fall
    true, // 25 level limit
    false, // 26 line balance
    true, // 27 new lines
    false, // 28 lines both ways
];

// One of six readers of a fixed table: the reason stands beside `table_set` (tables/src/starts.rt).
#[tactic(auto, unfolding(crate::specs::Constants::has_constant))]
pub fn has_constant(k: usize) -> bool
    requires { k < family_count }
    ensures { result ≡ has_constant k }
{
    CONSTANT_FAMILIES[k]
}
