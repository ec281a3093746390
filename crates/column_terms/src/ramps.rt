// The ramps over the hour before, which join a column of a slice to that of the next.
ghost use Rattle.std.specs.Prelude.{◌≡◌, get_or};
ghost use Rattle.column_terms.specs.Pairs.{family_sets, pair_of};
ghost use Rattle.column_terms.specs.Ramps.{RampAt, in_ramps};

use crate::Pair;
use crate::readers::after_first_hour;
use duals::Multipliers;

// A column of slice s in its two ramps: family `fall` limits its fall, `rise` its rise. The column is the later one in the rows of its own slice, the
// earlier in those of the next. Inlined at each use, as `add_row` is: otherwise its families are no constants.
#[inline(always)]
pub fn in_ramps(
    multipliers: &Multipliers,
    fall: usize,
    rise: usize,
    y: usize,
    i: usize,
    s: usize,
) -> Pair
    requires { RampAt multipliers.now.counts (get_or family_sets fall 0) fall y i s × RampAt multipliers.now.counts (get_or family_sets rise 0) rise y i s }
    ensures { result ≡ pair_of multipliers.now.counts multipliers.now.list.now (in_ramps multipliers.now.counts fall rise y i s) (in_ramps multipliers.now.counts rise fall y i s) }
{
    let next = s + 1;
    let own = after_first_hour(multipliers.counts, s);
    let later = after_first_hour(multipliers.counts, next);
    Pair::none()
        .add_row_if(own, 1000, multipliers, fall, y, i, 0, s)
        .take_row_if(own, 1000, multipliers, rise, y, i, 0, s)
        .add_row_if(later, 1000, multipliers, rise, y, i, 0, next)
        .take_row_if(later, 1000, multipliers, fall, y, i, 0, next)
}
