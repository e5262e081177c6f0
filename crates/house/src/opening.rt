// Making a house.
ghost use Rattle.std.specs.Prelude.{◌≡◌};
ghost use Rattle.house.specs.Opening.{kind_of, ratio_of, house_ok, new_house};
ghost use Rattle.house.specs.Told.{house_told};

use super::state::House;
use super::trades::Trades;
use market::fields::in_range;
use market::names::Kind;
use market::refusal::Refusal;
use places::table::Places;

// The highest number of a house, and the highest ratio of a leg.
const HIGHEST_NUMBER: i64 = 65_535;

const HIGHEST_RATIO: i64 = 10;

fn kind_of(trades: Trades) -> Kind
    ensures { result ≡ kind_of trades }
{
    match trades {
        Trades::Series => Kind::Series,
        Trades::Net { .. } => Kind::Net,
    }
}

fn ratio_of(trades: Trades) -> i64
    ensures { result ≡ ratio_of trades }
{
    match trades {
        Trades::Series => 1,
        Trades::Net { smallest_ratio } => smallest_ratio,
    }
}

fn house_ok(number: i64, trades: Trades) -> bool
    ensures { result ≡ house_ok number trades }
{
    in_range(number, 1, HIGHEST_NUMBER) && in_range(ratio_of(trades), 1, HIGHEST_RATIO)
}

impl House {
    // A house that has started no auction; refused where its number or its smallest ratio is outside the limits. It needs no
    // memory.
    pub fn new(number: i64, trades: Trades) -> Result<House, Refusal>
        ensures { house_told result ≡ new_house number trades }
    {
        if !house_ok(number, trades) {
            return Err(Refusal::OutOfLimits);
        }
        Ok(House {
            number: number as u16,
            kind: kind_of(trades),
            ratio: ratio_of(trades) as u32,
            last: 0,
            started: 0,
            running: None,
            places: Places::new(),
            entered: 0,
            filled: 0,
            cancelled: 0,
        })
    }
}
