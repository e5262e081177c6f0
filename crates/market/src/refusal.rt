// Why a call is refused.
ghost use Rattle.std.specs.Prelude.{◌≡◌};
ghost use Rattle.market.specs.Refusals.{refusal_number};

#[derive(Clone, Copy, Debug, PartialEq, Eq)]
pub enum Refusal {
    // The moment lies before the last one.
    MomentPassed = 1,
    // An auction is open.
    AuctionOpen = 2,
    // No auction is open, or the ticket is another's.
    NotRunning = 3,
    // The exposure is over.
    ExposureOver = 4,
    // The exposure still runs.
    ExposureRuns = 5,
    // A field is outside its limits, or not for this kind of market.
    OutOfLimits = 6,
    // No more auctions can be started.
    TooManyAuctions = 7,
    // The order is below the least size of its mechanism.
    TooSmall = 8,
    // The pool lists more entries than an auction can take in.
    PoolTooDeep = 9,
    // The order's price fails against what stands elsewhere.
    PriceOutside = 10,
    // The response is worse than the order.
    WorseThanOrder = 11,
    // A response stands in the place.
    PlaceTaken = 12,
    // No response stands in the place.
    PlaceEmpty = 13,
    // The blotter has too few lines.
    BlotterShort = 14,
    // No entry stands at the place, or that many contracts cannot be taken of it.
    NotTakable = 15,
    // An order with contracts stands under the number.
    NumberStands = 16,
    // There is no room for one more.
    NoSpace = 17,
}

impl Refusal {
    // The number under which it is written.
    pub fn number(self) -> u8
        ensures { result ≡ refusal_number self }
    {
        self as u8
    }
}
