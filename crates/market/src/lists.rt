// Lists that count their places from 1.
ghost use Rattle.std.specs.Prelude.{◌≡◌};
ghost use Rattle.std.specs.Option.{ok_or};
ghost use Rattle.market.specs.Lists.{placed};

use super::refusal::Refusal;

// What stands at a place; refused where nothing does.
pub fn at_place<T: Copy>(items: &[T], place: usize) -> Result<T, Refusal>
    ensures { result ≡ ok_or (placed items.now place) Refusal.NotTakable }
{
    place
        .checked_sub(1)
        .and_then(|i| items.get(i))
        .copied()
        .ok_or(Refusal::NotTakable)
}
