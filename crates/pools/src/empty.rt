// The depth that lists nothing.
ghost use Rattle.std.specs.Prelude.{[]};
ghost use Rattle.std.proofs.Common.{rules};

use market::depth::Depth;
use market::entry::Entry;
use market::refusal::Refusal;

#[derive(Clone, Copy)]
pub struct Empty;

impl Depth for Empty {
    ghost entries = { λ _. [] };

    ghost limits = { Prim.search rules };

    fn count(&self) -> usize {
        0
    }

    fn entry(&self, _place: usize) -> Result<Entry, Refusal> {
        Err(Refusal::NotTakable)
    }
}
