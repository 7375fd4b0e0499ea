// What blocks offer to plans.
ghost use Rattle.std.specs.Prelude.{◌≡◌, ◌≤◌};
ghost use Rattle.fb_wanted.specs.Offers.{offer_of};

use crate::Block;
use fb_units::Sweep;

/// What a wanted block offers to a plan.
#[derive(Clone, Copy)]
pub struct Offer {
    /// How the block passes.
    pub sweep: Sweep,
    /// Weight times sectors, at most 2,048,000.
    pub worth: u32,
    // The index of the block among all registered ones.
    pub(crate) index: u32,
}

/// What a block offers whose index among all registered ones is `index`.
pub fn offer_of(index: u32, block: Block) -> Offer
    requires light { block.weight ≤ 1000 }
    requires short { block.count ≤ 2048 }
    ensures { result ≡ offer_of index block }
{
    Offer {
        sweep: block.sweep,
        worth: block.weight * block.count,
        index,
    }
}
