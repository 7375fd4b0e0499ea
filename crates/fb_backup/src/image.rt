// The image of a backup: the contents that it has taken.
ghost use Rattle.std.specs.Prelude.{◌≡◌, ℕ, ◌+◌, ◌≤◌, ◌^◌, None, IfOk, OnOk, OnErr};
ghost use Rattle.std.specs.List.{range_with_len};
ghost use Rattle.fb_store.specs.declared.content.Content.{Content};
ghost use Rattle.fb_store.specs.Ranges.{held_at};
ghost use Rattle.fb_store.specs.Sparse.{Gives, EndsBy, after_take, after_dropping, held_in};
ghost use Rattle.fb_store.specs.Runs.{runs_of};

use fb_store::{Contents, SparseContents};
use fb_units::NoMemory;
use fb_wanted::Block;
use std::alloc::Global;
use std::marker::Model;

/// What the delivered blocks of a backup hold.
///
/// A sector has the content that was taken last, unless it was dropped since.
#[derive(Drop)]
pub struct Image {
    held: SparseContents,
}

impl Model for Image {
    ghost use Rattle.std.specs.Prelude.{ℕ, List, Option};
    ghost use Rattle.fb_store.specs.declared.content.Content.{Content};

    ghost Value = { List (ℕ × Option Content) };

    ghost view = { λ image. image.held };
}

impl Image {
    /// An empty image.
    pub fn new(alloc: Global) -> Self
        ensures { (lbn : ℕ) → held_at result lbn ≡ None }
    {
        Image {
            held: SparseContents::new(alloc),
        }
    }

    /// Takes the block's sectors into the image, in place of what it held of them.
    ///
    /// The only error is out of memory; the image then holds what it held before.
    pub fn take(&mut self, block: Block, content: &Contents) -> Result<(), NoMemory>
        requires covers { (content_of : ℕ → Content) × Gives content.now content_of block.lbn block.count }
        ensures ok { OnOk result ((content_of : ℕ → Content) (lbn : ℕ) → Gives content.now content_of block.lbn block.count
            → held_at self.new lbn ≡ after_take content_of block.lbn block.count lbn (held_at self.old lbn)) }
        ensures err { OnErr result ((lbn : ℕ) → held_at self.new lbn ≡ held_at self.old lbn) }
    {
        self.held.take(content)
    }

    /// Drops `count` sectors from LBN `first` on.
    ///
    /// The only error is out of memory; the image then holds what it held before.
    pub fn drop_range(&mut self, first: u64, count: u64) -> Result<(), NoMemory>
        requires { first + count ≤ 10 ^ 12 }
        ensures ok { OnOk result ((lbn : ℕ) → held_at self.new lbn ≡ after_dropping first count lbn (held_at self.old lbn)) }
        ensures err { OnErr result ((lbn : ℕ) → held_at self.new lbn ≡ held_at self.old lbn) }
    {
        self.held.drop_range(first, count)
    }

    /// The contents of the image's sectors as the fewest runs, by ascending LBN.
    ///
    /// The only error is out of memory.
    pub fn contents(&self, alloc: Global) -> Result<Contents, NoMemory>
        ensures ends { EndsBy (held_at self.now) (10 ^ 12) }
        ensures fewest { IfOk result
            (λ runs. (end : ℕ) → EndsBy (held_at self.now) end → runs ≡ runs_of (held_in (held_at self.now) (range_with_len 0 end))) }
    {
        self.held.contents(alloc)
    }
}
