// A desk whose calls never fail.
ghost use Rattle.std.specs.Prelude.{◌≡◌, ◌<◌, ℕ, List, [], true, false, length, min, Some, Ok, IsOk, IfOk, IfSome, OnOk, OnErr};
ghost use Rattle.fb_desk.specs.View.{IsUnused};
ghost use Rattle.fb_desk.specs.Calls.{OpensInput, ReadsInput, BeginsOutput, WritesOutput, IsUnchanged, HoldsBytes};
ghost use Rattle.fb_desk.specs.Honest.{honest_view};

use crate::each::EachOutput;
use crate::holdings::Holdings;
use crate::{Desk, Failed, Input, Output};
use fb_units::NoMemory;
use std::alloc::Global;

/// A desk with inputs in memory, and outputs that accept every byte and keep none. None of its
/// `Desk` calls fails or allocates.
///
/// An input that is opened under a name that isn't held is empty.
#[derive(Drop)]
pub struct HonestDesk {
    holdings: Holdings,
    begun: EachOutput<bool>,
}

impl HonestDesk {
    /// A desk on which nothing is held, opened or begun.
    pub fn new(alloc: Global) -> HonestDesk
        ensures unused { IsUnused (honest_view result) }
        ensures held { (name : List ℕ) → (honest_view result).held name ≡ Some [] }
    {
        HonestDesk {
            holdings: Holdings::new(alloc),
            begun: EachOutput::all(false),
        }
    }

    /// Holds the bytes under the name, in place of what was held there. An input that was opened
    /// before still reads what was held then. Out of memory, it returns `NoMemory` and nothing has
    /// changed.
    pub fn hold(&mut self, name: &str, bytes: &[u8]) -> Result<(), NoMemory>
        ensures ok { OnOk result
            (HoldsBytes name.now bytes.now (honest_view self.old) (honest_view self.new)) }
        ensures err { OnErr result (IsUnchanged (honest_view self.old) (honest_view self.new)) }
    {
        self.holdings.hold(name, bytes)
    }
}

impl Desk for HonestDesk {
    ghost seen = { honest_view };

    fn open_input(&mut self, which: Input, name: &str) -> Result<(), Failed>
        requires { ((honest_view self.old).inputs which).opened ≡ false }
        ensures opens { OpensInput which name.now (honest_view self.old) (honest_view self.new) result }
        ensures never_fails { IsOk result }
    {
        match self.holdings.find(name) {
            Some(index) => self.holdings.open(which, index),
            None => self.holdings.open_empty(which),
        }
        Ok(())
    }

    fn read_some(&mut self, which: Input, into: &mut [u8]) -> Result<usize, Failed>
        requires opened { ((honest_view self.old).inputs which).opened ≡ true }
        requires room { 0 < length into.old }
        ensures reads { ReadsInput which into.new (honest_view self.old) (honest_view self.new) result }
        ensures never_fails { IsOk result }
        ensures as_much { IfOk result (λ n. IfSome ((honest_view self.old).inputs which).left
            (λ left. n ≡ min (length left) (length into.old))) }
    {
        Ok(self.holdings.read(which, into.len(), into))
    }

    fn begin_output(&mut self, which: Output, name: &str) -> Result<(), Failed>
        requires { ((honest_view self.old).outputs which).begun ≡ false }
        ensures begins { BeginsOutput which name.now (honest_view self.old) (honest_view self.new) result }
        ensures never_fails { IsOk result }
    {
        *self.begun.of_mut(which) = true;
        Ok(())
    }

    fn write_some(&mut self, which: Output, bytes: &[u8]) -> Result<usize, Failed>
        requires begun { ((honest_view self.old).outputs which).begun ≡ true }
        requires some { 0 < length bytes.now }
        ensures writes { WritesOutput which bytes.now (honest_view self.old) (honest_view self.new) result }
        ensures all { result ≡ Ok (length bytes.now) }
    {
        Ok(bytes.len())
    }
}
