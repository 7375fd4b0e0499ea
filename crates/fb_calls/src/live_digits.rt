// Which blocks of a segment are live, as hexadecimal digits.
ghost use Rattle.std.specs.Prelude.{◌≡◌, ◌*◌, ◌<◌, ◌≤◌, ◌^◌, length, take, drop, not, true, false, IfOk};
ghost use Rattle.std.specs.Char.{is_digit, digit_value};
ghost use Rattle.std.specs.List.{list_all, slice_index_or};
ghost use Rattle.fb_calls.specs.Live.{bits, is_live};

use fb_script::Live;
use fb_units::NoMemory;
use std::alloc::Global;

/// Whether these digits can say which of this many blocks are live: there is at least one block,
/// each hexadecimal digit has four blocks, and no bit is set behind the last block.
#[tactic(auto, unfolding(crate::specs::Live::is_live))]
pub fn is_live(blocks: u64, digits: &[u8]) -> bool
    requires { blocks ≤ 10 ^ 15 }
    ensures { result ≡ is_live blocks digits.now }
{
    blocks >= 1
        && digits.len() as u64 == (blocks + 3) / 4
        && are_digits(digits)
        && is_clear_from(digits, blocks)
}

fn are_digits(text: &[u8]) -> bool
    ensures { result ≡ list_all (λ digit. is_digit digit 16) text.now }
{
    text.iter().all(|digit| (*digit as char).is_digit(16))
}

// Whether no block from this one on is live.
fn is_clear_from(digits: &[u8], block: u64) -> bool
    requires digits { list_all (λ digit. is_digit digit 16) digits.now ≡ true }
    requires few { length digits.now ≤ 10 ^ 15 }
    ensures { result ≡ list_all not (drop block (bits digits.now)) }
{
    for later in block..4 * digits.len() as u64 {
        if is_live_block(digits, later) {
            return false;
        }
    }
    true
}

/// Whether a block, counted from 0, is live. The highest bit of a digit is its first block.
pub fn is_live_block(digits: &[u8], block: u64) -> bool
    requires digits { list_all (λ digit. is_digit digit 16) digits.now ≡ true }
    requires block { block < 4 * length digits.now }
    ensures { result ≡ slice_index_or (bits digits.now) block false }
{
    let value = digit_value(digits[(block / 4) as usize]);
    match block % 4 {
        0 => value / 8 % 2 == 1,
        1 => value / 4 % 2 == 1,
        2 => value / 2 % 2 == 1,
        _ => value % 2 == 1,
    }
}

// The value of a hexadecimal digit.
fn digit_value(digit: u8) -> u32
    requires { is_digit digit 16 ≡ true }
    ensures { result ≡ digit_value digit }
{
    match (digit as char).to_digit(16) {
        Some(value) => value,
        None => unreachable!(),
    }
}

/// For each of this many blocks, whether it is live. The only error is `NoMemory`.
pub fn read_live(alloc: Global, blocks: u64, digits: &[u8]) -> Result<Live, NoMemory>
    requires { is_live blocks digits.now ≡ true }
    ensures { IfOk result (λ live. live ≡ take blocks (bits digits.now)) }
{
    let mut live = Live::with_capacity(alloc, blocks as usize)?;
    for block in 0..blocks {
        live.push(is_live_block(digits, block))?;
    }
    Ok(live)
}
