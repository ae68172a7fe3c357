//! A stock of goods by codes of four bytes. The contracts state how many there are of each.
ghost use Rattle.std.specs.Prelude.{◌≡◌, ◌+◌, ◌≤◌, ◌^◌, length, IfErr, IfOk, OnErr, OnOk, Some};
ghost use Rattle.uses.specs.Inventory.{ChangesTo, IsAddRefusal, IsTakeRefusal, if_more, quantity, total_of};

use art_operations::tree_map::TreeMap;

/// How many there are of each good, by its code.
pub type Stock = TreeMap<[u8; 4], u32, 4>;

/// Why goods were not added.
#[derive(Clone, Copy, PartialEq, Eq, Debug)]
pub enum AddError {
    /// There would be more than a `u32` can count.
    TooMany,
    /// There is none of this good yet, and an allocation for it failed.
    NoMemory,
}

/// Why goods were not taken.
#[derive(Clone, Copy, PartialEq, Eq, Debug)]
pub enum TakeError {
    /// There are only so many.
    NotEnough(u32),
    /// An allocation failed.
    NoMemory,
}

/// Adds `count` of a good. If it fails, the stock is unchanged.
pub fn add(stock: &mut Stock, code: [u8; 4], count: u32) -> Result<(), AddError>
    ensures added { OnOk result
        (ChangesTo code (Some (quantity code stock.old + count)) stock.old stock.new) }
    ensures refused { IfErr result (IsAddRefusal code count stock.old) }
    ensures kept { OnErr result (stock.new ≡ stock.old) }
{
    let there = stock.get(&code).copied().unwrap_or(0);
    let Some(sum) = there.checked_add(count) else {
        return Err(AddError::TooMany);
    };
    match stock.insert(code, sum) {
        Ok(_) => Ok(()),
        Err(_) => Err(AddError::NoMemory),
    }
}

/// Removes `count` of a good, and returns how many are left. If none is left, the good is removed from the stock. If it
/// fails, the stock is unchanged.
pub fn take(stock: &mut Stock, code: [u8; 4], count: u32) -> Result<u32, TakeError>
    ensures left { IfOk result (λ left. left + count ≡ quantity code stock.old) }
    ensures taken { IfOk result (λ left.
        ChangesTo code (if_more left) stock.old stock.new) }
    ensures refused { IfErr result (IsTakeRefusal code count stock.old) }
    ensures kept { OnErr result (stock.new ≡ stock.old) }
{
    let there = stock.get(&code).copied().unwrap_or(0);
    if there < count {
        return Err(TakeError::NotEnough(there));
    }
    let left = there - count;
    if left == 0 {
        stock.remove(&code);
        return Ok(left);
    }
    let Ok(_) = stock.insert(code, left) else {
        return Err(TakeError::NoMemory);
    };
    Ok(left)
}

/// Returns how many goods there are in all. The stock must have at most 2^32 codes.
pub fn total(stock: &Stock) -> u64
    requires { length stock.now ≤ 2 ^ 32 }
    ensures { result ≡ total_of stock.now }
{
    let mut total = 0;
    for (_, count) in stock.iter() {
        total += u64::from(*count);
    }
    total
}
