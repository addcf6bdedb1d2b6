//! A few octets, which are appended in one step: up to eight as a word, or two or three.

ghost use Rattle.std.specs.Prelude.{◌≡◌, ◌≤◌, ◌+◌, ◌∷◌, [], ◌++◌, ℕ, List, OnOk, OnErr};
ghost use Rattle.std.specs.Int.{w64, to_be_bytes};
ghost use Rattle.canon.specs.Few.{AreFew};

use octets::NoMemory;

/// Up to eight octets: the first ones of a word, which has zeros behind them.
#[derive(Clone, Copy)]
pub(crate) struct Few {
    /// How many octets there are.
    pub count: usize,
    /// The word, its most significant octet first.
    pub word: u64,
}

// Octets, and then further ones.
#[inline(always)]
pub(crate) fn joined(first: Few, others: Few) -> Few
    requires fit { first.count + others.count ≤ 8 }
    requires some { 1 ≤ others.count }
    requires first { (a : List ℕ) × AreFew first a }
    requires others { (b : List ℕ) × AreFew others b }
    ensures { (a b : List ℕ) → AreFew first a → AreFew others b → AreFew result (a ++ b) }
{
    Few {
        count: first.count + others.count,
        word: first.word + (others.word >> (8 * first.count)),
    }
}

// Appends octets. Mostly there is room for all eight of the word: these are copied, which is one step, and what stands
// behind the octets is cut off again.
#[inline(always)]
pub(crate) fn put_few(few: Few, out: &mut Vec<u8>) -> Result<(), NoMemory>
    requires { few.count ≤ 8 }
    ensures appended { OnOk result ((octets : List ℕ) → AreFew few octets → out.new.items ≡ out.old.items ++ octets) }
    ensures unchanged { OnErr result (out.new.items ≡ out.old.items) }
{
    if out.capacity() - out.len() < 8 {
        return grow_by_few(few, out);
    }
    let end = out.len() + few.count;
    put_word(few.word, out)?;
    out.truncate(end);
    Ok(())
}

// Appends octets, and makes room for them where there is none.
#[inline(never)]
fn grow_by_few(few: Few, out: &mut Vec<u8>) -> Result<(), NoMemory>
    requires { few.count ≤ 8 }
    ensures appended { OnOk result ((octets : List ℕ) → AreFew few octets → out.new.items ≡ out.old.items ++ octets) }
    ensures unchanged { OnErr result (out.new.items ≡ out.old.items) }
{
    let octets = few.word.to_be_bytes();
    out.extend_from_slice(&octets[..few.count])?;
    Ok(())
}

// Appends eight octets.
pub(crate) fn put_word(word: u64, out: &mut Vec<u8>) -> Result<(), NoMemory>
    ensures appended { OnOk result (out.new.items ≡ out.old.items ++ to_be_bytes w64 word) }
    ensures unchanged { OnErr result (out.new.items ≡ out.old.items) }
{
    out.extend_from_slice(&word.to_be_bytes())?;
    Ok(())
}

// Appends two octets: mostly there is room for them.
#[inline(always)]
pub(crate) fn put_pair(first: u8, second: u8, out: &mut Vec<u8>) -> Result<(), NoMemory>
    ensures appended { OnOk result (out.new.items ≡ out.old.items ++ first ∷ second ∷ []) }
    ensures unchanged { OnErr result (out.new.items ≡ out.old.items) }
{
    if out.capacity() - out.len() < 2 {
        return grow_by_pair(first, second, out);
    }
    out.push_reserved(first);
    out.push_reserved(second);
    Ok(())
}

// Appends three octets: mostly there is room for them.
#[inline(always)]
pub(crate) fn put_three(first: u8, second: u8, third: u8, out: &mut Vec<u8>) -> Result<(), NoMemory>
    ensures appended { OnOk result (out.new.items ≡ out.old.items ++ first ∷ second ∷ third ∷ []) }
    ensures unchanged { OnErr result (out.new.items ≡ out.old.items) }
{
    if out.capacity() - out.len() < 3 {
        return grow_by_three(first, second, third, out);
    }
    out.push_reserved(first);
    out.push_reserved(second);
    out.push_reserved(third);
    Ok(())
}

// Appends two octets, and makes room for them where there is none.
#[inline(never)]
fn grow_by_pair(first: u8, second: u8, out: &mut Vec<u8>) -> Result<(), NoMemory>
    ensures appended { OnOk result (out.new.items ≡ out.old.items ++ first ∷ second ∷ []) }
    ensures unchanged { OnErr result (out.new.items ≡ out.old.items) }
{
    out.extend_from_slice(&[first, second])?;
    Ok(())
}

// Appends three octets, and makes room for them where there is none.
#[inline(never)]
fn grow_by_three(first: u8, second: u8, third: u8, out: &mut Vec<u8>) -> Result<(), NoMemory>
    ensures appended { OnOk result (out.new.items ≡ out.old.items ++ first ∷ second ∷ third ∷ []) }
    ensures unchanged { OnErr result (out.new.items ≡ out.old.items) }
{
    out.extend_from_slice(&[first, second, third])?;
    Ok(())
}
