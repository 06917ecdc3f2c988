//! Labels of combinations, put together from those of the parts.

ghost use Rattle.std.specs.Prelude.{◌≡◌, ℕ, ◌≤◌, ◌∷◌, length, IfOk, OnOk};
ghost use Rattle.pls_bits.specs.declared.num_code.TheConstants.{MAX_CODED};
ghost use Rattle.pls_streams.specs.Steps.{capped};
ghost use Rattle.pls_parts.specs.Joined.{EachJoined, joined_at, joined_bits, longest_both};
ghost use Rattle.pls_parts.specs.Tagged.{EachTagged, longest_one_of, tagged_at};
ghost use Rattle.pls_parts.specs.inner.Fits.{AllFit, HasCodes, FitsWord};

use pls_bits::{BitBuf, Bits, MAX_CODED, NumCode};
use pls_labels::LabelStore;
use pls_scheme::code_length;
use pls_streams::NoMemory;
use std::alloc::Global;

/// The label of a conjunction whose parts are these. The one error is want of memory, by which a
/// first part too long for a code goes too.
pub fn joined_bits<C: NumCode>(
    alloc: Global,
    front: Bits<'_>,
    back: Bits<'_>,
) -> Result<BitBuf, NoMemory>
    ensures bits { IfOk result (λ bits. bits ≡ joined_bits C.code front.entry back.entry) }
    ensures coded { IfOk result (λ bits. length front.entry ≤ MAX_CODED) }
    ensures fits { IfOk result (λ bits. FitsWord (length bits)) }
{
    let mut bits = BitBuf::new(alloc);
    put_joined::<C>(&mut bits, front, back)?;
    Ok(bits)
}

// Overwrites `bits`; the one error is that of `joined_bits`.
fn put_joined<C: NumCode>(
    bits: &mut BitBuf,
    front: Bits<'_>,
    back: Bits<'_>,
) -> Result<(), NoMemory>
    ensures bits { OnOk result (bits.new ≡ joined_bits C.code front.entry back.entry) }
    ensures coded { OnOk result (length front.entry ≤ MAX_CODED) }
    ensures fits { OnOk result (FitsWord (length bits.new)) }
{
    let len = front.len() as u64;
    if len > MAX_CODED {
        return Err(NoMemory);
    }
    bits.clear();
    C::write(bits, len)?;
    bits.append(front)?;
    bits.append(back)?;
    // How many bits there are fits into a word.
    bits.len();
    Ok(())
}

/// The labels of a conjunction whose parts are these. The one error is want of memory.
pub fn joined_labels<C: NumCode>(
    alloc: Global,
    fronts: &LabelStore,
    backs: &LabelStore,
) -> Result<LabelStore, NoMemory>
    requires { length fronts.now ≡ length backs.now }
    ensures joined { IfOk result (EachJoined C.code fronts.now backs.now) }
    ensures coded { IfOk result (λ labels. HasCodes fronts.now) }
    ensures fit { IfOk result
        (λ labels. AllFit (joined_at C.code fronts.now backs.now) (length fronts.now)) }
{
    let bits = fronts.total().saturating_add(backs.total());
    let codes = (fronts.len() as u64).saturating_mul(64);
    let mut labels = LabelStore::blank_for(alloc, fronts.len(), bits.saturating_add(codes))?;
    let mut label = BitBuf::new(alloc);
    for i in 0..fronts.len() {
        put_joined::<C>(&mut label, fronts.bits(i), backs.bits(i))?;
        labels.replace(i, &label)?;
    }
    Ok(labels)
}

/// The bound of a conjunction, from those of its parts.
pub fn joined_bound<C: NumCode>(first: u64, second: u64) -> u64
    ensures { (one two : ℕ) → first ≡ capped one → second ≡ capped two
        → result ≡ capped (longest_both C.code one two) }
{
    code_length::<C>(first)
        .saturating_add(first)
        .saturating_add(second)
}

/// The labels of a disjunction, each with this tag. The one error is want of memory.
pub fn tagged_labels(alloc: Global, tag: bool, rests: &LabelStore) -> Result<LabelStore, NoMemory>
    ensures tagged { IfOk result (EachTagged tag rests.now) }
    ensures fit { IfOk result (λ labels. AllFit (tagged_at tag rests.now) (length rests.now)) }
{
    let bits = rests.total().saturating_add(rests.len() as u64);
    let mut labels = LabelStore::blank_for(alloc, rests.len(), bits)?;
    let mut label = BitBuf::new(alloc);
    for i in 0..rests.len() {
        put_tagged(&mut label, tag, rests.bits(i))?;
        labels.replace(i, &label)?;
    }
    Ok(labels)
}

/// A label behind a tag. The one error is want of memory.
pub fn tagged_bits(alloc: Global, tag: bool, rest: Bits<'_>) -> Result<BitBuf, NoMemory>
    ensures bits { IfOk result (λ bits. bits ≡ tag ∷ rest.entry) }
    ensures fits { IfOk result (λ bits. FitsWord (length bits)) }
{
    let mut bits = BitBuf::new(alloc);
    put_tagged(&mut bits, tag, rest)?;
    Ok(bits)
}

// Overwrites `bits`; the one error is want of memory.
fn put_tagged(bits: &mut BitBuf, tag: bool, rest: Bits<'_>) -> Result<(), NoMemory>
    ensures bits { OnOk result (bits.new ≡ tag ∷ rest.entry) }
    ensures fits { OnOk result (FitsWord (length bits.new)) }
{
    bits.clear();
    bits.push(tag)?;
    bits.append(rest)?;
    // How many bits there are fits into a word.
    bits.len();
    Ok(())
}

/// The bound of a disjunction, from those of its parts.
pub fn tagged_bound(first: u64, second: u64) -> u64
    ensures { (one two : ℕ) → first ≡ capped one → second ≡ capped two
        → result ≡ capped (longest_one_of one two) }
{
    first.max(second).saturating_add(1)
}
