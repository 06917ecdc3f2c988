//! A named scheme over a code of numbers: what the scheme of that name does.

ghost use Rattle.std.specs.Prelude.{◌≡◌, ◌≤◌, ◌↔◌, All, IfOk, IfSome, IsTrue, length};
ghost use Rattle.pls_configuration.specs.Walk.{IsConnected};
ghost use Rattle.pls_graph.specs.Size.{size_of};
ghost use Rattle.pls_streams.specs.Steps.{capped};
ghost use Rattle.pls_names.specs.Named.{HasNamed, IsNamedLabel, IsNamedMarked, converted_named, judge_named, longest_named};
ghost use Rattle.pls_names.specs.inner.Done.{IsDecided, IsMarking};

use crate::by_name;
use crate::scheme_name::SchemeName;
use pls_bits::{BitBuf, Bits, NumCode};
use pls_configuration::Verdict;
use pls_graph::{Network, Size};
use pls_labels::{LabelStore, Labels, View};
use pls_scheme::{Checker, Property, Scheme};
use pls_streams::{NoMemory, Steps};
use std::alloc::Global;
use std::marker::PhantomData;

/// A basic scheme by its name, whose labels are written in the number code `C`.
#[derive(Clone, Copy, Debug, PartialEq, Eq)]
pub struct SchemeByName<C> {
    /// The name.
    pub name: SchemeName,
    code: PhantomData<C>,
}

impl<C: NumCode> SchemeByName<C> {
    /// The scheme of a name. It takes no memory.
    pub fn new(name: SchemeName) -> Self
        ensures { result.name ≡ name }
    {
        SchemeByName {
            name,
            code: PhantomData,
        }
    }

    /// The label that the bits are, written in the number code `D`, or `None` where they are no
    /// label of the scheme. The one error is want of memory.
    pub fn convert_label<D: NumCode>(
        &self,
        alloc: Global,
        bits: &Bits<'_>,
    ) -> Result<Option<BitBuf>, NoMemory>
        ensures { IfOk result (λ found. found
            ≡ converted_named C.takes D.code self.now.name bits.now) }
    {
        by_name!(self.name, C, scheme => scheme.convert_label::<D>(alloc, bits))
    }
}

impl<C: NumCode> Checker for SchemeByName<C> {
    ghost use Rattle.std.specs.Prelude.{true, false, refl};
    ghost use Rattle.pls_names.specs.Named.{judge_named};
    ghost use Rattle.pls_names.specs.laws.NamedLaws.{laws_of};

    ghost judge = { λ s. judge_named C.takes s.name };

    ghost leaves = { λ _. 1 };

    ghost lends = { λ _. true };

    ghost TAKES_MEMORY = { false };

    const TAKES_MEMORY: bool = false;

    fn leaves(&self) -> u8 {
        1
    }

    fn lends(&self) -> bool {
        true
    }

    fn verify(
        &self,
        alloc: Global,
        view: &View<'_>,
        steps: &mut Steps,
    ) -> Result<Verdict, NoMemory> {
        by_name!(self.name, C, scheme => scheme.verify(alloc, view, steps))
    }

    fn round<L: Labels>(
        &self,
        alloc: Global,
        net: &Network,
        labels: &L,
        steps: &mut Steps,
    ) -> Result<Vec<Verdict>, NoMemory> {
        by_name!(self.name, C, scheme => scheme.round(alloc, net, labels, steps))
    }

    ghost leaf_law = { λ s. (laws_of s.name).leaf C.takes };

    ghost lends_law = { λ _ _. refl };
}

impl<C: NumCode> Property for SchemeByName<C> {
    ghost use Rattle.pls_names.specs.Named.{HasNamed};

    ghost holds = { λ s. HasNamed s.name };

    fn decide(&self, alloc: Global, net: &Network) -> Result<bool, NoMemory> {
        decide_named::<C>(alloc, self.name, net)
    }
}

/// A label is its bits, which are of the layout of the scheme that is named.
impl<C: NumCode> Scheme for SchemeByName<C> {
    ghost use Rattle.pls_names.specs.Named.{IsNamedLabel, IsNamedMarked, IsNamedSpelling, longest_named};
    ghost use Rattle.pls_names.specs.laws.NamedLaws.{has_spellings, have_one_spelling, are_one_label, laws_of};

    type Label = BitBuf;

    ghost layout = { λ s. IsNamedSpelling C.code s.name };

    ghost writable = { λ s. IsNamedLabel C.code s.name };

    ghost marked = { λ s. IsNamedMarked C.code s.name };

    ghost longest = { λ s. longest_named C.code s.name };

    fn read_label(&self, alloc: Global, bits: Bits<'_>) -> Result<Option<BitBuf>, NoMemory> {
        if !is_label::<C>(alloc, self.name, &bits)? {
            return Ok(None);
        }
        let mut label = BitBuf::new(alloc);
        label.append(bits)?;
        Ok(Some(label))
    }

    fn write_label(&self, alloc: Global, label: &BitBuf) -> Result<BitBuf, NoMemory> {
        let mut copy = BitBuf::new(alloc);
        copy.append(label.bits())?;
        Ok(copy)
    }

    fn bound(&self, size: &Size) -> u64 {
        by_name!(self.name, C, scheme => scheme.bound(size))
    }

    fn mark(&self, alloc: Global, net: &Network) -> Result<Option<LabelStore>, NoMemory> {
        mark_named::<C>(alloc, self.name, net)
    }

    ghost reads_back_law = { λ s. has_spellings C.code s.name };

    ghost one_spelling_law = { λ s. have_one_spelling C.code s.name };

    ghost one_label_law = { λ s. are_one_label C.code s.name };

    ghost sound_law = { λ s. (laws_of s.name).sound C.takes };

    ghost one_marking_law = { λ s. (laws_of s.name).once C.code };
}

fn is_label<C: NumCode>(alloc: Global, name: SchemeName, bits: &Bits<'_>) -> Result<bool, NoMemory>
    ensures { IfOk result (λ yes. IsTrue yes ↔ IsNamedLabel C.code name bits.now) }
{
    let bits = bits.again();
    Ok(by_name!(name, C, scheme => scheme.read_label(alloc, bits)?.is_some()))
}

fn decide_named<C: NumCode>(
    alloc: Global,
    name: SchemeName,
    net: &Network,
) -> Result<bool, NoMemory>
    requires { IsConnected net.now }
    ensures { IsDecided (HasNamed name) net.now result }
{
    by_name!(name, C, scheme => decide_by(alloc, &scheme, net))
}

fn decide_by<P: Property>(alloc: Global, property: &P, net: &Network) -> Result<bool, NoMemory>
    requires { IsConnected net.now }
    ensures { IsDecided (P.holds property.now) net.now result }
{
    property.decide(alloc, net)
}

// `None` exactly where the property fails.
fn mark_named<C: NumCode>(
    alloc: Global,
    name: SchemeName,
    net: &Network,
) -> Result<Option<LabelStore>, NoMemory>
    requires { IsConnected net.now }
    ensures marking { IsMarking (HasNamed name) (judge_named C.takes name) net.now result }
    ensures marked { IfOk result (λ found. IfSome found
        (λ labels. IsNamedMarked C.code name net.now labels)) }
    ensures each { IfOk result (λ found. IfSome found
        (λ labels. length labels ≡ length net.now)) }
    ensures short { IfOk result (λ found. IfSome found (λ labels. All (λ label. length label
        ≤ capped (longest_named C.code name (size_of net.now))) labels)) }
{
    by_name!(name, C, scheme => mark_by(alloc, &scheme, net))
}

// `None` exactly where the property fails.
fn mark_by<S: Scheme>(
    alloc: Global,
    scheme: &S,
    net: &Network,
) -> Result<Option<LabelStore>, NoMemory>
    requires { IsConnected net.now }
    ensures marking { IsMarking (S.holds scheme.now) (S.judge scheme.now) net.now result }
    ensures marked { IfOk result (λ found. IfSome found
        (λ labels. S.marked scheme.now net.now labels)) }
    ensures each { IfOk result (λ found. IfSome found
        (λ labels. length labels ≡ length net.now)) }
    ensures short { IfOk result (λ found. IfSome found (λ labels. All (λ label. length label
        ≤ capped (S.longest scheme.now (size_of net.now))) labels)) }
{
    scheme.mark(alloc, net)
}
