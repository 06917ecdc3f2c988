//! How labels with levels are written.

use crate::label::{LevelHead, LevelLabel};
use crate::level_kind::LevelKind;
use crate::reading::{head_in, levels_of, read_levels};
use pls_bits::{BitBuf, Bits, NumCode};
use pls_numbers::{Format, append_numbers};
use pls_streams::NoMemory;
use std::alloc::Global;
use std::marker::PhantomData;

/// The format of labels with levels of a kind: the root, the node, its parent, its depth and the
/// number of levels, and then the numbers of each level.
#[derive(Clone, Copy, Debug, PartialEq, Eq)]
pub struct LevelFormat<K> {
    kind: PhantomData<K>,
}

impl<K> Default for LevelFormat<K> {
    fn default() -> Self {
        LevelFormat { kind: PhantomData }
    }
}

impl<K: LevelKind> Format for LevelFormat<K> {
    ghost use Rattle.pls_levels.specs.Labels.{level_shape};
    ghost use Rattle.pls_levels.specs.laws.LabelLaws.{level_numbers};

    type Label = LevelLabel<K::List>;

    ghost shape = { λ _. level_shape K.form };

    fn read<C: NumCode>(
        &self,
        alloc: Global,
        bits: &Bits<'_>,
    ) -> Result<Option<LevelLabel<K::List>>, NoMemory> {
        let Some(head) = head_in::<K, C>(bits) else {
            return Ok(None);
        };
        let mut numbers = levels_of::<K, C>(bits);
        let levels = read_levels::<K, C>(alloc, &mut numbers, head.count)?;
        let LevelHead {
            root,
            own,
            parent,
            depth,
            count: _,
        } = head;
        Ok(Some(LevelLabel {
            root,
            own,
            parent,
            depth,
            levels: K::list_of(levels),
        }))
    }

    fn append<C: NumCode>(
        &self,
        bits: &mut BitBuf,
        label: &LevelLabel<K::List>,
    ) -> Result<(), NoMemory> {
        let levels = &label.levels;
        let count = K::count_of(levels);
        let front = [
            label.root,
            label.own,
            label.parent,
            label.depth,
            count as u64,
        ];
        append_numbers::<C>(bits, &front)?;
        for i in 0..count {
            let level = K::level_at(levels, i);
            K::append_level::<C>(bits, &level)?;
        }
        Ok(())
    }

    ghost numbers_law = { λ _. level_numbers K.form K.form_law };
}
