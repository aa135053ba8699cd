//! The inputs of a merge, and the key that comes next in each.
ghost use Rattle.std.specs.Prelude.{◌≡◌, ◌++◌, None, map, IfOk, OnOk};
ghost use Rattle.std.specs.Option.{option_copied};
ghost use Rattle.kt_history.specs.Stores.{row_of};
ghost use Rattle.kt_history.specs.Views.{AreRising, key_above};
ghost use Rattle.kt_histlaws.specs.Histories.{or_else};
ghost use Rattle.kt_rowfiles.specs.Reading.{steps_in};
ghost use Rattle.kt_rowfiles.specs.Taking.{spanned};
ghost use Rattle.kt_merge.specs.Heads.{source_keys, source_hist, lesser, least_in, keys_next, is_next, hist_next, row_next, steps_next, passed, CanRead, Stands, AllStand};

use crate::changes;
use kt_base::{Cells, NoMemory, Octets};
use kt_diskrowset::RowSetData;
use kt_history::{ChangeList, Delta};
use kt_rowfiles::Span;
use std::alloc::Global;

/// An input: the changes of a MemRowSet, or a disk rowset.
#[derive(Clone, Copy)]
pub enum Source<'i> {
    Mem(&'i ChangeList),
    Rowset(&'i RowSetData),
}

/// An input, and the next of its keys, if one is left.
#[derive(Drop)]
pub struct Head<'i> {
    pub(crate) source: Source<'i>,
    pub(crate) key: Option<Octets>,
}

impl<'i> Source<'i> {
    // The least of its keys above another, or the least of all.
    fn key_after(self, alloc: Global, after: Option<&[u8]>) -> Result<Option<Octets>, NoMemory>
        requires { CanRead self }
        ensures rise { AreRising (source_keys self.entry) }
        ensures key { IfOk result (λ key. key ≡ key_above (option_copied after.entry) (source_keys self.entry)) }
    {
        match self {
            Source::Mem(list) => match changes::key_after(list, after) {
                Some(key) => Ok(Some(Octets::from_slice(alloc, key)?)),
                None => Ok(None),
            },
            Source::Rowset(rowset) => rowset.key_after(alloc, after),
        }
    }

    // The row of a key at the mark. Its changes in the span are added to others.
    fn take_key(
        self,
        alloc: Global,
        key: &[u8],
        span: Span,
        steps: &mut Vec<Delta>,
    ) -> Result<Option<Cells>, NoMemory>
        requires { CanRead self }
        ensures row { IfOk result (λ row. row ≡ row_of span.mark (source_hist key.now self.entry)) }
        ensures steps { IfOk result (λ _. steps_in steps.new.items ≡ steps_in steps.old.items ++ spanned span (source_hist key.now self.entry).steps) }
    {
        match self {
            Source::Mem(list) => changes::take_key(alloc, list, key, span, steps),
            Source::Rowset(rowset) => rowset.take_key(alloc, key, span, steps),
        }
    }
}

impl<'i> Head<'i> {
    /// An input at its first key.
    pub fn first(alloc: Global, source: Source<'i>) -> Result<Head<'i>, NoMemory>
        requires { CanRead source }
        ensures stands { IfOk result (λ head. Stands head.source) }
        ensures source { IfOk result (λ head. head.source ≡ source.entry) }
        ensures key { IfOk result (λ head. head.key ≡ key_above None (source_keys source.entry)) }
    {
        Ok(Head {
            source,
            key: source.key_after(alloc, None)?,
        })
    }

    // The key that comes next, where it lies.
    fn next(&self) -> Option<&[u8]>
        ensures { option_copied result ≡ self.now.key }
    {
        match &self.key {
            Some(key) => Some(key.as_slice()),
            None => None,
        }
    }

    // Whether this key comes next.
    fn is_at(&self, key: &[u8]) -> bool
        ensures { result ≡ is_next self.now.key key.now }
    {
        match &self.key {
            Some(next) => next.as_slice().cmp(&key).is_eq(),
            None => false,
        }
    }

    // Takes this key, where it comes next: the row at the mark, if none was found before, and the changes in the span.
    fn take(
        &self,
        alloc: Global,
        key: &[u8],
        span: Span,
        row: &mut Option<Cells>,
        steps: &mut Vec<Delta>,
    ) -> Result<(), NoMemory>
        requires { Stands self.now.source }
        ensures row { OnOk result (row.new ≡ or_else row.old (row_of span.mark (hist_next key.now self.now))) }
        ensures steps { OnOk result (steps_in steps.new.items ≡ steps_in steps.old.items ++ spanned span (hist_next key.now self.now).steps) }
    {
        if !self.is_at(key) {
            return Ok(());
        }
        let found = self.source.take_key(alloc, key, span, steps)?;
        if row.is_none() {
            *row = found;
        }
        Ok(())
    }

    // The key that comes next once this one is passed.
    fn next_behind(&self, alloc: Global, key: &[u8]) -> Result<Option<Octets>, NoMemory>
        requires { Stands self.now.source }
        ensures { IfOk result (λ next. next ≡ (passed key.now self.now).key) }
    {
        if self.is_at(key) {
            return self.source.key_after(alloc, Some(key));
        }
        match &self.key {
            Some(next) => Ok(Some(next.copy()?)),
            None => Ok(None),
        }
    }
}

// The lesser of two keys, as far as they are there.
fn lesser<'k>(key: Option<&'k [u8]>, other: Option<&'k [u8]>) -> Option<&'k [u8]>
    ensures { option_copied result ≡ lesser (option_copied key.entry) (option_copied other.entry) }
{
    match (key, other) {
        (None, other) => other,
        (key, None) => key,
        (Some(a), Some(b)) => { if b.cmp(&a).is_lt() { Some(b) } else { Some(a) } }
    }
}

/// The least key that comes next.
pub fn least_key(alloc: Global, heads: &[Head<'_>]) -> Result<Option<Octets>, NoMemory>
    ensures { IfOk result (λ key. key ≡ least_in (keys_next heads.now)) }
{
    let mut least = None;
    let mut at = heads.len();
    'heads: while at > 0 {
        at -= 1;
        least = lesser(heads[at].next(), least);
    }
    match least {
        Some(key) => Ok(Some(Octets::from_slice(alloc, key)?)),
        None => Ok(None),
    }
}

/// Takes a key from each input in which it comes next: the row at the mark, of the first one that has it, and the changes in the
/// span of all, which are added to others.
pub fn take_key(
    alloc: Global,
    heads: &[Head<'_>],
    key: &[u8],
    span: Span,
    steps: &mut Vec<Delta>,
) -> Result<Option<Cells>, NoMemory>
    requires { AllStand heads.now }
    ensures row { IfOk result (λ row. row ≡ row_next span key.now heads.now) }
    ensures steps { IfOk result (λ _. steps_in steps.new.items ≡ steps_in steps.old.items ++ steps_next span key.now heads.now) }
{
    let mut row = None;
    'heads: for head in heads {
        head.take(alloc, key, span, &mut row, steps)?;
    }
    Ok(row)
}

/// Each input in which a key comes next goes on behind it.
pub fn pass_key(alloc: Global, heads: &mut Vec<Head<'_>>, key: &[u8]) -> Result<(), NoMemory>
    requires { AllStand heads.old.items }
    ensures { OnOk result (heads.new.items ≡ map (passed key.now) heads.old.items) }
{
    'heads: for at in 0..heads.len() {
        let next = heads[at].next_behind(alloc, key)?;
        heads[at].key = next;
    }
    Ok(())
}
