ghost use Rattle.std.specs.Prelude.{IfOk};
ghost use Rattle.disk.specs.Steps.{Replies, Restarts};
ghost use Rattle.disk_shell.specs.Stacks.{Models, start};

use disk::{Call, Reply, cut_power, perform};
use layers::{Quota, ReadCache};
use names::limits::BLOCK_MAX;
use std::alloc::{AllocError, Global};
use two_copy::TwoCopy;

/// The layers of a stack, from the top down.
#[derive(Clone, Copy)]
pub enum Layers {
    Bare,
    Quota(u8),
    Cache,
    QuotaOverCache(u8),
    CacheOverQuota(u8),
}

/// A two-copy disk under some layers. Each of its two calls matches on them: they are five types, whose one common
/// form, a trait object, no function may hand out, and an `impl Disk for Stack` matches in each of its eight methods.
#[derive(Drop)]
pub enum Stack {
    Bare(TwoCopy),
    Quota(Quota<TwoCopy>),
    Cache(ReadCache<TwoCopy>),
    QuotaOverCache(Quota<ReadCache<TwoCopy>>),
    CacheOverQuota(ReadCache<Quota<TwoCopy>>),
}

impl Stack {
    /// An empty stack over that many bytes of memory.
    pub fn new(heap: Global, layers: Layers, bytes: usize, charge: u16) -> Result<Stack, AllocError>
        ensures { IfOk result (λ p. Models p (start layers bytes charge)) }
    {
        let base = TwoCopy::new(heap, bytes, charge)?;
        match layers {
            Layers::Bare => Ok(Stack::Bare(base)),
            Layers::Quota(q) => Ok(Stack::Quota(Quota::new(base, q))),
            Layers::Cache => Ok(Stack::Cache(ReadCache::new(base))),
            Layers::QuotaOverCache(q) => Ok(Stack::QuotaOverCache(Quota::new(
                ReadCache::new(base),
                q,
            ))),
            Layers::CacheOverQuota(q) => Ok(Stack::CacheOverQuota(ReadCache::new(Quota::new(
                base, q,
            )))),
        }
    }

    /// Makes the call on the top of the stack.
    pub fn call(&mut self, call: &Call, bytes: &[u8], into: &mut [u8; BLOCK_MAX]) -> Reply
        ensures { Replies Models self.old self.new call.now bytes.now result into.old into.new }
    {
        match self {
            Stack::Bare(d) => perform(d, call, bytes, into),
            Stack::Quota(d) => perform(d, call, bytes, into),
            Stack::Cache(d) => perform(d, call, bytes, into),
            Stack::QuotaOverCache(d) => perform(d, call, bytes, into),
            Stack::CacheOverQuota(d) => perform(d, call, bytes, into),
        }
    }

    /// Cuts the power and restarts the stack.
    pub fn restart(&mut self, charge: u16, pick: u16)
        ensures { Restarts Models self.old self.new charge }
    {
        match self {
            Stack::Bare(d) => cut_power(d, charge, pick),
            Stack::Quota(d) => cut_power(d, charge, pick),
            Stack::Cache(d) => cut_power(d, charge, pick),
            Stack::QuotaOverCache(d) => cut_power(d, charge, pick),
            Stack::CacheOverQuota(d) => cut_power(d, charge, pick),
        }
    }
}
