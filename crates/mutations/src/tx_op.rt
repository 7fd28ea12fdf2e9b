ghost use Rattle.std.specs.Prelude.{◌≡◌, ◌≢◌, ◌↔◌, List, [], ◌∷◌, ◌++◌, length, IsTrue, IfOk, OnOk, OnErr};

use crate::Mutation;
use fb_bytes::{Blob, KeyRange, Seq, TryCopy};
use std::alloc::{AllocError, Global};
use std::marker::Model;

/// One operation of a transaction.
#[derive(Debug, Drop)]
pub enum TxOp {
    /// Reads a key. The commit conflicts with later writes of it.
    Get { key: Blob },
    /// Reads a key with no conflict.
    SnapshotGet { key: Blob },
    /// Reads the first pairs of the range, at most `limit`. The commit conflicts with later writes
    /// anywhere in the range.
    Scan { range: KeyRange, limit: u64 },
    Write(Mutation),
}

impl TxOp {
    /// An equal operation with memory of its own.
    pub fn copy(&self) -> Result<Self, AllocError>
        ensures { IfOk result (λ op. op ≡ self.now) }
    {
        let op = match self {
            TxOp::Get { key } => TxOp::Get { key: key.copy()? },
            TxOp::SnapshotGet { key } => TxOp::SnapshotGet { key: key.copy()? },
            TxOp::Scan { range, limit } => TxOp::Scan {
                range: range.copy()?,
                limit: *limit,
            },
            TxOp::Write(mutation) => TxOp::Write(mutation.copy()?),
        };
        Ok(op)
    }
}

/// The operations of a transaction, in order.
#[derive(Debug, Drop)]
pub struct TxOps {
    ops: Vec<TxOp>,
}

impl Model for TxOps {
    ghost use Rattle.std.specs.Prelude.{List};
    ghost use Rattle.mutations.specs.declared.tx_op.TxOp.{TxOp};

    ghost Value = { List TxOp };

    ghost view = { λ list. list.ops.items };
}

impl TxOps {
    /// The empty list. It takes no memory.
    pub fn new(alloc: Global) -> Self
        ensures { result ≡ [] }
    {
        TxOps {
            ops: Vec::new(alloc),
        }
    }

    /// The same list, with no copy.
    pub fn from_vec(ops: Vec<TxOp>) -> Self
        ensures { result ≡ ops.items }
    {
        TxOps { ops }
    }

    /// The same list, with no copy.
    pub fn into_vec(self) -> Vec<TxOp>
        ensures { result.items ≡ self }
    {
        let TxOps { ops } = self;
        ops
    }

    pub fn as_slice(&self) -> &[TxOp]
        ensures { result.now ≡ self.now }
    {
        &self.ops
    }

    pub fn len(&self) -> usize
        ensures { result ≡ length self.now }
    {
        self.ops.len()
    }

    pub fn is_empty(&self) -> bool
        ensures { IsTrue result ↔ (self.now ≡ []) }
    {
        self.ops.is_empty()
    }

    /// Adds an op at the end. Without memory it is let go.
    pub fn push(&mut self, op: TxOp) -> Result<(), AllocError>
        ensures ok { OnOk result (self.new ≡ self.old ++ op ∷ []) }
        ensures err { OnErr result (self.new ≡ self.old) }
    {
        self.ops.push(op)?;
        Ok(())
    }

    /// Gives memory back that no operation stands in.
    pub fn shrink_to_fit(&mut self)
        ensures { self.new ≡ self.old }
    {
        self.ops.shrink_to_fit();
    }

    /// An equal list with memory of its own.
    pub fn copy(&self) -> Result<Self, AllocError>
        ensures { IfOk result (λ ops. ops ≡ self.now) }
    {
        let mut ops = Vec::with_capacity(*self.ops.allocator(), self.ops.len())?;
        for op in &self.ops {
            let op = op.copy()?;
            ops.push(op)?;
        }
        Ok(TxOps { ops })
    }
}

impl TxOps {
    ghost use Rattle.std.specs.Prelude.{false};
    ghost use Rattle.mutations.specs.Transactions.{writes_of};

    /// Whether one of the operations writes. It takes no memory.
    pub fn has_writes(&self) -> bool
        ensures some { IsTrue result → writes_of self.now ≢ [] }
        ensures none { result ≡ false → writes_of self.now ≡ [] }
    {
        for op in &self.ops {
            if let TxOp::Write(_) = op {
                return true;
            }
        }
        false
    }

    /// The writes, in order, with memory of their own.
    pub fn writes(&self, alloc: Global) -> Result<Seq<Mutation>, AllocError>
        ensures { IfOk result (λ muts. muts ≡ writes_of self.now) }
    {
        let mut writes = Vec::with_capacity(alloc, self.ops.len())?;
        for op in &self.ops {
            if let TxOp::Write(mutation) = op {
                let mutation = mutation.copy()?;
                writes.push(mutation)?;
            }
        }
        writes.shrink_to_fit();
        Ok(Seq::from_vec(writes))
    }
}

impl TryCopy for TxOps {
    fn copy(&self) -> Result<Self, AllocError> {
        TxOps::copy(self)
    }
}
