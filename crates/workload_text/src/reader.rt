ghost use Rattle.std.specs.Prelude.{◌≡◌, ◌≤◌, true, [], IfOk, OnOk, nat_le};
ghost use Rattle.fb_bytes.specs.Results.{GivesBut};
ghost use Rattle.workload_text.specs.declared.line_fault.LineFault.TheVariants.{NoMemory};
ghost use Rattle.workload_text.specs.declared.line.Line.TheVariants as lines;
ghost use Rattle.workload_text.specs.Texts.{words_of};
ghost use Rattle.workload_text.specs.Sofar as spec;
ghost use Rattle.workload_text.specs.inner.Ready.{IsReady};
ghost use Rattle.workload_text.specs.inner.Seen.{sofar};

use crate::keyword::Keyword;
use crate::line::{Line, said};
use crate::line_fault::LineFault;
use crate::numbers::{is_decimal, value_of};
use crate::part::Part;
use crate::pieces::first_word;
use crate::schedule::event_with;
use crate::setting::{comes_in, has_agent, number_for};
use crate::{ClientScript, Command, EventKind, ScheduleLine, Setting, SettingKind, Side, TextKind};
use fb_bytes::{Seq, SharedSeq};
use mutations::{TxOp, TxOps};
use std::alloc::{AllocError, Global};
use std::mem;

const MOST_CLIENTS: usize = 64;

const MOST_TXNS: usize = 100_000;

const MOST_OPS: usize = 10_000;

const MOST_COMMANDS: usize = 1_000;

const MOST_EVENTS: usize = 1_000_000;

/// What the lines so far say.
#[derive(Debug, Drop)]
pub struct Reader {
    pub part: Part,
    pub settings: Seq<Setting>,
    /// The clients that are complete.
    pub clients: Seq<ClientScript>,
    /// The database of the client that may go on.
    pub side: Side,
    /// Its complete transactions.
    pub txns: Seq<TxOps>,
    /// The operations of the transaction that may go on.
    pub ops: TxOps,
    pub operator: Seq<Command>,
    pub schedule: Seq<ScheduleLine>,
}

impl Reader {
    pub fn new(alloc: Global) -> Self
        ensures { sofar result ≡ spec.at_start }
    {
        Reader {
            part: Part::Settings,
            settings: Seq::new(alloc),
            clients: Seq::new(alloc),
            side: Side::Src,
            txns: Seq::new(alloc),
            ops: TxOps::new(alloc),
            operator: Seq::new(alloc),
            schedule: Seq::new(alloc),
        }
    }

    /// Takes a line of that first word. After an `Err` the reader is of no use.
    pub fn take_keyword(
        &mut self,
        alloc: Global,
        run: bool,
        keyword: Keyword,
        words: &[u8],
    ) -> Result<(), LineFault>
        requires { IsReady (sofar self.old) }
        ensures { GivesBut NoMemory (λ _. sofar self.new) result
            (spec.with_keyword run (sofar self.old) keyword (words_of words.now)) }
    {
        if !self.part.stands(keyword) || !self.is_next(keyword, words) {
            return Err(LineFault::Refused(TextKind::Place));
        }
        if is_scheduled(run, keyword) {
            return Err(LineFault::Refused(TextKind::Schedule));
        }
        let line = said(alloc, self.settings.as_slice(), keyword, words)?;
        self.take(alloc, line)
    }

    /// How many clients there are, with the one that may go on.
    fn clients_in(&self) -> usize
        requires { IsReady (sofar self.now) }
        ensures { result ≡ spec.clients_in (sofar self.now) }
    {
        if self.part.in_client() {
            self.clients.len() + 1
        } else {
            self.clients.len()
        }
    }

    /// Whether a client's number, where its line has one, is the next.
    fn is_next(&self, keyword: Keyword, words: &[u8]) -> bool
        requires { IsReady (sofar self.now) }
        ensures { result ≡ spec.is_next (sofar self.now) keyword (words_of words.now) }
    {
        match keyword {
            Keyword::Client => is_first_no_other(self.clients_in() as u64 + 1, words),
            _ => true,
        }
    }

    fn take(&mut self, alloc: Global, line: Line) -> Result<(), LineFault>
        requires { IsReady (sofar self.old) }
        ensures { GivesBut NoMemory (λ _. sofar self.new) result
            (spec.with_line (sofar self.old) line) }
    {
        match line {
            Line::Setting(setting) => self.take_setting(setting),
            Line::Client(side) => self.take_client(alloc, side),
            Line::Txn => self.take_txn(alloc),
            Line::Op(op) => self.take_op(op),
            Line::Operator => self.take_part(alloc, Part::Operator),
            Line::Order(command) => self.take_command(command),
            Line::Schedule => self.take_part(alloc, Part::Schedule),
            Line::Event { kind, n, m } => self.take_event(kind, n, m),
        }
    }

    fn take_setting(&mut self, setting: Setting) -> Result<(), LineFault>
        ensures { GivesBut NoMemory (λ _. sofar self.new) result
            (spec.with_line (sofar self.old) (lines.Setting setting)) }
    {
        if comes_in(&setting, self.settings.as_slice()) {
            return Err(LineFault::Refused(TextKind::Repeat));
        }
        if !has_agent(self.settings.as_slice(), &setting) {
            return Err(LineFault::Refused(TextKind::Nobody));
        }
        self.settings.push(setting)?;
        Ok(())
    }

    fn take_client(&mut self, alloc: Global, side: Side) -> Result<(), LineFault>
        requires { IsReady (sofar self.old) }
        ensures { GivesBut NoMemory (λ _. sofar self.new) result
            (spec.with_line (sofar self.old) (lines.Client side)) }
    {
        if self.clients_in() >= MOST_CLIENTS {
            return Err(LineFault::Refused(TextKind::Many));
        }
        self.close(alloc)?;
        self.part = Part::Client;
        self.side = side;
        Ok(())
    }

    fn take_txn(&mut self, alloc: Global) -> Result<(), LineFault>
        ensures { GivesBut NoMemory (λ _. sofar self.new) result
            (spec.with_line (sofar self.old) lines.Txn) }
    {
        self.close_txn(alloc)?;
        if self.txns.len() >= MOST_TXNS {
            return Err(LineFault::Refused(TextKind::Many));
        }
        self.part = Part::Reads;
        Ok(())
    }

    fn take_op(&mut self, op: TxOp) -> Result<(), LineFault>
        ensures { GivesBut NoMemory (λ _. sofar self.new) result
            (spec.with_line (sofar self.old) (lines.Op op)) }
    {
        if self.ops.len() >= MOST_OPS {
            return Err(LineFault::Refused(TextKind::Many));
        }
        self.part = part_behind(&op);
        self.ops.push(op)?;
        Ok(())
    }

    fn take_part(&mut self, alloc: Global, part: Part) -> Result<(), LineFault>
        requires { IsReady (sofar self.old) }
        ensures { GivesBut NoMemory (λ _. sofar self.new) result
            (spec.in_part part (sofar self.old)) }
    {
        self.close(alloc)?;
        self.part = part;
        Ok(())
    }

    fn take_command(&mut self, command: Command) -> Result<(), LineFault>
        ensures { GivesBut NoMemory (λ _. sofar self.new) result
            (spec.with_line (sofar self.old) (lines.Order command)) }
    {
        if self.operator.len() >= MOST_COMMANDS {
            return Err(LineFault::Refused(TextKind::Many));
        }
        self.operator.push(command)?;
        Ok(())
    }

    fn take_event(&mut self, kind: EventKind, n: u64, m: u64) -> Result<(), LineFault>
        requires { IsReady (sofar self.old) }
        ensures { GivesBut NoMemory (λ _. sofar self.new) result
            (spec.with_line (sofar self.old) (lines.Event kind n m)) }
    {
        if self.schedule.len() >= MOST_EVENTS {
            return Err(LineFault::Refused(TextKind::Many));
        }
        if !self.is_there(kind, n) {
            return Err(LineFault::Refused(TextKind::Nobody));
        }
        let event = event_with(kind, n, m);
        self.schedule.push(event)?;
        Ok(())
    }

    /// Whether an event's client or agent is there.
    fn is_there(&self, kind: EventKind, n: u64) -> bool
        ensures { result ≡ spec.is_there (sofar self.now) kind n }
    {
        match kind {
            EventKind::Begin | EventKind::Commit => 1 <= n && n <= self.clients.len() as u64,
            EventKind::Tick | EventKind::Op | EventKind::Drain => true,
            _ => n <= number_for(SettingKind::Agents, self.settings.as_slice()),
        }
    }

    /// Keeps the transaction and the client that might have gone on.
    pub fn close(&mut self, alloc: Global) -> Result<(), AllocError>
        requires { IsReady (sofar self.old) }
        ensures { OnOk result (sofar self.new ≡ spec.closed (sofar self.old)) }
    {
        self.close_txn(alloc)?;
        self.close_client(alloc)
    }

    /// Keeps the transaction that might have gone on, if there is one.
    fn close_txn(&mut self, alloc: Global) -> Result<(), AllocError>
        ensures { OnOk result (sofar self.new ≡ spec.with_txn (sofar self.old)) }
    {
        if !self.part.in_txn() {
            return Ok(());
        }
        let ops = self.take_ops(alloc)?;
        self.txns.push(ops)?;
        self.part = Part::Client;
        Ok(())
    }

    /// Keeps the client that might have gone on, if there is one.
    fn close_client(&mut self, alloc: Global) -> Result<(), AllocError>
        requires { nat_le (spec.clients_in (sofar self.old)) 64 ≡ true }
        ensures { OnOk result (sofar self.new ≡ spec.with_client (sofar self.old)) }
    {
        if !self.part.in_client() {
            return Ok(());
        }
        let txns = mem::replace(&mut self.txns, Seq::new(alloc));
        let txns = SharedSeq::from_vec(txns.into_vec())?;
        let number = self.clients.len() as u32 + 1;
        let side = self.side;
        self.clients.push(ClientScript { number, side, txns })?;
        self.part = Part::Settings;
        Ok(())
    }

    /// Takes the operations out, into memory of just their size. What they stood in stays for the next
    /// transaction.
    fn take_ops(&mut self, alloc: Global) -> Result<TxOps, AllocError>
        ensures taken { IfOk result (λ ops. ops ≡ self.old.ops) }
        ensures left { OnOk result (self.new ≡ record self.old { ops = [] }) }
    {
        let mut list = mem::replace(&mut self.ops, TxOps::new(alloc)).into_vec();
        let mut ops = Vec::with_capacity(alloc, list.len())?;
        ops.append(&mut list)?;
        self.ops = TxOps::from_vec(list);
        Ok(TxOps::from_vec(ops))
    }
}

fn part_behind(op: &TxOp) -> Part
    ensures { result ≡ spec.part_behind op.now }
{
    match op {
        TxOp::Write(_) => Part::Writes,
        _ => Part::Reads,
    }
}

fn is_scheduled(run: bool, keyword: Keyword) -> bool
    ensures { result ≡ spec.is_scheduled run keyword }
{
    match keyword {
        Keyword::Schedule => run,
        _ => false,
    }
}

/// Whether the first word, where there is one, is this number or none.
fn is_first_no_other(n: u64, words: &[u8]) -> bool
    requires { n ≤ 65 }
    ensures { result ≡ spec.is_first_no_other n (words_of words.now) }
{
    match first_word(words) {
        Some((word, _)) => is_no_other(n, word),
        None => true,
    }
}

/// Whether the word is this number or none.
fn is_no_other(n: u64, word: &[u8]) -> bool
    requires { n ≤ 65 }
    ensures { result ≡ spec.is_no_other n word.now }
{
    !is_decimal(word) || is_value(n, value_of(word))
}

/// Whether the number is there and this one.
fn is_value(n: u64, value: Option<u64>) -> bool
    ensures { result ≡ spec.is_value n value }
{
    match value {
        Some(value) => value == n,
        None => false,
    }
}
