ghost use Rattle.std.specs.Prelude.{◌≡◌, IfOk, true};
ghost use Rattle.std.specs.List.{list_all};
ghost use Rattle.workload_text.specs.inner.Ready.{is_small};
ghost use Rattle.workload_text.specs.Settings as spec;

use crate::{AgentDeath, AgentStall};
use fb_bytes::is_same;
use std::alloc::{AllocError, Global};

/// A setting that is one number.
#[derive(Clone, Copy, Debug, PartialEq, Eq)]
pub enum SettingKind {
    /// The size of a block in bytes.
    Block,
    /// How many versions each commit takes.
    Pace,
    /// For how many versions a task is leased.
    Lease,
    /// For how many versions a dispatch of logs sleeps.
    Rest,
    /// How many keys a piece has.
    Shard,
    /// How many versions a task of logs has.
    Span,
    /// How often a transaction is tried.
    Tries,
    /// How many agents there are.
    Agents,
    /// How many turns an agent or the operator has in a run.
    Steps,
}

/// A setting, as its line says it.
#[derive(Clone, Copy, Debug, PartialEq, Eq)]
pub enum Setting {
    Number { kind: SettingKind, n: u64 },
    /// In a run the agent ends after this turn.
    Death { agent: u64, turn: u64 },
    /// In a run the agent makes so many turns without a step after this turn.
    Stall { agent: u64, turn: u64, turns: u64 },
}

impl SettingKind {
    /// The word that begins the setting's line in a workload.
    pub fn word(self) -> &'static str
        ensures { result.now ≡ spec.setting_word self }
    {
        match self {
            SettingKind::Block => "block",
            SettingKind::Pace => "pace",
            SettingKind::Lease => "lease",
            SettingKind::Rest => "rest",
            SettingKind::Shard => "shard",
            SettingKind::Span => "span",
            SettingKind::Tries => "tries",
            SettingKind::Agents => "agents",
            SettingKind::Steps => "steps",
        }
    }
}

/// The setting of a word, if the word is one's.
pub fn setting_of_word(word: &[u8]) -> Option<SettingKind>
    ensures { result ≡ spec.setting_of_word word.now }
{
    if is_same(b"block", word) {
        return Some(SettingKind::Block);
    }
    if is_same(b"pace", word) {
        return Some(SettingKind::Pace);
    }
    if is_same(b"lease", word) {
        return Some(SettingKind::Lease);
    }
    if is_same(b"rest", word) {
        return Some(SettingKind::Rest);
    }
    if is_same(b"shard", word) {
        return Some(SettingKind::Shard);
    }
    if is_same(b"span", word) {
        return Some(SettingKind::Span);
    }
    if is_same(b"tries", word) {
        return Some(SettingKind::Tries);
    }
    if is_same(b"agents", word) {
        return Some(SettingKind::Agents);
    }
    if is_same(b"steps", word) {
        return Some(SettingKind::Steps);
    }
    None
}

/// Whether the number may be set.
pub fn is_allowed(kind: SettingKind, n: u64) -> bool
    ensures { result ≡ spec.is_allowed kind n }
{
    match kind {
        SettingKind::Block => matches!(n, 256 | 4_096 | 262_144 | 1_048_576),
        SettingKind::Pace => is_up_to(1_000_000_000, n),
        SettingKind::Lease | SettingKind::Rest | SettingKind::Span => {
            is_up_to(1_000_000_000_000, n)
        }
        SettingKind::Shard | SettingKind::Steps => is_up_to(1_000_000, n),
        SettingKind::Tries => is_up_to(1_000, n),
        SettingKind::Agents => is_up_to(64, n),
    }
}

fn is_up_to(most: u64, n: u64) -> bool
    ensures { result ≡ spec.is_up_to most n }
{
    1 <= n && n <= most
}

/// The number that holds where the setting doesn't come.
fn default_of(kind: SettingKind) -> u64
    ensures { result ≡ spec.default_of kind }
{
    match kind {
        SettingKind::Block => 1_048_576,
        SettingKind::Pace => 1_000,
        SettingKind::Lease => 60_000_000,
        SettingKind::Rest => 20_000_000,
        SettingKind::Shard => 1_000,
        SettingKind::Span => 1_000_000_000_000,
        SettingKind::Tries => 100,
        SettingKind::Agents => 2,
        SettingKind::Steps => 10_000,
    }
}

fn is_same_kind(a: SettingKind, b: SettingKind) -> bool
    ensures { result ≡ spec.is_same_kind a b }
{
    is_same(a.word().as_bytes(), b.word().as_bytes())
}

/// The number that the setting sets, if it is of that kind.
fn set_to(kind: SettingKind, setting: &Setting) -> Option<u64>
    ensures { result ≡ spec.set_to kind setting.now }
{
    match setting {
        Setting::Number { kind: other, n } => {
            if is_same_kind(kind, *other) {
                Some(*n)
            } else {
                None
            }
        }
        _ => None,
    }
}

fn number_in(kind: SettingKind, settings: &[Setting]) -> Option<u64>
    ensures { result ≡ spec.number_in kind settings.now }
{
    for setting in settings {
        let Some(n) = set_to(kind, setting) else {
            continue;
        };
        return Some(n);
    }
    None
}

/// The number that holds: what is set, or the default.
pub fn number_for(kind: SettingKind, settings: &[Setting]) -> u64
    ensures { result ≡ spec.number_for kind settings.now }
{
    match number_in(kind, settings) {
        Some(n) => n,
        None => default_of(kind),
    }
}

/// Whether the two may not both come.
fn repeats(setting: &Setting, first: &Setting) -> bool
    ensures { result ≡ spec.repeats setting.now first.now }
{
    match (*setting, *first) {
        (Setting::Number { kind, .. }, Setting::Number { kind: other, .. }) => {
            is_same_kind(kind, other)
        }
        (Setting::Death { agent, .. }, Setting::Death { agent: other, .. }) => agent == other,
        (Setting::Stall { agent, .. }, Setting::Stall { agent: other, .. }) => agent == other,
        _ => false,
    }
}

/// Whether the setting comes again.
pub fn comes_in(setting: &Setting, settings: &[Setting]) -> bool
    ensures { result ≡ spec.comes_in setting.now settings.now }
{
    settings.iter().any(|first| repeats(setting, first))
}

/// Whether its agent is there, by the settings before it.
pub fn has_agent(before: &[Setting], setting: &Setting) -> bool
    ensures { result ≡ spec.has_agent before.now setting.now }
{
    match setting {
        Setting::Number { .. } => true,
        Setting::Death { agent, .. } | Setting::Stall { agent, .. } => {
            *agent <= number_for(SettingKind::Agents, before)
        }
    }
}

/// The deaths among the settings, in their order.
pub fn deaths_in(alloc: Global, settings: &[Setting]) -> Result<Vec<AgentDeath>, AllocError>
    requires { list_all is_small settings.now ≡ true }
    ensures { IfOk result (λ deaths. deaths.items ≡ spec.deaths_in settings.now) }
{
    let mut deaths = Vec::new(alloc);
    for setting in settings {
        let Setting::Death { agent, turn } = *setting else {
            continue;
        };
        let agent = agent as u32;
        deaths.push(AgentDeath { agent, turn })?;
    }
    Ok(deaths)
}

/// The stalls among the settings, in their order.
pub fn stalls_in(alloc: Global, settings: &[Setting]) -> Result<Vec<AgentStall>, AllocError>
    requires { list_all is_small settings.now ≡ true }
    ensures { IfOk result (λ stalls. stalls.items ≡ spec.stalls_in settings.now) }
{
    let mut stalls = Vec::new(alloc);
    for setting in settings {
        let Setting::Stall { agent, turn, turns } = *setting else {
            continue;
        };
        let agent = agent as u32;
        stalls.push(AgentStall { agent, turn, turns })?;
    }
    Ok(stalls)
}
