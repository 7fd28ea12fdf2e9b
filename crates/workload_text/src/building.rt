//! What the lines of a text say, built.

ghost use Rattle.std.specs.Prelude.{◌≡◌, IfOk};
ghost use Rattle.workload_text.specs.Settings.{set_by};
ghost use Rattle.workload_text.specs.Grammar.{what, built_of, whole_of, numbers_of};
ghost use Rattle.workload_text.specs.inner.Ready.{AreReady, IsReady, IsWhole};
ghost use Rattle.workload_text.specs.inner.Seen.{sofar};

use crate::reader::Reader;
use crate::setting::{deaths_in, number_for, stalls_in};
use crate::{Setting, SettingKind, Settings, Workload};
use fb_bytes::SharedSeq;
use std::alloc::{AllocError, Global};

/// What all lines say.
pub fn workload_of(alloc: Global, mut reader: Reader) -> Result<Workload, AllocError>
    requires { IsReady (sofar reader) }
    ensures { IfOk result (λ workload. what workload ≡ built_of (sofar reader)) }
{
    reader.close(alloc)?;
    whole(alloc, reader)
}

fn whole(alloc: Global, reader: Reader) -> Result<Workload, AllocError>
    requires { IsWhole (sofar reader) }
    ensures { IfOk result (λ workload. what workload ≡ whole_of (sofar reader)) }
{
    let settings = settings_of(alloc, reader.settings.as_slice())?;
    let Reader {
        clients,
        operator,
        schedule,
        ..
    } = reader;
    let operator = SharedSeq::from_vec(operator.into_vec())?;
    let schedule = SharedSeq::from_vec(schedule.into_vec())?;
    Ok(Workload {
        settings,
        clients,
        operator,
        schedule,
    })
}

fn settings_of(alloc: Global, settings: &[Setting]) -> Result<Settings, AllocError>
    requires { AreReady settings.now }
    ensures { IfOk result (λ s. numbers_of s ≡ set_by settings.now) }
{
    let deaths = SharedSeq::from_vec(deaths_in(alloc, settings)?)?;
    let stalls = SharedSeq::from_vec(stalls_in(alloc, settings)?)?;
    Ok(Settings {
        block: number_for(SettingKind::Block, settings) as u32,
        pace: number_for(SettingKind::Pace, settings),
        lease: number_for(SettingKind::Lease, settings),
        rest: number_for(SettingKind::Rest, settings),
        shard: number_for(SettingKind::Shard, settings),
        span: number_for(SettingKind::Span, settings),
        tries: number_for(SettingKind::Tries, settings) as u32,
        agents: number_for(SettingKind::Agents, settings) as u32,
        steps: number_for(SettingKind::Steps, settings),
        deaths,
        stalls,
    })
}
